//! The nodes.

ghost use Rattle.std.specs.Prelude.{◌≡◌, IfOk};
ghost use Rattle.vv_nodes.specs.Nodes.{node_tree, kind_tree};

use bumpalo::Bump;
use std::alloc::Global;
use vv_base::fault::{Memory, Span};
use vv_grammar::form::Form;
use vv_vlex::token::Token;

/// A tree in an arena.
#[cycle(nodes)]
#[derive(Clone, Copy)]
pub struct Node<'a> {
    /// What it is.
    pub kind: &'a Box<NodeKind<'a>, &'a Bump<Global>>,
}

/// What a tree is.
#[cycle(nodes)]
#[derive(Clone, Copy)]
pub enum NodeKind<'a> {
    /// A token.
    Leaf(&'a Token),
    /// What a form makes of its parts, and its place.
    Made {
        form: Form,
        parts: &'a [Node<'a>],
        span: Span,
    },
    /// Parts of one kind in their order.
    List(&'a [Node<'a>]),
    /// A part that is left out.
    Absent,
}

impl<'a> Node<'a> {
    /// What it is.
    pub fn kind(self) -> &'a NodeKind<'a>
        ensures tree { kind_tree result.now ≡ node_tree self.entry }
        ensures same { result.now ≡ self.entry.kind.now.value }
    {
        self.kind
    }
}

impl<'a> NodeKind<'a> {
    /// It in the arena.
    pub fn keep(self, arena: &'a Bump<Global>) -> Result<Node<'a>, Memory>
        ensures { IfOk result (λ kept. node_tree kept ≡ kind_tree self.entry) }
    {
        Ok(Node {
            kind: arena.try_alloc(Box::new(arena, self)?)?,
        })
    }
}
