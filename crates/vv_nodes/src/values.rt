//! The values from which forms take their parts.

ghost use Rattle.std.specs.Prelude.{◌≡◌, ◌∷◌, [], IfOk, OnOk, MatchBool};
ghost use Rattle.vv_grammar.specs.Trees as t;
ghost use Rattle.vv_nodes.specs.Nodes.{node_tree, nodes_trees, stack, value_tree};

use crate::node::{Node, NodeKind};
use bumpalo::Bump;
use bumpalo::collections::into_bump_slice;
use std::alloc::Global;
use vv_base::fault::{Memory, cannot_come};

/// A tree, or a list that still grows.
#[derive(Drop)]
pub enum Value<'a> {
    One(Node<'a>),
    Many(Vec<Node<'a>>),
}

/// The values that were made so far.
#[derive(Drop)]
pub struct Values<'a> {
    pub alloc: Global,
    values: Vec<Value<'a>>,
}

/// There are fewer values than a form wants, or one of another kind, which no reading leads to.
pub fn misfit() -> Memory {
    cannot_come()
}

#[tactic(auto, using(crate::proofs::Stacks::newest_push))]
impl<'a> Values<'a> {
    /// No values, which takes no memory.
    pub fn new(alloc: Global) -> Values<'a>
        ensures { stack result ≡ [] }
    {
        Values {
            alloc,
            values: Vec::new(alloc),
        }
    }

    /// Puts a value on the others.
    pub fn push(&mut self, value: Value<'a>) -> Result<(), Memory>
        ensures { OnOk result (stack self.new ≡ value_tree value.entry ∷ stack self.old) }
    {
        self.values.push(value)?;
        Ok(())
    }

    /// Takes the newest value.
    pub fn pop(&mut self) -> Result<Value<'a>, Memory>
        ensures { IfOk result (λ value. stack self.old ≡ value_tree value ∷ stack self.new) }
    {
        match self.values.pop() {
            Some(value) => Ok(value),
            None => Err(misfit()),
        }
    }

    /// Whether there are none.
    pub fn is_empty(&self) -> bool
        ensures { MatchBool result (stack self.now ≡ []) (Prim.Unit {0}) }
    {
        self.values.is_empty()
    }

    /// Takes the newest value as a tree.
    pub fn pop_node(&mut self, arena: &'a Bump<Global>) -> Result<Node<'a>, Memory>
        ensures { IfOk result (λ node. stack self.old ≡ node_tree node ∷ stack self.new) }
    {
        match self.pop()? {
            Value::One(node) => Ok(node),
            Value::Many(nodes) => list(arena, nodes.as_slice()),
        }
    }
}

/// A list in the arena.
fn list<'a>(arena: &'a Bump<Global>, nodes: &[Node<'a>]) -> Result<Node<'a>, Memory>
    ensures { IfOk result (λ node. node_tree node ≡ t.list (nodes_trees nodes.now)) }
{
    let mut kept = Vec::with_capacity(arena, nodes.len())?;
    for node in nodes {
        kept.push(*node)?;
    }
    NodeKind::List(into_bump_slice(kept)).keep(arena)
}
