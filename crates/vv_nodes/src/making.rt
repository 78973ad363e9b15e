//! What a form makes of the newest values.

ghost use Rattle.std.specs.Prelude.{◌≡◌, ◌++◌, IfOk, OnOk, length, map, reverse};
ghost use Rattle.vv_grammar.specs.Trees as t;
ghost use Rattle.vv_grammar.specs.declared.shape.Shape.TheVariants as shape;
ghost use Rattle.vv_nodes.specs.Nodes.{node_tree, nodes_trees, stack};

use crate::node::{Node, NodeKind};
use crate::values::{Value, Values, misfit};
use bumpalo::Bump;
use bumpalo::collections::into_bump_slice;
use std::alloc::Global;
use vv_base::fault::{Memory, Span};
use vv_grammar::form::Form;
use vv_grammar::shape::Shape;

/// From an offset to the end of the token that was read last.
fn up_to(last: Span, at: u32) -> Result<Span, Memory>
    ensures { IfOk result (λ s. s ≡ t.up_to last at) }
{
    let end = last.at as u64 + last.len as u64;
    match u32::try_from(end.saturating_sub(at as u64)) {
        Ok(len) => Ok(Span {
            file: last.file,
            at,
            len,
        }),
        Err(_) => Err(misfit()),
    }
}

/// Where a part starts, and at this offset where it has no place. A list starts where its first part does.
fn start_of(node: Node<'_>, otherwise: u32) -> Result<u32, Memory>
    ensures { IfOk result (λ at. at ≡ t.start (node_tree node.entry) otherwise) }
{
    match node.kind() {
        NodeKind::Leaf(token) => Ok(token.span.at),
        NodeKind::Made { span, .. } => Ok(span.at),
        NodeKind::Absent => Ok(otherwise),
        NodeKind::List([]) => Ok(otherwise),
        NodeKind::List([first, ..]) => match first.kind() {
            NodeKind::Leaf(token) => Ok(token.span.at),
            NodeKind::Made { span, .. } => Ok(span.at),
            NodeKind::Absent => Err(misfit()),
            NodeKind::List(_) => Err(misfit()),
        },
    }
}

/// Where the first of these starts, and at this offset where none has a place.
fn first_start(nodes: &[Node<'_>], otherwise: u32) -> Result<u32, Memory>
    ensures { IfOk result (λ at. at ≡ t.starts (nodes_trees nodes.now) otherwise) }
{
    let mut at = otherwise;
    for i in (0..nodes.len()).rev() {
        at = start_of(nodes[i], at)?;
    }
    Ok(at)
}

/// These in the arena, the last one first.
fn in_order<'a>(arena: &'a Bump<Global>, newest: &[Node<'a>]) -> Result<&'a [Node<'a>], Memory>
    ensures { IfOk result (λ parts. parts.now ≡ reverse newest.now) }
{
    let mut parts = Vec::with_capacity(arena, newest.len())?;
    for node in newest {
        parts.push(*node)?;
    }
    parts.reverse();
    Ok(into_bump_slice(parts))
}

impl<'a> Values<'a> {
    /// The list below the newest value with that value behind its others.
    #[tactic(auto, using(crate::proofs::Stacks::nodes_push))]
    fn add(&mut self, arena: &'a Bump<Global>, form: Form, last: Span) -> Result<(), Memory>
        ensures { OnOk result (stack self.new ≡ t.by_shape shape.Add form last (stack self.old)) }
    {
        let node = self.pop_node(arena)?;
        match self.pop()? {
            Value::Many(mut nodes) => {
                nodes.push(node)?;
                self.push(Value::Many(nodes))
            }
            Value::One(_) => Err(misfit()),
        }
    }

    /// The newest value as a list.
    fn one(&mut self, arena: &'a Bump<Global>, form: Form, last: Span) -> Result<(), Memory>
        ensures { OnOk result (stack self.new ≡ t.by_shape shape.One form last (stack self.old)) }
    {
        let node = self.pop_node(arena)?;
        let mut nodes = Vec::new(self.alloc);
        nodes.push(node)?;
        self.push(Value::Many(nodes))
    }

    /// Takes so many of the newest values, the newest first.
    #[tactic(auto, using(crate::proofs::Stacks::taken_push))]
    fn take_newest(
        &mut self,
        arena: &'a Bump<Global>,
        count: usize,
    ) -> Result<Vec<Node<'a>>, Memory>
        ensures count { IfOk result (λ newest. length newest.items ≡ count) }
        ensures taken { IfOk result (λ newest. stack self.old ≡ map node_tree newest.items ++ stack self.new) }
    {
        let mut newest = Vec::new(self.alloc);
        'values: for _ in 0..count {
            newest.push(self.pop_node(arena)?)?;
        }
        Ok(newest)
    }

    /// A node of so many of the newest values.
    fn parts(
        &mut self,
        arena: &'a Bump<Global>,
        form: Form,
        last: Span,
        count: usize,
    ) -> Result<(), Memory>
        ensures { OnOk result (stack self.new ≡ t.by_shape (shape.Parts count) form last (stack self.old)) }
    {
        let newest = self.take_newest(arena, count)?;
        let parts = in_order(arena, newest.as_slice())?;
        let span = up_to(last, first_start(parts, last.at)?)?;
        let node = NodeKind::Made { form, parts, span }.keep(arena)?;
        self.push(Value::One(node))
    }

    /// A node of so many of the newest values, which starts where the one before them does.
    fn opened(
        &mut self,
        arena: &'a Bump<Global>,
        form: Form,
        last: Span,
        count: usize,
    ) -> Result<(), Memory>
        ensures { OnOk result (stack self.new ≡ t.by_shape (shape.Opened count) form last (stack self.old)) }
    {
        let newest = self.take_newest(arena, count)?;
        let parts = in_order(arena, newest.as_slice())?;
        let opening = self.pop_node(arena)?;
        let at = start_of(opening, last.at)?;
        let span = up_to(last, at)?;
        let node = NodeKind::Made { form, parts, span }.keep(arena)?;
        self.push(Value::One(node))
    }

    /// A unit without contexts.
    fn bare(&mut self, arena: &'a Bump<Global>, form: Form, last: Span) -> Result<(), Memory>
        ensures { OnOk result (stack self.new ≡ t.by_shape shape.Bare form last (stack self.old)) }
    {
        let unit = self.pop_node(arena)?;
        let at = start_of(unit, last.at)?;
        let span = up_to(last, at)?;
        let contexts = NodeKind::List(in_order(arena, &[])?).keep(arena)?;
        let parts = in_order(arena, &[unit, contexts])?;
        let node = NodeKind::Made {
            form: Form::Unit,
            parts,
            span,
        }
        .keep(arena)?;
        self.push(Value::One(node))
    }

    /// What a form makes of the newest values. The token that was read last ends it.
    pub fn make(&mut self, arena: &'a Bump<Global>, form: Form, last: Span) -> Result<(), Memory>
        ensures { OnOk result (stack self.new ≡ t.make form last (stack self.old)) }
    {
        match form.shape() {
            Shape::Absent => {
                let node = NodeKind::Absent.keep(arena)?;
                self.push(Value::One(node))
            }
            Shape::Empty => self.push(Value::Many(Vec::new(self.alloc))),
            Shape::Add => self.add(arena, form, last),
            Shape::One => self.one(arena, form, last),
            Shape::Same => Ok(()),
            Shape::Bare => self.bare(arena, form, last),
            Shape::Parts(count) => self.parts(arena, form, last, count),
            Shape::Opened(count) => self.opened(arena, form, last, count),
        }
    }
}
