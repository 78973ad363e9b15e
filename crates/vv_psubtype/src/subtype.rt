//! Subtypes.

ghost use Rattle.std.specs.Prelude.{◌≡◌, IfOk};
ghost use Rattle.vv_nodes.specs.Nodes.{node_tree};
ghost use Rattle.vv_tree.specs.View as v;

use bumpalo::Bump;
use std::alloc::Global;
use vv_base::fault::Memory;
use vv_grammar::form::Form;
use vv_leaves::leaf::{ident, idents};
use vv_nodes::node::{Node, NodeKind};
use vv_pexpr::expression::range;
use vv_tree::declaration::{Constraint, DiscreteRange, Mark, SubtypeIndication};

/// The mark of a type, a subtype or a unit.
pub fn mark<'a>(arena: &'a Bump<Global>, node: Node<'_>) -> Result<Mark<'a>, Memory>
    ensures { IfOk result (λ mark. v.mark_tree mark ≡ node_tree node.entry) }
{
    let (first, others, span) = node.two(Form::Mark)?;
    Ok(Mark {
        first: ident(first)?,
        others: idents(arena, others)?,
        span,
    })
}

/// A discrete range.
pub fn discrete_range<'a>(
    arena: &'a Bump<Global>,
    node: Node<'_>,
) -> Result<DiscreteRange<'a>, Memory>
    ensures { IfOk result (λ discrete. v.discrete_tree discrete ≡ node_tree node.entry) }
{
    if let Some(Form::MarkRange) = node.form() {
        let (name, bounds, span) = node.two(Form::MarkRange)?;
        return Ok(DiscreteRange::Marked {
            mark: mark(arena, name)?,
            range: range(arena, bounds)?,
            span,
        });
    }
    Ok(DiscreteRange::Range(range(arena, node)?))
}

/// What narrows a type to a subtype.
fn constraint<'a>(arena: &'a Bump<Global>, node: Node<'_>) -> Result<Constraint<'a>, Memory>
    ensures { IfOk result (λ constraint. v.constraint_tree constraint ≡ node_tree node.entry) }
{
    match node.form() {
        Some(Form::IndexConstraint) => {
            let (index, span) = node.one(Form::IndexConstraint)?;
            Ok(Constraint::Index(discrete_range(arena, index)?, span))
        }
        _ => {
            let (bounds, span) = node.one(Form::RangeConstraint)?;
            Ok(Constraint::Range(range(arena, bounds)?, span))
        }
    }
}

/// What narrows a type to a subtype, which may be left out.
fn optional_constraint<'a>(
    arena: &'a Bump<Global>,
    node: Node<'_>,
) -> Result<Option<Constraint<'a>>, Memory>
    ensures { IfOk result (λ constraint. v.tree_or_absent v.constraint_tree constraint ≡ node_tree node.entry) }
{
    match node.kind() {
        NodeKind::Absent => Ok(None),
        _ => Ok(Some(constraint(arena, node)?)),
    }
}

/// A subtype indication.
pub fn subtype<'a>(arena: &'a Bump<Global>, node: Node<'_>) -> Result<SubtypeIndication<'a>, Memory>
    ensures { IfOk result (λ subtype. v.subtype_tree subtype ≡ node_tree node.entry) }
{
    let (name, narrowed, span) = node.two(Form::Subtype)?;
    Ok(SubtypeIndication {
        mark: mark(arena, name)?,
        constraint: optional_constraint(arena, narrowed)?,
        span,
    })
}
