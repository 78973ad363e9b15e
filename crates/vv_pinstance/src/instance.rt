//! Instances of components and entities.

ghost use Rattle.std.specs.Prelude.{◌≡◌, IfOk};
ghost use Rattle.vv_nodes.specs.Nodes.{node_tree};
ghost use Rattle.vv_tree.specs.View as v;

use bumpalo::Bump;
use bumpalo::collections::into_bump_slice;
use std::alloc::Global;
use vv_base::fault::Memory;
use vv_grammar::form::Form;
use vv_leaves::leaf::{ident, optional_ident};
use vv_nodes::node::Node;
use vv_pexpr::expression::expr;
use vv_psubtype::subtype::mark;
use vv_tree::concurrent::{Actual, Association, ConcKind, InstanceUnit};

/// What an instance is of.
fn instance_unit<'a>(arena: &'a Bump<Global>, node: Node<'_>) -> Result<InstanceUnit<'a>, Memory>
    ensures { IfOk result (λ unit. v.instance_tree unit ≡ node_tree node.entry) }
{
    if let Some(Form::EntityInstance) = node.form() {
        let (name, architecture, span) = node.two(Form::EntityInstance)?;
        return Ok(InstanceUnit::Entity {
            mark: mark(arena, name)?,
            architecture: optional_ident(architecture)?,
            span,
        });
    }
    Ok(InstanceUnit::Component(mark(arena, node)?))
}

/// What is associated with a formal.
fn actual<'a>(arena: &'a Bump<Global>, node: Node<'_>) -> Result<Actual<'a>, Memory>
    ensures { IfOk result (λ actual. v.actual_tree actual ≡ node_tree node.entry) }
{
    if let Some(Form::Open) = node.form() {
        return Ok(Actual::Open(node.none(Form::Open)?));
    }
    Ok(Actual::Given(expr(arena, node)?))
}

/// An association of a generic or a port.
fn association<'a>(arena: &'a Bump<Global>, node: Node<'_>) -> Result<Association<'a>, Memory>
    ensures { IfOk result (λ association. v.association_tree association ≡ node_tree node.entry) }
{
    if let Some(Form::NamedAssociation) = node.form() {
        let (formal, value, span) = node.two(Form::NamedAssociation)?;
        return Ok(Association::Named {
            formal: ident(formal)?,
            actual: actual(arena, value)?,
            span,
        });
    }
    Ok(Association::Positional(actual(arena, node)?))
}

/// Associations of generics or ports.
fn associations<'a>(
    arena: &'a Bump<Global>,
    node: Node<'_>,
) -> Result<&'a [Association<'a>], Memory>
    ensures { IfOk result (λ associations. v.trees_of v.association_tree associations.now ≡ node_tree node.entry) }
{
    let nodes = node.items()?;
    let mut all = Vec::with_capacity(arena, nodes.len())?;
    for each in nodes {
        all.push(association(arena, *each)?)?;
    }
    Ok(into_bump_slice(all))
}

/// An instance.
pub fn instance<'a>(arena: &'a Bump<Global>, node: Node<'_>) -> Result<ConcKind<'a>, Memory>
    ensures { IfOk result (λ kind. v.conc_kind_tree kind ≡ node_tree node.entry) }
{
    let (unit, generics, ports, span) = node.three(Form::Instance)?;
    Ok(ConcKind::Instance {
        unit: instance_unit(arena, unit)?,
        generics: associations(arena, generics)?,
        ports: associations(arena, ports)?,
        span,
    })
}
