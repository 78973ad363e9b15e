//! Units and their contexts.

ghost use Rattle.std.specs.Prelude.{◌≡◌, IfOk};
ghost use Rattle.vv_nodes.specs.Nodes.{node_tree};
ghost use Rattle.vv_tree.specs.View as v;

use bumpalo::Bump;
use bumpalo::collections::into_bump_slice;
use std::alloc::Global;
use vv_base::fault::Memory;
use vv_grammar::form::Form;
use vv_leaves::leaf::{ident, idents, optional_ident};
use vv_nodes::node::Node;
use vv_pconc::concurrent::concurrents;
use vv_pdecl::declaration::declarations;
use vv_psubtype::interface::{interfaces, use_clause};
use vv_tree::unit::{Context, Unit, UnitKind};

/// A clause of a context.
fn context<'a>(arena: &'a Bump<Global>, node: Node<'_>) -> Result<Context<'a>, Memory>
    ensures { IfOk result (λ context. v.context_tree context ≡ node_tree node.entry) }
{
    if let Some(Form::Library) = node.form() {
        let (identifiers, span) = node.one(Form::Library)?;
        return Ok(Context::Library {
            identifiers: idents(arena, identifiers)?,
            span,
        });
    }
    Ok(Context::Use(use_clause(arena, node)?))
}

/// The clauses of a context.
fn contexts<'a>(arena: &'a Bump<Global>, node: Node<'_>) -> Result<&'a [Context<'a>], Memory>
    ensures { IfOk result (λ contexts. v.trees_of v.context_tree contexts.now ≡ node_tree node.entry) }
{
    let nodes = node.items()?;
    let mut all = Vec::with_capacity(arena, nodes.len())?;
    for each in nodes {
        all.push(context(arena, *each)?)?;
    }
    Ok(into_bump_slice(all))
}

/// An entity or an architecture.
fn design<'a>(arena: &'a Bump<Global>, node: Node<'_>) -> Result<UnitKind<'a>, Memory>
    ensures { IfOk result (λ kind. v.unit_kind_tree kind ≡ node_tree node.entry) }
{
    match node.form() {
        Some(Form::Entity) => {
            let (identifier, generics, ports, end, span) = node.four(Form::Entity)?;
            Ok(UnitKind::Entity {
                identifier: ident(identifier)?,
                generics: interfaces(arena, generics)?,
                ports: interfaces(arena, ports)?,
                end: optional_ident(end)?,
                span,
            })
        }
        _ => {
            let (identifier, entity, inner, list, end, span) = node.five(Form::Architecture)?;
            Ok(UnitKind::Architecture {
                identifier: ident(identifier)?,
                entity: ident(entity)?,
                declarations: declarations(arena, inner)?,
                statements: concurrents(arena, list)?,
                end: optional_ident(end)?,
                span,
            })
        }
    }
}

/// A package or its body.
fn package<'a>(arena: &'a Bump<Global>, node: Node<'_>) -> Result<UnitKind<'a>, Memory>
    ensures { IfOk result (λ kind. v.unit_kind_tree kind ≡ node_tree node.entry) }
{
    match node.form() {
        Some(Form::Package) => {
            let (identifier, inner, end, span) = node.three(Form::Package)?;
            Ok(UnitKind::Package {
                identifier: ident(identifier)?,
                declarations: declarations(arena, inner)?,
                end: optional_ident(end)?,
                span,
            })
        }
        _ => {
            let (identifier, inner, end, span) = node.three(Form::PackageBody)?;
            Ok(UnitKind::PackageBody {
                identifier: ident(identifier)?,
                declarations: declarations(arena, inner)?,
                end: optional_ident(end)?,
                span,
            })
        }
    }
}

/// What a unit declares.
fn unit_kind<'a>(arena: &'a Bump<Global>, node: Node<'_>) -> Result<UnitKind<'a>, Memory>
    ensures { IfOk result (λ kind. v.unit_kind_tree kind ≡ node_tree node.entry) }
{
    match node.form() {
        Some(Form::Package | Form::PackageBody) => package(arena, node),
        _ => design(arena, node),
    }
}

/// A unit with its context.
fn unit<'a>(arena: &'a Bump<Global>, node: Node<'_>) -> Result<Unit<'a>, Memory>
    ensures { IfOk result (λ unit. v.unit_tree unit ≡ node_tree node.entry) }
{
    let (clauses, inner, span) = node.two(Form::Unit)?;
    Ok(Unit {
        contexts: contexts(arena, clauses)?,
        kind: unit_kind(arena, inner)?,
        span,
    })
}

/// Units.
pub fn units<'a>(arena: &'a Bump<Global>, node: Node<'_>) -> Result<&'a [Unit<'a>], Memory>
    ensures { IfOk result (λ units. v.trees_of v.unit_tree units.now ≡ node_tree node.entry) }
{
    let nodes = node.items()?;
    let mut all = Vec::with_capacity(arena, nodes.len())?;
    for each in nodes {
        all.push(unit(arena, *each)?)?;
    }
    Ok(into_bump_slice(all))
}
