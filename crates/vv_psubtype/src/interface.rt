//! Generics, parameters, ports, and what a function takes and gives.

ghost use Rattle.std.specs.Prelude.{◌≡◌, IfOk};
ghost use Rattle.vv_nodes.specs.Nodes.{node_tree};
ghost use Rattle.vv_tree.specs.View as v;

use crate::subtype::{mark, subtype};
use bumpalo::Bump;
use bumpalo::collections::into_bump_slice;
use std::alloc::Global;
use vv_base::fault::Memory;
use vv_grammar::form::Form;
use vv_leaves::leaf::{designator, ident, idents, keyword, optional_designator, optional_mode};
use vv_nodes::node::Node;
use vv_pexpr::expression::optional_expr;
use vv_tree::declaration::{FunctionSpecification, Interface, SelectedName, UseClause};

/// A generic, a parameter or a port, or several of one subtype.
fn interface<'a>(arena: &'a Bump<Global>, node: Node<'_>) -> Result<Interface<'a>, Memory>
    ensures { IfOk result (λ interface. v.interface_tree interface ≡ node_tree node.entry) }
{
    match node.form() {
        Some(Form::ConstantInterface) => {
            let (identifiers, narrowed, value, span) = node.three(Form::ConstantInterface)?;
            Ok(Interface::Constant {
                identifiers: idents(arena, identifiers)?,
                subtype: subtype(arena, narrowed)?,
                value: optional_expr(arena, value)?,
                span,
            })
        }
        _ => {
            let (identifiers, mode, narrowed, value, span) = node.four(Form::PortInterface)?;
            Ok(Interface::Port {
                identifiers: idents(arena, identifiers)?,
                mode: optional_mode(mode)?,
                subtype: subtype(arena, narrowed)?,
                value: optional_expr(arena, value)?,
                span,
            })
        }
    }
}

/// Generics, parameters or ports.
pub fn interfaces<'a>(
    arena: &'a Bump<Global>,
    node: Node<'_>,
) -> Result<&'a [Interface<'a>], Memory>
    ensures { IfOk result (λ interfaces. v.trees_of v.interface_tree interfaces.now ≡ node_tree node.entry) }
{
    let nodes = node.items()?;
    let mut all = Vec::with_capacity(arena, nodes.len())?;
    for each in nodes {
        all.push(interface(arena, *each)?)?;
    }
    Ok(into_bump_slice(all))
}

/// What a function takes and gives.
pub fn specification<'a>(
    arena: &'a Bump<Global>,
    node: Node<'_>,
) -> Result<FunctionSpecification<'a>, Memory>
    ensures { IfOk result (λ specification. v.specification_tree specification ≡ node_tree node.entry) }
{
    let (word, name, parameters, result, span) = node.four(Form::FunctionSpecification)?;
    Ok(FunctionSpecification {
        keyword: keyword(word)?,
        designator: designator(arena, name)?,
        parameters: interfaces(arena, parameters)?,
        result: mark(arena, result)?,
        span,
    })
}

/// A name of a use clause.
fn selected_name<'a>(arena: &'a Bump<Global>, node: Node<'_>) -> Result<SelectedName<'a>, Memory>
    ensures { IfOk result (λ name. v.selected_tree name ≡ node_tree node.entry) }
{
    let (library, package, suffix, span) = node.three(Form::SelectedName)?;
    Ok(SelectedName {
        library: ident(library)?,
        package: ident(package)?,
        suffix: optional_designator(arena, suffix)?,
        span,
    })
}

/// The names of a use clause.
fn selected_names<'a>(
    arena: &'a Bump<Global>,
    node: Node<'_>,
) -> Result<&'a [SelectedName<'a>], Memory>
    ensures { IfOk result (λ names. v.trees_of v.selected_tree names.now ≡ node_tree node.entry) }
{
    let nodes = node.items()?;
    let mut all = Vec::with_capacity(arena, nodes.len())?;
    for each in nodes {
        all.push(selected_name(arena, *each)?)?;
    }
    Ok(into_bump_slice(all))
}

/// A use clause.
pub fn use_clause<'a>(arena: &'a Bump<Global>, node: Node<'_>) -> Result<UseClause<'a>, Memory>
    ensures { IfOk result (λ clause. v.use_tree clause ≡ node_tree node.entry) }
{
    let (names, span) = node.one(Form::Use)?;
    Ok(UseClause {
        names: selected_names(arena, names)?,
        span,
    })
}
