//! Names in declarations and use clauses.

use crate::checking::{Bodies, Check};
use crate::expressions::{discrete, optional, subtype};
use crate::lookups::{Wanted, ends, mark};
use crate::paths::{designator, of_ident};
use crate::statements::statements;
use vv_base::fault::Rule;
use vv_tree::declaration::{
    ArrayIndex, Decl, DeclKind, FunctionSpecification, Interface, SelectedName, TypeDefinition,
    UseClause,
};
use vv_tree::leaf::{Designator, Ident};
use vv_visible::types::{Found, Path};

#[cycle(declarations)]
pub fn declarations(list: &[Decl<'_>], bodies: Bodies, check: &mut Check<'_, '_>) {
    for decl in list {
        one(*decl, bodies, check);
    }
}

#[cycle(declarations)]
fn one(decl: Decl<'_>, bodies: Bodies, check: &mut Check<'_, '_>) {
    match decl.kind() {
        DeclKind::Type { definition, .. } => definition_of(*definition, bodies, check),
        DeclKind::Subtype {
            subtype: written,
            ..
        } => subtype(*written, bodies, check),
        DeclKind::Constant {
            subtype: written,
            value,
            ..
        }
        | DeclKind::Signal {
            subtype: written,
            value,
            ..
        }
        | DeclKind::Variable {
            subtype: written,
            value,
            ..
        } => {
            subtype(*written, bodies, check);
            optional(*value, bodies, check);
        }
        DeclKind::Function { specification, .. } => {
            specified(*specification, bodies, check);
        }
        DeclKind::FunctionBody {
            specification,
            declarations: inner,
            statements: body,
            end,
            span,
        } => {
            let within = bodies.within(*span);
            specified(*specification, within, check);
            declarations(inner, within, check);
            statements(body, within, check);
            ends(
                designator(specification.designator),
                end_designator(*end),
                check,
            );
        }
        DeclKind::Component {
            identifier,
            generics,
            ports,
            end,
            ..
        } => component(*identifier, generics, ports, *end, bodies, check),
        DeclKind::Attribute { .. } | DeclKind::AttributeSpecification { .. } => {}
        DeclKind::Use(clause) => use_clause(*clause, check),
    }
}

fn end_designator(end: Option<Designator<'_>>) -> Option<Ident> {
    match end {
        Some(end) => designator(end),
        None => None,
    }
}

fn definition_of(definition: TypeDefinition<'_>, bodies: Bodies, check: &mut Check<'_, '_>) {
    if let TypeDefinition::Array { index, element, .. } = definition {
        match index {
            ArrayIndex::Bounded(range) => discrete(range, bodies, check),
            ArrayIndex::Unbounded(written, _) => mark(written, Wanted::Type, check),
        }
        subtype(element, bodies, check);
    }
}

fn component(
    identifier: Ident,
    generics: &[Interface<'_>],
    ports: &[Interface<'_>],
    end: Option<Ident>,
    bodies: Bodies,
    check: &mut Check<'_, '_>,
) {
    if check.library.entity(identifier.name).is_none() {
        check.note(Some(Rule::N4), identifier.span);
    }
    interfaces(generics, bodies, check);
    interfaces(ports, bodies, check);
    ends(Some(identifier), end, check);
}

fn specified(specification: FunctionSpecification<'_>, bodies: Bodies, check: &mut Check<'_, '_>) {
    interfaces(specification.parameters, bodies, check);
    mark(specification.result, Wanted::Type, check);
}

pub fn interfaces(list: &[Interface<'_>], bodies: Bodies, check: &mut Check<'_, '_>) {
    for interface in list {
        match interface {
            Interface::Constant {
                subtype: written,
                value,
                ..
            }
            | Interface::Port {
                subtype: written,
                value,
                ..
            } => {
                subtype(*written, bodies, check);
                optional(*value, bodies, check);
            }
        }
    }
}

pub fn use_clause(clause: UseClause<'_>, check: &mut Check<'_, '_>) {
    for name in clause.names {
        use_name(*name, check);
    }
}

/// A name of a use clause. One that ends with `all` denotes a package.
fn use_name(name: SelectedName<'_>, check: &mut Check<'_, '_>) {
    let scope = check.library.scope_at(name.span.file, name.span.at);
    let (third, all) = match name.suffix {
        None => (None, false),
        Some(suffix) => match designator(suffix) {
            Some(ident) => (Some(ident.name), false),
            None => (None, true),
        },
    };
    let path = Path {
        first: name.library.name,
        second: Some(name.package.name),
        third,
        longer: false,
    };
    let rule = match check.library.find(scope, path) {
        Found::Several(_) if all && !is_package(name, check) => Some(Rule::N6),
        Found::Several(_) => None,
        Found::Clash => Some(Rule::N3),
        Found::Missing => Some(Rule::N4),
        Found::Misplaced => Some(Rule::N6),
        Found::Nothing => Some(nothing(name, scope, check)),
    };
    check.note(rule, name.span);
}

/// Whether the first two identifiers of a name are a library and its package.
fn is_package(name: SelectedName<'_>, check: &Check<'_, '_>) -> bool {
    check
        .library
        .library_package(name.library.name, name.package.name)
        .is_some()
}

/// The rule for a name of a use clause of which nothing is visible: its library is missing, or what it names in a package.
fn nothing(name: SelectedName<'_>, scope: u32, check: &Check<'_, '_>) -> Rule {
    let first = check.library.find(scope, of_ident(name.library));
    match first {
        Found::Nothing if !check.library.is_library(name.library.name) => Rule::N4,
        _ => Rule::N1,
    }
}
