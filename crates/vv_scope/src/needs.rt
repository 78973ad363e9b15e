//! What packages a package needs: those of its use clauses and of the marks that it writes with points.

use crate::builder::Builder;
use vv_base::fault::{Memory, Name, Span};
use vv_tree::declaration::{
    ArrayIndex, Constraint, Decl, DeclKind, DiscreteRange, FunctionSpecification, Interface, Mark,
    SubtypeIndication, TypeDefinition, UseClause,
};
use vv_tree::leaf::Ident;
use vv_tree::unit::Context;
use vv_visible::table::WORK;
use vv_visible::types::library_region;

/// A package of `work` that is needed, by its declaration, and where it is named.
#[derive(Clone, Copy)]
pub struct Need {
    pub package: u32,
    pub span: Span,
}

/// What the context clauses and the declarations of a package need.
pub fn needs(
    contexts: &[Context<'_>],
    declarations: &[Decl<'_>],
    builder: &Builder,
) -> Result<Vec<Need>, Memory> {
    let mut list = Vec::new(builder.alloc());
    for context in contexts {
        if let Context::Use(clause) = context {
            add_clause(*clause, builder, &mut list)?;
        }
    }
    for decl in declarations {
        add_declaration(*decl, builder, &mut list)?;
    }
    Ok(list)
}

/// A package of `work` is named.
fn add(
    library: Name,
    package: Ident,
    span: Span,
    builder: &Builder,
    list: &mut Vec<Need>,
) -> Result<(), Memory> {
    if library_region(&builder.symbols, library) == Some(WORK)
        && let Some(decl) = builder.table.unit(WORK, package.name.0, true)
    {
        list.push(Need {
            package: decl,
            span,
        })?;
    }
    Ok(())
}

fn add_clause(
    clause: UseClause<'_>,
    builder: &Builder,
    list: &mut Vec<Need>,
) -> Result<(), Memory> {
    for name in clause.names {
        add(name.library.name, name.package, name.span, builder, list)?;
    }
    Ok(())
}

fn add_mark(mark: Mark<'_>, builder: &Builder, list: &mut Vec<Need>) -> Result<(), Memory> {
    match mark.others {
        [package, _] => add(mark.first.name, *package, mark.span, builder, list),
        _ => Ok(()),
    }
}

fn add_discrete(
    range: DiscreteRange<'_>,
    builder: &Builder,
    list: &mut Vec<Need>,
) -> Result<(), Memory> {
    match range {
        DiscreteRange::Marked { mark, .. } => add_mark(mark, builder, list),
        DiscreteRange::Range(_) => Ok(()),
    }
}

fn add_subtype(
    subtype: SubtypeIndication<'_>,
    builder: &Builder,
    list: &mut Vec<Need>,
) -> Result<(), Memory> {
    add_mark(subtype.mark, builder, list)?;
    match subtype.constraint {
        Some(Constraint::Index(range, _)) => add_discrete(range, builder, list),
        _ => Ok(()),
    }
}

fn add_interfaces(
    interfaces: &[Interface<'_>],
    builder: &Builder,
    list: &mut Vec<Need>,
) -> Result<(), Memory> {
    for interface in interfaces {
        match interface {
            Interface::Constant { subtype, .. } | Interface::Port { subtype, .. } => {
                add_subtype(*subtype, builder, list)?
            }
        }
    }
    Ok(())
}

fn add_function(
    specification: FunctionSpecification<'_>,
    builder: &Builder,
    list: &mut Vec<Need>,
) -> Result<(), Memory> {
    add_interfaces(specification.parameters, builder, list)?;
    add_mark(specification.result, builder, list)
}

fn add_type(
    definition: TypeDefinition<'_>,
    builder: &Builder,
    list: &mut Vec<Need>,
) -> Result<(), Memory> {
    let TypeDefinition::Array { index, element, .. } = definition else {
        return Ok(());
    };
    match index {
        ArrayIndex::Bounded(range) => add_discrete(range, builder, list)?,
        ArrayIndex::Unbounded(mark, _) => add_mark(mark, builder, list)?,
    }
    add_subtype(element, builder, list)
}

fn add_declaration(decl: Decl<'_>, builder: &Builder, list: &mut Vec<Need>) -> Result<(), Memory> {
    match decl.kind() {
        DeclKind::Type { definition, .. } => add_type(*definition, builder, list),
        DeclKind::Subtype { subtype, .. }
        | DeclKind::Constant { subtype, .. }
        | DeclKind::Signal { subtype, .. }
        | DeclKind::Variable { subtype, .. } => add_subtype(*subtype, builder, list),
        DeclKind::Function { specification, .. } | DeclKind::FunctionBody { specification, .. } => {
            add_function(*specification, builder, list)
        }
        DeclKind::Component {
            generics,
            ports,
            ..
        } => {
            add_interfaces(generics, builder, list)?;
            add_interfaces(ports, builder, list)
        }
        DeclKind::Attribute { .. } | DeclKind::AttributeSpecification { .. } => Ok(()),
        DeclKind::Use(clause) => add_clause(*clause, builder, list),
    }
}
