//! Declarations.

use sqlite_items::Items;
use vv_base::fault::{Fault, Rule, Span, cannot_come};
use vv_names::paths::designator;
use vv_rules::{BOUNDED, PLAIN};
use vv_tree::declaration::{
    ArrayIndex, Constraint as WrittenConstraint, Decl, DeclKind, FunctionSpecification, Interface,
    SubtypeIndication, TypeDefinition,
};
use vv_tree::expression::Expr;
use vv_tree::leaf::{Ident, Mode};
use vv_tree::statement::Stmt;
use vv_typed::{
    Constraint, FnBody, Objects, ObjectsList, TComponent, TDecl, TDeclList, TEntity, TPackage,
    TSub, TypeForm, TypeMark,
};
use vv_types::{BaseType, ObjectKind, What};
use vv_typing::statements::{Body, Position, statements};
use vv_typing::tables::{Tables, fault};
use vv_visible::declared::Sort;

/// What is gathered from everywhere. The first packages, `built` of them, are built in.
#[derive(Drop)]
pub(crate) struct Gathered {
    pub built: usize,
    pub packages: Vec<TPackage>,
    pub functions: Vec<FnBody>,
    pub components: Vec<TComponent>,
    pub entities: Vec<TEntity>,
}

/// A subtype, its base type and whether it has bounds.
pub(crate) fn subtype(
    tables: &Tables<'_, '_, '_, '_>,
    written: &SubtypeIndication<'_>,
) -> Result<(TSub, BaseType, bool), Fault> {
    let (mark, base) = tables.mark(written.mark)?;
    let bounded = tables.lib.is_bounded(mark.decl);
    let (constraint, has_bounds) = match &written.constraint {
        None => (Constraint::Absent, bounded),
        Some(WrittenConstraint::Index(range, span)) => match tables.lib.parts(base) {
            Some((index, _)) => {
                if bounded {
                    return Err(fault(Rule::T1, *span));
                }
                let (range, _) = tables.discrete(range, range.span(), Some(index))?;
                (Constraint::Index(range), true)
            }
            None => return Err(fault(Rule::T1, *span)),
        },
        Some(WrittenConstraint::Range(range, span)) => {
            if tables.lib.parts(base).is_some() {
                return Err(fault(Rule::T1, *span));
            }
            let (range, _) = tables.range(range, range.span(), Some(base))?;
            (Constraint::Range(range), true)
        }
    };
    let sub = TSub {
        mark,
        constraint,
        span: written.span,
    };
    Ok((sub, base, has_bounds))
}

/// The initial value or the default of objects.
fn initial(
    tables: &Tables<'_, '_, '_, '_>,
    e: Option<Expr<'_>>,
    base: BaseType,
    bounded: bool,
) -> Result<Option<vv_typed::Typed>, Fault> {
    match e {
        Some(e) => {
            let context = if bounded { BOUNDED } else { PLAIN };
            Ok(Some(tables.typed(e, e.span(), Some(base), context)?))
        }
        None => Ok(None),
    }
}

/// What is written of objects.
#[derive(Clone, Copy)]
struct Written<'w, 'a> {
    identifiers: &'w [Ident],
    subtype: &'w SubtypeIndication<'a>,
    value: Option<Expr<'a>>,
    span: Span,
}

/// Objects that are declared together.
fn objects(
    tables: &Tables<'_, '_, '_, '_>,
    kind: ObjectKind,
    written: Written<'_, '_>,
) -> Result<Objects, Fault> {
    let (sub, base, bounded) = subtype(tables, written.subtype)?;
    let needs_bounds = match kind {
        ObjectKind::Signal | ObjectKind::Variable => true,
        _ => false,
    };
    if needs_bounds && !bounded && tables.lib.parts(base).is_some() {
        return Err(fault(Rule::T9, written.span));
    }
    let needs_value = match kind {
        ObjectKind::Constant => true,
        _ => false,
    };
    if needs_value && written.value.is_none() {
        return Err(fault(Rule::T9, written.span));
    }
    Ok(Objects {
        kind,
        idents: tables.idents(written.identifiers)?,
        subtype: sub,
        initial: initial(tables, written.value, base, bounded)?,
        span: written.span,
    })
}

/// The kind of a port by its mode.
pub(crate) fn port_kind(mode: Option<Mode>) -> ObjectKind {
    match mode {
        None | Some(Mode::In(_)) => ObjectKind::InPort,
        Some(Mode::Out(_)) => ObjectKind::OutPort,
        Some(Mode::Inout(_)) => ObjectKind::InoutPort,
    }
}

/// Generics, parameters or ports. A constant among them has the given kind.
pub(crate) fn interfaces(
    tables: &Tables<'_, '_, '_, '_>,
    kind: ObjectKind,
    list: &[Interface<'_>],
) -> Result<ObjectsList, Fault> {
    let mut all = Items::new(tables.alloc);
    add_interfaces(tables, kind, list, &mut all)?;
    Ok(all)
}

/// Appends generics, parameters or ports.
fn add_interfaces(
    tables: &Tables<'_, '_, '_, '_>,
    kind: ObjectKind,
    list: &[Interface<'_>],
    into: &mut ObjectsList,
) -> Result<(), Fault> {
    for interface in list {
        match interface {
            Interface::Constant {
                identifiers,
                subtype,
                value,
                span,
            } => add_objects(
                tables,
                kind,
                Written {
                    identifiers,
                    subtype,
                    value: *value,
                    span: *span,
                },
                into,
            )?,
            Interface::Port {
                identifiers,
                mode,
                subtype,
                value,
                span,
            } => add_objects(
                tables,
                port_kind(*mode),
                Written {
                    identifiers,
                    subtype,
                    value: *value,
                    span: *span,
                },
                into,
            )?,
        }
    }
    Ok(())
}

/// Appends objects that are declared together.
fn add_objects(
    tables: &Tables<'_, '_, '_, '_>,
    kind: ObjectKind,
    written: Written<'_, '_>,
    into: &mut ObjectsList,
) -> Result<(), Fault> {
    into.push(objects(tables, kind, written)?)?;
    Ok(())
}

/// The declaration of a function.
fn function_decl(
    tables: &Tables<'_, '_, '_, '_>,
    specification: &FunctionSpecification<'_>,
) -> Result<vv_typed::Ident, Fault> {
    match designator(specification.designator) {
        Some(ident) => tables.ident(ident),
        None => Err(fault(Rule::N1, specification.designator.span())),
    }
}

/// A function without its body: its declaration is checked, and a body is to stand somewhere.
fn function(
    tables: &Tables<'_, '_, '_, '_>,
    specification: &FunctionSpecification<'_>,
    span: Span,
) -> Result<(), Fault> {
    let decl = function_decl(tables, specification)?.decl;
    match tables.lib.sort(decl) {
        Some(Sort::Function { body: true }) => {}
        _ => return Err(fault(Rule::T9, span)),
    }
    interfaces(tables, ObjectKind::Parameter, specification.parameters)?;
    tables.mark(specification.result)?;
    Ok(())
}

/// What is known of a function before its declarations and its statements.
#[derive(Clone, Copy)]
struct Head {
    ident: vv_typed::Ident,
    result: TypeMark,
    gives: BaseType,
    bounded: bool,
}

/// The designator and the result of a function, whose parameters are appended.
fn begun(
    tables: &Tables<'_, '_, '_, '_>,
    specification: &FunctionSpecification<'_>,
    params: &mut ObjectsList,
) -> Result<Head, Fault> {
    let ident = function_decl(tables, specification)?;
    add_interfaces(
        tables,
        ObjectKind::Parameter,
        specification.parameters,
        params,
    )?;
    let (result, gives) = tables.mark(specification.result)?;
    Ok(Head {
        ident,
        result,
        gives,
        bounded: tables.lib.is_bounded(result.decl),
    })
}

/// A function with its body.
#[cycle(declare)]
fn body(
    decls: &[Decl<'_>],
    tables: &Tables<'_, '_, '_, '_>,
    specification: &FunctionSpecification<'_>,
    list: &[Stmt<'_>],
    gathered: &mut Gathered,
) -> Result<(), Fault> {
    let mut params = Items::new(tables.alloc);
    let of = begun(tables, specification, &mut params)?;
    let mut own = Items::new(tables.alloc);
    add_declarations(decls, tables, &mut own, gathered)?;
    put_body(tables, list, of, params, own, gathered)
}

/// Appends a function with its statements.
fn put_body(
    tables: &Tables<'_, '_, '_, '_>,
    list: &[Stmt<'_>],
    of: Head,
    params: ObjectsList,
    decls: TDeclList,
    gathered: &mut Gathered,
) -> Result<(), Fault> {
    let position = Position {
        body: Body::Function {
            gives: of.gives,
            bounded: of.bounded,
        },
        loops: None,
    };
    let body = statements(tables, list, position)?;
    gathered.functions.push(FnBody {
        decl: of.ident.decl,
        name: of.ident.name,
        span: of.ident.span,
        params,
        result: of.result,
        decls,
        body,
    })?;
    Ok(())
}

/// The base type of a declared type.
fn declared_base(tables: &Tables<'_, '_, '_, '_>, decl: u32, at: Span) -> Result<BaseType, Fault> {
    match tables.lib.declared(decl) {
        Some(declared) => match declared.what {
            What::Mark(base) => Ok(base),
            _ => Err(fault(Rule::N6, at)),
        },
        None => Err(fault(Rule::N1, at)),
    }
}

/// A type.
fn type_decl(
    tables: &Tables<'_, '_, '_, '_>,
    identifier: Ident,
    definition: &TypeDefinition<'_>,
    span: Span,
) -> Result<TDecl, Fault> {
    let ident = tables.ident(identifier)?;
    let base = declared_base(tables, ident.decl, identifier.span)?;
    let form = match definition {
        TypeDefinition::Enumeration { literals, .. } => TypeForm::Enumeration {
            count: u32::try_from(literals.len()).unwrap_or(u32::MAX),
        },
        TypeDefinition::Array { index, element, .. } => array(tables, index, element, span)?,
    };
    Ok(TDecl::Type { ident, base, form })
}

/// An array type. Its elements have bounds, and are no arrays of arrays.
fn array(
    tables: &Tables<'_, '_, '_, '_>,
    index: &ArrayIndex<'_>,
    element: &SubtypeIndication<'_>,
    span: Span,
) -> Result<TypeForm, Fault> {
    let (index_mark, range) = match index {
        ArrayIndex::Unbounded(mark, _) => {
            let (typed, base) = tables.mark(*mark)?;
            if base == BaseType::Logic {
                return Err(fault(Rule::T9, span));
            }
            (Some(typed), None)
        }
        ArrayIndex::Bounded(range) => {
            let (typed, base) = tables.range_of(range, range.span(), None)?;
            if base == BaseType::Logic {
                return Err(fault(Rule::T9, span));
            }
            (None, Some(typed))
        }
    };
    let (element, base, bounded) = subtype(tables, element)?;
    if let Some((_, inner)) = tables.lib.parts(base) {
        if !bounded || tables.lib.parts(inner).is_some() {
            return Err(fault(Rule::T9, span));
        }
    }
    match (index_mark, range) {
        (Some(index), _) => Ok(TypeForm::Unconstrained { index, element }),
        (None, Some(index)) => Ok(TypeForm::Constrained { index, element }),
        (None, None) => Err(Fault::from(cannot_come())),
    }
}

/// Appends what a declaration has to elaborate.
#[cycle(declare)]
fn declaration(
    decl: Decl<'_>,
    tables: &Tables<'_, '_, '_, '_>,
    into: &mut TDeclList,
    gathered: &mut Gathered,
) -> Result<(), Fault> {
    match decl.kind() {
        DeclKind::FunctionBody {
            specification,
            declarations,
            statements,
            ..
        } => body(declarations, tables, specification, statements, gathered),
        _ => simple(decl, tables, into, gathered),
    }
}

/// The same for what is no body of a function.
fn simple(
    decl: Decl<'_>,
    tables: &Tables<'_, '_, '_, '_>,
    into: &mut TDeclList,
    gathered: &mut Gathered,
) -> Result<(), Fault> {
    match decl.kind() {
        DeclKind::Type {
            identifier,
            definition,
            span,
        } => add_type(tables, *identifier, definition, *span, into),
        DeclKind::Subtype {
            identifier,
            subtype: written,
            ..
        } => add_subtype(tables, *identifier, written, into),
        DeclKind::Constant {
            identifiers,
            subtype,
            value,
            span,
        } => put_objects(
            tables,
            ObjectKind::Constant,
            Written {
                identifiers,
                subtype,
                value: *value,
                span: *span,
            },
            into,
        ),
        DeclKind::Signal {
            identifiers,
            subtype,
            value,
            span,
        } => put_objects(
            tables,
            ObjectKind::Signal,
            Written {
                identifiers,
                subtype,
                value: *value,
                span: *span,
            },
            into,
        ),
        DeclKind::Variable {
            identifiers,
            subtype,
            value,
            span,
        } => put_objects(
            tables,
            ObjectKind::Variable,
            Written {
                identifiers,
                subtype,
                value: *value,
                span: *span,
            },
            into,
        ),
        DeclKind::Function {
            specification,
            span,
        } => function(tables, specification, *span),
        DeclKind::Component {
            identifier,
            generics,
            ports,
            ..
        } => component(tables, *identifier, generics, ports, gathered),
        _ => Ok(()),
    }
}

/// Appends a type.
fn add_type(
    tables: &Tables<'_, '_, '_, '_>,
    identifier: Ident,
    definition: &TypeDefinition<'_>,
    span: Span,
    into: &mut TDeclList,
) -> Result<(), Fault> {
    into.push(type_decl(tables, identifier, definition, span)?)?;
    Ok(())
}

/// Appends a subtype.
fn add_subtype(
    tables: &Tables<'_, '_, '_, '_>,
    identifier: Ident,
    written: &SubtypeIndication<'_>,
    into: &mut TDeclList,
) -> Result<(), Fault> {
    let ident = tables.ident(identifier)?;
    let (sub, _, _) = subtype(tables, written)?;
    into.push(TDecl::Subtype {
        ident,
        subtype: sub,
        resolved: false,
    })?;
    Ok(())
}

/// Appends a declaration of objects.
fn put_objects(
    tables: &Tables<'_, '_, '_, '_>,
    kind: ObjectKind,
    written: Written<'_, '_>,
    into: &mut TDeclList,
) -> Result<(), Fault> {
    into.push(TDecl::Objects(objects(tables, kind, written)?))?;
    Ok(())
}

/// Gathers a component.
fn component(
    tables: &Tables<'_, '_, '_, '_>,
    identifier: Ident,
    generics: &[Interface<'_>],
    ports: &[Interface<'_>],
    gathered: &mut Gathered,
) -> Result<(), Fault> {
    let decl = tables.ident(identifier)?.decl;
    let generics = interfaces(tables, ObjectKind::Generic, generics)?;
    let ports = interfaces(tables, ObjectKind::InPort, ports)?;
    gathered.components.push(TComponent {
        decl,
        generics,
        ports,
    })?;
    Ok(())
}

/// Appends declarations.
#[cycle(declare)]
pub(crate) fn add_declarations(
    list: &[Decl<'_>],
    tables: &Tables<'_, '_, '_, '_>,
    into: &mut TDeclList,
    gathered: &mut Gathered,
) -> Result<(), Fault> {
    for decl in list {
        declaration(*decl, tables, into, gathered)?;
    }
    Ok(())
}

/// Declarations.
pub(crate) fn declarations(
    tables: &Tables<'_, '_, '_, '_>,
    list: &[Decl<'_>],
    gathered: &mut Gathered,
) -> Result<TDeclList, Fault> {
    let mut all = Items::new(tables.alloc);
    add_declarations(list, tables, &mut all, gathered)?;
    Ok(all)
}
