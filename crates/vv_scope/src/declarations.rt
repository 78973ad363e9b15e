//! Declarations become visible.

use crate::bases::discrete_base;
use crate::builder::{Builder, entity};
use crate::statements::statements;
use vv_base::fault::{Memory, Name, Rule, Span};
use vv_names::paths::designator;
use vv_names::spans::end;
use vv_tree::declaration::{
    ArrayIndex, Decl, DeclKind, DiscreteRange, FunctionSpecification, Interface, SelectedName,
    SubtypeIndication, TypeDefinition, UseClause,
};
use vv_tree::leaf::{Designator, Ident, Mode};
use vv_types::{BaseList, BaseType, ObjectKind, Op, What};
use vv_visible::declared::{Formal, FormalList, Sort};
use vv_visible::table::Used;
use vv_visible::types::library_region;

const RELATIONS: [Op; 6] = [
    Op::Equal,
    Op::NotEqual,
    Op::Less,
    Op::LessEqual,
    Op::Greater,
    Op::GreaterEqual,
];

/// Declares all of a list in a region.
#[cycle(declarations)]
pub fn declarations(list: &[Decl<'_>], region: u32, builder: &mut Builder) -> Result<(), Memory> {
    for decl in list {
        declaration(*decl, region, builder)?;
    }
    Ok(())
}

#[cycle(declarations)]
fn declaration(decl: Decl<'_>, region: u32, builder: &mut Builder) -> Result<(), Memory> {
    match decl.kind() {
        DeclKind::Type {
            identifier,
            definition,
            span,
        } => type_declaration(*identifier, *definition, *span, region, builder),
        DeclKind::Subtype {
            identifier,
            subtype,
            span,
        } => subtype_declaration(*identifier, *subtype, *span, region, builder),
        DeclKind::Constant {
            identifiers,
            subtype,
            span,
            ..
        } => { builder.objects_behind(*span, region, *subtype, ObjectKind::Constant, identifiers) }
        DeclKind::Signal {
            identifiers,
            subtype,
            span,
            ..
        } => builder.objects_behind(*span, region, *subtype, ObjectKind::Signal, identifiers),
        DeclKind::Variable {
            identifiers,
            subtype,
            span,
            ..
        } => { builder.objects_behind(*span, region, *subtype, ObjectKind::Variable, identifiers) }
        DeclKind::Function { specification, .. } => {
            function(*specification, false, region, builder)?;
            Ok(())
        }
        DeclKind::FunctionBody {
            specification,
            declarations: inner,
            statements: body,
            span,
            ..
        } => {
            let own = function(*specification, true, region, builder)?;
            builder.begin_behind(specification.span, own)?;
            declarations(inner, own, builder)?;
            statements(body, own, own, builder)?;
            builder.begin_behind(*span, region)
        }
        DeclKind::Component {
            identifier,
            generics,
            ports,
            span,
            ..
        } => {
            let own = builder.table.region(Some(region), None)?;
            builder.begin_at(*span, own)?;
            interfaces(generics, ObjectKind::Generic, own, builder)?;
            interfaces(ports, ObjectKind::InPort, own, builder)?;
            builder.begin_behind(*span, region)?;
            builder.named(region, *identifier, What::Other, Sort::Component)?;
            Ok(())
        }
        DeclKind::Attribute { .. } | DeclKind::AttributeSpecification { .. } => Ok(()),
        DeclKind::Use(clause) => use_clause(*clause, region, builder),
    }
}

impl Builder {
    /// Declares objects behind a declaration.
    fn objects_behind(
        &mut self,
        span: Span,
        region: u32,
        subtype: SubtypeIndication<'_>,
        kind: ObjectKind,
        identifiers: &[Ident],
    ) -> Result<(), Memory> {
        let base = self.base(region, subtype.mark);
        self.begin_behind(span, region)?;
        self.objects(region, kind, base, identifiers)
    }

    fn objects(
        &mut self,
        region: u32,
        kind: ObjectKind,
        base: BaseType,
        identifiers: &[Ident],
    ) -> Result<(), Memory> {
        for ident in identifiers {
            self.named(region, *ident, What::Object { kind, base }, Sort::Plain)?;
        }
        Ok(())
    }
}

/// Declares generics, ports or parameters. `kind` is that of a constant among them.
pub fn interfaces(
    list: &[Interface<'_>],
    kind: ObjectKind,
    region: u32,
    builder: &mut Builder,
) -> Result<(), Memory> {
    for interface in list {
        let (identifiers, subtype, kind, span) = match interface {
            Interface::Constant {
                identifiers,
                subtype,
                span,
                ..
            } => (*identifiers, *subtype, kind, *span),
            Interface::Port {
                identifiers,
                mode,
                subtype,
                span,
                ..
            } => (*identifiers, *subtype, port_kind(*mode), *span),
        };
        builder.objects_behind(span, region, subtype, kind, identifiers)?;
    }
    Ok(())
}

fn port_kind(mode: Option<Mode>) -> ObjectKind {
    match mode {
        None | Some(Mode::In(_)) => ObjectKind::InPort,
        Some(Mode::Out(_)) => ObjectKind::OutPort,
        Some(Mode::Inout(_)) => ObjectKind::InoutPort,
    }
}

fn type_declaration(
    ident: Ident,
    definition: TypeDefinition<'_>,
    span: Span,
    region: u32,
    builder: &mut Builder,
) -> Result<(), Memory> {
    match definition {
        TypeDefinition::Enumeration { literals, .. } => {
            builder.begin_behind(span, region)?;
            enumeration(ident, literals, region, builder)
        }
        TypeDefinition::Array { index, element, .. } => {
            let (index, bounded) = match index {
                ArrayIndex::Bounded(range) => (discrete_base(range, region, builder)?, true),
                ArrayIndex::Unbounded(mark, _) => (builder.base(region, mark), false),
            };
            let element = builder.base(region, element.mark);
            builder.begin_behind(span, region)?;
            let array = ArrayForm {
                index,
                element,
                bounded,
            };
            array_type(ident, array, region, builder)
        }
    }
}

/// The number of the next declaration.
fn next(builder: &Builder) -> u32 {
    match u32::try_from(builder.table.count()) {
        Ok(decl) => decl,
        Err(_) => u32::MAX,
    }
}

fn enumeration(
    ident: Ident,
    literals: &[Designator<'_>],
    region: u32,
    builder: &mut Builder,
) -> Result<(), Memory> {
    let base = BaseType::Enum(next(builder));
    builder.named_type(region, ident, base, true)?;
    let mut position = 0u32;
    for literal in literals {
        if let Some(name) = designator(*literal) {
            builder.literal(region, name, base, position)?;
            position = position.saturating_add(1);
        }
    }
    for op in RELATIONS {
        builder.predefined(region, ident.span, op, &[base, base], BaseType::Bool)?;
    }
    Ok(())
}

/// The types of an array's indexes and elements, and whether its type has bounds.
#[derive(Clone, Copy)]
struct ArrayForm {
    index: BaseType,
    element: BaseType,
    bounded: bool,
}

fn array_type(
    ident: Ident,
    array: ArrayForm,
    region: u32,
    builder: &mut Builder,
) -> Result<(), Memory> {
    let decl = next(builder);
    let base = BaseType::Array(decl);
    let ArrayForm {
        index,
        element,
        bounded,
    } = array;
    builder.named_type(region, ident, base, bounded)?;
    builder.table.add_array(decl, index, element)?;
    let scalars = !matches!(element, BaseType::Array(_));
    for op in RELATIONS {
        if scalars || op == Op::Equal || op == Op::NotEqual {
            builder.predefined(region, ident.span, op, &[base, base], BaseType::Bool)?;
        }
    }
    for params in [
        [base, base],
        [base, element],
        [element, base],
        [element, element],
    ] {
        builder.predefined(region, ident.span, Op::Concatenate, &params, base)?;
    }
    Ok(())
}

/// A subtype of a mark that is not of a type has a type of its own, so that nothing else is taken for it.
fn subtype_declaration(
    ident: Ident,
    subtype: SubtypeIndication<'_>,
    span: Span,
    region: u32,
    builder: &mut Builder,
) -> Result<(), Memory> {
    let (base, bounded) = match builder.marked(region, subtype.mark) {
        Some((base, bounded)) => (base, bounded || subtype.constraint.is_some()),
        None => (BaseType::Enum(next(builder)), true),
    };
    builder.begin_behind(span, region)?;
    builder.named_type(region, ident, base, bounded)?;
    Ok(())
}

/// Declares a function behind its specification. The answer is the region of its parameters.
fn function(
    specification: FunctionSpecification<'_>,
    body: bool,
    region: u32,
    builder: &mut Builder,
) -> Result<u32, Memory> {
    let own = builder.table.region(Some(region), None)?;
    builder.begin_at(specification.span, own)?;
    let alloc = builder.alloc();
    let mut params = BaseList::new(alloc);
    let mut formals = FormalList::new(alloc);
    for interface in specification.parameters {
        let (base, bounded) = parameter(*interface, own, builder)?;
        for formal in formals_of(interface) {
            params.push(base)?;
            formals.push(Formal {
                name: Some(formal.name),
                default: has_default(interface),
                bounded,
            })?;
        }
    }
    let result = builder.base(own, specification.result);
    builder.begin_behind(specification.span, region)?;
    if let Some(ident) = designator(specification.designator) {
        let what = What::Function { params, result };
        let sort = Sort::Function { body };
        met(
            builder,
            region,
            ident,
            body,
            entity(region, ident, what, sort, formals),
        )?;
    }
    Ok(own)
}

/// A function's declaration or body is met.
fn met(
    builder: &mut Builder,
    region: u32,
    ident: Ident,
    body: bool,
    entity: vv_visible::declared::Entity,
) -> Result<(), Memory> {
    let Some(decl) = builder.table.same_function(&entity) else {
        builder.declare(entity)?;
        return Ok(());
    };
    let had = match builder.table.entity(decl) {
        Some(found) => found.sort == Sort::Function { body: true },
        None => false,
    };
    if body && !had {
        builder.table.set_body(decl);
        builder.table.place(ident.span, decl)
    } else {
        builder.least.note(Rule::N2, ident.span);
        Ok(())
    }
}

/// Declares parameters. The answer is their base type, and whether they are scalar or have bounds.
fn parameter(
    interface: Interface<'_>,
    region: u32,
    builder: &mut Builder,
) -> Result<(BaseType, bool), Memory> {
    let subtype = match interface {
        Interface::Constant { subtype, .. } | Interface::Port { subtype, .. } => subtype,
    };
    let (base, bounded) = match builder.marked(region, subtype.mark) {
        Some(marked) => marked,
        None => (BaseType::Int, true),
    };
    interfaces(&[interface], ObjectKind::Parameter, region, builder)?;
    Ok((base, bounded || subtype.constraint.is_some()))
}

fn formals_of<'a>(interface: &Interface<'a>) -> &'a [Ident] {
    match interface {
        Interface::Constant { identifiers, .. } | Interface::Port { identifiers, .. } =>
            identifiers,
    }
}

fn has_default(interface: &Interface<'_>) -> bool {
    match interface {
        Interface::Constant { value, .. } | Interface::Port { value, .. } => value.is_some(),
    }
}

/// Use clauses in a region, from the end of each on.
pub fn use_clause(clause: UseClause<'_>, region: u32, builder: &mut Builder) -> Result<(), Memory> {
    builder.begin_behind(clause.span, region)?;
    for name in clause.names {
        use_name(*name, region, builder)?;
    }
    Ok(())
}

/// What a name of a use clause gives. One that gives nothing breaks a rule elsewhere.
fn use_name(name: SelectedName<'_>, region: u32, builder: &mut Builder) -> Result<(), Memory> {
    let seen = builder.table.denoted_now(region, name.library.name.0);
    let second = name.package.name.0;
    if let Some(first) = seen.list.first() {
        if let Some(exports) = builder.table.exports_of(*first) {
            let symbol = second;
            return builder.table.apply(region, Used::One { exports, symbol });
        }
        return Ok(());
    }
    let Some(library) = library_region(&builder.symbols, name.library.name) else {
        return Ok(());
    };
    let Some(suffix) = name.suffix else {
        return use_units(library, second, region, builder);
    };
    let Some(package) = builder.table.unit(library, second, true) else {
        return Ok(());
    };
    let Some(exports) = builder.table.exports_of(package) else {
        return Ok(());
    };
    match suffix {
        Designator::All(_) => builder.table.apply(region, Used::All { exports }),
        _ => match designator(suffix) {
            Some(ident) => {
                let Name(symbol) = ident.name;
                builder.table.apply(region, Used::One { exports, symbol })
            }
            None => Ok(()),
        },
    }
}

/// A use clause that names a unit makes it visible by itself.
fn use_units(library: u32, symbol: u32, region: u32, builder: &mut Builder) -> Result<(), Memory> {
    let alloc = builder.alloc();
    let units = Vec::from_slice(alloc, builder.table.exported(library, symbol))?;
    for decl in units.as_slice() {
        builder.table.apply(region, Used::Unit { decl: *decl })?;
    }
    Ok(())
}

/// Declares the parameter of a loop or a generate statement behind its range, in a region of its own.
pub fn turn(
    ident: Ident,
    range: DiscreteRange<'_>,
    region: u32,
    builder: &mut Builder,
) -> Result<u32, Memory> {
    let base = discrete_base(range, region, builder)?;
    let own = builder.table.region(Some(region), None)?;
    let span = range.span();
    builder.table.begin(span.file, end(span), own)?;
    let kind = ObjectKind::Turn;
    builder.named(own, ident, What::Object { kind, base }, Sort::Plain)?;
    Ok(own)
}
