//! Associations of generics and ports, and the entities and components that have them.

use crate::declarations::port_kind;
use sqlite_items::Items;
use vv_base::fault::{Fault, Name, Rule, Span};
use vv_rules::{BOUNDED, PLAIN, broken, broken_parts, earlier, kind_of, refusal};
use vv_tree::concurrent::{Actual, Association, InstanceUnit};
use vv_tree::declaration::{Interface, Mark, SubtypeIndication};
use vv_tree::expression::Expr;
use vv_tree::leaf::Ident;
use vv_tree::unit::{Unit, UnitKind};
use vv_typed::AssociationList;
use vv_types::{BaseType, ObjectKind};
use vv_typing::forms::Outside;
use vv_typing::statements::object_of;
use vv_typing::tables::{Tables, fault};

/// What an instance is of, with its formals.
#[derive(Clone, Copy)]
pub(crate) struct Formals<'a> {
    pub entity: u32,
    pub arch: Option<u32>,
    pub component: Option<u32>,
    pub generics: &'a [Interface<'a>],
    pub ports: &'a [Interface<'a>],
}

/// One formal.
#[derive(Clone, Copy)]
struct Formal<'a> {
    identifier: Ident,
    kind: ObjectKind,
    subtype: SubtypeIndication<'a>,
    has_default: bool,
}

/// The position of an architecture among those of its entity.
fn arch_of(files: &[&[Unit<'_>]], of: Name, name: Name) -> Option<u32> {
    let mut position = 0u32;
    for units in files {
        for unit in *units {
            if let UnitKind::Architecture {
                identifier,
                entity,
                ..
            } = unit.kind
            {
                if entity.name == of {
                    if identifier.name == name {
                        return Some(position);
                    }
                    position = position.saturating_add(1);
                }
            }
        }
    }
    None
}

/// The last identifier of a mark.
fn last(mark: Mark<'_>) -> Ident {
    match mark.others.last() {
        Some(ident) => *ident,
        None => mark.first,
    }
}

/// The component that a mark names.
fn component_of<'a>(tables: &Tables<'_, '_, '_, 'a>, mark: Mark<'_>) -> Option<Outside<'a>> {
    tables.forms.component(*tables.denoted(mark).first()?)
}

/// The entity of a name, with its position among all entities.
fn entity_of<'a>(
    tables: &Tables<'_, '_, '_, 'a>,
    name: Name,
    at: Span,
) -> Result<(u32, Outside<'a>), Fault> {
    match tables.forms.entity(tables.lib, name) {
        Some((position, entity)) => match u32::try_from(position) {
            Ok(position) => Ok((position, entity)),
            Err(_) => Err(Fault::Memory),
        },
        None => Err(fault(Rule::N4, at)),
    }
}

/// What an instance is of. A component agrees with the entity of its name.
pub(crate) fn formals_of<'a>(
    tables: &Tables<'_, '_, '_, 'a>,
    unit: &InstanceUnit<'_>,
    label: Span,
) -> Result<Formals<'a>, Fault> {
    match unit {
        InstanceUnit::Entity {
            mark,
            architecture,
            ..
        } => {
            let name = last(*mark);
            let (position, entity) = entity_of(tables, name.name, name.span)?;
            let arch = match architecture {
                Some(arch) => match arch_of(tables.lib.files(), name.name, arch.name) {
                    Some(position) => Some(position),
                    None => return Err(fault(Rule::N4, arch.span)),
                },
                None => None,
            };
            Ok(Formals {
                entity: position,
                arch,
                component: None,
                generics: entity.generics,
                ports: entity.ports,
            })
        }
        InstanceUnit::Component(mark) => {
            let Some(own) = component_of(tables, *mark) else {
                return Err(fault(Rule::N6, mark.span));
            };
            let (position, entity) = entity_of(tables, last(*mark).name, label)?;
            if !agree(tables, own.generics, entity.generics)?
                || !agree(tables, own.ports, entity.ports)?
            {
                return Err(fault(Rule::T8, label));
            }
            Ok(Formals {
                entity: position,
                arch: None,
                component: Some(own.decl),
                generics: own.generics,
                ports: own.ports,
            })
        }
    }
}

/// The formals of a list, one for each identifier.
fn flat<'a>(
    tables: &Tables<'_, '_, '_, '_>,
    list: &[Interface<'a>],
) -> Result<Vec<Formal<'a>>, Fault> {
    let mut all = Vec::new(tables.alloc);
    for interface in list {
        match interface {
            Interface::Constant {
                identifiers,
                subtype,
                value,
                ..
            } => {
                for identifier in *identifiers {
                    all.push(Formal {
                        identifier: *identifier,
                        kind: ObjectKind::Generic,
                        subtype: *subtype,
                        has_default: value.is_some(),
                    })?;
                }
            }
            Interface::Port {
                identifiers,
                mode,
                subtype,
                value,
                ..
            } => {
                for identifier in *identifiers {
                    all.push(Formal {
                        identifier: *identifier,
                        kind: port_kind(*mode),
                        subtype: *subtype,
                        has_default: value.is_some(),
                    })?;
                }
            }
        }
    }
    Ok(all)
}

/// The base type of a formal, and whether its subtype has bounds.
fn base_of(
    tables: &Tables<'_, '_, '_, '_>,
    formal: &Formal<'_>,
) -> Result<(BaseType, bool), Fault> {
    let (mark, base) = tables.mark(formal.subtype.mark)?;
    let bounded = tables.lib.is_bounded(mark.decl) || formal.subtype.constraint.is_some();
    Ok((base, bounded))
}

/// Whether two lists have the same names, modes and types in the same order.
fn agree(
    tables: &Tables<'_, '_, '_, '_>,
    one: &[Interface<'_>],
    other: &[Interface<'_>],
) -> Result<bool, Fault> {
    let one = flat(tables, one)?;
    let other = flat(tables, other)?;
    if one.len() != other.len() {
        return Ok(false);
    }
    for (a, b) in one.as_slice().iter().zip(other.as_slice()) {
        let (base, _) = base_of(tables, a)?;
        let (same, _) = base_of(tables, b)?;
        if a.identifier.name != b.identifier.name || a.kind != b.kind || base != same {
            return Ok(false);
        }
    }
    Ok(true)
}

/// The number of the formal that an association is for.
fn formal_at(formals: &[Formal<'_>], association: &Association<'_>, k: usize) -> Option<usize> {
    match association {
        Association::Positional(_) => if k < formals.len() { Some(k) } else { None },
        Association::Named { formal, .. } => {
            for (number, one) in formals.iter().enumerate() {
                if one.identifier.name == formal.name {
                    return Some(number);
                }
            }
            None
        }
    }
}

/// Associations with the formals of a list.
pub(crate) fn associations(
    tables: &Tables<'_, '_, '_, '_>,
    list: &[Interface<'_>],
    written: &[Association<'_>],
    label: Span,
) -> Result<AssociationList, Fault> {
    let formals = flat(tables, list)?;
    missing(tables, formals.as_slice(), written, label)?;
    let mut all = Items::new(tables.alloc);
    let mut seen = Vec::new(tables.alloc);
    let mut named = false;
    for (k, association) in written.iter().enumerate() {
        let span = association.span();
        match association {
            Association::Positional(_) => if named {
                return Err(fault(Rule::T8, span));
            },
            Association::Named { .. } => named = true,
        }
        let Some(number) = formal_at(formals.as_slice(), association, k) else {
            return Err(fault(Rule::T8, span));
        };
        if seen.as_slice().contains(&number) {
            return Err(fault(Rule::T8, span));
        }
        seen.push(number)?;
        let Some(formal) = formals.as_slice().get(number) else {
            return Err(fault(Rule::T8, span));
        };
        all.push(vv_typed::Association {
            formal: u32::try_from(number).unwrap_or(u32::MAX),
            span,
            actual: actual(tables, formal, association, span)?,
        })?;
    }
    Ok(all)
}

/// Whether a formal needs an actual: a generic or an in port without a default, and another port without bounds.
fn needs_actual(tables: &Tables<'_, '_, '_, '_>, formal: &Formal<'_>) -> Result<bool, Fault> {
    match formal.kind {
        ObjectKind::OutPort | ObjectKind::InoutPort => {
            let (base, bounded) = base_of(tables, formal)?;
            Ok(!bounded && tables.lib.parts(base).is_some())
        }
        _ => Ok(!formal.has_default),
    }
}

/// Refuses where a formal that needs an actual has none.
fn missing(
    tables: &Tables<'_, '_, '_, '_>,
    formals: &[Formal<'_>],
    written: &[Association<'_>],
    label: Span,
) -> Result<(), Fault> {
    for (number, formal) in formals.iter().enumerate() {
        if needs_actual(tables, formal)? && !has_actual(formals, written, number) {
            return Err(fault(Rule::T8, label));
        }
    }
    Ok(())
}

/// Whether a formal has an actual that is not `open`.
fn has_actual(formals: &[Formal<'_>], written: &[Association<'_>], number: usize) -> bool {
    for (k, association) in written.iter().enumerate() {
        let given = match association {
            Association::Positional(actual) | Association::Named { actual, .. } => match actual {
                Actual::Open(_) => false,
                Actual::Given(_) => true,
            },
        };
        if given && formal_at(formals, association, k) == Some(number) {
            return true;
        }
    }
    false
}

/// The actual of an association, at the type of its formal.
fn actual(
    tables: &Tables<'_, '_, '_, '_>,
    formal: &Formal<'_>,
    association: &Association<'_>,
    at: Span,
) -> Result<Option<vv_typed::Typed>, Fault> {
    let written = match association {
        Association::Positional(actual) | Association::Named { actual, .. } => match actual {
            Actual::Open(_) => return Ok(None),
            Actual::Given(e) => *e,
        },
    };
    let (base, bounded) = base_of(tables, formal)?;
    match formal.kind {
        ObjectKind::OutPort | ObjectKind::InoutPort => {
            connected(tables, formal.kind, written, base, at)
        }
        _ => {
            let context = if bounded { BOUNDED } else { PLAIN };
            Ok(Some(tables.typed(written, written.span(), Some(base), context)?))
        }
    }
}

/// The actual of a port of mode out or inout: a signal or a port that can be driven.
fn connected(
    tables: &Tables<'_, '_, '_, '_>,
    kind: ObjectKind,
    written: Expr<'_>,
    base: BaseType,
    at: Span,
) -> Result<Option<vv_typed::Typed>, Fault> {
    let typed = tables.named(written, written.span(), Some(base))?;
    let Some(decl) = object_of(&typed) else {
        let own = refusal(Rule::T8, at);
        return match earlier(own, broken(&typed, tables.lib, PLAIN)) {
            Some(refusal) => Err(Fault::Refused(refusal)),
            None => Err(fault(Rule::T8, at)),
        };
    };
    let fits = match kind_of(tables.lib, decl) {
        Some(ObjectKind::Signal | ObjectKind::InoutPort) => true,
        Some(ObjectKind::OutPort) => kind == ObjectKind::OutPort,
        _ => false,
    };
    if !fits {
        return Err(fault(Rule::T8, at));
    }
    match broken_parts(&typed, tables.lib) {
        Some(refusal) => Err(Fault::Refused(refusal)),
        None => Ok(Some(typed)),
    }
}
