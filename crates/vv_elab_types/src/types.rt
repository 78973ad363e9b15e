//! Declarations of types and subtypes.

use crate::ranges::{Placed, range, within};
use vv_base::fault::{Fault, Memory, Span};
use vv_elab_base::known::NOTHING;
use vv_elab_base::making::Making;
use vv_elab_base::objects::{arrays_only, objects_only};
use vv_elab_base::sub::{Sub, whole_range};
use vv_held::Entry;
use vv_held::shape::count;
use vv_typed::{Constraint, TSub, TypeForm};
use vv_types::{BaseType, Bounds};

/// The subtype that is written. It is not yet one of an object.
pub fn subtype<'u>(making: &mut Making<'u>, written: &TSub) -> Result<Sub, Fault> {
    let sub = making.mark(written.mark);
    match &written.constraint {
        Constraint::Absent => Ok(sub),
        Constraint::Range(r) => {
            let placed = range(making, r)?;
            within(placed, sub.extent.scalar)?;
            Ok(Sub {
                base: sub.base,
                extent: sub.extent.constrained(placed.bounds),
            })
        }
        Constraint::Index(r) => {
            let placed = range(making, r)?;
            if let BaseType::Array(decl) = sub.base {
                within(placed, making.known(decl).index)?;
            }
            let sub = sub.with_outer(Some(placed.bounds));
            arrays_only(making, sub, written.span)?;
            Ok(sub)
        }
    }
}

/// Whether a subtype is resolved.
pub fn is_resolved<'u>(making: &Making<'u>, written: &TSub) -> bool {
    making.known(written.mark.decl).resolved
}

/// Notes a mark.
fn note_mark<'u>(
    making: &mut Making<'u>,
    decl: u32,
    sub: Sub,
    resolved: bool,
) -> Result<(), Memory> {
    let mut known = making.known(decl);
    known.sub = sub;
    known.resolved = resolved;
    known.package = making.region == 0;
    making.note(decl, known, Entry::Mark(sub.extent))
}

/// The declaration of a subtype.
pub fn subtype_declaration<'u>(
    making: &mut Making<'u>,
    decl: u32,
    written: &TSub,
    resolved: bool,
) -> Result<(), Fault> {
    let sub = subtype(making, written)?;
    let resolved = resolved || is_resolved(making, written);
    Ok(note_mark(making, decl, sub, resolved)?)
}

/// The declaration of a type.
pub fn type_declaration<'u>(
    making: &mut Making<'u>,
    decl: u32,
    base: BaseType,
    form: &TypeForm,
    span: Span,
) -> Result<(), Fault> {
    match form {
        TypeForm::Predefined => {
            let sub = Sub::scalar(base, whole_range(making, base));
            Ok(note_mark(making, decl, sub, false)?)
        }
        TypeForm::Enumeration { count } => {
            let mut known = NOTHING;
            known.count = *count;
            making.note(decl, known, Entry::Unknown)?;
            let sub = Sub::scalar(base, whole_range(making, base));
            Ok(note_mark(making, decl, sub, false)?)
        }
        TypeForm::Unconstrained { index, element } => {
            let indexes = making.mark(*index).extent.scalar;
            array(making, decl, base, indexes, None, element, span)
        }
        TypeForm::Constrained { index, element } => {
            let Placed {
                bounds,
                left: _,
                right: _,
                base: of,
            } = range(making, index)?;
            let indexes = whole_range(making, of);
            array(making, decl, base, indexes, Some(bounds), element, span)
        }
    }
}

/// The declaration of an array type.
fn array<'u>(
    making: &mut Making<'u>,
    decl: u32,
    base: BaseType,
    indexes: Bounds,
    bounds: Option<Bounds>,
    element: &TSub,
    span: Span,
) -> Result<(), Fault> {
    let of = subtype(making, element)?;
    objects_only(making, of, element.span)?;
    let resolved = is_resolved(making, element);
    let mut known = NOTHING;
    known.element = of.base;
    known.index = indexes;
    making.note(decl, known, Entry::Unknown)?;
    let sub = Sub {
        base,
        extent: of.extent.array_of(bounds),
    };
    arrays_only(making, sub, span)?;
    Ok(note_mark(making, decl, sub, resolved)?)
}
