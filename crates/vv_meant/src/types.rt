//! The types of names.

use crate::count::result_of;
use crate::noted::{Attribute, Kind, Noted, is_range};
use vv_types::{BaseType, ObjectKind, What};
use vv_visible::types::Library;

/// Whether a kind of object has events.
pub fn is_signal(kind: ObjectKind) -> bool {
    match kind {
        ObjectKind::Signal | ObjectKind::InPort | ObjectKind::OutPort | ObjectKind::InoutPort =>
            true,
        ObjectKind::Constant
        | ObjectKind::Generic
        | ObjectKind::Variable
        | ObjectKind::Parameter
        | ObjectKind::Turn => false,
    }
}

/// The only argument that stands between the parentheses of an index or a slice.
pub fn only<'n, 't>(part: &'n Noted<'t>) -> Option<&'n Noted<'t>> {
    match part.kind {
        Kind::Arguments => match part.parts.as_slice() {
            [argument] => match argument.kind {
                Kind::Named(_) => None,
                _ => Some(argument),
            },
            _ => None,
        },
        _ => None,
    }
}

/// The type of an array's element or slice.
pub fn suffix_base(lib: &Library<'_>, base: BaseType, part: &Noted<'_>) -> Option<BaseType> {
    let argument = only(part)?;
    let (_, element) = lib.parts(base)?;
    Some(if is_range(argument) { base } else { element })
}

/// The type of what all these parts take of a value.
fn after(lib: &Library<'_>, base: BaseType, parts: &[Noted<'_>]) -> Option<BaseType> {
    let mut now = base;
    for part in parts {
        now = suffix_base(lib, now, part)?;
    }
    Some(now)
}

/// The type of an attribute of an array, or of a scalar type where `is_mark` is true. None where it is no value, or no such attribute.
pub fn attribute_base(
    lib: &Library<'_>,
    base: BaseType,
    attribute: Attribute,
    is_mark: bool,
) -> Option<BaseType> {
    match lib.parts(base) {
        Some((index, _)) => match attribute {
            Attribute::Length => Some(BaseType::Int),
            Attribute::Left | Attribute::Right | Attribute::High | Attribute::Low => Some(index),
            _ => None,
        },
        None => match attribute {
            Attribute::Left | Attribute::Right | Attribute::High | Attribute::Low => {
                if is_mark { Some(base) } else { None }
            }
            _ => None,
        },
    }
}

/// The type of a name whose arguments are those of this function.
pub fn called_base(lib: &Library<'_>, noted: &Noted<'_>, decl: u32) -> Option<BaseType> {
    let result = result_of(lib, decl)?;
    match noted.parts.as_slice() {
        [_, rest @ ..] => after(lib, result, rest),
        [] => None,
    }
}

/// The type of a name all of whose parts are parts of what this declaration gives.
pub fn bare_base(lib: &Library<'_>, noted: &Noted<'_>, decl: u32) -> Option<BaseType> {
    let declared = lib.declared(decl)?;
    let parts = noted.parts.as_slice();
    match &declared.what {
        What::Function { result, .. } => after(lib, *result, parts),
        What::Object { base, .. } => object_base(lib, *base, parts),
        What::Mark(base) => mark_base(lib, *base, parts),
        What::Literal(base) => if parts.is_empty() { Some(*base) } else { None },
        What::Other => None,
    }
}

/// The type of a part or an attribute of an object.
fn object_base(lib: &Library<'_>, base: BaseType, parts: &[Noted<'_>]) -> Option<BaseType> {
    match parts {
        [suffixes @ .., last] => match last.kind {
            Kind::Attribute(Attribute::Event) => Some(BaseType::Bool),
            Kind::Attribute(attribute) => {
                attribute_base(lib, after(lib, base, suffixes)?, attribute, false)
            }
            _ => after(lib, base, parts),
        },
        [] => Some(base),
    }
}

/// The type of a conversion, a qualified expression or an attribute of a type.
fn mark_base(lib: &Library<'_>, base: BaseType, parts: &[Noted<'_>]) -> Option<BaseType> {
    match parts {
        [part] => match part.kind {
            Kind::Attribute(attribute) => attribute_base(lib, base, attribute, true),
            _ => Some(base),
        },
        [part, _] => match part.kind {
            Kind::Attribute(Attribute::Pos) => Some(BaseType::Int),
            _ => Some(base),
        },
        _ => None,
    }
}
