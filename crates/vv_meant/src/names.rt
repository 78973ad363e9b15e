//! What names may mean.

use crate::calls::{call, is_bare_call};
use crate::count::{Ask, count, count_range, find, times};
use crate::noted::{Attribute, Kind, Noted, Scene, is_range, joined};
use crate::types::{attribute_base, is_signal, only, suffix_base};
use vv_base::fault::{Memory, Span};
use vv_tree::expression::Part;
use vv_tree::leaf::Ident;
use vv_types::{BaseType, ObjectKind, What};
use vv_visible::types::Library;

/// The identifier of a part behind a dot.
fn selected_at(parts: &[Part<'_>], at: usize) -> Option<Ident> {
    match parts.get(at) {
        Some(Part::Selected(ident)) => Some(*ident),
        _ => None,
    }
}

/// What an identifier denotes with the identifiers that are selected behind it, and where they end.
pub fn denoted<'l>(
    scene: &Scene<'l, '_, '_>,
    identifier: Ident,
    parts: &[Part<'_>],
) -> (&'l [u32], Span) {
    let (lib, scope) = (scene.lib, scene.scope);
    let Some(first) = selected_at(parts, 0) else {
        return (lib.denotes(scope, identifier.name), identifier.span);
    };
    let Some(second) = selected_at(parts, 1) else {
        return (
            lib.selected(scope, &[identifier.name], first.name),
            joined(identifier.span, first.span),
        );
    };
    match selected_at(parts, 2) {
        Some(third) => (&[], joined(identifier.span, third.span)),
        None => (
            lib.selected(scope, &[identifier.name, first.name], second.name),
            joined(identifier.span, second.span),
        ),
    }
}

/// Puts into a name what it may mean.
pub fn denote<'t>(
    scene: &Scene<'_, '_, '_>,
    decls: &[u32],
    mut noted: Noted<'t>,
) -> Result<Noted<'t>, Memory> {
    for decl in decls {
        let called = called_ways(scene, *decl, &noted);
        noted.here.add_ways(*decl, called)?;
        let bare = bare_ways(scene, *decl, &noted);
        noted.bare.add_ways(*decl, bare)?;
        if bare != 0 {
            noted.range = whole_range(scene.lib, *decl, &noted);
        } else if is_stray(scene.lib, *decl, noted.parts.as_slice()) {
            noted.stray = true;
        }
    }
    Ok(noted)
}

/// In how many ways the first part of a name has the arguments of a function.
fn called_ways(scene: &Scene<'_, '_, '_>, decl: u32, noted: &Noted<'_>) -> u32 {
    let Some(declared) = scene.lib.declared(decl) else {
        return 0;
    };
    let What::Function { params, result } = &declared.what else {
        return 0;
    };
    match noted.parts.as_slice() {
        [first, rest @ ..] => match first.kind {
            Kind::Arguments => {
                let ways = call(
                    scene,
                    decl,
                    declared,
                    params.as_slice(),
                    first.parts.as_slice(),
                );
                if ways == 0 {
                    0
                } else {
                    times(ways, suffix_ways(scene, *result, rest))
                }
            }
            _ => 0,
        },
        [] => 0,
    }
}

/// In how many ways all parts of a name are parts of what a declaration gives.
fn bare_ways(scene: &Scene<'_, '_, '_>, decl: u32, noted: &Noted<'_>) -> u32 {
    let Some(declared) = scene.lib.declared(decl) else {
        return 0;
    };
    let parts = noted.parts.as_slice();
    match &declared.what {
        What::Function { params, result } => {
            if is_bare_call(scene.lib, decl, params.as_slice()) {
                suffix_ways(scene, *result, parts)
            } else {
                0
            }
        }
        What::Object { kind, base } => object_ways(scene, *kind, *base, parts),
        What::Mark(base) => mark_ways(scene, *base, parts),
        What::Literal(_) => u32::from(parts.is_empty()),
        What::Other => 0,
    }
}

/// In how many ways these parts take elements or slices of a value.
fn suffix_ways(scene: &Scene<'_, '_, '_>, base: BaseType, parts: &[Noted<'_>]) -> u32 {
    match suffixes(scene, base, parts) {
        Some((ways, _)) => ways,
        None => 0,
    }
}

/// The same with the type of what is taken. None where they are no indexes and no slices of such a value.
fn suffixes(
    scene: &Scene<'_, '_, '_>,
    base: BaseType,
    parts: &[Noted<'_>],
) -> Option<(u32, BaseType)> {
    let mut ways = 1;
    let mut now = base;
    for part in parts {
        let argument = only(part)?;
        let (index, element) = scene.lib.parts(now)?;
        if is_range(argument) {
            ways = times(ways, count_range(scene, argument, index));
        } else {
            ways = times(ways, count(scene, argument, index));
            now = element;
        }
    }
    Some((ways, now))
}

/// In how many ways parts are those of an object, with an attribute as the last of them or none.
fn object_ways(
    scene: &Scene<'_, '_, '_>,
    kind: ObjectKind,
    base: BaseType,
    parts: &[Noted<'_>],
) -> u32 {
    match parts {
        [before @ .., last] => match last.kind {
            Kind::Attribute(attribute) => match suffixes(scene, base, before) {
                Some((ways, of)) => if has_attribute(scene.lib, kind, of, attribute) {
                    ways
                } else {
                    0
                },
                None => 0,
            },
            _ => suffix_ways(scene, base, parts),
        },
        [] => 1,
    }
}

/// Whether an object, or a part of one, has an attribute.
fn has_attribute(
    lib: &Library<'_>,
    kind: ObjectKind,
    base: BaseType,
    attribute: Attribute,
) -> bool {
    match attribute {
        Attribute::Event => is_signal(kind),
        Attribute::Range | Attribute::ReverseRange => lib.parts(base).is_some(),
        _ => attribute_base(lib, base, attribute, false).is_some(),
    }
}

/// In how many ways parts behind a type make a value or a range.
fn mark_ways(scene: &Scene<'_, '_, '_>, base: BaseType, parts: &[Noted<'_>]) -> u32 {
    match parts {
        [] => 1,
        [part] => match part.kind {
            Kind::Attribute(Attribute::Range | Attribute::ReverseRange) => {
                u32::from(scene.lib.parts(base).is_some())
            }
            Kind::Attribute(attribute) => {
                u32::from(attribute_base(scene.lib, base, attribute, true).is_some())
            }
            Kind::Qualified => match part.parts.as_slice() {
                [operand] => count(scene, operand, base),
                _ => 0,
            },
            _ => match only(part) {
                Some(operand) => find(scene, operand, Ask::Related(base)).ways,
                None => 0,
            },
        },
        [part, argument] => match only(argument) {
            Some(operand) => match part.kind {
                Kind::Attribute(Attribute::Pos) => if has_positions(base) {
                    count(scene, operand, base)
                } else {
                    0
                },
                Kind::Attribute(Attribute::Val) => if has_positions(base) {
                    count(scene, operand, BaseType::Int)
                } else {
                    0
                },
                _ => 0,
            },
            None => 0,
        },
        _ => 0,
    }
}

/// Whether a type has the attributes `pos` and `val`.
fn has_positions(base: BaseType) -> bool {
    match base {
        BaseType::Bool | BaseType::Int | BaseType::Enum(_) => true,
        BaseType::Logic | BaseType::Array(_) => false,
    }
}

/// The type of the values of a range that a declaration and the parts behind it stand for.
fn whole_range(lib: &Library<'_>, decl: u32, noted: &Noted<'_>) -> Option<BaseType> {
    let declared = lib.declared(decl)?;
    match declared.what {
        What::Mark(base) => match noted.parts.as_slice() {
            [] => Some(base),
            [part] => match part.kind {
                Kind::Attribute(Attribute::Range | Attribute::ReverseRange) => {
                    let (index, _) = lib.parts(base)?;
                    Some(index)
                }
                _ => None,
            },
            _ => None,
        },
        What::Object { base, .. } => match noted.parts.as_slice() {
            [before @ .., last] => match last.kind {
                Kind::Attribute(Attribute::Range | Attribute::ReverseRange) => {
                    range_of(lib, base, before)
                }
                _ => None,
            },
            [] => None,
        },
        _ => None,
    }
}

/// The index type of a part of an object.
fn range_of(lib: &Library<'_>, base: BaseType, parts: &[Noted<'_>]) -> Option<BaseType> {
    let (index, _) = lib.parts(taken(lib, base, parts)?)?;
    Some(index)
}

/// Whether the parts behind a declaration ask for an attribute that it lacks.
fn is_stray(lib: &Library<'_>, decl: u32, parts: &[Noted<'_>]) -> bool {
    let Some(declared) = lib.declared(decl) else {
        return false;
    };
    match declared.what {
        What::Object { kind, base } => match parts {
            [before @ .., last] => match last.kind {
                Kind::Attribute(attribute) => match taken(lib, base, before) {
                    Some(of) => !has_attribute(lib, kind, of, attribute),
                    None => false,
                },
                _ => false,
            },
            [] => false,
        },
        What::Mark(base) => match parts {
            [part, ..] => match part.kind {
                Kind::Attribute(attribute) => !type_has(lib, base, attribute),
                _ => false,
            },
            [] => false,
        },
        _ => false,
    }
}

/// The type of a part of a value.
fn taken(lib: &Library<'_>, base: BaseType, parts: &[Noted<'_>]) -> Option<BaseType> {
    let mut now = base;
    for part in parts {
        now = suffix_base(lib, now, part)?;
    }
    Some(now)
}

/// Whether a type has an attribute.
fn type_has(lib: &Library<'_>, base: BaseType, attribute: Attribute) -> bool {
    match attribute {
        Attribute::Pos | Attribute::Val => has_positions(base),
        Attribute::Range | Attribute::ReverseRange => lib.parts(base).is_some(),
        _ => attribute_base(lib, base, attribute, true).is_some(),
    }
}
