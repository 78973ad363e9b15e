//! The single interpretation of an expression, or of a range.

use crate::selecting::{select, select_range};
use std::alloc::Global;
use vv_base::fault::{Fault, Memory, Refusal, Rule, Span};
use vv_base::names::Names;
use vv_meant::count::{Ask, Found, count, count_range, find};
use vv_meant::note::{note, note_range};
use vv_meant::noted::{Kind, Noted, Scene, stray_in};
use vv_tree::expression::{Choice, Expr, Range};
use vv_typed::{TRange, Typed};
use vv_types::BaseType;
use vv_visible::types::Library;

/// The rule that is broken where there is not one interpretation.
fn broken(ways: u32, span: Span) -> Fault {
    let rule = if ways == 0 { Rule::T1 } else { Rule::T2 };
    Fault::Refused(Refusal { rule, span })
}

/// The interpretation of an expression in a scope, at a type where one is wanted.
pub fn resolve(
    alloc: Global,
    lib: &Library<'_>,
    names: &Names,
    scope: u32,
    e: &Expr<'_>,
    wanted: Option<BaseType>,
) -> Result<Typed, Fault> {
    let scene = Scene {
        alloc,
        lib,
        names,
        scope,
    };
    let noted = note(&scene, *e)?;
    let found = match wanted {
        Some(base) => Found {
            ways: count(&scene, &noted, base),
            base: wanted,
        },
        None => find(&scene, &noted, Ask::Any),
    };
    match found {
        Found {
            ways: 1,
            base: Some(base),
        } => Ok(select(&scene, &noted, base)?),
        _ => Err(broken(found.ways, noted.span)),
    }
}

/// In how many ways a range can be meant, and the type of its values.
fn find_range(scene: &Scene<'_, '_, '_>, noted: &Noted<'_>, wanted: Option<BaseType>) -> Found {
    if let Some(base) = wanted {
        return Found {
            ways: count_range(scene, noted, base),
            base: wanted,
        };
    }
    match noted.kind {
        Kind::Bounds { .. } => match noted.parts.as_slice() {
            [left, right] => find(scene, left, Ask::Beside(right)),
            _ => Found {
                ways: 0,
                base: None,
            },
        },
        _ => match noted.range {
            Some(base) => Found {
                ways: count_range(scene, noted, base),
                base: noted.range,
            },
            None => find(scene, noted, Ask::Any),
        },
    }
}

/// The interpretation of a range, or of a value where a range can stand, with the type of its values.
pub fn resolve_range(
    alloc: Global,
    lib: &Library<'_>,
    names: &Names,
    scope: u32,
    range: &Range<'_>,
    wanted: Option<BaseType>,
) -> Result<(TRange, BaseType), Fault> {
    let scene = Scene {
        alloc,
        lib,
        names,
        scope,
    };
    let noted = note_range(&scene, *range)?;
    let found = find_range(&scene, &noted, wanted);
    match found {
        Found {
            ways: 1,
            base: Some(base),
        } => Ok((select_range(&scene, &noted, base)?, base)),
        _ => Err(broken(found.ways, noted.span)),
    }
}

/// The interpretation of a choice among values of a type.
pub fn resolve_choice(
    alloc: Global,
    lib: &Library<'_>,
    names: &Names,
    scope: u32,
    choice: &Choice<'_>,
    wanted: BaseType,
) -> Result<TRange, Fault> {
    match choice {
        Choice::Range(range) => {
            let (range, _) = resolve_range(alloc, lib, names, scope, range, Some(wanted))?;
            Ok(range)
        }
        Choice::Others(span) => Ok(TRange::Others(*span)),
    }
}

/// The first place in an expression, or in a range, at which a name asks for an attribute that its prefix lacks.
pub fn stray_attribute(
    alloc: Global,
    lib: &Library<'_>,
    names: &Names,
    scope: u32,
    range: &Range<'_>,
) -> Result<Option<Span>, Memory> {
    let scene = Scene {
        alloc,
        lib,
        names,
        scope,
    };
    let noted = note_range(&scene, *range)?;
    Ok(stray_in(&noted))
}
