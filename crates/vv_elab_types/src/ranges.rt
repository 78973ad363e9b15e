//! Static expressions and ranges.

use vv_base::fault::{Fault, Rule, Span};
use vv_elab_base::making::Making;
use vv_elab_base::sub::{Sub, element_of, only};
use vv_elab_plain::fixed::is_fixed;
use vv_held::held::{misfit, ordinal, refused};
use vv_held::shape::{contains, count, reversed};
use vv_held::{Entry, Held, Shape as Extent};
use vv_typed::{Form, Suffix, TRange, Typed};
use vv_types::{BaseType, Bounds};

/// The value of an expression that has to be static.
pub fn must<'u>(making: &mut Making<'u>, e: &Typed, wanted: Option<Extent>) -> Result<Held, Fault> {
    if is_fixed(making, e, true) {
        making.fold(e, wanted)
    } else {
        Err(refused(Rule::E1, e.span))
    }
}

/// The number or position of an expression that has to be static.
pub fn must_number<'u>(making: &mut Making<'u>, e: &Typed) -> Result<i32, Fault> {
    let held = must(making, e, None)?;
    match ordinal(&held.value) {
        Some(n) => Ok(n),
        None => Err(misfit()),
    }
}

/// A range with the places of its ends, and the base type of its values.
#[derive(Clone, Copy)]
pub struct Placed {
    pub bounds: Bounds,
    pub left: Span,
    pub right: Span,
    pub base: BaseType,
}

/// A range, or the range of one value.
#[cycle(prefixes)]
pub fn range<'u>(making: &mut Making<'u>, r: &TRange) -> Result<Placed, Fault> {
    match r {
        TRange::Whole(e) => {
            let bounds = match &e.form {
                Form::Range(prefix) => bounds_of(making, prefix.get())?,
                Form::ReverseRange(prefix) => reversed(bounds_of(making, prefix.get())?),
                Form::Mark(mark) => {
                    let sub = making.mark(*mark);
                    range_of(sub)?
                }
                _ => only(must_number(making, e)?),
            };
            Ok(Placed {
                bounds,
                left: e.span,
                right: e.span,
                base: e.base,
            })
        }
        TRange::Between { left, right, down } => {
            let a = must_number(making, left)?;
            let b = must_number(making, right)?;
            Ok(Placed {
                bounds: Bounds {
                    left: a,
                    right: b,
                    down: *down,
                },
                left: left.span,
                right: right.span,
                base: left.base,
            })
        }
        TRange::Within { mark, range: inner } => {
            let placed = range(making, inner.get())?;
            let sub = making.mark(*mark);
            within(placed, sub.extent.scalar)?;
            Ok(placed)
        }
        TRange::Others(_) => Err(misfit()),
    }
}

/// Refuses a bound outside a range, where the bounds have a value between them.
pub fn within(placed: Placed, range: Bounds) -> Result<(), Fault> {
    if count(placed.bounds) == 0 {
        return Ok(());
    }
    if !contains(range, placed.bounds.left) {
        return Err(refused(Rule::E2, placed.left));
    }
    if !contains(range, placed.bounds.right) {
        return Err(refused(Rule::E2, placed.right));
    }
    Ok(())
}

/// The indexes of an array, or the values of a scalar.
fn range_of(sub: Sub) -> Result<Bounds, Fault> {
    if sub.extent.levels == 0 {
        return Ok(sub.extent.scalar);
    }
    match sub.extent.outer {
        Some(bounds) => Ok(bounds),
        None => Err(misfit()),
    }
}

/// The bounds of the prefix of an attribute.
#[cycle(prefixes)]
pub fn bounds_of<'u>(making: &mut Making<'u>, prefix: &Typed) -> Result<Bounds, Fault> {
    let sub = prefix_sub(making, prefix)?;
    range_of(sub)
}

/// The subtype of the prefix of an attribute.
#[cycle(prefixes)]
pub fn prefix_sub<'u>(making: &mut Making<'u>, prefix: &Typed) -> Result<Sub, Fault> {
    match &prefix.form {
        Form::Mark(mark) => Ok(making.mark(*mark)),
        Form::Object(decl) => Ok(object_sub(making, *decl, prefix.base)),
        Form::Part {
            prefix: of,
            suffixes,
        } => {
            let sub = prefix_sub(making, of.get())?;
            part_sub(making, sub, suffixes.as_slice())
        }
        _ => {
            let held = must(making, prefix, None)?;
            Ok(making.sub_of(prefix.base, &held))
        }
    }
}

/// The subtype of an object. An array has the bounds of its value.
pub fn object_sub<'u>(making: &Making<'u>, decl: u32, base: BaseType) -> Sub {
    match making.env.entry(decl) {
        Some(Entry::Constant(held)) => match base {
            BaseType::Array(_) => making.sub_of(base, held),
            _ => making.known(decl).sub,
        },
        _ => making.known(decl).sub,
    }
}

/// The subtype of a part of an object. Indexes are not evaluated.
#[cycle(prefixes)]
pub fn part_sub<'u>(making: &mut Making<'u>, sub: Sub, suffixes: &[Suffix]) -> Result<Sub, Fault> {
    let mut sub = sub;
    for suffix in suffixes {
        match suffix {
            Suffix::Index {
                index: _,
                base: _,
                span: _,
            } => sub = element_of(making, sub),
            Suffix::Slice { range: r, span: _ } => {
                let placed = range(making, r)?;
                sub = sub.with_outer(Some(placed.bounds));
            }
        }
    }
    Ok(sub)
}
