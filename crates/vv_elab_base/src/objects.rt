//! Values as those of a subtype: lengths that have to agree, and checks of ranges.

use crate::making::{Made, Making};
use crate::sub::{Sub, short};
use sqlite_items::Boxed;
use vv_base::fault::{Fault, Memory, Rule, Span};
use vv_design::{Expr, Form};
use vv_held::Shape as Extent;
use vv_held::held::refused;
use vv_held::shape::{count, ends};
use vv_types::{BaseType, Bounds};

/// Refuses an array whose lengths differ from those that are wanted.
pub fn matched(sub: Sub, wanted: Extent, span: Span) -> Result<(), Fault> {
    for (own, other) in [
        (sub.extent.outer, wanted.outer),
        (sub.extent.inner, wanted.inner),
    ] {
        if let (Some(a), Some(b)) = (own, other) {
            if count(a) != count(b) {
                return Err(refused(Rule::E5, span));
            }
        }
    }
    Ok(())
}

/// A scalar with a check of its range, where it may lie outside. `span` is that of the written operand.
pub fn checked<'u>(
    making: &Making<'u>,
    made: Made,
    range: Bounds,
    span: Span,
) -> Result<Made, Memory> {
    let Made { expr, sub } = made;
    if sub.extent.levels > 0 || sub.base == BaseType::Logic {
        return Ok(Made { expr, sub });
    }
    let (low, high) = ends(range);
    let (least, most) = ends(sub.extent.scalar);
    if low <= least && most <= high {
        return Ok(Made { expr, sub });
    }
    let shape = expr.shape;
    Ok(Made {
        expr: Expr {
            form: Form::Check {
                operand: Boxed::new(making.alloc, expr)?,
                low,
                high,
            },
            shape,
            span,
        },
        sub: Sub::scalar(
            sub.base,
            Bounds {
                left: low.max(least),
                right: high.min(most),
                down: false,
            },
        ),
    })
}

/// A value as one of a subtype.
pub fn fit<'u>(making: &Making<'u>, made: Made, wanted: Extent, span: Span) -> Result<Made, Fault> {
    matched(made.sub, wanted, span)?;
    Ok(checked(making, made, wanted.scalar, span)?)
}

/// How many bits a scalar of a subtype has.
fn bits_of<'u>(making: &Making<'u>, sub: Sub) -> u32 {
    let (low, high) = ends(sub.extent.scalar);
    match sub.extent.base {
        BaseType::Logic | BaseType::Bool | BaseType::Array(_) => 1,
        BaseType::Int => {
            if low < 0 {
                digits(reach(low).max(reach(high))).saturating_add(1)
            } else {
                digits(reach(high)).max(1)
            }
        }
        BaseType::Enum(decl) => digits(making.known(decl).count.saturating_sub(1)).max(1),
    }
}

fn digits(n: u32) -> u32 {
    if n == 0 {
        0
    } else {
        n.ilog2().saturating_add(1)
    }
}

fn reach(n: i32) -> u32 {
    if n < 0 {
        (!n).unsigned_abs()
    } else {
        n.unsigned_abs()
    }
}

/// Refuses arrays without elements, scalars without values, and what is too wide.
pub fn objects_only<'u>(making: &Making<'u>, sub: Sub, span: Span) -> Result<(), Fault> {
    if sub.extent.levels > 0 {
        arrays_only(making, sub, span)?;
    }
    if count(sub.extent.scalar) == 0 {
        return Err(refused(Rule::E4, span));
    }
    Ok(())
}

/// Refuses arrays without elements, and what is too wide.
pub fn arrays_only<'u>(making: &Making<'u>, sub: Sub, span: Span) -> Result<(), Fault> {
    for bounds in [sub.extent.outer, sub.extent.inner] {
        if let Some(bounds) = bounds {
            let n = short(count(bounds));
            if n == 0 {
                return Err(refused(Rule::E4, span));
            }
            if n > 4096 {
                return Err(refused(Rule::E8, span));
            }
        }
    }
    if sub.extent.outer.is_some() && sub.size().saturating_mul(bits_of(making, sub)) > 65536 {
        return Err(refused(Rule::E8, span));
    }
    Ok(())
}
