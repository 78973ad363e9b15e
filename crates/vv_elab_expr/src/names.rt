//! Parts of names.

use crate::expressions::expression;
use vv_base::fault::Fault;
use vv_elab_base::making::{Made, Making, outer_of};
use vv_elab_base::objects::checked;
use vv_elab_base::sub::element_of;
use vv_elab_made::parts::{Index, element, part, place_of, slice};
use vv_elab_plain::fixed::is_fixed;
use vv_held::held::{misfit, ordinal};
use vv_held::shape::place_in;
use vv_typed::{Suffix, Typed};
use vv_types::Bounds;

/// An index of an array with these bounds.
#[cycle(expressions)]
pub fn index<'u>(making: &mut Making<'u>, e: &'u Typed, bounds: Bounds) -> Result<Index, Fault> {
    if is_fixed(making, e, true) {
        return static_index(making, e, bounds);
    }
    let made = expression(making, e, None)?;
    if made.expr.span == e.span {
        Ok(Index::Expr(made.expr))
    } else {
        Ok(Index::Expr(checked(making, made, bounds, e.span)?.expr))
    }
}

fn static_index<'u>(making: &mut Making<'u>, e: &Typed, bounds: Bounds) -> Result<Index, Fault> {
    making.node()?;
    let held = making.fold(e, None)?;
    let Some(n) = ordinal(&held.value) else {
        return Err(misfit());
    };
    match place_in(bounds, n) {
        Some(place) => Ok(Index::Place(place_of(place)?)),
        None => Ok(Index::Expr(making.value(held, e.base, e.span).expr)),
    }
}

/// The part of a value that suffixes take.
#[cycle(expressions)]
pub fn parts<'u>(making: &mut Making<'u>, suffixes: &'u [Suffix], of: Made) -> Result<Made, Fault> {
    let Made { mut expr, mut sub } = of;
    for suffix in suffixes {
        let bounds = outer_of(sub)?;
        let width = sub.element_size();
        match suffix {
            Suffix::Index {
                index: e,
                base: _,
                span,
            } => {
                let inner = element_of(making, sub);
                expr = match index(making, e, bounds)? {
                    Index::Place(place) => part(making, expr, place, None, width, inner, *span)?,
                    Index::Expr(index) => element(making, expr, index, bounds, inner, *span)?,
                };
                sub = inner;
            }
            Suffix::Slice { range: r, span } => {
                let (own, first) = slice(making, r, bounds, *span)?;
                let taken = sub.with_outer(Some(own));
                expr = part(making, expr, first, Some(taken.len()), width, taken, *span)?;
                sub = taken;
            }
        }
    }
    Ok(Made { expr, sub })
}
