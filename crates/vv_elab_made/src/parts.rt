//! Parts of made expressions.

use sqlite_items::{Boxed, Items, at};
use vv_base::fault::{Fault, Memory, Rule, Span};
use vv_design::{Expr, Form};
use vv_elab_base::making::Making;
use vv_elab_base::sub::{Sub, shape_of};
use vv_elab_types::ranges::{Placed, range};
use vv_held::held::{misfit, refused};
use vv_held::shape::{count, place_in};
use vv_typed::TRange;
use vv_types::{Bounds, Value};

/// An index: its place from the left, or an expression that may lie outside.
#[derive(Drop)]
pub enum Index {
    Place(u32),
    Expr(Expr),
}

/// A place as a number of 32 bits.
pub fn place_of(place: u64) -> Result<u32, Memory> {
    match u32::try_from(place) {
        Ok(place) => Ok(place),
        Err(_) => Err(Memory),
    }
}

/// The bounds of a slice, and the place of its first element.
pub fn slice<'u>(
    making: &mut Making<'u>,
    r: &TRange,
    bounds: Bounds,
    span: Span,
) -> Result<(Bounds, u32), Fault> {
    let placed = range(making, r)?;
    let Placed {
        bounds: own,
        left,
        right,
        base: _,
    } = placed;
    if count(own) == 0 || own.down != bounds.down {
        return Err(refused(Rule::E4, span));
    }
    let Some(first) = place_in(bounds, own.left) else {
        return Err(refused(Rule::E2, left));
    };
    if place_in(bounds, own.right).is_none() {
        return Err(refused(Rule::E2, right));
    }
    Ok((own, place_of(first)?))
}

/// Some scalars of an expression, from the one with the number `first` on.
fn elements<'u>(
    making: &Making<'u>,
    of: Expr,
    first: u32,
    sub: Sub,
    span: Span,
) -> Result<Expr, Memory> {
    let shape = shape_of(making, sub);
    let (of, first) = match of.form {
        Form::Elements {
            of: inner,
            first: before,
        } => (inner, before.saturating_add(first)),
        form => {
            let of = Expr {
                form,
                shape: of.shape,
                span: of.span,
            };
            (Boxed::new(making.alloc, of)?, first)
        }
    };
    Ok(Expr {
        form: Form::Elements { of, first },
        shape,
        span,
    })
}

/// Some elements of a constant.
fn part_of_value<'u>(
    making: &Making<'u>,
    value: &Value,
    place: u32,
    range: Option<u32>,
) -> Result<Value, Fault> {
    let Value::Array(xs) = value else {
        return Err(misfit());
    };
    match range {
        None => match at(xs.as_slice(), place as usize) {
            Some(x) => Ok(x.copy(making.alloc)?),
            None => Err(misfit()),
        },
        Some(n) => {
            let mut part = Items::new(making.alloc);
            for k in 0..n {
                match at(xs.as_slice(), place.saturating_add(k) as usize) {
                    Some(x) => part.push(x.copy(making.alloc)?)?,
                    None => return Err(misfit()),
                }
            }
            Ok(Value::Array(part))
        }
    }
}

/// An element, or `range` elements, from a place on.
pub fn part<'u>(
    making: &Making<'u>,
    of: Expr,
    place: u32,
    range: Option<u32>,
    width: u32,
    sub: Sub,
    span: Span,
) -> Result<Expr, Fault> {
    let value = match &of.form {
        Form::Value(value) => Some(part_of_value(making, value, place, range)?),
        Form::Constant(number) => match making.design.constants.get(*number as usize) {
            Some(value) => Some(part_of_value(making, value, place, range)?),
            None => return Err(misfit()),
        },
        _ => None,
    };
    match value {
        Some(value) => Ok(Expr {
            form: Form::Value(value),
            shape: shape_of(making, sub),
            span,
        }),
        None => Ok(elements(making, of, place.saturating_mul(width), sub, span)?),
    }
}

/// An element by an index that is made, which may lie outside the bounds.
pub fn element<'u>(
    making: &Making<'u>,
    of: Expr,
    index: Expr,
    bounds: Bounds,
    sub: Sub,
    span: Span,
) -> Result<Expr, Memory> {
    Ok(Expr {
        form: Form::Element {
            of: Boxed::new(making.alloc, of)?,
            index: Boxed::new(making.alloc, index)?,
            bounds,
        },
        shape: shape_of(making, sub),
        span,
    })
}
