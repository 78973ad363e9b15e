//! Values that are changed in a part.

use crate::machine::Item;
use sqlite_items::{Items, at};
use std::alloc::Global;
use vv_base::fault::{Fault, Rule, Span};
use vv_held::held::{fitted, misfit, ordinal, refused, slice_start};
use vv_held::shape::{count, place_in};
use vv_held::{Held, Shape};
use vv_types::{Bounds, Value};

/// A value with another one in a part of it. The last item of the path is the first suffix.
pub fn written(
    alloc: Global,
    old: &Held,
    path: &[Item],
    held: Held,
    shape: Shape,
    span: Span,
) -> Result<Held, Fault> {
    let Some(bounds) = old.outer else {
        return Err(misfit());
    };
    let (first, n, range) = match path.last() {
        Some(Item::Range(range)) => (slice_start(bounds, *range, span)?, count(*range), true),
        Some(Item::Held(index)) => {
            let Some(index) = ordinal(&index.value) else {
                return Err(misfit());
            };
            let Some(place) = place_in(bounds, index) else {
                return Err(refused(Rule::E2, span));
            };
            (place, 1, false)
        }
        _ => return Err(misfit()),
    };
    let mut elements = Items::new(alloc);
    for (k, x) in old.elements().iter().enumerate() {
        let k = k as u64;
        let fresh = if k < first || k.saturating_sub(first) >= n {
            x.copy(alloc)?
        } else if range {
            part_of(alloc, &held, k.saturating_sub(first), n, span)?
        } else {
            inner_part(alloc, x, old.inner, path, &held, shape, span)?
        };
        elements.push(fresh)?;
    }
    Ok(Held {
        value: Value::Array(elements),
        outer: old.outer,
        inner: old.inner,
    })
}

/// Element `k` of a value of `n` elements.
fn part_of(alloc: Global, held: &Held, k: u64, n: u64, span: Span) -> Result<Value, Fault> {
    let xs = held.elements();
    if xs.len() as u64 != n {
        return Err(refused(Rule::E5, span));
    }
    match at(xs, k as usize) {
        Some(x) => Ok(x.copy(alloc)?),
        None => Err(misfit()),
    }
}

/// What an element becomes, by the second suffix where there is one.
fn inner_part(
    alloc: Global,
    x: &Value,
    inner: Option<Bounds>,
    path: &[Item],
    held: &Held,
    shape: Shape,
    span: Span,
) -> Result<Value, Fault> {
    match path {
        [second, _] => {
            let element = Held {
                value: x.copy(alloc)?,
                outer: inner,
                inner: None,
            };
            written_once(alloc, &element, second, held, shape, span)
        }
        _ => {
            let held = fitted(held.copy(alloc)?, shape.element(), span)?;
            Ok(value_of(held))
        }
    }
}

/// A vector with a value in a part of it.
fn written_once(
    alloc: Global,
    old: &Held,
    item: &Item,
    held: &Held,
    shape: Shape,
    span: Span,
) -> Result<Value, Fault> {
    let Some(bounds) = old.outer else {
        return Err(misfit());
    };
    let mut elements = Items::new(alloc);
    let (first, n) = match item {
        Item::Range(range) => (slice_start(bounds, *range, span)?, count(*range)),
        Item::Held(index) => {
            let Some(n) = ordinal(&index.value) else {
                return Err(misfit());
            };
            match place_in(bounds, n) {
                Some(place) => (place, 1),
                None => return Err(refused(Rule::E2, span)),
            }
        }
        Item::Others => return Err(misfit()),
    };
    for (k, x) in old.elements().iter().enumerate() {
        let k = k as u64;
        let fresh = if k < first || k.saturating_sub(first) >= n {
            x.copy(alloc)?
        } else {
            match item {
                Item::Range(_) => part_of(alloc, held, k.saturating_sub(first), n, span)?,
                _ => {
                    let held = fitted(held.copy(alloc)?, shape.element().element(), span)?;
                    value_of(held)
                }
            }
        };
        elements.push(fresh)?;
    }
    Ok(Value::Array(elements))
}

/// A value without its bounds.
fn value_of(held: Held) -> Value {
    let Held {
        value,
        outer: _,
        inner: _,
    } = held;
    value
}
