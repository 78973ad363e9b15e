//! Aggregates.

use crate::machine::Item;
use sqlite_items::{Items, at};
use std::alloc::Global;
use vv_base::fault::{Fault, Rule, Span};
use vv_held::held::{Held, misfit, ordinal, refused};
use vv_held::shape::{count, ends, place_in, upwards};
use vv_types::{Bounds, Value};

/// An element with its choices.
#[derive(Drop)]
pub struct Part {
    pub choices: Vec<Item>,
    pub value: Held,
    pub span: Span,
}

/// The range that a choice names.
fn range_of(item: &Item) -> Option<Bounds> {
    match item {
        Item::Range(range) => Some(*range),
        Item::Held(held) => {
            let n = ordinal(&held.value)?;
            Some(Bounds {
                left: n,
                right: n,
                down: false,
            })
        }
        Item::Others => None,
    }
}

/// The least range that has all that the choices name.
fn hull(parts: &[Part]) -> Option<Bounds> {
    let mut low = i32::MAX;
    let mut high = i32::MIN;
    for part in parts {
        for item in part.choices.as_slice() {
            let (a, b) = ends(range_of(item)?);
            low = low.min(a);
            high = high.max(b);
        }
    }
    Some(Bounds {
        left: low,
        right: high,
        down: false,
    })
}

/// The bounds of an aggregate: those that are wanted, or those of its parts.
fn bounds_of(parts: &[Part], wanted: Option<Bounds>) -> Option<Bounds> {
    let mut named = false;
    let mut others = false;
    for part in parts {
        for item in part.choices.as_slice() {
            named = true;
            if let Item::Others = item {
                others = true;
            }
        }
    }
    if others {
        wanted
    } else if named {
        hull(parts)
    } else {
        match wanted {
            Some(bounds) if count(bounds) == parts.len() as u64 => Some(bounds),
            _ => upwards(0, parts.len()),
        }
    }
}

/// Says that a part stands at the indexes of a range.
fn mark(
    owners: &mut [Option<usize>],
    bounds: Bounds,
    range: Bounds,
    owner: usize,
    span: Span,
) -> Result<(), Fault> {
    let (low, high) = ends(range);
    if high < low {
        return Ok(());
    }
    let (Some(a), Some(b)) = (place_in(bounds, low), place_in(bounds, high)) else {
        return Err(refused(Rule::E11, span));
    };
    let (first, last) = if a < b { (a, b) } else { (b, a) };
    for k in first..last.saturating_add(1) {
        let Some(place) = owners.get_mut(k as usize) else {
            return Err(refused(Rule::E11, span));
        };
        if place.is_some() {
            return Err(refused(Rule::E11, span));
        }
        *place = Some(owner);
    }
    Ok(())
}

/// Which part stands at each place. The parts stand from the last one.
fn owners_of(
    alloc: Global,
    parts: &[Part],
    bounds: Bounds,
    span: Span,
) -> Result<Vec<Option<usize>>, Fault> {
    let Ok(n) = usize::try_from(count(bounds)) else {
        return Err(refused(Rule::E8, span));
    };
    if n == 0 {
        return Err(refused(Rule::E4, span));
    }
    if n > 4096 {
        return Err(refused(Rule::E8, span));
    }
    let mut owners: Vec<Option<usize>> = vec![in alloc; None; n]?;
    let mut rest = None;
    let mut place: usize = 0;
    for (k, part) in parts.iter().enumerate().rev() {
        if part.choices.is_empty() {
            let Some(owner) = owners.get_mut(place) else {
                return Err(refused(Rule::E5, span));
            };
            *owner = Some(k);
            place = place.saturating_add(1);
        }
        for item in part.choices.as_slice() {
            match range_of(item) {
                Some(range) => mark(owners.as_mut_slice(), bounds, range, k, part.span)?,
                None => rest = Some(k),
            }
        }
    }
    for k in 0..n {
        if let Some(owner) = owners.get_mut(k) {
            if owner.is_none() {
                *owner = rest;
            }
        }
    }
    Ok(owners)
}

/// The array of some parts, which stand from the last one.
pub fn assembled(
    alloc: Global,
    parts: &[Part],
    wanted: Option<Bounds>,
    span: Span,
) -> Result<Held, Fault> {
    let Some(bounds) = bounds_of(parts, wanted) else {
        return Err(misfit());
    };
    let owners = owners_of(alloc, parts, bounds, span)?;
    let inner = match at(parts, 0) {
        Some(part) => part.value.outer,
        None => None,
    };
    let mut elements = Items::new(alloc);
    for owner in owners.as_slice() {
        let Some(k) = *owner else {
            return Err(refused(Rule::E11, span));
        };
        let Some(part) = at(parts, k) else {
            return Err(misfit());
        };
        if let (Some(a), Some(b)) = (inner, part.value.outer) {
            if count(a) != count(b) {
                return Err(refused(Rule::E5, part.span));
            }
        }
        elements.push(part.value.value.copy(alloc)?)?;
    }
    Ok(Held {
        value: Value::Array(elements),
        outer: Some(bounds),
        inner,
    })
}
