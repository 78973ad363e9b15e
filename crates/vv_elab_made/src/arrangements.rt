//! Which element of an aggregate each choice names.

use crate::nodes::made;
use sqlite_items::Items;
use std::alloc::Global;
use vv_base::fault::{Fault, Rule, Span};
use vv_design::{ExprList, Form as Designed};
use vv_elab_base::making::{Made, Making};
use vv_elab_base::sub::{Sub, short};
use vv_elab_types::ranges::{Placed, range};
use vv_held::held::refused;
use vv_held::shape::{count, ends, place_in, upwards};
use vv_typed::{Element, TRange};
use vv_types::{BaseType, Bounds};

/// Whose element it is: no choices, some ranges, or all that is left.
#[derive(Clone, Copy)]
enum Choice {
    Next,
    Range { bounds: Bounds, at: Span },
    Others,
}

/// A choice and the number of its part.
#[derive(Clone, Copy)]
pub struct Chosen {
    choice: Choice,
    part: u32,
}

/// The choices of an element.
pub fn choices<'u>(
    making: &mut Making<'u>,
    part: &'u Element,
    number: u32,
    into: &mut Vec<Chosen>,
) -> Result<(), Fault> {
    if part.choices.is_empty() {
        into.push(Chosen {
            choice: Choice::Next,
            part: number,
        })?;
    }
    for choice in part.choices.as_slice() {
        let choice = match choice {
            TRange::Others(_) => Choice::Others,
            _ => {
                let Placed {
                    bounds,
                    left,
                    right: _,
                    base: _,
                } = range(making, choice)?;
                Choice::Range { bounds, at: left }
            }
        };
        into.push(Chosen {
            choice,
            part: number,
        })?;
    }
    Ok(())
}

/// The bounds of an aggregate where nothing else gives some.
pub fn bounds_by(chosen: &[Chosen], parts: usize) -> Option<Bounds> {
    let mut low = i32::MAX;
    let mut high = i32::MIN;
    for item in chosen {
        match item.choice {
            Choice::Next => return upwards(0, parts),
            Choice::Others => return None,
            Choice::Range { bounds, at: _ } => {
                let (a, b) = ends(bounds);
                low = low.min(a);
                high = high.max(b);
            }
        }
    }
    Some(Bounds {
        left: low,
        right: high,
        down: false,
    })
}

/// The aggregate of some parts.
pub fn arranged<'u>(
    making: &Making<'u>,
    base: BaseType,
    span: Span,
    chosen: &[Chosen],
    parts: ExprList,
    bounds: Bounds,
    element: Sub,
) -> Result<Made, Fault> {
    let n = short(count(bounds));
    if n == 0 {
        return Err(refused(Rule::E4, span));
    }
    if n > 4096 {
        return Err(refused(Rule::E8, span));
    }
    let numbers = owners(making.alloc, chosen, bounds, n, span)?;
    let sub = Sub {
        base,
        extent: element.extent.array_of(Some(bounds)),
    };
    let form = Designed::Aggregate {
        parts,
        elements: numbers,
    };
    Ok(made(making, form, sub, span))
}

/// For each element from the left the number of its part.
fn owners(
    alloc: Global,
    chosen: &[Chosen],
    bounds: Bounds,
    n: u32,
    span: Span,
) -> Result<Items<u32>, Fault> {
    let mut owners: Vec<Option<u32>> = vec![in alloc; None; n as usize]?;
    let mut rest = None;
    let mut next = 0;
    let mut named = false;
    for item in chosen {
        match item.choice {
            Choice::Next => {
                if next >= owners.len() {
                    return Err(refused(Rule::E5, span));
                }
                owners[next] = Some(item.part);
                next = next.saturating_add(1);
            }
            Choice::Others => rest = Some(item.part),
            Choice::Range { bounds: own, at } => {
                named = true;
                own_range(owners.as_mut_slice(), bounds, own, item.part, at)?;
            }
        }
    }
    let mut numbers = Items::new(alloc);
    for owner in owners.as_slice() {
        match owner.or(rest) {
            Some(part) => numbers.push(part)?,
            None => {
                let rule = if named { Rule::E11 } else { Rule::E5 };
                return Err(refused(rule, span));
            }
        }
    }
    Ok(numbers)
}

/// Says that a part stands at the indexes of a range.
fn own_range(
    owners: &mut [Option<u32>],
    bounds: Bounds,
    own: Bounds,
    part: u32,
    at: Span,
) -> Result<(), Fault> {
    if count(own) == 0 {
        return Ok(());
    }
    let (low, high) = ends(own);
    let (Some(a), Some(b)) = (place_in(bounds, low), place_in(bounds, high)) else {
        return Err(refused(Rule::E11, at));
    };
    for k in a.min(b)..a.max(b).saturating_add(1) {
        let Some(owner) = owners.get_mut(k as usize) else {
            return Err(refused(Rule::E11, at));
        };
        if owner.is_some() {
            return Err(refused(Rule::E11, at));
        }
        *owner = Some(part);
    }
    Ok(())
}
