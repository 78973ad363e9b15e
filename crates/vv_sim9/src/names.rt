//! Parts of objects.

use crate::build::{Build, Operand};
use vv_base::fault::{Memory, Span, cannot_come};
use vv_engine::Instr;
use vv_types::{Bounds, Place};

/// Cells of an object: those from a first one on, behind an offset that a run finds where there is an index that is not static.
#[derive(Clone, Copy)]
pub struct Part {
    pub place: Place,
    pub offset: Option<u32>,
    pub known: Option<i32>,
}

/// All cells of a place.
pub fn whole(place: Place) -> Part {
    Part {
        place,
        offset: None,
        known: None,
    }
}

/// The cells of an operand.
pub fn part_of(operand: Operand) -> Part {
    Part {
        place: operand.place,
        offset: None,
        known: operand.known,
    }
}

/// Some cells of a part, from one on.
pub fn taken(part: Part, first: u32, size: u32) -> Result<Part, Memory> {
    match part.place.first.checked_add(first) {
        Some(first) => Ok(Part {
            place: Place { first, size },
            offset: part.offset,
            known: None,
        }),
        None => Err(cannot_come()),
    }
}

/// The element of a part at an index.
pub fn located<'d>(
    to: &mut Build<'d>,
    part: Part,
    index: Operand,
    bounds: Bounds,
    size: u32,
    at: Span,
) -> Result<Part, Memory> {
    let cell = to.temporary(1)?.first;
    let plus = part.offset.unwrap_or(to.zero);
    to.push(Instr::Locate {
        index: index.place.first,
        bounds,
        width: size,
        plus,
        to: cell,
        at,
    })?;
    Ok(Part {
        place: Place {
            first: part.place.first,
            size,
        },
        offset: Some(cell),
        known: None,
    })
}

/// Reads a part: where it lies, or else from a copy.
pub fn read<'d>(to: &mut Build<'d>, part: Part) -> Result<Operand, Memory> {
    match part.offset {
        None => Ok(Operand {
            place: part.place,
            known: part.known,
        }),
        Some(offset) => {
            let place = to.temporary(part.place.size)?;
            to.push(Instr::Fetch {
                first: part.place.first,
                offset,
                to: place,
            })?;
            Ok(Operand { place, known: None })
        }
    }
}
