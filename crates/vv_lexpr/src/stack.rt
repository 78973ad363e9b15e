//! Parts and spots that are written and wait for what is made of them. Each function takes what it needs off the end, and puts its
//! result there.

use crate::aggregates::{ElementRun, NamedParts, kept_part, named_part, repeated};
use crate::calls::{call_of, no_arguments, put_argument};
use crate::operands::{row_of_one, row_of_two};
use crate::ranges::range;
use sqlite_items::Items;
use std::alloc::Global;
use vv_base::fault::{Memory, cannot_come};
use vv_bits::{Bits4, V4};
use vv_design::{Expr, Operator, Scalar};
use vv_lpart::{Joined, Part, Range, Run};
use vv_lrows::{
    Held, Place, Pool, Rows, Spot, absolute_of, divided, element_at, element_by, number_of,
    read_spot, sign_of, spot_of,
};
use vv_lstate::Lowering;
use vv_types::{Bounds, Op};
use vv_vtree::VBinary;

/// What is written and waits.
#[derive(Drop)]
pub struct Stack {
    pool: Pool,
    parts: Items<Held>,
    places: Items<Place>,
}

impl Stack {
    /// Nothing yet.
    pub fn new(alloc: Global) -> Stack {
        Stack {
            pool: Pool::new(alloc),
            parts: Items::new(alloc),
            places: Items::new(alloc),
        }
    }

    /// How many parts there are.
    pub fn len(&self) -> usize {
        self.parts.len()
    }

    /// How many bits the last part has.
    pub fn width(&self) -> u32 {
        match self.parts.as_slice().last() {
            Some(part) => part.width,
            None => 0,
        }
    }

    fn push(&mut self, part: Held) -> Result<(), Memory> {
        Ok(self.parts.push(part)?)
    }

    /// Takes the last part.
    fn taken(&mut self) -> Result<Held, Memory> {
        match self.parts.pop() {
            Some(part) => Ok(part),
            None => Err(cannot_come()),
        }
    }

    fn push_place(&mut self, place: Place) -> Result<(), Memory> {
        Ok(self.places.push(place)?)
    }

    /// Takes the last spot.
    fn taken_place(&mut self) -> Result<Place, Memory> {
        match self.places.pop() {
            Some(place) => Ok(place),
            None => Err(cannot_come()),
        }
    }

    /// Takes the last part, as it is written.
    pub fn part(&mut self) -> Result<Part, Memory> {
        let part = self.taken()?;
        self.pool.taken(part)
    }

    /// Takes the last spot, as it is written.
    pub fn spot(&mut self, state: &mut Lowering<'_>) -> Result<Spot, Memory> {
        let place = self.taken_place()?;
        spot_of(state, &mut self.pool, place)
    }

    /// Puts a part at the end.
    pub fn push_part(&mut self, part: Part) -> Result<(), Memory> {
        let held = self.pool.hold(part)?;
        self.push(held)
    }

    /// Takes the parts behind the first `base` ones, the last one first.
    fn taken_from(&mut self, alloc: Global, base: usize) -> Result<Items<Held>, Memory> {
        let mut turned = Items::new(alloc);
        for _ in base..self.parts.len() {
            if let Some(part) = self.parts.pop() {
                turned.push(part)?;
            }
        }
        Ok(turned)
    }
}

/// So many equal bits.
pub fn push_fill(
    state: &Lowering<'_>,
    bit: V4,
    width: u32,
    stack: &mut Stack,
) -> Result<(), Memory> {
    let part = stack.pool.fill(state, bit, width)?;
    stack.push(part)
}

/// The last bits of a number.
pub fn push_number(
    state: &Lowering<'_>,
    n: i64,
    width: u32,
    stack: &mut Stack,
) -> Result<(), Memory> {
    let part = stack.pool.number(state, n, width)?;
    stack.push(part)
}

/// The last part with another number of bits.
pub fn resize(
    state: &mut Lowering<'_>,
    width: u32,
    signed: bool,
    stack: &mut Stack,
) -> Result<(), Memory> {
    let part = stack.taken()?;
    let part = stack.pool.resized(state, part, width, signed)?;
    stack.push(part)
}

/// The last part as an operand.
pub fn as_operand(state: &mut Lowering<'_>, stack: &mut Stack) -> Result<(), Memory> {
    let part = stack.taken()?;
    let part = stack.pool.operand(state, part)?;
    stack.push(part)
}

/// 0 less the last part.
pub fn negate(state: &mut Lowering<'_>, width: u32, stack: &mut Stack) -> Result<(), Memory> {
    let part = stack.taken()?;
    let zero = stack.pool.fill(state, V4::Zero, width)?;
    let part = stack.pool.binary(state, zero, VBinary::Subtract, part)?;
    stack.push(part)
}

/// The absolute value of the last part, a number of a range.
pub fn absolute(
    state: &mut Lowering<'_>,
    range: Range,
    width: u32,
    stack: &mut Stack,
) -> Result<(), Memory> {
    let part = stack.taken()?;
    let part = absolute_of(state, &mut stack.pool, part, range, width)?;
    stack.push(part)
}

/// The number of the last part, a vector.
pub fn number(
    state: &mut Lowering<'_>,
    signed: bool,
    width: u32,
    stack: &mut Stack,
) -> Result<(), Memory> {
    let part = stack.taken()?;
    let part = number_of(state, &mut stack.pool, part, signed, width)?;
    stack.push(part)
}

/// What an operator gives of the last two parts, which are numbers.
pub fn combine(state: &mut Lowering<'_>, op: Op, stack: &mut Stack) -> Result<(), Memory> {
    let right = stack.taken()?;
    let left = stack.taken()?;
    let part = stack.pool.binary(state, left, sign_of(op), right)?;
    stack.push(part)
}

/// What a division of the last part, a number of a range, by a power of two gives.
pub fn divide(
    state: &mut Lowering<'_>,
    op: Op,
    range: Range,
    places: Option<u32>,
    width: u32,
    stack: &mut Stack,
) -> Result<(), Memory> {
    let part = stack.taken()?;
    let part = divided(state, &mut stack.pool, op, part, range, places, width)?;
    stack.push(part)
}

/// What an operator gives of the last part.
pub fn put_row_of_one(
    state: &mut Lowering<'_>,
    operator: Operator,
    stack: &mut Stack,
) -> Result<(), Memory> {
    let part = stack.taken()?;
    let part = row_of_one(state, &mut stack.pool, operator, part)?;
    stack.push(part)
}

/// What an operator gives of the last part and the length of the result.
pub fn put_row_of_length(
    state: &mut Lowering<'_>,
    operator: Operator,
    size: u32,
    stack: &mut Stack,
) -> Result<(), Memory> {
    let part = stack.taken()?;
    let none = stack.pool.bits(Bits4::new(state.alloc))?;
    let range = Range::point(0);
    let part = row_of_two(state, &mut stack.pool, operator, part, none, range, size)?;
    stack.push(part)
}

/// What an operator gives of the last two parts.
pub fn put_row_of_two(
    state: &mut Lowering<'_>,
    operator: Operator,
    range: Range,
    size: u32,
    stack: &mut Stack,
) -> Result<(), Memory> {
    let right = stack.taken()?;
    let left = stack.taken()?;
    let part = row_of_two(state, &mut stack.pool, operator, left, right, range, size)?;
    stack.push(part)
}

/// The parts behind the first `base` ones side by side.
pub fn join_from(state: &Lowering<'_>, base: usize, stack: &mut Stack) -> Result<(), Memory> {
    let mut turned = stack.taken_from(state.alloc, base)?;
    let mut joined = Joined::new(state.alloc);
    for _ in 0..turned.len() {
        if let Some(part) = turned.pop() {
            stack.pool.join(part, &mut joined)?;
        }
    }
    stack.push_part(joined.part())
}

/// The last part as often as `count`.
pub fn repeat(state: &Lowering<'_>, count: u32, stack: &mut Stack) -> Result<(), Memory> {
    let part = stack.part()?;
    let part = repeated(state.alloc, count, part)?;
    stack.push_part(part)
}

/// A part of an aggregate that has a name already, and whether there is one.
pub fn push_named(
    state: &mut Lowering<'_>,
    names: &NamedParts,
    run: ElementRun,
    stack: &mut Stack,
) -> Result<bool, Memory> {
    match named_part(state, &mut stack.pool, names, run.part)? {
        Some(part) => {
            stack.push(part)?;
            Ok(true)
        }
        None => Ok(false),
    }
}

/// The last part as one of an aggregate. One that is needed again gets a name.
pub fn keep(
    state: &mut Lowering<'_>,
    names: &mut NamedParts,
    run: ElementRun,
    stack: &mut Stack,
) -> Result<(), Memory> {
    let part = stack.taken()?;
    let part = kept_part(state, &mut stack.pool, names, run, part)?;
    stack.push(part)
}

/// The call of a function, whose arguments are the parts behind the first `base` ones in the order of the text.
pub fn put_call(
    state: &mut Lowering<'_>,
    number: u32,
    formals: &[u32],
    base: usize,
    stack: &mut Stack,
) -> Result<(), Memory> {
    let design = state.design;
    let function = design.function(number)?;
    let mut turned = stack.taken_from(state.alloc, base)?;
    let mut slots = no_arguments(state.alloc, function)?;
    for param in formals {
        if let Some(part) = turned.pop() {
            put_argument(&mut slots, *param, part);
        }
    }
    let part = call_of(state, &mut stack.pool, number, function, slots.as_slice())?;
    stack.push(part)
}

/// The last part, whose scalars get `width` bits each where they are numbers.
pub fn convert(
    e: &Expr,
    width: u32,
    state: &mut Lowering<'_>,
    stack: &mut Stack,
) -> Result<(), Memory> {
    if !matches!(e.shape.scalar(), Scalar::Int) {
        return Ok(());
    }
    let size = e.shape.size();
    let own = stack.width().checked_div(size).unwrap_or(width);
    if own == width {
        return Ok(());
    }
    let signed = range(e, state).is_signed();
    let part = stack.taken()?;
    let run = stack.pool.named(state, part)?;
    let mut joined = Joined::new(state.alloc);
    for k in (0..size).rev() {
        let number = stack.pool.slice(state, run, k.saturating_mul(own), own)?;
        let number = stack.pool.resized(state, number, width, signed)?;
        stack.pool.join(number, &mut joined)?;
    }
    stack.push_part(joined.part())
}

/// The bits of a net.
pub fn push_net(state: &Lowering<'_>, net: u32, stack: &mut Stack) -> Result<(), Memory> {
    push_run(state.net_run(net)?, stack)
}

/// The bits of a variable.
pub fn push_variable(
    state: &mut Lowering<'_>,
    variable: u32,
    stack: &mut Stack,
) -> Result<(), Memory> {
    let width = state.object(variable)?.width();
    let part = state.read_object(variable, 0, width)?;
    stack.push_part(part)?;
    name(state, stack)
}

/// The whole of a run.
pub fn push_run(run: Run, stack: &mut Stack) -> Result<(), Memory> {
    let held = stack.pool.hold(run.read())?;
    stack.push_place(Place::whole(held))
}

/// The bits of the last part, which gets a name.
pub fn name(state: &mut Lowering<'_>, stack: &mut Stack) -> Result<(), Memory> {
    let part = stack.taken()?;
    let named = stack.pool.named(state, part)?;
    stack.push_place(Place::whole(named))
}

/// Some bits of the last spot.
pub fn take_part(low: u32, bits: u32, stack: &mut Stack) -> Result<(), Memory> {
    let place = stack.taken_place()?;
    stack.push_place(place.part(low, bits))
}

/// The element at a fixed place of the last spot.
pub fn take_place(
    places: i64,
    bounds: Bounds,
    rows: Rows,
    stack: &mut Stack,
) -> Result<(), Memory> {
    let place = stack.taken_place()?;
    stack.push_place(element_at(place, places, bounds, rows))
}

/// The element of the last spot by the last part as its index.
pub fn take_element(
    state: &mut Lowering<'_>,
    bounds: Bounds,
    rows: Rows,
    stack: &mut Stack,
) -> Result<(), Memory> {
    let index = stack.taken()?;
    let place = stack.taken_place()?;
    let element = element_by(state, &mut stack.pool, place, index, bounds, rows)?;
    stack.push_place(element)
}

/// What stands at the last spot.
pub fn read(state: &mut Lowering<'_>, stack: &mut Stack) -> Result<(), Memory> {
    let place = stack.taken_place()?;
    let part = read_spot(state, &mut stack.pool, place)?;
    stack.push(part)
}
