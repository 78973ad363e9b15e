//! Numbers that are divided, absolute values, and the numbers of vectors.

use crate::pool::{Held, Pool};
use vv_base::fault::Memory;
use vv_bits::V4;
use vv_lpart::{Range, Run};
use vv_lstate::{Lowering, Mode, NumberOf};
use vv_types::Op;
use vv_vtree::{VBinary, VUnary};

/// The absolute value of a number in a range, of which there are enough bits.
pub fn absolute_of(
    state: &mut Lowering<'_>,
    pool: &mut Pool,
    whole: Held,
    range: Range,
    width: u32,
) -> Result<Held, Memory> {
    if !range.is_signed() {
        return pool.resized(state, whole, width, false);
    }
    let full = whole.width;
    let run = pool.named(state, whole)?;
    let sign = pool.slice(state, run, full.saturating_sub(1), 1)?;
    let low = pool.slice(state, run, 0, width)?;
    let zero = pool.fill(state, V4::Zero, width)?;
    let other = pool.slice(state, run, 0, width)?;
    let negated = pool.binary(state, zero, VBinary::Subtract, low)?;
    pool.conditional(state, sign, negated, other)
}

/// What a division by a power of two gives.
pub fn divided(
    state: &mut Lowering<'_>,
    pool: &mut Pool,
    op: Op,
    left: Held,
    range: Range,
    places: Option<u32>,
    width: u32,
) -> Result<Held, Memory> {
    match (op, places) {
        (Op::Divide, Some(0)) => Ok(left),
        (Op::Divide, Some(k)) => quotient(state, pool, left, range, k, width),
        (Op::Modulo, Some(k)) if k > 0 => pool.resized(state, left, width, false),
        (Op::Remainder, Some(k)) if k > 0 => remainder(state, pool, left, range, k, width),
        _ => pool.fill(state, V4::Zero, width),
    }
}

/// A number divided by the kth power of two, cut toward 0.
fn quotient(
    state: &mut Lowering<'_>,
    pool: &mut Pool,
    whole: Held,
    range: Range,
    k: u32,
    width: u32,
) -> Result<Held, Memory> {
    let full = whole.width;
    if !range.is_signed() {
        if full <= k {
            return pool.fill(state, V4::Zero, width);
        }
        let high = pool.bits_from(state, whole, k, full.saturating_sub(k))?;
        return pool.resized(state, high, width, false);
    }
    if full <= k {
        // Below 2^k on both sides, but the least number, which may be -2^k itself.
        let longer = pool.resized(state, whole, k.saturating_add(1), true)?;
        return quotient_of(state, pool, longer, k.saturating_add(1), k, width);
    }
    quotient_of(state, pool, whole, full, k, width)
}

/// The same of the bits of a number that may be below 0; there are more than k.
fn quotient_of(
    state: &mut Lowering<'_>,
    pool: &mut Pool,
    whole: Held,
    full: u32,
    k: u32,
    width: u32,
) -> Result<Held, Memory> {
    let run = pool.named(state, whole)?;
    let sign = pool.slice(state, run, full.saturating_sub(1), 1)?;
    let zeros = pool.fill(state, V4::Zero, full.saturating_sub(k))?;
    let ones = pool.repeated(state, k, sign)?;
    let bias = pool.beside(state, zeros, ones)?;
    let sum = pool.binary(state, run, VBinary::Add, bias)?;
    let high = pool.bits_from(state, sum, k, full.saturating_sub(k))?;
    pool.resized(state, high, width, true)
}

/// What is left of a number divided by the kth power of two, with its sign.
fn remainder(
    state: &mut Lowering<'_>,
    pool: &mut Pool,
    whole: Held,
    range: Range,
    k: u32,
    width: u32,
) -> Result<Held, Memory> {
    if !range.is_signed() {
        return pool.resized(state, whole, width, false);
    }
    let full = whole.width;
    let run = pool.named(state, whole)?;
    let sign = pool.slice(state, run, full.saturating_sub(1), 1)?;
    let low = pool.slice(state, run, 0, k)?;
    let same = pool.slice(state, run, 0, k)?;
    let zero = pool.fill(state, V4::Zero, k)?;
    let turned = pool.binary(state, zero, VBinary::Subtract, low)?;
    let longer = pool.resized(state, turned, width, false)?;
    let none = pool.fill(state, V4::Zero, width)?;
    let negative = pool.binary(state, none, VBinary::Subtract, longer)?;
    let positive = pool.resized(state, same, width, false)?;
    pool.conditional(state, sign, negative, positive)
}

/// The last bits of the number of a vector, which is 0 where one of its elements is neither 0 nor 1.
pub fn number_of(
    state: &mut Lowering<'_>,
    pool: &mut Pool,
    vector: Held,
    signed: bool,
    width: u32,
) -> Result<Held, Memory> {
    if state.mode == Mode::Wires && vector.select {
        let number = number_own(state, pool, vector)?;
        let read = pool.own(state, number)?;
        return pool.resized(state, read, width, signed);
    }
    let (vector, copy) = pool.twice(state, vector)?;
    let zero = pool.fill(state, V4::Zero, width)?;
    let meta = is_meta(state, pool, copy)?;
    let number = pool.resized(state, vector, width, signed)?;
    pool.conditional(state, meta, zero, number)
}

/// The own wire with the number of a vector, one for each vector.
fn number_own(state: &mut Lowering<'_>, pool: &mut Pool, vector: Held) -> Result<u32, Memory> {
    let width = vector.width;
    let named = pool.named(state, vector)?;
    let run = pool.run(state, named)?;
    if let Some(own) = known_number(state, &run) {
        return Ok(own);
    }
    let own = number_made(state, pool, named, width)?;
    state.numbers.push(NumberOf { run, own })?;
    Ok(own)
}

/// The own wire of a vector that has one already.
fn known_number(state: &Lowering<'_>, run: &Run) -> Option<u32> {
    for known in state.numbers.as_slice() {
        if known.run.low == run.low
            && known.run.bits == run.bits
            && known.run.name.as_slice() == run.name.as_slice()
        {
            return Some(known.own);
        }
    }
    None
}

/// A new own wire with the number of a vector that has a name.
fn number_made(
    state: &mut Lowering<'_>,
    pool: &mut Pool,
    vector: Held,
    width: u32,
) -> Result<u32, Memory> {
    let tested = pool.slice(state, vector, 0, width)?;
    let zero = pool.fill(state, V4::Zero, width)?;
    let meta = is_meta(state, pool, tested)?;
    let number = pool.conditional(state, meta, zero, vector)?;
    pool.owned(state, number, b"number")
}

/// Whether a bit of a part is neither 0 nor 1.
fn is_meta(state: &mut Lowering<'_>, pool: &mut Pool, part: Held) -> Result<Held, Memory> {
    let parity = pool.unary(state, VUnary::Xor, part)?;
    let unknown = pool.bit(state, V4::X)?;
    pool.binary(state, parity, VBinary::Same, unknown)
}

/// How many bits of its left operand an operator needs.
pub fn step_needed(op: Op, range: Range, places: Option<u32>, width: u32) -> u32 {
    match (op, places) {
        (Op::Divide, Some(k)) if k > 0 => range.width(),
        (Op::Modulo, Some(k)) if k > 0 => k,
        (Op::Remainder, Some(k)) if k > 0 => {
            if range.is_signed() {
                range.width().max(k)
            } else {
                k
            }
        }
        _ => width,
    }
}

/// The sign of an operator whose last bits rest on the last bits of its operands.
pub fn sign_of(op: Op) -> VBinary {
    match op {
        Op::Times => VBinary::Multiply,
        Op::Minus => VBinary::Subtract,
        _ => VBinary::Add,
    }
}

/// The k with which the number is the kth power of two.
pub fn power_of_two(range: Range) -> Option<u32> {
    if !range.is_point() || range.low <= 0 {
        return None;
    }
    let k = range.low.trailing_zeros();
    if range.low == 1i64 << k.min(62) {
        Some(k)
    } else {
        None
    }
}
