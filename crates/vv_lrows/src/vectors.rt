//! The operators and functions of `numeric_std`.

use crate::logic::ordered;
use crate::pool::{Held, Pool};
use vv_base::fault::Memory;
use vv_bits::V4;
use vv_lpart::{Does, Range, Row, digits};
use vv_lstate::Lowering;
use vv_vtree::{VBinary, VUnary};

/// How many bits of a number in a range a row needs beside a vector.
pub fn number_needed(row: Row, range: Range, length: u32) -> u32 {
    match row.does {
        Does::Equal
        | Does::NotEqual
        | Does::Less
        | Does::LessEqual
        | Does::Greater
        | Does::GreaterEqual => {
            let own = if row.signed {
                range.signed_width()
            } else {
                range.width()
            };
            own.max(length)
        }
        Does::ShiftLeft | Does::ShiftRight => {
            let enough = index_width(length);
            if range.high <= i64::from(length) {
                enough
            } else {
                enough.max(range.width())
            }
        }
        Does::RotateLeft | Does::RotateRight => {
            if range.high < i64::from(length) || length.is_power_of_two() {
                places_width(length)
            } else {
                range.width()
            }
        }
        _ => length,
    }
}

/// What a row of `numeric_std` gives of two operands, where that is no number. A number lies in `range` and has as many bits as
/// `number_needed` says; `size` is how many elements the result has.
pub fn numeric(
    state: &mut Lowering<'_>,
    pool: &mut Pool,
    row: Row,
    a: Held,
    b: Held,
    range: Range,
    size: u32,
) -> Result<Held, Memory> {
    match row.does {
        Does::Add => sum(state, pool, row, VBinary::Add, a, b),
        Does::Subtract => sum(state, pool, row, VBinary::Subtract, a, b),
        Does::Multiply => product(state, pool, row, a, b),
        Does::Equal => equality(state, pool, row, VBinary::Same, a, b),
        Does::NotEqual => equality(state, pool, row, VBinary::NotSame, a, b),
        Does::Less => order(state, pool, row, VBinary::Less, a, b),
        Does::LessEqual => order(state, pool, row, VBinary::LessOrEqual, a, b),
        Does::Greater => order(state, pool, row, VBinary::Greater, a, b),
        Does::GreaterEqual => order(state, pool, row, VBinary::GreaterOrEqual, a, b),
        Does::And => pool.binary(state, a, VBinary::And, b),
        Does::Or => pool.binary(state, a, VBinary::Or, b),
        Does::Xor => pool.binary(state, a, VBinary::Xor, b),
        Does::Nand => turned(state, pool, VBinary::And, a, b),
        Does::Nor => turned(state, pool, VBinary::Or, a, b),
        Does::Xnor => turned(state, pool, VBinary::Xor, a, b),
        Does::ShiftLeft | Does::ShiftRight => shift(state, pool, row, a, b, range),
        Does::RotateLeft | Does::RotateRight => rotation(state, pool, row, a, b, range),
        Does::Resize => resize(state, pool, row, a, size),
        Does::ToVector | Does::Absolute | Does::Negate | Does::Not | Does::ToInteger => Ok(a),
    }
}

/// What a row gives of one operand, where that is no number.
pub fn numeric_of_one(
    state: &mut Lowering<'_>,
    pool: &mut Pool,
    row: Row,
    part: Held,
) -> Result<Held, Memory> {
    let width = part.width;
    match row.does {
        Does::Negate => {
            let zero = pool.fill(state, V4::Zero, width)?;
            pool.binary(state, zero, VBinary::Subtract, part)
        }
        Does::Absolute => {
            let run = pool.named(state, part)?;
            let sign = pool.slice(state, run, width.saturating_sub(1), 1)?;
            let copy = pool.slice(state, run, 0, width)?;
            let zero = pool.fill(state, V4::Zero, width)?;
            let negated = pool.binary(state, zero, VBinary::Subtract, copy)?;
            let zero = pool.fill(state, V4::Zero, width)?;
            let same = pool.binary(state, zero, VBinary::Add, run)?;
            pool.conditional(state, sign, negated, same)
        }
        _ => pool.unary(state, VUnary::Not, part),
    }
}

fn turned(
    state: &mut Lowering<'_>,
    pool: &mut Pool,
    op: VBinary,
    a: Held,
    b: Held,
) -> Result<Held, Memory> {
    let part = pool.binary(state, a, op, b)?;
    pool.unary(state, VUnary::Not, part)
}

fn sum(
    state: &mut Lowering<'_>,
    pool: &mut Pool,
    row: Row,
    op: VBinary,
    a: Held,
    b: Held,
) -> Result<Held, Memory> {
    let width = a.width.max(b.width);
    let a = pool.resized(state, a, width, row.signed)?;
    let b = pool.resized(state, b, width, row.signed)?;
    pool.binary(state, a, op, b)
}

fn product(
    state: &mut Lowering<'_>,
    pool: &mut Pool,
    row: Row,
    a: Held,
    b: Held,
) -> Result<Held, Memory> {
    let width = a.width.saturating_add(b.width);
    let a = pool.resized(state, a, width, row.signed)?;
    let b = pool.resized(state, b, width, row.signed)?;
    pool.binary(state, a, VBinary::Multiply, b)
}

/// `=` and `/=`. Where one side is written 0s and 1s, the bits are compared as they are.
fn equality(
    state: &mut Lowering<'_>,
    pool: &mut Pool,
    row: Row,
    op: VBinary,
    a: Held,
    b: Held,
) -> Result<Held, Memory> {
    let width = a.width.max(b.width);
    let a = pool.resized(state, a, width, row.signed)?;
    let b = pool.resized(state, b, width, row.signed)?;
    if is_number(pool, a) || is_number(pool, b) {
        return pool.binary(state, a, op, b);
    }
    let equal = pool.binary(state, a, VBinary::Equal, b)?;
    let one = pool.bit(state, V4::One)?;
    pool.binary(state, equal, op, one)
}

fn order(
    state: &mut Lowering<'_>,
    pool: &mut Pool,
    row: Row,
    op: VBinary,
    a: Held,
    b: Held,
) -> Result<Held, Memory> {
    let width = a.width.max(b.width);
    let a = pool.resized(state, a, width, row.signed)?;
    let b = pool.resized(state, b, width, row.signed)?;
    let less = ordered(state, pool, a, op, b, row.signed)?;
    let one = pool.bit(state, V4::One)?;
    pool.binary(state, less, VBinary::Same, one)
}

fn resize(
    state: &mut Lowering<'_>,
    pool: &mut Pool,
    row: Row,
    part: Held,
    size: u32,
) -> Result<Held, Memory> {
    if row.signed && size < part.width && size > 1 {
        // The sign is kept with the rightmost ones.
        let width = part.width;
        let run = pool.named(state, part)?;
        let sign = pool.slice(state, run, width.saturating_sub(1), 1)?;
        let rest = pool.slice(state, run, 0, size.saturating_sub(1))?;
        return pool.beside(state, sign, rest);
    }
    if row.signed && size < part.width {
        let width = part.width;
        return pool.bits_from(state, part, width.saturating_sub(1), 1);
    }
    pool.resized(state, part, size, row.signed)
}

fn shift(
    state: &mut Lowering<'_>,
    pool: &mut Pool,
    row: Row,
    part: Held,
    count: Held,
    range: Range,
) -> Result<Held, Memory> {
    let width = part.width;
    let to_left = matches!(row.does, Does::ShiftLeft);
    let signed = row.signed && !to_left;
    if range.is_point() {
        let by = u32::try_from(range.low.max(0).min(i64::from(width))).unwrap_or(width);
        return shift_by(state, pool, part, by, to_left, signed);
    }
    let places = shift_count(state, pool, count, range, width)?;
    let padded = if to_left {
        let zeros = pool.fill(state, V4::Zero, width)?;
        pool.beside(state, part, zeros)?
    } else if signed {
        pool.resized(state, part, width.saturating_mul(2), true)?
    } else {
        let zeros = pool.fill(state, V4::Zero, width)?;
        pool.beside(state, zeros, part)?
    };
    let index = if to_left {
        let full = pool.number(state, i64::from(width), places.width)?;
        pool.binary(state, full, VBinary::Subtract, places)?
    } else {
        places
    };
    from_index(state, pool, padded, index, width)
}

/// A shift by a number that is known and at most the length.
fn shift_by(
    state: &mut Lowering<'_>,
    pool: &mut Pool,
    part: Held,
    by: u32,
    to_left: bool,
    signed: bool,
) -> Result<Held, Memory> {
    let width = part.width;
    let kept = width.saturating_sub(by);
    if to_left {
        let zeros = pool.fill(state, V4::Zero, by)?;
        if kept == 0 {
            return Ok(zeros);
        }
        let low = pool.bits_from(state, part, 0, kept)?;
        return pool.beside(state, low, zeros);
    }
    if kept == 0 && !signed {
        return pool.fill(state, V4::Zero, by);
    }
    if signed {
        let high = pool.bits_from(state, part, by.min(width.saturating_sub(1)), kept.max(1))?;
        return pool.resized(state, high, width, true);
    }
    let high = pool.bits_from(state, part, by, kept)?;
    pool.resized(state, high, width, false)
}

/// How far is shifted, at most the length.
fn shift_count(
    state: &mut Lowering<'_>,
    pool: &mut Pool,
    count: Held,
    range: Range,
    width: u32,
) -> Result<Held, Memory> {
    let enough = index_width(width);
    if range.high <= i64::from(width) {
        return Ok(count);
    }
    let (whole, copy) = pool.twice(state, count)?;
    let most = pool.number(state, i64::from(width), copy.width)?;
    let over = pool.binary(state, copy, VBinary::Greater, most)?;
    let most = pool.number(state, i64::from(width), enough)?;
    let low = pool.bits_from(state, whole, 0, enough)?;
    pool.conditional(state, over, most, low)
}

fn rotation(
    state: &mut Lowering<'_>,
    pool: &mut Pool,
    row: Row,
    part: Held,
    count: Held,
    range: Range,
) -> Result<Held, Memory> {
    let width = part.width;
    if width == 1 {
        return Ok(part);
    }
    let to_left = matches!(row.does, Does::RotateLeft);
    if range.is_point() {
        let places = range.low.max(0).checked_rem(i64::from(width));
        let by = u32::try_from(places.unwrap_or(0)).unwrap_or(0);
        let from = if to_left {
            width.saturating_sub(by)
        } else {
            by
        };
        return rotated(state, pool, part, from);
    }
    let places = places_around(state, pool, count, range, width)?;
    let (part, copy) = pool.twice(state, part)?;
    let doubled = pool.beside(state, part, copy)?;
    let enough = index_width(width);
    let places = pool.resized(state, places, enough, false)?;
    let index = if to_left {
        let full = pool.number(state, i64::from(width), enough)?;
        pool.binary(state, full, VBinary::Subtract, places)?
    } else {
        places
    };
    from_index(state, pool, doubled, index, width)
}

/// The bits from `from` on, and to their left those before.
fn rotated(
    state: &mut Lowering<'_>,
    pool: &mut Pool,
    part: Held,
    from: u32,
) -> Result<Held, Memory> {
    let width = part.width;
    if from == 0 || from >= width {
        return Ok(part);
    }
    let (part, copy) = pool.twice(state, part)?;
    let low = pool.bits_from(state, part, 0, from)?;
    let high = pool.bits_from(state, copy, from, width.saturating_sub(from))?;
    pool.beside(state, low, high)
}

/// A number modulo the length of a vector, which is at least 2.
fn places_around(
    state: &mut Lowering<'_>,
    pool: &mut Pool,
    count: Held,
    range: Range,
    length: u32,
) -> Result<Held, Memory> {
    let enough = places_width(length);
    if range.high < i64::from(length) || length.is_power_of_two() {
        return Ok(count);
    }
    let width = range.width();
    let mut rest = count;
    let stages = width.saturating_sub(enough).saturating_add(1);
    for k in (0..stages).rev() {
        let much = i64::from(length).saturating_mul(1i64 << k.min(31));
        if much <= range.high {
            rest = reduced(state, pool, rest, much)?;
        }
    }
    pool.bits_from(state, rest, 0, enough)
}

/// A number, less `much` where it is as much.
fn reduced(
    state: &mut Lowering<'_>,
    pool: &mut Pool,
    number: Held,
    much: i64,
) -> Result<Held, Memory> {
    let width = number.width;
    let run = pool.named(state, number)?;
    let compared = pool.slice(state, run, 0, width)?;
    let less = pool.slice(state, run, 0, width)?;
    let bound = pool.number(state, much, width)?;
    let over = pool.binary(state, compared, VBinary::GreaterOrEqual, bound)?;
    let bound = pool.number(state, much, width)?;
    let difference = pool.binary(state, less, VBinary::Subtract, bound)?;
    pool.conditional(state, over, difference, run)
}

/// `count` bits of a part from an index on.
fn from_index(
    state: &mut Lowering<'_>,
    pool: &mut Pool,
    part: Held,
    index: Held,
    count: u32,
) -> Result<Held, Memory> {
    let number = pool.owned(state, part, b"")?;
    let index = pool.operand(state, index)?;
    pool.indexed(state, number, index, count)
}

/// The width of an index into twice as many bits.
fn index_width(width: u32) -> u32 {
    digits(u64::from(width.saturating_mul(2).saturating_sub(1)))
}

/// The width of a number below the length of a vector.
fn places_width(length: u32) -> u32 {
    digits(u64::from(length.saturating_sub(1)))
}

/// Whether a part is written 0s and 1s.
fn is_number(pool: &Pool, part: Held) -> bool {
    match pool.known(part) {
        Some(bits) => bits
            .as_slice()
            .iter()
            .all(|bit| matches!(bit, V4::Zero | V4::One)),
        None => false,
    }
}
