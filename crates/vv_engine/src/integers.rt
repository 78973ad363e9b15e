//! Integer arithmetic.

use vv_types::{Bounds, Op};

/// The value of an operator on integers, where it lies in INTEGER. A sign or `abs` has its operand on the right.
pub fn whole_of(op: Op, x: i32, y: i32) -> Option<i32> {
    match op {
        Op::Plus => x.checked_add(y),
        Op::Minus => x.checked_sub(y),
        Op::Times => x.checked_mul(y),
        Op::Divide => x.checked_div(y),
        Op::Remainder => remainder(x, y),
        Op::Modulo => modulo(x, y),
        Op::Absolute => { if y < 0 { y.checked_neg() } else { Some(y) } }
        Op::Power => power(x, y),
        _ => None,
    }
}

/// What is left of a division, with the sign of the left operand.
fn remainder(x: i32, y: i32) -> Option<i32> {
    if y == -1 { Some(0) } else { x.checked_rem(y) }
}

/// What is left of a division, with the sign of the right operand.
fn modulo(x: i32, y: i32) -> Option<i32> {
    let r = remainder(x, y)?;
    if r != 0 && (r < 0) != (y < 0) {
        r.checked_add(y)
    } else {
        Some(r)
    }
}

/// A power. Past 31 turns it has left INTEGER, unless its base is -1, 0 or 1, whose powers alternate or stay.
fn power(x: i32, y: i32) -> Option<i32> {
    if y < 0 {
        return None;
    }
    let turns = if y > 64 { 64 + y % 2 } else { y };
    let mut value: i32 = 1;
    for _ in 0..turns {
        value = value.checked_mul(x)?;
    }
    Some(value)
}

/// The number of elements on the left of an index.
pub fn place_in(bounds: Bounds, n: i32) -> Option<u32> {
    let (low, high) = if bounds.down {
        (bounds.right, bounds.left)
    } else {
        (bounds.left, bounds.right)
    };
    if n < low || n > high {
        None
    } else {
        Some(bounds.left.abs_diff(n))
    }
}
