//! Arithmetic on integers.

use vv_types::Op;

/// The value of an operator of one operand, where it is one of INTEGER.
pub fn of_one(op: Op, x: i32) -> Option<i32> {
    match op {
        Op::Plus => Some(x),
        Op::Minus => x.checked_neg(),
        Op::Absolute => { if x < 0 { x.checked_neg() } else { Some(x) } }
        _ => None,
    }
}

/// The value of an operator of two operands, where it is one of INTEGER and its divisor is not 0.
pub fn of_two(op: Op, x: i32, y: i32) -> Option<i32> {
    match op {
        Op::Plus => x.checked_add(y),
        Op::Minus => x.checked_sub(y),
        Op::Times => x.checked_mul(y),
        Op::Divide => x.checked_div(y),
        Op::Remainder => remainder(x, y),
        Op::Modulo => modulo(x, y),
        Op::Power => power(x, y),
        _ => None,
    }
}

fn remainder(x: i32, y: i32) -> Option<i32> {
    if y == 0 {
        None
    } else if y == -1 {
        Some(0)
    } else {
        x.checked_rem(y)
    }
}

/// What is left of a division that rounds down, with the sign of the divisor.
fn modulo(x: i32, y: i32) -> Option<i32> {
    let r = remainder(x, y)?;
    if r != 0 && (r < 0) != (y < 0) {
        r.checked_add(y)
    } else {
        Some(r)
    }
}

fn power(x: i32, y: i32) -> Option<i32> {
    let n = u32::try_from(y).ok()?;
    match x {
        0 => Some(if n == 0 { 1 } else { 0 }),
        1 => Some(1),
        -1 => Some(if n % 2 == 0 { 1 } else { -1 }),
        _ => {
            let mut product: i32 = 1;
            for _ in 0..n {
                product = product.checked_mul(x)?;
            }
            Some(product)
        }
    }
}
