//! Choices of a `case`.

use crate::ranges::{natural, range};
use sqlite_items::Items;
use vv_base::fault::Memory;
use vv_bits::{Bits4, V4};
use vv_design::{Choice, Expr, Scalar, Shape};
use vv_lpart::{Part, Range, Run, bits_of, push_number};
use vv_lrows::{Held, Pool, ordered};
use vv_lstate::Lowering;
use vv_types::Value;
use vv_vtree::{VBinary, VBits, VBitsList};

/// As many values of a range as become labels.
const FEW: i64 = 64;

/// A selector: how many bits it has, the numbers or positions that it may have, and whether it is a number.
#[derive(Clone, Copy)]
pub struct Selector {
    pub width: u32,
    pub range: Range,
    pub number: bool,
}

/// What is known of a selector.
pub fn selector_of(e: &Expr, state: &Lowering<'_>) -> Selector {
    let range = match e.shape.scalar() {
        Scalar::Int => range(e, state),
        Scalar::Enum { count } => Range {
            low: 0,
            high: i64::from(count).saturating_sub(1).max(0),
        },
        _ => Range { low: 0, high: 1 },
    };
    Selector {
        width: natural(e, state),
        range,
        number: matches!(e.shape, Shape::Scalar(Scalar::Int)),
    }
}

/// The labels of choices, where they are few. `others` has none.
pub fn labels(
    state: &Lowering<'_>,
    selector: Selector,
    choices: &[Choice],
) -> Result<Option<VBitsList>, Memory> {
    let Selector {
        width,
        range,
        number: _,
    } = selector;
    let mut labels = Items::new(state.alloc);
    for choice in choices {
        match choice {
            Choice::Value(value) => {
                if may_be(value, range) {
                    labels.push(VBits {
                        bits: bits_of(state.alloc, value, width)?,
                        at: 0,
                    })?;
                }
            }
            Choice::Between { low, high } => {
                let low = i64::from(*low).max(range.low);
                let high = i64::from(*high).min(range.high);
                if high.saturating_sub(low) >= FEW {
                    return Ok(None);
                }
                push_labels(state, low, high, width, &mut labels)?;
            }
            Choice::Others => {}
        }
    }
    Ok(Some(labels))
}

/// Appends the labels of the numbers from `low` to `high`, which are few.
fn push_labels(
    state: &Lowering<'_>,
    low: i64,
    high: i64,
    width: u32,
    labels: &mut VBitsList,
) -> Result<(), Memory> {
    for k in 0..FEW {
        let n = low.saturating_add(k);
        if n <= high {
            let mut bits = Bits4::new(state.alloc);
            push_number(n, width, &mut bits)?;
            labels.push(VBits { bits, at: 0 })?;
        }
    }
    Ok(())
}

/// Whether a choice is made.
pub fn chosen(
    state: &mut Lowering<'_>,
    run: &Run,
    selector: Selector,
    choices: &[Choice],
) -> Result<Part, Memory> {
    let mut pool = Pool::new(state.alloc);
    let read = run.copy(state.alloc)?.read();
    let held = pool.hold(read)?;
    let mut any = None;
    for choice in choices {
        let test = chosen_by(state, &mut pool, held, selector, choice)?;
        any = Some(match any {
            Some(before) => pool.binary(state, before, VBinary::Or, test)?,
            None => test,
        });
    }
    match any {
        Some(any) => pool.taken(any),
        None => Part::bit(state.alloc, V4::Zero),
    }
}

fn chosen_by(
    state: &mut Lowering<'_>,
    pool: &mut Pool,
    run: Held,
    selector: Selector,
    choice: &Choice,
) -> Result<Held, Memory> {
    let Selector {
        width,
        range,
        number,
    } = selector;
    match choice {
        Choice::Others => pool.bit(state, V4::One),
        Choice::Value(value) => {
            if !may_be(value, range) {
                return pool.bit(state, V4::Zero);
            }
            let bits = bits_of(state.alloc, value, width)?;
            let value = pool.bits(bits)?;
            let read = pool.slice(state, run, 0, run.width)?;
            pool.binary(state, read, VBinary::Same, value)
        }
        Choice::Between { low, high } => chosen_between(
            state,
            pool,
            run,
            range,
            i64::from(*low),
            i64::from(*high),
            number,
        ),
    }
}

fn chosen_between(
    state: &mut Lowering<'_>,
    pool: &mut Pool,
    run: Held,
    range: Range,
    low: i64,
    high: i64,
    number: bool,
) -> Result<Held, Memory> {
    if low > range.high || high < range.low || low > high {
        return pool.bit(state, V4::Zero);
    }
    let signed = number && range.is_signed();
    let from = if low > range.low {
        let op = VBinary::GreaterOrEqual;
        Some(compared(state, pool, run, op, low, signed)?)
    } else {
        None
    };
    let to = if high < range.high {
        let op = VBinary::LessOrEqual;
        Some(compared(state, pool, run, op, high, signed)?)
    } else {
        None
    };
    match (from, to) {
        (Some(from), Some(to)) => pool.binary(state, from, VBinary::And, to),
        (Some(test), None) | (None, Some(test)) => Ok(test),
        (None, None) => pool.bit(state, V4::One),
    }
}

/// A selector compared with a number.
fn compared(
    state: &mut Lowering<'_>,
    pool: &mut Pool,
    run: Held,
    op: VBinary,
    n: i64,
    signed: bool,
) -> Result<Held, Memory> {
    let bound = pool.number(state, n, run.width)?;
    let read = pool.slice(state, run, 0, run.width)?;
    ordered(state, pool, read, op, bound, signed)
}

/// Whether a value lies in a range, where it is a number.
fn may_be(value: &Value, range: Range) -> bool {
    match value {
        Value::Int(n) => range.low <= i64::from(*n) && i64::from(*n) <= range.high,
        _ => true,
    }
}
