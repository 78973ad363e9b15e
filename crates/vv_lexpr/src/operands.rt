//! At which widths operators want their operands, and what they give of them.

use crate::ranges::range;
use vv_base::fault::Memory;
use vv_design::{Expr, Operator, Scalar};
use vv_lpart::{Does, Number, Range, Row, scalar_width};
use vv_lrows::{Held, Pool, number_needed, numeric, numeric_of_one, relates_numbers, standard};
use vv_lstate::Lowering;
use vv_vtree::VUnary;

/// What is known of an operand before it is written: how many scalars it has, how many bits each has by itself, and the range of its
/// numbers.
#[derive(Clone, Copy)]
pub struct Known {
    pub size: u32,
    pub width: u32,
    pub range: Range,
}

impl Known {
    /// A number.
    pub fn number(range: Range) -> Known {
        Known {
            size: 1,
            width: range.width(),
            range,
        }
    }

    /// So many bits that are written already and are no number.
    pub fn bits(size: u32) -> Known {
        Known {
            size,
            width: 1,
            range: Range::INTEGER,
        }
    }
}

/// What is known of an expression.
pub fn known_of(e: &Expr, state: &Lowering<'_>) -> Known {
    let scalar = e.shape.scalar();
    let range = match scalar {
        Scalar::Int => range(e, state),
        _ => Range::INTEGER,
    };
    Known {
        size: e.shape.size(),
        width: scalar_width(scalar, range),
        range,
    }
}

/// How many bits an operator wants of each scalar of its operands, and the range of the numbers among them.
#[derive(Clone, Copy)]
pub struct Wanted {
    pub left: u32,
    pub right: u32,
    pub range: Range,
}

/// What an operator wants whose result has `size` scalars.
pub fn wanted_by(operator: Operator, left: Known, right: Known, size: u32) -> Wanted {
    match operator {
        Operator::Standard(f) if relates_numbers(f) => {
            let range = left.range.join(right.range);
            Wanted {
                left: range.width(),
                right: range.width(),
                range,
            }
        }
        Operator::Standard(_) => {
            let width = left.width.max(right.width);
            Wanted {
                left: width,
                right: width,
                range: Range::point(0),
            }
        }
        Operator::Numeric(f) => wanted_by_row(Row::of(f), left, right, size),
        Operator::Integer(_) => Wanted {
            left: 32,
            right: 32,
            range: Range::INTEGER,
        },
    }
}

fn wanted_by_row(row: Row, left: Known, right: Known, size: u32) -> Wanted {
    match row.number {
        Number::Neither => Wanted {
            left: 1,
            right: 1,
            range: Range::point(0),
        },
        Number::Right => Wanted {
            left: 1,
            right: number_needed(row, right.range, left.size),
            range: right.range,
        },
        Number::Left if matches!(row.does, Does::ToVector) => Wanted {
            left: size,
            right: 1,
            range: left.range,
        },
        Number::Left => Wanted {
            left: number_needed(row, left.range, right.size),
            right: 1,
            range: left.range,
        },
    }
}

/// Whether the right operand is the length of the result, so that it need not be written.
pub fn takes_length(operator: Operator) -> bool {
    match operator {
        Operator::Numeric(f) => matches!(Row::of(f).does, Does::ToVector | Does::Resize),
        Operator::Standard(_) | Operator::Integer(_) => false,
    }
}

/// What an operator gives of one operand.
pub fn row_of_one(
    state: &mut Lowering<'_>,
    pool: &mut Pool,
    operator: Operator,
    part: Held,
) -> Result<Held, Memory> {
    match operator {
        Operator::Numeric(f) => numeric_of_one(state, pool, Row::of(f), part),
        Operator::Standard(_) | Operator::Integer(_) => pool.unary(state, VUnary::Not, part),
    }
}

/// What an operator gives of two operands, which have as many bits as it wants.
pub fn row_of_two(
    state: &mut Lowering<'_>,
    pool: &mut Pool,
    operator: Operator,
    left: Held,
    right: Held,
    range: Range,
    size: u32,
) -> Result<Held, Memory> {
    match operator {
        Operator::Standard(f) => standard(state, pool, f, left, right, range.is_signed()),
        Operator::Numeric(f) => numeric(state, pool, Row::of(f), left, right, range, size),
        Operator::Integer(_) => Ok(left),
    }
}
