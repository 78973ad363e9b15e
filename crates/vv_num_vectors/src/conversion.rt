//! Numbers of vectors and vectors of numbers.

ghost use Rattle.std.specs.Prelude.{◌≡◌, is_some, length};
ghost use Rattle.vv_types.specs.Number.{signed_vector_of};
ghost use Rattle.vv_vectors.specs.Vectors.{LiesIn, number_at, with_vector};
ghost use Rattle.vv_num_vectors.specs.Operands.{IsIn, is_meta_in, value_of, with_integer};
ghost use Rattle.vv_num_vectors.specs.Rows.{integer_from};

use crate::operand::{Operand, counts};
use vv_types::{Cells, Place};
use vv_vectors::{fill, put_scalar, scalar, write_number};

/// The number of an operand, if it is one of INTEGER, and 0 where there is a metavalue.
fn integer(cells: &Cells, a: Operand) -> Option<i32>
    requires { IsIn cells.now a }
    ensures { result ≡ integer_from (is_meta_in cells.now a) (value_of cells.now a) }
{
    if a.any_meta(cells) {
        return Some(0);
    }
    let sign = counts(a.sign(cells));
    let mut reach: u32 = 0;
    for k in 0..a.size() {
        reach = reach * 2 + u32::from(counts(a.element(cells, k)) != sign);
        if reach >= 0x8000_0000 {
            return None;
        }
    }
    let reach = reach as i32;
    Some(if sign == 0 { reach } else { -1 - reach })
}

/// Puts the number of a vector, and 0 for one with a metavalue. If the number lies outside INTEGER, the answer is false and nothing changes.
pub fn to_integer(cells: &mut Cells, a: Operand, to: Place) -> bool
    requires a { IsIn cells.old a }
    requires to { LiesIn cells.old to }
    requires one { to.size ≡ 1 }
    ensures answer { result ≡ is_some (integer_from (is_meta_in cells.old a) (value_of cells.old a)) }
    ensures length { length cells.new ≡ length cells.old }
    ensures value { cells.new ≡ with_integer cells.old to (integer_from (is_meta_in cells.old a) (value_of cells.old a)) }
{
    match integer(cells, a) {
        Some(n) => {
            put_scalar(cells, to, n);
            true
        }
        None => false,
    }
}

/// Puts the digits of a number, cut to the length of the place.
pub fn to_vector(cells: &mut Cells, number: Place, to: Place)
    requires number { LiesIn cells.old number }
    requires one { number.size ≡ 1 }
    requires to { LiesIn cells.old to }
    ensures value { cells.new ≡ with_vector cells.old to (signed_vector_of to.size (number_at cells.old number)) }
    ensures length { length cells.new ≡ length cells.old }
{
    let sign = Operand::Number(number).sign(cells);
    let digits = u128::from(scalar(cells, number).cast_unsigned());
    if to.size <= 32 {
        write_number(cells, to, digits);
    } else {
        let more = to.size - 32;
        fill(
            cells,
            Place {
                first: to.first,
                size: more,
            },
            sign,
        );
        write_number(
            cells,
            Place {
                first: to.first + more,
                size: 32,
            },
            digits,
        );
    }
}
