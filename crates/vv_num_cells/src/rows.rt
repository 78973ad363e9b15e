//! What each row puts into its place.

ghost use Rattle.std.specs.Prelude.{◌≡◌, ◌≤◌, ◌≤ℤ◌, pos, [], ◌∷◌, length, unsigned_abs};
ghost use Rattle.vv_vectors.specs.Vectors.{Apart, LiesIn, cells_at, number_at, vector_at, with_cells, with_vector};
ghost use Rattle.vv_num_vectors.specs.Comparison.{boolean_cell};
ghost use Rattle.vv_num_vectors.specs.Rows.{shifted_right};
ghost use Rattle.vv_num_cells.specs.Table.{row_of};
ghost use Rattle.vv_num_cells.specs.Rows.{FitsNumbers, FitsRow, arithmetic_of, arithmetic_size, compared, filling, has_value, resized, row_gives, with_given};

use crate::table::{Operands, Row, row_of};
use vv_num_arithmetic::{
    Operator, VectorKind, absolute, combine_number_with_vector, combine_vector_with_number,
    combine_vectors, negate,
};
use vv_num_vectors::{
    Operand, Relation, combine, compare, invert, resize_signed, resize_unsigned, rotate_left,
    rotate_right, shift_left, shift_right_signed, shift_right_unsigned, to_integer, to_vector,
};
use vv_types::{Cells, NumFn, Place};

/// Puts the value of an operator or a function for the operands in `a` and `b`. An operand that it does not have is a place of size 0.
/// The answer is false exactly where the value is a number outside INTEGER, and then no cell changes.
pub fn num_in(f: NumFn, cells: &mut Cells, a: Place, b: Place, to: Place) -> bool
    requires a { LiesIn cells.old a }
    requires b { LiesIn cells.old b }
    requires to { LiesIn cells.old to }
    requires apart_a { Apart a to }
    requires apart_b { Apart b to }
    requires fits { FitsRow (row_of f) a.size b.size (number_at cells.old b) to.size }
    ensures value { cells.new ≡ with_given cells.old to (row_gives (row_of f) to.size (cells_at cells.old a) (cells_at cells.old b)) }
    ensures answer { result ≡ has_value (row_gives (row_of f) to.size (cells_at cells.old a) (cells_at cells.old b)) }
    ensures length { length cells.new ≡ length cells.old }
{
    put_row(row_of(f), cells, a, b, to)
}

/// Puts what a row gives, as `num_in` does.
fn put_row(row: Row, cells: &mut Cells, a: Place, b: Place, to: Place) -> bool
    requires a { LiesIn cells.old a }
    requires b { LiesIn cells.old b }
    requires to { LiesIn cells.old to }
    requires apart_a { Apart a to }
    requires apart_b { Apart b to }
    requires fits { FitsRow row a.size b.size (number_at cells.old b) to.size }
    ensures value { cells.new ≡ with_given cells.old to (row_gives row to.size (cells_at cells.old a) (cells_at cells.old b)) }
    ensures answer { result ≡ has_value (row_gives row to.size (cells_at cells.old a) (cells_at cells.old b)) }
    ensures length { length cells.new ≡ length cells.old }
{
    match row {
        Row::Arithmetic(operator, kind, operands) => {
            put_arithmetic(cells, operator, kind, operands, a, b, to)
        }
        Row::Absolute => absolute(cells, a, to),
        Row::Negate => negate(cells, a, to),
        Row::Compare(relation, kind, operands) => {
            put_relation(cells, relation, kind, operands, a, b, to)
        }
        Row::Logic(gate) => combine(cells, gate, a, b, to),
        Row::Not => invert(cells, a, to),
        Row::ShiftLeft => shift_left(cells, a, b, to),
        Row::ShiftRight(kind) => shift_right(cells, kind, a, b, to),
        Row::RotateLeft => rotate_left(cells, a, b, to),
        Row::RotateRight => rotate_right(cells, a, b, to),
        Row::Resize(kind) => resize(cells, kind, a, to),
        Row::ToInteger(VectorKind::Unsigned) => return to_integer(cells, Operand::Unsigned(a), to),
        Row::ToInteger(VectorKind::Signed) => return to_integer(cells, Operand::Signed(a), to),
        Row::ToVector => to_vector(cells, a, to),
    }
    true
}

/// Puts a sum, a difference or a product.
fn put_arithmetic(
    cells: &mut Cells,
    operator: Operator,
    kind: VectorKind,
    operands: Operands,
    a: Place,
    b: Place,
    to: Place,
)
    requires a { LiesIn cells.old a }
    requires b { LiesIn cells.old b }
    requires to { LiesIn cells.old to }
    requires numbers { FitsNumbers operands a.size b.size }
    requires size { to.size ≡ arithmetic_size operator operands a.size b.size }
    requires few { to.size ≤ 128 }
    ensures value { cells.new ≡ with_vector cells.old to (arithmetic_of operator kind operands (cells_at cells.old a) (cells_at cells.old b)) }
    ensures length { length cells.new ≡ length cells.old }
{
    match operands {
        Operands::Vectors => combine_vectors(cells, operator, kind, a, b, to),
        Operands::VectorAndNumber => combine_vector_with_number(cells, operator, kind, a, b, to),
        Operands::NumberAndVector => combine_number_with_vector(cells, operator, kind, a, b, to),
    }
}

/// Puts whether a relation holds.
fn put_relation(
    cells: &mut Cells,
    relation: Relation,
    kind: VectorKind,
    operands: Operands,
    a: Place,
    b: Place,
    to: Place,
)
    requires a { LiesIn cells.old a }
    requires b { LiesIn cells.old b }
    requires to { LiesIn cells.old to }
    requires numbers { FitsNumbers operands a.size b.size }
    requires one { to.size ≡ 1 }
    ensures value { cells.new
        ≡ with_cells cells.old to (boolean_cell (compared relation kind operands (cells_at cells.old a) (cells_at cells.old b)) ∷ []) }
    ensures length { length cells.new ≡ length cells.old }
{
    let (x, y) = match (kind, operands) {
        (VectorKind::Unsigned, Operands::Vectors) => (Operand::Unsigned(a), Operand::Unsigned(b)),
        (VectorKind::Unsigned, Operands::VectorAndNumber) => {
            (Operand::Unsigned(a), Operand::Number(b))
        }
        (VectorKind::Unsigned, Operands::NumberAndVector) => {
            (Operand::Number(a), Operand::Unsigned(b))
        }
        (VectorKind::Signed, Operands::Vectors) => (Operand::Signed(a), Operand::Signed(b)),
        (VectorKind::Signed, Operands::VectorAndNumber) => (Operand::Signed(a), Operand::Number(b)),
        (VectorKind::Signed, Operands::NumberAndVector) => (Operand::Number(a), Operand::Signed(b)),
    };
    compare(cells, relation, x, y, to);
}

/// Puts a vector's elements moved to the right.
fn shift_right(cells: &mut Cells, kind: VectorKind, a: Place, count: Place, to: Place)
    requires a { LiesIn cells.old a }
    requires count { LiesIn cells.old count }
    requires one { count.size ≡ 1 }
    requires natural { pos 0 ≤ℤ number_at cells.old count }
    requires to { LiesIn cells.old to }
    requires apart { Apart a to }
    requires size { a.size ≡ to.size }
    ensures value { cells.new
        ≡ with_vector cells.old to (shifted_right (filling kind (vector_at cells.old a)) (vector_at cells.old a) (unsigned_abs (number_at cells.old count))) }
    ensures length { length cells.new ≡ length cells.old }
{
    match kind {
        VectorKind::Unsigned => shift_right_unsigned(cells, a, count, to),
        VectorKind::Signed => shift_right_signed(cells, a, count, to),
    }
}

/// Puts a vector with as many elements as the place has.
fn resize(cells: &mut Cells, kind: VectorKind, a: Place, to: Place)
    requires a { LiesIn cells.old a }
    requires to { LiesIn cells.old to }
    requires apart { Apart a to }
    ensures value { cells.new ≡ with_vector cells.old to (resized kind (vector_at cells.old a) to.size) }
    ensures length { length cells.new ≡ length cells.old }
{
    match kind {
        VectorKind::Unsigned => resize_unsigned(cells, a, to),
        VectorKind::Signed => resize_signed(cells, a, to),
    }
}
