//! What each operator puts into its place.

ghost use Rattle.std.specs.Prelude.{◌≡◌, ◌≤◌, ◌||◌, List, length};
ghost use Rattle.vv_bits.specs.declared.nine.S9.{S9};
ghost use Rattle.vv_types.specs.Number.{has_meta, signed_vector_of};
ghost use Rattle.vv_vectors.specs.Vectors.{LiesIn, number_at, vector_at, with_vector};
ghost use Rattle.vv_num_arithmetic.specs.Operands.{HasDigits};
ghost use Rattle.vv_num_arithmetic.specs.Arithmetic.{absolute_row, apply, arithmetic_row, as_long_as, negate_row, size_of, value_of};

use crate::operands::{Operator, VectorKind, combined, cut, distance, extended, sign_extended};
use vv_bits::S9;
use vv_types::{Cells, Place};
use vv_vectors::{any_meta, fill, number, scalar, write_number};

/// An operand with no metavalue: its number and how many digits it has.
#[derive(Clone, Copy)]
struct Digits {
    number: u128,
    size: u32,
}

/// The digits of a vector.
fn digits_at(cells: &Cells, place: Place) -> Digits
    requires lies { LiesIn cells.now place }
    requires few { place.size ≤ 128 }
    ensures digits { HasDigits (vector_at cells.now place) result }
    ensures size { result.size ≡ place.size }
{
    Digits {
        number: number(cells, place),
        size: place.size,
    }
}

/// The last digits of a number, as many as a vector has.
fn digits_of_number(cells: &Cells, place: Place, size: u32) -> Digits
    requires lies { LiesIn cells.now place }
    requires one { place.size ≡ 1 }
    requires few { size ≤ 128 }
    ensures digits { HasDigits (signed_vector_of size (number_at cells.now place)) result }
    ensures size { result.size ≡ size }
{
    Digits {
        number: cut(scalar(cells, place), size),
        size,
    }
}

/// Puts what an operator makes of two operands with no metavalue.
fn put_result(
    cells: &mut Cells,
    operator: Operator,
    kind: VectorKind,
    x: Digits,
    y: Digits,
    to: Place,
)
    requires x { x.size ≤ 128 }
    requires y { y.size ≤ 128 }
    requires to { LiesIn cells.old to }
    requires few { to.size ≤ 128 }
    ensures row { (xs ys : List S9) → HasDigits xs x → HasDigits ys y → cells.new
        ≡ with_vector cells.old to (signed_vector_of to.size (apply operator (value_of kind xs) (value_of kind ys))) }
    ensures length { length cells.new ≡ length cells.old }
{
    let v = extended(kind, x.number, x.size);
    let w = extended(kind, y.number, y.size);
    write_number(cells, to, combined(operator, v, w));
}

/// Whether one of two vectors has a metavalue.
fn either_meta(cells: &Cells, a: Place, b: Place) -> bool
    requires a { LiesIn cells.now a }
    requires b { LiesIn cells.now b }
    ensures { result ≡ (has_meta (vector_at cells.now a) || has_meta (vector_at cells.now b)) }
{
    any_meta(cells, a) || any_meta(cells, b)
}

/// Puts a sum, a difference or a product of two vectors.
pub fn combine_vectors(
    cells: &mut Cells,
    operator: Operator,
    kind: VectorKind,
    a: Place,
    b: Place,
    to: Place,
)
    requires a { LiesIn cells.old a }
    requires b { LiesIn cells.old b }
    requires to { LiesIn cells.old to }
    requires size { to.size ≡ size_of operator a.size b.size }
    requires few { to.size ≤ 128 }
    ensures row { cells.new ≡ with_vector cells.old to (arithmetic_row operator kind (vector_at cells.old a) (vector_at cells.old b)) }
    ensures length { length cells.new ≡ length cells.old }
{
    if either_meta(cells, a, b) {
        fill(cells, to, S9::X);
    } else {
        let x = digits_at(cells, a);
        let y = digits_at(cells, b);
        put_result(cells, operator, kind, x, y, to);
    }
}

/// Puts a sum, a difference or a product of a vector and a number, which is first cut to the vector's length.
pub fn combine_vector_with_number(
    cells: &mut Cells,
    operator: Operator,
    kind: VectorKind,
    a: Place,
    b: Place,
    to: Place,
)
    requires a { LiesIn cells.old a }
    requires b { LiesIn cells.old b }
    requires one { b.size ≡ 1 }
    requires to { LiesIn cells.old to }
    requires size { to.size ≡ size_of operator a.size a.size }
    requires few { to.size ≤ 128 }
    ensures row { let xs = vector_at cells.old a in
        cells.new ≡ with_vector cells.old to (arithmetic_row operator kind xs (as_long_as xs (number_at cells.old b))) }
    ensures length { length cells.new ≡ length cells.old }
{
    if any_meta(cells, a) {
        fill(cells, to, S9::X);
    } else {
        let x = digits_at(cells, a);
        let y = digits_of_number(cells, b, a.size);
        put_result(cells, operator, kind, x, y, to);
    }
}

/// Puts a sum, a difference or a product of a number, which is first cut to the vector's length, and a vector.
pub fn combine_number_with_vector(
    cells: &mut Cells,
    operator: Operator,
    kind: VectorKind,
    a: Place,
    b: Place,
    to: Place,
)
    requires a { LiesIn cells.old a }
    requires one { a.size ≡ 1 }
    requires b { LiesIn cells.old b }
    requires to { LiesIn cells.old to }
    requires size { to.size ≡ size_of operator b.size b.size }
    requires few { to.size ≤ 128 }
    ensures row { let xs = vector_at cells.old b in
        cells.new ≡ with_vector cells.old to (arithmetic_row operator kind (as_long_as xs (number_at cells.old a)) xs) }
    ensures length { length cells.new ≡ length cells.old }
{
    if any_meta(cells, b) {
        fill(cells, to, S9::X);
    } else {
        let x = digits_of_number(cells, a, b.size);
        let y = digits_at(cells, b);
        put_result(cells, operator, kind, x, y, to);
    }
}

/// Puts the distance from 0 of a signed vector.
pub fn absolute(cells: &mut Cells, a: Place, to: Place)
    requires a { LiesIn cells.old a }
    requires to { LiesIn cells.old to }
    requires size { to.size ≡ a.size }
    requires few { to.size ≤ 128 }
    ensures row { cells.new ≡ with_vector cells.old to (absolute_row (vector_at cells.old a)) }
    ensures length { length cells.new ≡ length cells.old }
{
    if any_meta(cells, a) {
        fill(cells, to, S9::X);
    } else {
        let x = sign_extended(number(cells, a), a.size);
        write_number(cells, to, distance(x));
    }
}

/// Puts the opposite of a signed vector.
pub fn negate(cells: &mut Cells, a: Place, to: Place)
    requires a { LiesIn cells.old a }
    requires to { LiesIn cells.old to }
    requires size { to.size ≡ a.size }
    requires few { to.size ≤ 128 }
    ensures row { cells.new ≡ with_vector cells.old to (negate_row (vector_at cells.old a)) }
    ensures length { length cells.new ≡ length cells.old }
{
    if any_meta(cells, a) {
        fill(cells, to, S9::X);
    } else {
        let x = sign_extended(number(cells, a), a.size);
        write_number(cells, to, combined(Operator::Subtract, 0, x));
    }
}
