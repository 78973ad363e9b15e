//! Shifts, rotations and changes of length: vectors that are made of parts of another one.

ghost use Rattle.std.specs.Prelude.{◌≡◌, ◌<◌, ◌≤◌, ◌≤ℤ◌, pos, get_or, unsigned_abs, drop, take, ◌++◌, length};
ghost use Rattle.vv_vectors.specs.Vectors.{Apart, LiesIn, number_at, vector_at, with_vector};
ghost use Rattle.vv_bits.specs.declared.nine.S9.TheVariants.{Zero};
ghost use Rattle.vv_num_vectors.specs.Operands.{IsCount};
ghost use Rattle.vv_num_vectors.specs.Rows.{leftmost, shifted_left, shifted_right, rotated_left, rotated_right, resized_unsigned, resized_signed};
ghost use Rattle.vv_num_vectors.specs.Parts.{HasPart, IsMadeFrom, made_of, part_of};

use vv_bits::S9;
use vv_types::{Cells, Place};
use vv_vectors::{bit, scalar, write_bit};

/// Elements of a result: one that is repeated, or those of the operand from one on.
#[derive(Clone, Copy, Debug, PartialEq, Eq)]
enum Part {
    Repeated(S9),
    From(u32),
}

impl Part {
    /// Element `k` of the part.
    fn element(self, cells: &Cells, a: Place, size: u32, k: u32) -> S9
        requires lies { LiesIn cells.now a }
        requires has { HasPart a.size self size }
        requires within { k < size }
        ensures { result ≡ get_or (part_of (vector_at cells.now a) self size) k result }
    {
        match self {
            Part::Repeated(x) => x,
            Part::From(start) => bit(cells, a, start + k),
        }
    }
}

/// A result in two parts.
#[derive(Clone, Copy, Debug, PartialEq, Eq)]
struct Parts {
    left: Part,
    /// How many elements the left part has.
    split: u32,
    right: Part,
}

impl Parts {
    /// Element `k` of the result.
    fn element(self, cells: &Cells, a: Place, size: u32, k: u32) -> S9
        requires lies { LiesIn cells.now a }
        requires made { IsMadeFrom a.size self size }
        requires within { k < size }
        ensures { result ≡ get_or (made_of (vector_at cells.now a) self size) k result }
    {
        if k < self.split {
            self.left.element(cells, a, self.split, k)
        } else {
            self.right
                .element(cells, a, size - self.split, k - self.split)
        }
    }
}

/// Puts a result that is made of an operand's elements.
fn put_parts(cells: &mut Cells, a: Place, parts: Parts, to: Place)
    requires a { LiesIn cells.old a }
    requires to { LiesIn cells.old to }
    requires apart { Apart a to }
    requires made { IsMadeFrom a.size parts to.size }
    ensures value { cells.new ≡ with_vector cells.old to (made_of (vector_at cells.old a) parts to.size) }
    ensures length { length cells.new ≡ length cells.old }
{
    for k in 0..to.size {
        let x = parts.element(cells, a, to.size, k);
        write_bit(cells, to, k, x);
    }
}

/// The count that a cell holds, which is a natural number.
fn count_in(cells: &Cells, count: Place) -> u32
    requires { IsCount cells.now count }
    ensures { pos result ≡ number_at cells.now count }
{
    scalar(cells, count) as u32
}

/// Puts a vector's elements moved to the left, with '0' behind them.
pub fn shift_left(cells: &mut Cells, a: Place, count: Place, to: Place)
    requires a { LiesIn cells.old a }
    requires count { IsCount cells.old count }
    requires to { LiesIn cells.old to }
    requires apart { Apart a to }
    requires size { a.size ≡ to.size }
    ensures value { cells.new ≡ with_vector cells.old to (shifted_left (vector_at cells.old a) (unsigned_abs (number_at cells.old count))) }
    ensures length { length cells.new ≡ length cells.old }
{
    let count = count_in(cells, count).min(a.size);
    let parts = Parts {
        left: Part::From(count),
        split: a.size - count,
        right: Part::Repeated(S9::Zero),
    };
    put_parts(cells, a, parts, to);
}

/// Puts a vector's elements moved to the right, with one that is repeated before them.
fn shift_right(cells: &mut Cells, a: Place, count: Place, to: Place, repeated: S9)
    requires a { LiesIn cells.old a }
    requires count { IsCount cells.old count }
    requires to { LiesIn cells.old to }
    requires apart { Apart a to }
    requires size { a.size ≡ to.size }
    ensures value { cells.new ≡ with_vector cells.old to (shifted_right repeated (vector_at cells.old a) (unsigned_abs (number_at cells.old count))) }
    ensures length { length cells.new ≡ length cells.old }
{
    let count = count_in(cells, count).min(a.size);
    let parts = Parts {
        left: Part::Repeated(repeated),
        split: count,
        right: Part::From(0),
    };
    put_parts(cells, a, parts, to);
}

/// Puts a vector's elements moved to the right, with '0' before them.
pub fn shift_right_unsigned(cells: &mut Cells, a: Place, count: Place, to: Place)
    requires a { LiesIn cells.old a }
    requires count { IsCount cells.old count }
    requires to { LiesIn cells.old to }
    requires apart { Apart a to }
    requires size { a.size ≡ to.size }
    ensures value { cells.new ≡ with_vector cells.old to (shifted_right Zero (vector_at cells.old a) (unsigned_abs (number_at cells.old count))) }
    ensures length { length cells.new ≡ length cells.old }
{
    shift_right(cells, a, count, to, S9::Zero);
}

/// Puts a vector's elements moved to the right, with the leftmost one before them.
pub fn shift_right_signed(cells: &mut Cells, a: Place, count: Place, to: Place)
    requires a { LiesIn cells.old a }
    requires count { IsCount cells.old count }
    requires to { LiesIn cells.old to }
    requires apart { Apart a to }
    requires size { a.size ≡ to.size }
    ensures value { cells.new ≡ with_vector cells.old to (shifted_right (leftmost (vector_at cells.old a)) (vector_at cells.old a) (unsigned_abs (number_at cells.old count))) }
    ensures length { length cells.new ≡ length cells.old }
{
    let repeated = first_element(cells, a);
    shift_right(cells, a, count, to, repeated);
}

/// The leftmost element of a vector.
pub(crate) fn first_element(cells: &Cells, a: Place) -> S9
    requires { LiesIn cells.now a }
    ensures { result ≡ leftmost (vector_at cells.now a) }
{
    if a.size == 0 {
        S9::Zero
    } else {
        bit(cells, a, 0)
    }
}

/// Puts a vector's elements from one on, and behind them those before it.
fn turn(cells: &mut Cells, a: Place, start: u32, to: Place)
    requires a { LiesIn cells.old a }
    requires to { LiesIn cells.old to }
    requires apart { Apart a to }
    requires size { a.size ≡ to.size }
    requires within { start ≤ a.size }
    ensures value { cells.new ≡ with_vector cells.old to (drop start (vector_at cells.old a) ++ take start (vector_at cells.old a)) }
    ensures length { length cells.new ≡ length cells.old }
{
    let parts = Parts {
        left: Part::From(start),
        split: a.size - start,
        right: Part::From(0),
    };
    put_parts(cells, a, parts, to);
}

/// Puts a vector with its elements turned to the left.
pub fn rotate_left(cells: &mut Cells, a: Place, count: Place, to: Place)
    requires a { LiesIn cells.old a }
    requires count { IsCount cells.old count }
    requires to { LiesIn cells.old to }
    requires apart { Apart a to }
    requires size { a.size ≡ to.size }
    ensures value { cells.new ≡ with_vector cells.old to (rotated_left (vector_at cells.old a) (unsigned_abs (number_at cells.old count))) }
    ensures length { length cells.new ≡ length cells.old }
{
    if a.size != 0 {
        let start = count_in(cells, count) % a.size;
        turn(cells, a, start, to);
    }
}

/// Puts a vector with its elements turned to the right.
pub fn rotate_right(cells: &mut Cells, a: Place, count: Place, to: Place)
    requires a { LiesIn cells.old a }
    requires count { IsCount cells.old count }
    requires to { LiesIn cells.old to }
    requires apart { Apart a to }
    requires size { a.size ≡ to.size }
    ensures value { cells.new ≡ with_vector cells.old to (rotated_right (vector_at cells.old a) (unsigned_abs (number_at cells.old count))) }
    ensures length { length cells.new ≡ length cells.old }
{
    if a.size != 0 {
        let start = a.size - count_in(cells, count) % a.size;
        turn(cells, a, start, to);
    }
}

/// Puts a vector with '0' before it, or without its leftmost elements, as the length of the place asks.
pub fn resize_unsigned(cells: &mut Cells, a: Place, to: Place)
    requires a { LiesIn cells.old a }
    requires to { LiesIn cells.old to }
    requires apart { Apart a to }
    ensures value { cells.new ≡ with_vector cells.old to (resized_unsigned (vector_at cells.old a) to.size) }
    ensures length { length cells.new ≡ length cells.old }
{
    let kept = a.size.min(to.size);
    let parts = Parts {
        left: Part::Repeated(S9::Zero),
        split: to.size - kept,
        right: Part::From(a.size - kept),
    };
    put_parts(cells, a, parts, to);
}

/// Puts a vector with its leftmost element repeated, or kept before the rightmost ones, as the length of the place asks.
pub fn resize_signed(cells: &mut Cells, a: Place, to: Place)
    requires a { LiesIn cells.old a }
    requires to { LiesIn cells.old to }
    requires apart { Apart a to }
    ensures value { cells.new ≡ with_vector cells.old to (resized_signed (vector_at cells.old a) to.size) }
    ensures length { length cells.new ≡ length cells.old }
{
    let sign = first_element(cells, a);
    let kept = a.size.saturating_sub(1).min(to.size.saturating_sub(1));
    let parts = Parts {
        left: Part::Repeated(sign),
        split: to.size - kept,
        right: Part::From(a.size - kept),
    };
    put_parts(cells, a, parts, to);
}
