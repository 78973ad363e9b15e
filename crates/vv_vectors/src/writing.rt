//! Writing vectors.

ghost use Rattle.std.specs.Prelude.{◌≡◌, ◌+◌, ◌/◌, ◌%◌, ◌^◌, ◌<◌, ◌≤◌, [], ◌∷◌, replicate, slice_set};
ghost use Rattle.vv_types.specs.Number.{digit, vector_of};
ghost use Rattle.vv_vectors.specs.Vectors.{Apart, LiesIn, cell_of, cells_at, with_cells, with_vector};

use vv_bits::S9;
use vv_types::{Cells, Place};

/// Puts an element at `k` of a vector, counted from the left.
pub fn write_bit(cells: &mut Cells, to: Place, k: u32, value: S9)
    requires lies { LiesIn cells.old to }
    requires within { k < to.size }
    ensures { cells.new ≡ slice_set cells.old (to.first + k) (cell_of value) }
{
    cells.set(to.first + k, value as i32);
}

/// Puts a number into a place of one cell.
pub fn put_scalar(cells: &mut Cells, to: Place, v: i32)
    requires lies { LiesIn cells.old to }
    requires one { to.size ≡ 1 }
    ensures { cells.new ≡ with_cells cells.old to (v ∷ []) }
{
    cells.set(to.first, v);
}

/// Puts one value at each element of a vector.
pub fn fill(cells: &mut Cells, to: Place, value: S9)
    requires { LiesIn cells.old to }
    ensures { cells.new ≡ with_vector cells.old to (replicate to.size value) }
{
    for k in 0..to.size {
        write_bit(cells, to, k, value);
    }
}

/// Digit `k` of `n`, counted from the right.
fn digit_of(n: u128, k: u32) -> S9
    requires { k < 128 }
    ensures { result ≡ digit (n / 2 ^ k % 2) }
{
    if (n >> k) % 2 == 0 { S9::Zero } else { S9::One }
}

/// Puts the last digits of a number, as many as the place has cells.
pub fn write_number(cells: &mut Cells, to: Place, n: u128)
    requires lies { LiesIn cells.old to }
    requires few { to.size ≤ 128 }
    ensures { cells.new ≡ with_vector cells.old to (vector_of to.size n) }
{
    for k in 0..to.size {
        write_bit(cells, to, k, digit_of(n, to.size - 1 - k));
    }
}

/// Puts what one place has into another.
pub fn copy(cells: &mut Cells, from: Place, to: Place)
    requires from { LiesIn cells.old from }
    requires to { LiesIn cells.old to }
    requires apart { Apart from to }
    requires size { from.size ≡ to.size }
    ensures { cells.new ≡ with_cells cells.old to (cells_at cells.old from) }
{
    for k in 0..to.size {
        let v = cells.get(from.first + k);
        cells.set(to.first + k, v);
    }
}
