//! Reading vectors.

ghost use Rattle.std.specs.Prelude.{◌≡◌, ◌<◌, ◌≤◌, Some, [], ◌∷◌, slice_get};
ghost use Rattle.vv_types.specs.Number.{bit, has_meta, is_meta, number_of};
ghost use Rattle.vv_vectors.specs.Vectors.{LiesIn, bit_of, cells_at, vector_at};

use vv_bits::S9;
use vv_types::{Cells, Place};

/// The element that is at place `n` of the nine values.
fn nine(n: i32) -> S9
    ensures { result ≡ bit_of n }
{
    match n {
        0 => S9::U,
        1 => S9::X,
        2 => S9::Zero,
        3 => S9::One,
        4 => S9::Z,
        5 => S9::W,
        6 => S9::L,
        7 => S9::H,
        _ => S9::Dash,
    }
}

/// The number in a place of one cell.
pub fn scalar(cells: &Cells, place: Place) -> i32
    requires lies { LiesIn cells.now place }
    requires one { place.size ≡ 1 }
    ensures { cells_at cells.now place ≡ result ∷ [] }
{
    cells.get(place.first)
}

/// Element `k` of a vector, counted from the left. A cell that holds no element counts as `-`.
pub fn bit(cells: &Cells, place: Place, k: u32) -> S9
    requires lies { LiesIn cells.now place }
    requires within { k < place.size }
    ensures { slice_get (vector_at cells.now place) k ≡ Some result }
{
    nine(cells.get(place.first + k))
}

/// Whether an element is other than 0, 1, L and H.
fn is_meta(x: S9) -> bool
    ensures { result ≡ is_meta x }
{
    match x {
        S9::Zero | S9::One | S9::L | S9::H => false,
        _ => true,
    }
}

/// Whether a vector has an element other than 0, 1, L and H.
pub fn any_meta(cells: &Cells, place: Place) -> bool
    requires { LiesIn cells.now place }
    ensures { result ≡ has_meta (vector_at cells.now place) }
{
    for k in 0..place.size {
        if is_meta(bit(cells, place, k)) {
            return true;
        }
    }
    false
}

/// What an element counts.
fn counts(x: S9) -> u8
    ensures value { result ≡ bit x }
    ensures small { result < 2 }
{
    match x {
        S9::One | S9::H => 1,
        _ => 0,
    }
}

/// The number of a vector.
pub fn number(cells: &Cells, place: Place) -> u128
    requires lies { LiesIn cells.now place }
    requires few { place.size ≤ 128 }
    ensures { result ≡ number_of (vector_at cells.now place) }
{
    let mut n: u128 = 0;
    for k in 0..place.size {
        n = n * 2 + u128::from(counts(bit(cells, place, k)));
    }
    n
}
