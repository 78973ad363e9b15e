//! Logical operators on the elements of vectors, and concatenation.

ghost use Rattle.std.specs.Prelude.{◌≡◌, ◌+◌, ◌++◌, ◌<◌, length, map};
ghost use Rattle.vv_bits.specs.Nine.{not_rule};
ghost use Rattle.vv_std_cells.specs.Rows.{logic};
ghost use Rattle.vv_vectors.specs.Vectors.{Apart, LiesIn, cells_at, vector_at, with_cells, with_vector};

use vv_bits::not9;
use vv_std_values::Gate;
use vv_types::{Cells, Place};
use vv_vectors::{bit, copy, write_bit};

/// Puts what an operator gives for the elements of two vectors.
pub fn combine(cells: &mut Cells, gate: Gate, a: Place, b: Place, to: Place)
    requires a { LiesIn cells.old a }
    requires b { LiesIn cells.old b }
    requires to { LiesIn cells.old to }
    requires apart_a { Apart a to }
    requires apart_b { Apart b to }
    requires size_a { a.size ≡ to.size }
    requires size_b { b.size ≡ to.size }
    ensures value { cells.new ≡ with_vector cells.old to (logic gate (vector_at cells.old a) (vector_at cells.old b)) }
    ensures length { length cells.new ≡ length cells.old }
{
    for k in 0..to.size {
        let x = bit(cells, a, k);
        let y = bit(cells, b, k);
        write_bit(cells, to, k, gate.of_logics(x, y));
    }
}

/// Puts `not` of the elements of a vector.
pub fn invert(cells: &mut Cells, a: Place, to: Place)
    requires a { LiesIn cells.old a }
    requires to { LiesIn cells.old to }
    requires apart { Apart a to }
    requires size { a.size ≡ to.size }
    ensures value { cells.new ≡ with_vector cells.old to (map not_rule (vector_at cells.old a)) }
    ensures length { length cells.new ≡ length cells.old }
{
    for k in 0..to.size {
        write_bit(cells, to, k, not9(bit(cells, a, k)));
    }
}

/// Puts the cells of two places, one behind the other.
pub fn join(cells: &mut Cells, a: Place, b: Place, to: Place)
    requires a { LiesIn cells.old a }
    requires b { LiesIn cells.old b }
    requires to { LiesIn cells.old to }
    requires apart_a { Apart a to }
    requires apart_b { Apart b to }
    requires some { 0 < b.size }
    requires size { to.size ≡ a.size + b.size }
    ensures value { cells.new ≡ with_cells cells.old to (cells_at cells.old a ++ cells_at cells.old b) }
    ensures length { length cells.new ≡ length cells.old }
{
    let front = Place {
        first: to.first,
        size: a.size,
    };
    let back = Place {
        first: to.first + a.size,
        size: b.size,
    };
    copy(cells, a, front);
    copy(cells, b, back);
}
