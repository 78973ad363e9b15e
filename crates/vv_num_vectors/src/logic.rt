//! Logical operators, element by element.

ghost use Rattle.std.specs.Prelude.{◌≡◌, map, length};
ghost use Rattle.vv_bits.specs.Nine.{not_rule};
ghost use Rattle.vv_vectors.specs.Vectors.{Apart, LiesIn, vector_at, with_vector};
ghost use Rattle.vv_num_vectors.specs.Logic.{gate_rule, combined};

use vv_bits::{S9, and9, nand9, nor9, not9, or9, xnor9, xor9};
use vv_types::{Cells, Place};
use vv_vectors::{bit, write_bit};

/// A logical operator with two operands.
#[derive(Clone, Copy, Debug, PartialEq, Eq)]
pub enum Gate {
    And,
    Or,
    Xor,
    Nand,
    Nor,
    Xnor,
}

impl Gate {
    /// What the operator gives for two elements.
    fn of(self, a: S9, b: S9) -> S9
        ensures { result ≡ gate_rule self a b }
    {
        match self {
            Gate::And => and9(a, b),
            Gate::Or => or9(a, b),
            Gate::Xor => xor9(a, b),
            Gate::Nand => nand9(a, b),
            Gate::Nor => nor9(a, b),
            Gate::Xnor => xnor9(a, b),
        }
    }
}

/// Puts what an operator gives for the elements of two vectors.
pub fn combine(cells: &mut Cells, gate: Gate, a: Place, b: Place, to: Place)
    requires a { LiesIn cells.old a }
    requires b { LiesIn cells.old b }
    requires to { LiesIn cells.old to }
    requires apart_a { Apart a to }
    requires apart_b { Apart b to }
    requires size_a { a.size ≡ to.size }
    requires size_b { b.size ≡ to.size }
    ensures value { cells.new ≡ with_vector cells.old to (combined gate (vector_at cells.old a) (vector_at cells.old b)) }
    ensures length { length cells.new ≡ length cells.old }
{
    for k in 0..to.size {
        let x = bit(cells, a, k);
        let y = bit(cells, b, k);
        write_bit(cells, to, k, gate.of(x, y));
    }
}

/// Puts `not` of the elements of a vector.
pub fn invert(cells: &mut Cells, a: Place, to: Place)
    requires a { LiesIn cells.old a }
    requires to { LiesIn cells.old to }
    requires apart { Apart a to }
    requires size { a.size ≡ to.size }
    ensures value { cells.new ≡ with_vector cells.old to (map not_rule (vector_at cells.old a)) }
    ensures length { length cells.new ≡ length cells.old }
{
    for k in 0..to.size {
        write_bit(cells, to, k, not9(bit(cells, a, k)));
    }
}
