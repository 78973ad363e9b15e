//! The operators by their rows.

ghost use Rattle.std.specs.Prelude.{◌≡◌, [], ◌∷◌, length};
ghost use Rattle.vv_std_cells.specs.Rows.{FitsSizes, cells_row, truth, truth_cells};
ghost use Rattle.vv_vectors.specs.Vectors.{Apart, LiesIn, cells_at, with_cells};

use crate::elements::{combine, invert, join};
use crate::relations::{holds, relation};
use vv_std_values::Gate;
use vv_types::{Cells, Place, StdFn};
use vv_vectors::put_scalar;

/// Puts the value of an operator for the operands in `a` and `b`. An operand that the operator does not have is a place of size 0.
pub fn std_in(f: StdFn, cells: &mut Cells, a: Place, b: Place, to: Place)
    requires a { LiesIn cells.old a }
    requires b { LiesIn cells.old b }
    requires to { LiesIn cells.old to }
    requires apart_a { Apart a to }
    requires apart_b { Apart b to }
    requires sizes { FitsSizes f a.size b.size to.size }
    ensures value { cells.new ≡ with_cells cells.old to (cells_row f (cells_at cells.old a) (cells_at cells.old b)) }
    ensures length { length cells.new ≡ length cells.old }
{
    match f {
        StdFn::AndBool => put_gate(cells, Gate::And, a, b, to),
        StdFn::OrBool => put_gate(cells, Gate::Or, a, b, to),
        StdFn::XorBool => put_gate(cells, Gate::Xor, a, b, to),
        StdFn::NandBool => put_gate(cells, Gate::Nand, a, b, to),
        StdFn::NorBool => put_gate(cells, Gate::Nor, a, b, to),
        StdFn::XnorBool => put_gate(cells, Gate::Xnor, a, b, to),
        StdFn::NotBool => put_truth(cells, !holds(cells, a), to),
        StdFn::AndLogic | StdFn::AndVector => combine(cells, Gate::And, a, b, to),
        StdFn::OrLogic | StdFn::OrVector => combine(cells, Gate::Or, a, b, to),
        StdFn::XorLogic | StdFn::XorVector => combine(cells, Gate::Xor, a, b, to),
        StdFn::NandLogic | StdFn::NandVector => combine(cells, Gate::Nand, a, b, to),
        StdFn::NorLogic | StdFn::NorVector => combine(cells, Gate::Nor, a, b, to),
        StdFn::XnorLogic | StdFn::XnorVector => combine(cells, Gate::Xnor, a, b, to),
        StdFn::NotLogic | StdFn::NotVector => invert(cells, a, to),
        StdFn::ConcatenateArrays
        | StdFn::ConcatenateArrayElement
        | StdFn::ConcatenateElementArray
        | StdFn::ConcatenateElements => join(cells, a, b, to),
        _ => put_truth(cells, relation(f, cells, a, b), to),
    }
}

fn put_truth(cells: &mut Cells, value: bool, to: Place)
    requires lies { LiesIn cells.old to }
    requires one { to.size ≡ 1 }
    ensures value { cells.new ≡ with_cells cells.old to (truth value ∷ []) }
    ensures length { length cells.new ≡ length cells.old }
{
    put_scalar(cells, to, if value { 1 } else { 0 });
}

fn put_gate(cells: &mut Cells, gate: Gate, a: Place, b: Place, to: Place)
    requires a { LiesIn cells.old a }
    requires b { LiesIn cells.old b }
    requires lies { LiesIn cells.old to }
    requires one { to.size ≡ 1 }
    ensures value { cells.new ≡ with_cells cells.old to (truth_cells gate (cells_at cells.old a) (cells_at cells.old b)) }
    ensures length { length cells.new ≡ length cells.old }
{
    let value = gate.of_booleans(holds(cells, a), holds(cells, b));
    put_truth(cells, value, to);
}
