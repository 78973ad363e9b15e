//! Laws on the rows. Each function does nothing: its contract is the law.

ghost use Rattle.std.specs.Prelude.{◌≡◌, ◌↔◌, [], IsTrue, length};
ghost use Rattle.vv_std_values.specs.Equality.{same_value};
ghost use Rattle.vv_std_values.specs.Rows.{row_of_one, row_of_two};
ghost use Rattle.vv_std_cells.specs.Rows.{cells_row};
ghost use Rattle.vv_types.specs.Codec.{IsValueOf};
ghost use Rattle.vv_std_laws.specs.Cells.{cells_of, scalar_count};
ghost use Rattle.vv_std_laws.specs.Operands.{IsOperand, AreOperands};

use vv_types::{Codec, StdFn, Value};

/// Two values are the same exactly where they are equal.
pub fn same_values_are_equal(a: &Value, b: &Value)
    ensures { IsTrue (same_value a.now b.now) ↔ a.now ≡ b.now }
{}

/// A value has as many cells as its codec has scalars.
pub fn cells_are_as_many_as_the_scalars(codec: &Codec, value: &Value)
    requires { IsValueOf codec.now value.now }
    ensures { length (cells_of value.now) ≡ scalar_count codec.now }
{}

/// Among the values of a codec, the cells tell the value.
pub fn cells_tell_the_value(codec: &Codec, a: &Value, b: &Value)
    requires a { IsValueOf codec.now a.now }
    requires b { IsValueOf codec.now b.now }
    ensures { cells_of a.now ≡ cells_of b.now → a.now ≡ b.now }
{}

/// The row over cells, at the cells of an operand that the row has, gives the cells of what the row over values gives.
pub fn cells_are_those_of_the_value(f: StdFn, a: &Value)
    requires { IsOperand f a.now }
    ensures { cells_row f (cells_of a.now) [] ≡ cells_of (row_of_one f a.now) }
{}

/// The same for two operands.
pub fn cells_are_those_of_the_values(f: StdFn, a: &Value, b: &Value)
    requires { AreOperands f a.now b.now }
    ensures { cells_row f (cells_of a.now) (cells_of b.now) ≡ cells_of (row_of_two f a.now b.now) }
{}
