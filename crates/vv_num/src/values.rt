//! The values of the operators and functions.

ghost use Rattle.std.specs.Prelude.{◌≡◌, IfOk};
ghost use Rattle.vv_num_cells.specs.Table.{row_of};
ghost use Rattle.vv_num.specs.Values.{FitsCells, FitsValues, cells_of, no_row, nothing, num_row, outcome_for};

use crate::operands::{cell_count, filled, first_cell, fits, laid_out, size_given};
use crate::results::outcome_in;
use sqlite_items::Items;
use std::alloc::Global;
use vv_base::fault::Memory;
use vv_num_cells::{num_in, row_of};
use vv_types::{NumFn, Value};

/// What an operator or a function gives. `Range` stands for a number outside INTEGER.
#[derive(Drop)]
pub enum Outcome {
    Value(Value),
    Range,
}

/// The value of an operator or a function for its operands from the left. Operands that it does not have give FALSE. Memory is also
/// wanting where the operands and the result have 4,294,967,296 elements or more together.
pub fn num_value(alloc: Global, f: NumFn, args: &[Value]) -> Result<Outcome, Memory>
    ensures fits { FitsValues (row_of f) args.now → IfOk result (λ o. o ≡ num_row (row_of f) args.now) }
    ensures unfit { ¬ FitsValues (row_of f) args.now → IfOk result (λ o. o ≡ no_row) }
{
    match args {
        [a] => of_operands(alloc, f, a, &nothing(alloc)),
        [a, b] => of_operands(alloc, f, a, b),
        _ => Ok(no_row()),
    }
}

/// An operand that is missing, as a vector of no elements.
fn nothing(alloc: Global) -> Value
    ensures { result ≡ nothing }
{
    Value::Array(Items::new(alloc))
}

/// The answer for operands that a row does not have.
fn no_row() -> Outcome
    ensures { result ≡ no_row }
{
    Outcome::Value(Value::Bool(false))
}

fn of_operands(alloc: Global, f: NumFn, a: &Value, b: &Value) -> Result<Outcome, Memory>
    ensures fits { FitsCells (row_of f) (cells_of a.now) (cells_of b.now) → IfOk result (λ o. o ≡ outcome_for (row_of f) (cells_of a.now) (cells_of b.now)) }
    ensures unfit { ¬ FitsCells (row_of f) (cells_of a.now) (cells_of b.now) → IfOk result (λ o. o ≡ no_row) }
{
    let row = row_of(f);
    let size_a = cell_count(a)?;
    let size_b = cell_count(b)?;
    let n = first_cell(b);
    if !fits(row, size_a, size_b, n) {
        return Ok(no_row());
    }
    let places = laid_out(size_a, size_b, size_given(row, size_a, size_b, n))?;
    let mut cells = filled(alloc, a, b, places)?;
    let inside = num_in(f, &mut cells, places.a, places.b, places.to);
    outcome_in(alloc, row, inside, &cells, places.to)
}
