//! Results that are read from cells.

ghost use Rattle.std.specs.Prelude.{◌≡◌, IfOk, map};
ghost use Rattle.vv_vectors.specs.Vectors.{LiesIn, vector_at};
ghost use Rattle.vv_num.specs.Results.{FitsResult, outcome_back, read_back};
ghost use Rattle.vv_num.specs.Values.{logic, vector};

use crate::values::Outcome;
use sqlite_items::Items;
use std::alloc::Global;
use vv_base::fault::Memory;
use vv_bits::S9;
use vv_num_cells::Row;
use vv_types::{Cells, Place, Value};
use vv_vectors::{bit, scalar};

fn logic(x: S9) -> Value
    ensures { result ≡ logic x }
{
    Value::Logic(x)
}

/// The vector in a place.
fn vector_in(alloc: Global, cells: &Cells, place: Place) -> Result<Value, Memory>
    requires { LiesIn cells.now place }
    ensures { IfOk result (λ v. v ≡ vector (vector_at cells.now place)) }
{
    let mut elements = Items::new(alloc);
    for k in 0..place.size {
        elements.push(logic(bit(cells, place, k)))?;
    }
    Ok(Value::Array(elements))
}

/// The value that a row has put into a place.
fn value_in(alloc: Global, row: Row, cells: &Cells, place: Place) -> Result<Value, Memory>
    requires lies { LiesIn cells.now place }
    requires fits { FitsResult row place.size }
    ensures { IfOk result (λ v. v ≡ read_back row cells.now place) }
{
    match row {
        Row::Compare(..) => Ok(Value::Bool(scalar(cells, place) != 0)),
        Row::ToInteger(_) => Ok(Value::Int(scalar(cells, place))),
        _ => vector_in(alloc, cells, place),
    }
}

/// What a row gave, as it was put into a place. `inside` is false where it is a number outside INTEGER, which was not put.
pub fn outcome_in(
    alloc: Global,
    row: Row,
    inside: bool,
    cells: &Cells,
    place: Place,
) -> Result<Outcome, Memory>
    requires lies { LiesIn cells.now place }
    requires fits { FitsResult row place.size }
    ensures { IfOk result (λ o. o ≡ outcome_back row inside cells.now place) }
{
    if inside {
        Ok(Outcome::Value(value_in(alloc, row, cells, place)?))
    } else {
        Ok(Outcome::Range)
    }
}
