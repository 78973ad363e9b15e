//! Relations between operands in cells.

ghost use Rattle.std.specs.Prelude.{◌≡◌};
ghost use Rattle.vv_std_cells.specs.Rows.{first, holds, relation_holds, same_cells};
ghost use Rattle.vv_vectors.specs.Vectors.{LiesIn, cells_at};

use vv_types::{Cells, Place, StdFn};

/// The number in the first cell, and 0 where there is none.
fn first(cells: &Cells, place: Place) -> i32
    requires { LiesIn cells.now place }
    ensures { result ≡ first (cells_at cells.now place) }
{
    if place.size == 0 {
        0
    } else {
        cells.get(place.first)
    }
}

/// The truth value that an operand holds.
pub fn holds(cells: &Cells, place: Place) -> bool
    requires { LiesIn cells.now place }
    ensures { result ≡ holds (cells_at cells.now place) }
{
    first(cells, place) != 0
}

/// Whether two places have the same numbers.
fn same(cells: &Cells, a: Place, b: Place) -> bool
    requires a { LiesIn cells.now a }
    requires b { LiesIn cells.now b }
    ensures { result ≡ same_cells (cells_at cells.now a) (cells_at cells.now b) }
{
    if a.size != b.size {
        return false;
    }
    for k in 0..a.size {
        if cells.get(a.first + k) != cells.get(b.first + k) {
            return false;
        }
    }
    true
}

/// Whether the relation that an operator stands for holds. An operator that is no relation gives false.
pub fn relation(f: StdFn, cells: &Cells, a: Place, b: Place) -> bool
    requires a { LiesIn cells.now a }
    requires b { LiesIn cells.now b }
    ensures { result ≡ relation_holds f (cells_at cells.now a) (cells_at cells.now b) }
{
    match f {
        StdFn::EqualLogic
        | StdFn::EqualBool
        | StdFn::EqualInt
        | StdFn::EqualEnum
        | StdFn::EqualArray => same(cells, a, b),
        StdFn::NotEqualLogic
        | StdFn::NotEqualBool
        | StdFn::NotEqualInt
        | StdFn::NotEqualEnum
        | StdFn::NotEqualArray => !same(cells, a, b),
        StdFn::LessBool | StdFn::LessInt | StdFn::LessEnum => first(cells, a) < first(cells, b),
        StdFn::LessEqualBool | StdFn::LessEqualInt | StdFn::LessEqualEnum => {
            first(cells, a) <= first(cells, b)
        }
        StdFn::GreaterBool | StdFn::GreaterInt | StdFn::GreaterEnum => {
            first(cells, a) > first(cells, b)
        }
        StdFn::GreaterEqualBool | StdFn::GreaterEqualInt | StdFn::GreaterEqualEnum => {
            first(cells, a) >= first(cells, b)
        }
        _ => false,
    }
}
