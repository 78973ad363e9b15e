ghost use Rattle.std.specs.Prelude.{◌≡◌, ◌<◌, slice_index, slice_index_or, []};

/// R rows of C cells.
#[derive(Clone, Copy)]
pub struct Table<const R: usize, const C: usize> {
    pub cells: [[u8; C]; R],
}

impl<const R: usize, const C: usize> Table<R, C> {
    /// The cell in row `r` and column `c`, both from 0.
    pub fn at(&self, r: usize, c: usize) -> u8
        requires row { r < R }
        requires column { c < C }
        ensures { result ≡ slice_index (slice_index_or self.now.cells r []) c }
    {
        self.cells[r][c]
    }
}

/// The value of type `$values` that `$table` has in the row of `$a` and the column of `$b`.
macro_rules! look_up {
    ($values:ident, $table:ident, $a:expr, $b:expr) => {
        $values::of_cell($table.at($a as usize, $b as usize))
    };
}

pub(crate) use look_up;
