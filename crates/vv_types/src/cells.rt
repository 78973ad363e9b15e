//! Cells of numbers, which a run takes once and then writes without more memory.

ghost use Rattle.std.specs.Prelude.{◌≡◌, ◌<◌, IfOk, length, pos, replicate, slice_get, slice_set, Some};

use std::alloc::Global;
use std::marker::Model;
use vv_base::fault::Memory;

/// Some cells that lie side by side.
#[derive(Clone, Copy, Debug, PartialEq, Eq)]
pub struct Place {
    pub first: u32,
    pub size: u32,
}

/// A fixed number of cells, each with a number.
#[derive(Debug, Drop)]
pub struct Cells {
    cells: Vec<i32>,
}

impl Model for Cells {
    ghost use Rattle.std.specs.Prelude.{List, ℤ};

    ghost Value = { List ℤ };

    ghost view = { λ c. c.cells.items };
}

impl Cells {
    /// Cells that each have 0.
    pub fn new(alloc: Global, n: u32) -> Result<Cells, Memory>
        ensures { IfOk result (λ cells. cells ≡ replicate n (pos 0)) }
    {
        Ok(Cells {
            cells: vec![in alloc; 0; n as usize]?,
        })
    }

    /// The number in a cell.
    pub fn get(&self, i: u32) -> i32
        requires { i < length self.now }
        ensures { slice_get self.now i ≡ Some result }
    {
        self.cells[i as usize]
    }

    /// Puts a number into a cell.
    pub fn set(&mut self, i: u32, v: i32)
        requires { i < length self.old }
        ensures { self.new ≡ slice_set self.old i v }
    {
        self.cells[i as usize] = v;
    }
}
