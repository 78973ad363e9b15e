//! Code and places that are being made.

use std::alloc::Global;
use vv_base::fault::{Memory, cannot_come};
use vv_design::Design;
use vv_engine::Instr;
use vv_types::{Place, Value};

/// A value of an expression: where it lies, and its number where it is a scalar that is known beforehand.
#[derive(Clone, Copy)]
pub struct Operand {
    pub place: Place,
    pub known: Option<i32>,
}

/// A function that has its code: where its parameters and its result lie, and where its code begins.
#[derive(Drop)]
pub struct Routine {
    pub params: Vec<Place>,
    pub result: Place,
    pub entry: u32,
}

/// How much of the temporary cells is taken: a chunk of them, and cells of it.
#[derive(Clone, Copy)]
pub struct Mark {
    chunk: usize,
    used: u32,
}

/// Where temporary cells lie. They are taken from the first chunk on, and given back together.
#[derive(Drop)]
pub struct Pool {
    chunks: Vec<Place>,
    at: Mark,
}

/// What is being made. `vars` are the variables of the process or function, `images` has for each net the first of the cells in which
/// the process drives it, `imaged` are the nets that have some, and `result` is where the function puts its value. The cell `zero`
/// always has 0.
#[derive(Drop)]
pub struct Build<'d> {
    pub alloc: Global,
    pub design: &'d Design,
    pub instrs: Vec<Instr>,
    pub cells: Vec<i32>,
    pub zero: u32,
    pub constants: Vec<Option<Place>>,
    pub routines: Vec<Routine>,
    pub vars: Vec<Place>,
    pub images: Vec<Option<u32>>,
    pub imaged: Vec<u32>,
    pub result: Option<Place>,
    pub pool: Pool,
}

/// A count as a number of 32 bits.
pub fn narrow(n: usize) -> Result<u32, Memory> {
    match u32::try_from(n) {
        Ok(n) => Ok(n),
        Err(_) => Err(Memory),
    }
}

/// The number of a scalar.
pub fn number_of(value: &Value) -> i32 {
    match value {
        Value::Logic(x) => *x as i32,
        Value::Bool(b) => { if *b { 1 } else { 0 } }
        Value::Int(n) => *n,
        Value::Enum(position) => i32::try_from(*position).unwrap_or(0),
        Value::Array(_) => 0,
    }
}

/// A value that is a scalar, by its number.
pub fn known_of(value: &Value) -> Option<i32> {
    match value {
        Value::Array(_) => None,
        _ => Some(number_of(value)),
    }
}

impl Pool {
    /// No temporary cells.
    pub fn new(alloc: Global) -> Pool {
        Pool {
            chunks: Vec::new(alloc),
            at: Mark { chunk: 0, used: 0 },
        }
    }
}

impl<'d> Build<'d> {
    /// Nothing of a design yet.
    pub fn new(alloc: Global, design: &'d Design) -> Build<'d> {
        Build {
            alloc,
            design,
            instrs: Vec::new(alloc),
            cells: Vec::new(alloc),
            zero: 0,
            constants: Vec::new(alloc),
            routines: Vec::new(alloc),
            vars: Vec::new(alloc),
            images: Vec::new(alloc),
            imaged: Vec::new(alloc),
            result: None,
            pool: Pool::new(alloc),
        }
    }

    /// Appends an instruction.
    pub fn push(&mut self, instr: Instr) -> Result<(), Memory> {
        self.instrs.push(instr)?;
        Ok(())
    }

    /// The place of the next instruction.
    pub fn here(&self) -> Result<u32, Memory> {
        narrow(self.instrs.len())
    }

    /// Puts an instruction into a place that is already there.
    pub fn put(&mut self, place: u32, instr: Instr) {
        if let Some(kept) = self.instrs.get_mut(place as usize) {
            *kept = instr;
        }
    }

    /// New cells with 0 that nothing else has.
    pub fn fresh(&mut self, size: u32) -> Result<Place, Memory> {
        let first = narrow(self.cells.len())?;
        if first.checked_add(size).is_none() {
            return Err(Memory);
        }
        for _ in 0..size {
            self.cells.push(0)?;
        }
        Ok(Place { first, size })
    }

    /// The number of the next new cell.
    pub fn here_cell(&self) -> Result<u32, Memory> {
        narrow(self.cells.len())
    }

    /// How much of the temporary cells is taken.
    pub fn mark(&self) -> Mark {
        self.pool.at
    }

    /// Gives back what was taken since.
    pub fn release(&mut self, mark: Mark) {
        self.pool.at = mark;
    }

    /// Cells for a value that is used until they are given back.
    pub fn temporary(&mut self, size: u32) -> Result<Place, Memory> {
        for k in self.pool.at.chunk..self.pool.chunks.len() {
            let Some(chunk) = self.pool.chunks.get(k).copied() else {
                return Err(cannot_come());
            };
            let used = if k == self.pool.at.chunk {
                self.pool.at.used
            } else {
                0
            };
            if size <= chunk.size.saturating_sub(used) {
                self.pool.at = Mark {
                    chunk: k,
                    used: used.saturating_add(size),
                };
                return Ok(Place {
                    first: chunk.first.saturating_add(used),
                    size,
                });
            }
        }
        let chunk = self.fresh(size.max(256))?;
        self.pool.at = Mark {
            chunk: self.pool.chunks.len(),
            used: size,
        };
        self.pool.chunks.push(chunk)?;
        Ok(Place {
            first: chunk.first,
            size,
        })
    }

    /// Puts the scalars of a value into new cells, leftmost first.
    fn append(&mut self, value: &Value) -> Result<(), Memory> {
        match value {
            Value::Array(xs) => {
                for x in xs.as_slice() {
                    self.append(x)?;
                }
                Ok(())
            }
            _ => {
                self.cells.push(number_of(value))?;
                Ok(())
            }
        }
    }

    /// New cells that begin with a value.
    pub fn lay(&mut self, value: &Value) -> Result<Place, Memory> {
        let first = self.here_cell()?;
        self.append(value)?;
        let end = self.here_cell()?;
        Ok(Place {
            first,
            size: end.saturating_sub(first),
        })
    }

    /// A large constant, which lies once for all its uses.
    pub fn large(&mut self, number: u32) -> Result<Place, Memory> {
        if let Some(Some(place)) = self.constants.get(number as usize) {
            return Ok(*place);
        }
        let design = self.design;
        let place = self.lay(design.constant(number)?)?;
        if let Some(kept) = self.constants.get_mut(number as usize) {
            *kept = Some(place);
        }
        Ok(place)
    }

    /// The cells of a variable of the process, or of a parameter or local of the function.
    pub fn var(&self, number: u32) -> Result<Place, Memory> {
        match self.vars.get(number as usize) {
            Some(place) => Ok(*place),
            None => Err(cannot_come()),
        }
    }

    /// The first of the cells in which the process drives a net. They begin with the initial value of the net.
    pub fn image(&mut self, number: u32) -> Result<u32, Memory> {
        if let Some(Some(first)) = self.images.get(number as usize) {
            return Ok(*first);
        }
        let design = self.design;
        let first = self.lay(&design.net(number)?.initial)?.first;
        self.imaged.push(number)?;
        if let Some(kept) = self.images.get_mut(number as usize) {
            *kept = Some(first);
        }
        Ok(first)
    }

    /// Begins a process, which drives nothing yet.
    pub fn forget_images(&mut self) {
        for k in 0..self.imaged.len() {
            if let Some(number) = self.imaged.get(k).copied()
                && let Some(kept) = self.images.get_mut(number as usize)
            {
                *kept = None;
            }
        }
        self.imaged.truncate(0);
    }
}
