//! The elements that a process may assign, numbered on: first those of its variables, and then those of the nets, by the net whose
//! name is assigned. A net has two numbers for an element that it is assigned by two names.

use std::alloc::Global;
use vv_base::fault::Memory;
use vv_design::{ProcVar, Run};
use vv_reads::{Changed, Object, Place};

/// The elements of one net that are assigned, and the cell of the first.
#[derive(Clone, Copy, Debug, PartialEq, Eq, PartialOrd, Ord)]
struct Part {
    net: u32,
    run: Run,
    cell: u32,
}

/// Where the elements of a process have their cells.
#[derive(Drop)]
pub struct Cells {
    vars: Vec<Run>,
    nets: Vec<Part>,
    count: u32,
}

impl Cells {
    /// The cells of a process with these variables and these assignments to signals.
    pub fn of(alloc: Global, vars: &[ProcVar], targets: &[Changed]) -> Result<Cells, Memory> {
        let mut cells = Cells {
            vars: Vec::new(alloc),
            nets: Vec::new(alloc),
            count: 0,
        };
        for var in vars {
            let len = var.shape.size();
            cells.vars.push(Run {
                first: cells.count,
                len,
            })?;
            cells.count = cells.count.saturating_add(len);
        }
        let mut parts = Vec::new(alloc);
        for target in targets {
            if let Object::Net(net) = target.place.object {
                parts.push(Part {
                    net,
                    run: target.place.run,
                    cell: 0,
                })?;
            }
        }
        parts.sort()?;
        let mut known: Option<Part> = None;
        for part in &parts {
            known = match known {
                Some(before) if before.net == part.net => Some(Part {
                    net: before.net,
                    run: joined(before.run, part.run),
                    cell: 0,
                }),
                _ => {
                    cells.add(known)?;
                    Some(*part)
                }
            };
        }
        cells.add(known)?;
        Ok(cells)
    }

    fn add(&mut self, part: Option<Part>) -> Result<(), Memory> {
        if let Some(part) = part {
            self.nets.push(Part {
                net: part.net,
                run: part.run,
                cell: self.count,
            })?;
            self.count = self.count.saturating_add(part.run.len);
        }
        Ok(())
    }

    /// How many cells there are.
    pub fn count(&self) -> u32 {
        self.count
    }

    /// The cells of the elements of a place. A net that is not assigned has none.
    pub fn of_place(&self, place: Place) -> Run {
        self.of_run(place.object, place.run)
    }

    /// The cells of a run of elements of a net or a variable.
    pub fn of_run(&self, object: Object, run: Run) -> Run {
        match object {
            Object::Variable(number) => match self.vars.get(number as usize) {
                Some(cells) => cells.part(run.first, run.len),
                None => none(),
            },
            Object::Net(number) => match self.part(number) {
                Some(part) => {
                    let cells = Run {
                        first: part.cell,
                        len: part.run.len,
                    };
                    cells.part(run.first.saturating_sub(part.run.first), run.len)
                }
                None => none(),
            },
        }
    }

    fn part(&self, net: u32) -> Option<&Part> {
        match self.nets.binary_search_by_key(&net, |part| part.net) {
            Ok(at) => self.nets.get(at),
            Err(_) => None,
        }
    }
}

fn none() -> Run {
    Run { first: 0, len: 0 }
}

/// The least run that holds two of which the first begins no later than the second. An empty one counts for nothing.
fn joined(a: Run, b: Run) -> Run {
    if a.is_empty() {
        b
    } else if b.is_empty() {
        a
    } else {
        Run {
            first: a.first,
            len: a.end().max(b.end()).saturating_sub(a.first),
        }
    }
}
