//! The engine as a design's user sees it.

use crate::build::{Build, narrow};
use crate::lay::{
    Laid, lay_constants, lay_functions, lay_inputs, lay_nets, lay_processes, listeners_of,
    variable, watches_of,
};
use crate::lines::{Lines, written_of};
use std::alloc::Global;
use vv_base::fault::{Memory, Span, cannot_come};
use vv_bits::S9;
use vv_design::{Design, Met, Plan, Run};
use vv_engine::{Engine, Lists, Ready, State};
use vv_lines::{Object, listed_objects};
use vv_stim::Row;
use vv_store::Store;
use vv_types::Place;

/// What a row came to: it settled, or it reached a range error. `met` is the first clash or control fault of the row before that.
#[derive(Clone, Copy, Debug, PartialEq, Eq)]
pub enum Step {
    Settled { met: Option<Met> },
    Range { at: Span, met: Option<Met> },
}

/// The engine of a design. The k-th of `inputs` are the elements of input k.
#[derive(Drop)]
pub struct Sim9<'d> {
    design: &'d Design,
    engine: Engine,
    inputs: Vec<Run>,
    lines: Lines,
}

impl<'d> Sim9<'d> {
    /// The engine of a design with its plan, and all the memory that it takes.
    pub fn new(alloc: Global, design: &'d Design, plan: &'d Plan) -> Result<Sim9<'d>, Memory> {
        let mut to = Build::new(alloc, design);
        lay_nets(&mut to)?;
        let inputs = lay_inputs(plan, &mut to)?;
        let mut feeds = Vec::new(alloc);
        lay_constants(&mut to, &mut feeds)?;
        lay_functions(&mut to)?;
        let laid = lay_processes(&mut to, &mut feeds)?;
        let watches = watches_of(plan, inputs.as_slice(), &to)?;
        let lines = lines_of(alloc, design, plan, &laid)?;
        let (segments, listeners) = listeners_of(&to)?;
        let procs = narrow(design.procs.len())?;
        let calls = design.functions.len().saturating_add(1);
        let store = filled(alloc, to.cells.as_slice())?;
        let engine = Engine {
            state: State::new(alloc, store, design.elements, calls)?,
            code: to.instrs,
            entries: laid.entries,
            feeds: Lists::of(alloc, design.elements, feeds.as_slice())?,
            segments,
            listeners,
            watches,
            ready: Ready::new(alloc, procs)?,
            most: u64::from(procs)
                .saturating_add(1)
                .saturating_mul(u64::from(design.elements).saturating_add(2)),
        };
        Ok(Sim9 {
            design,
            engine,
            inputs,
            lines,
        })
    }

    /// Row 0: each process runs once, with no event. It is called once, before all rows.
    pub fn power(&mut self) -> Step {
        self.engine.begin(self.design.elements);
        self.settle()
    }

    /// The next row, which is lawful. It is called after `power`, and not after a range error.
    pub fn row(&mut self, row: &Row) -> Step {
        self.engine.state.forget();
        for change in row.changes.as_slice() {
            let Some(run) = self.inputs.get(change.input).copied() else {
                continue;
            };
            let mut elem = run.first;
            for bit in change.bits.as_slice() {
                self.engine.change(elem, *bit as i32);
                elem = elem.saturating_add(1);
            }
        }
        self.settle()
    }

    /// Makes all steps of a row.
    fn settle(&mut self) -> Step {
        self.engine.state.forget_met();
        let failed = self.engine.settle();
        let met = self.engine.state.met();
        match failed {
            None => {
                self.lines.look(&self.engine.state);
                Step::Settled { met }
            }
            Some(at) => Step::Range { at, met },
        }
    }

    /// The bits of a line of the design's map, leftmost first. There are none where there is no such line.
    pub fn value(&self, line: usize) -> Option<&[S9]> {
        self.lines.bits(line)
    }
}

/// The lines of the design's map.
fn lines_of(alloc: Global, design: &Design, plan: &Plan, laid: &Laid) -> Result<Lines, Memory> {
    let mut lines = Lines::new(alloc);
    for line in listed_objects(alloc, design, plan)?.as_slice() {
        match line.object {
            Object::Net(number) => {
                let net = design.net(number)?;
                let run = net.run();
                let place = Place {
                    first: run.first,
                    size: run.len,
                };
                lines.add(place, written_of(&net.subtype))?;
            }
            Object::Variable { proc, number } => {
                let Some(var) = design.proc(proc)?.vars.get(number as usize) else {
                    return Err(cannot_come());
                };
                lines.add(variable(laid, proc, number)?, written_of(&var.subtype))?;
            }
        }
    }
    Ok(lines)
}

/// Cells with these numbers.
fn filled(alloc: Global, numbers: &[i32]) -> Result<Store, Memory> {
    let mut store = Store::new(alloc, narrow(numbers.len())?)?;
    let mut k: u32 = 0;
    for n in numbers {
        store.set(k, *n);
        k = k.saturating_add(1);
    }
    Ok(store)
}
