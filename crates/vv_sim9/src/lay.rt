//! The objects and processes of a design in cells and code.

use crate::build::{Build, Pool, Routine, narrow};
use crate::expressions::expression;
use crate::statements::statements;
use sqlite_items::at;
use std::mem;
use vv_base::fault::{Memory, Span, cannot_come};
use vv_design::{Design, Function, Origin, Plan, Proc, Run, Shape};
use vv_engine::{Instr, Lists, Segments, Watch};
use vv_types::Place;

/// Where the variables of each process lie, and where the code of each begins.
#[derive(Drop)]
pub struct Laid {
    pub entries: Vec<u32>,
    pub variables: Vec<Vec<Place>>,
}

/// The cells of nets with their initial values, and cells for the values before. Of the names of an element the outermost one stands
/// first and gives the value. The cell with 0 lies behind.
pub fn lay_nets<'d>(to: &mut Build<'d>) -> Result<(), Memory> {
    let design = to.design;
    to.fresh(design.elements)?;
    to.fresh(design.elements)?;
    to.zero = to.fresh(1)?.first;
    for net in design.nets.as_slice().iter().rev() {
        let value = to.lay(&net.initial)?;
        for k in 0..value.size {
            put_cell(
                to,
                value.first.saturating_add(k),
                net.first.saturating_add(k),
            );
        }
        to.cells.truncate(value.first as usize);
    }
    to.constants = vec![in to.alloc; None; design.constants.len()]?;
    to.images = vec![in to.alloc; None; design.nets.len()]?;
    Ok(())
}

/// Copies a cell.
fn put_cell<'d>(to: &mut Build<'d>, from: u32, into: u32) {
    let n = to.cells.get(from as usize).copied().unwrap_or(0);
    if let Some(cell) = to.cells.get_mut(into as usize) {
        *cell = n;
    }
}

/// The elements of the inputs of the top, with the levels at which they start.
pub fn lay_inputs<'d>(plan: &Plan, to: &mut Build<'d>) -> Result<Vec<Run>, Memory> {
    let design = to.design;
    let mut inputs = Vec::new(to.alloc);
    for port in design.top.as_slice() {
        if !port.input {
            continue;
        }
        let Some(class) = plan.classes.get(inputs.len()).copied() else {
            return Err(cannot_come());
        };
        let run = design.net(port.net)?.run();
        for k in 0..run.len {
            if let Some(cell) = to.cells.get_mut(run.first.saturating_add(k) as usize) {
                *cell = class.start() as i32;
            }
        }
        inputs.push(run)?;
    }
    Ok(inputs)
}

/// The functions, each behind those that it calls.
pub fn lay_functions<'d>(to: &mut Build<'d>) -> Result<(), Memory> {
    let design = to.design;
    for function in design.functions.as_slice() {
        lay_function(function, to)?;
    }
    Ok(())
}

/// The code of a function. It has temporary cells of its own, since they are in use while the caller's are.
fn lay_function<'d>(function: &'d Function, to: &mut Build<'d>) -> Result<(), Memory> {
    to.pool = Pool::new(to.alloc);
    let mut params = Vec::new(to.alloc);
    let mut vars = Vec::new(to.alloc);
    for param in function.params.as_slice() {
        let place = to.fresh(Shape::of(&param.subtype).size())?;
        params.push(place)?;
        vars.push(place)?;
    }
    for local in function.locals.as_slice() {
        vars.push(to.fresh(Shape::of(&local.subtype).size())?)?;
    }
    let result = to.fresh(Shape::of(&function.result).size())?;
    let entry = to.here()?;
    let mut number = params.len();
    to.vars = vars;
    to.result = Some(result);
    for local in function.locals.as_slice() {
        let mark = to.mark();
        let found = expression(&local.initial, to)?;
        let into = to.var(narrow(number)?)?;
        to.push(Instr::Copy {
            from: found.place,
            to: into,
        })?;
        to.release(mark);
        number = number.saturating_add(1);
    }
    statements(function.body.as_slice(), to)?;
    to.push(Instr::Return)?;
    to.result = None;
    to.routines.push(Routine {
        params,
        result,
        entry,
    })?;
    Ok(())
}

/// The processes. The cells of the sources of each element are added as pairs.
pub fn lay_processes<'d>(to: &mut Build<'d>, feeds: &mut Vec<(u32, u32)>) -> Result<Laid, Memory> {
    let design = to.design;
    let drivers = drivers_of(to)?;
    to.pool = Pool::new(to.alloc);
    let mut laid = Laid {
        entries: Vec::new(to.alloc),
        variables: Vec::new(to.alloc),
    };
    let mut number: u32 = 0;
    for proc in design.procs.as_slice() {
        to.forget_images();
        laid.entries.push(to.here()?)?;
        laid.variables.push(lay_process(proc, to)?)?;
        for source in drivers.list(number) {
            lay_driver(*source, to, feeds)?;
        }
        number = number.saturating_add(1);
    }
    Ok(laid)
}

/// For each process its sources, by their numbers.
fn drivers_of<'d>(to: &Build<'d>) -> Result<Lists, Memory> {
    let design = to.design;
    let mut pairs = Vec::new(to.alloc);
    let mut number: u32 = 0;
    for source in design.sources.as_slice() {
        if let Origin::Driver { proc, net: _ } = &source.from {
            pairs.push((*proc, number))?;
        }
        number = number.saturating_add(1);
    }
    Lists::of(to.alloc, narrow(design.procs.len())?, pairs.as_slice())
}

/// The code of a process. Where its variables lie is answered.
fn lay_process<'d>(proc: &'d Proc, to: &mut Build<'d>) -> Result<Vec<Place>, Memory> {
    let mut vars = Vec::new(to.alloc);
    for var in proc.vars.as_slice() {
        vars.push(to.lay(&var.initial)?)?;
    }
    to.vars = vars;
    statements(proc.body.as_slice(), to)?;
    to.push(Instr::Halt)?;
    Ok(mem::replace(&mut to.vars, Vec::new(to.alloc)))
}

/// The pairs of a driver of the process that has just got its code.
fn lay_driver<'d>(
    source: u32,
    to: &mut Build<'d>,
    feeds: &mut Vec<(u32, u32)>,
) -> Result<(), Memory> {
    let design = to.design;
    let Some(source) = design.sources.get(source as usize) else {
        return Err(cannot_come());
    };
    if let Origin::Driver { proc: _, net } = &source.from {
        let image = to.image(*net)?;
        let behind = source.run.first.saturating_sub(design.net(*net)?.first);
        add_feeds(source.run, image.saturating_add(behind), feeds)?;
    }
    Ok(())
}

/// The constant sources.
pub fn lay_constants<'d>(to: &mut Build<'d>, feeds: &mut Vec<(u32, u32)>) -> Result<(), Memory> {
    let design = to.design;
    for source in design.sources.as_slice() {
        if let Origin::Constant { net: _, values } = &source.from {
            let first = to.here_cell()?;
            for value in values.as_slice() {
                to.lay(value)?;
            }
            add_feeds(source.run, first, feeds)?;
        }
    }
    Ok(())
}

/// Pairs of the elements of a run with cells that lie side by side.
fn add_feeds(run: Run, first: u32, feeds: &mut Vec<(u32, u32)>) -> Result<(), Memory> {
    for k in 0..run.len {
        feeds.push((run.first.saturating_add(k), first.saturating_add(k)))?;
    }
    Ok(())
}

/// The segments of elements, and for each the processes that are sensitive to it.
pub fn listeners_of<'d>(to: &Build<'d>) -> Result<(Segments, Lists), Memory> {
    let design = to.design;
    let mut segments = Segments::new(to.alloc, design.elements)?;
    for proc in design.procs.as_slice() {
        for run in proc.listens.as_slice() {
            segments.cut(*run);
        }
    }
    segments.number();
    let mut pairs = Vec::new(to.alloc);
    let mut number: u32 = 0;
    for proc in design.procs.as_slice() {
        for run in proc.listens.as_slice() {
            let end = run.first.saturating_add(run.len);
            for segment in segments.of(run.first)..segments.of(end) {
                pairs.push((segment, number))?;
            }
        }
        number = number.saturating_add(1);
    }
    let lists = Lists::of(to.alloc, segments.count(), pairs.as_slice())?;
    Ok((segments, lists))
}

/// The controls that are no inputs, each with the place of the first net that has it.
pub fn watches_of<'d>(plan: &Plan, inputs: &[Run], to: &Build<'d>) -> Result<Vec<Watch>, Memory> {
    let mut watches: Vec<Watch> = Vec::new(to.alloc);
    for kind in plan.kinds.as_slice() {
        for control in kind.controls() {
            if is_watched(watches.as_slice(), control.elem) || is_input(inputs, control.elem) {
                continue;
            }
            if let Some(at) = declared_at(to.design, control.elem) {
                watches.push(Watch {
                    elem: control.elem,
                    at,
                })?;
            }
        }
    }
    Ok(watches)
}

fn is_watched(watches: &[Watch], elem: u32) -> bool {
    for watch in watches {
        if watch.elem == elem {
            return true;
        }
    }
    false
}

fn is_input(inputs: &[Run], elem: u32) -> bool {
    for run in inputs {
        if run.has(elem) {
            return true;
        }
    }
    false
}

/// The place of the first net that has an element.
fn declared_at(design: &Design, elem: u32) -> Option<Span> {
    for net in design.nets.as_slice() {
        if net.run().has(elem) {
            return Some(net.span);
        }
    }
    None
}

/// Where a variable of a process lies.
pub fn variable(laid: &Laid, proc: u32, number: u32) -> Result<Place, Memory> {
    if let Some(places) = laid.variables.get(proc as usize)
        && let Some(place) = at(places.as_slice(), number as usize)
    {
        return Ok(*place);
    }
    Err(cannot_come())
}
