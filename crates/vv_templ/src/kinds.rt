//! The kind of each process.

use crate::arms::check_control;
use crate::cells::Cells;
use crate::listens::Listens;
use crate::paths::{Paths, statements};
use sqlite_items::Items;
use std::alloc::Global;
use vv_base::fault::{Fault, Memory, Rule, Span};
use vv_design::{Control, ControlList, Design, Kind, KindList, Net, Proc, Run};
use vv_reads::{
    Changed, EdgeForm, Least, Level, Object, Read, Template, Use, add_data_reads, add_targets,
    sole_if, template_of,
};

/// The kind of each process of a design. It refuses a process that fits no template or breaks a rule of its own, at the least place.
pub fn classify(alloc: Global, design: &Design) -> Result<KindList, Fault> {
    let nets = design.nets.as_slice();
    let mut kinds = Items::new(alloc);
    let mut least = Least::none();
    for proc in design.procs.as_slice() {
        let template = template_of(alloc, nets, proc)?;
        check(alloc, nets, proc, &template, &mut least)?;
        kinds.push(kind_of(alloc, &template)?)?;
    }
    least.answer()?;
    Ok(kinds)
}

fn kind_of(alloc: Global, template: &Template) -> Result<Kind, Memory> {
    match template {
        Template::Unfit | Template::Comb => Ok(Kind::Comb),
        Template::Waits(edge) => clocked(alloc, *edge, &[]),
        Template::Clocked { edge, controls } => clocked(alloc, *edge, controls.as_slice()),
        Template::Latch { enable, controls } => Ok(Kind::Latch {
            enable: enable.elem,
            level: enable.high,
            controls: controls_of(alloc, controls.as_slice())?,
        }),
    }
}

fn clocked(alloc: Global, edge: EdgeForm, controls: &[Level]) -> Result<Kind, Memory> {
    Ok(Kind::Clocked {
        clock: edge.elem,
        rising: edge.rising,
        controls: controls_of(alloc, controls)?,
    })
}

fn controls_of(alloc: Global, levels: &[Level]) -> Result<ControlList, Memory> {
    let mut controls = Items::new(alloc);
    for level in levels {
        controls.push(Control {
            elem: level.elem,
            level: level.high,
        })?;
    }
    Ok(controls)
}

/// Notes where a process breaks a rule of templates.
fn check(
    alloc: Global,
    nets: &[Net],
    proc: &Proc,
    template: &Template,
    least: &mut Least,
) -> Result<(), Memory> {
    let mut reads = Vec::new(alloc);
    add_data_reads(alloc, nets, proc, template, &mut reads)?;
    check_edges(reads.as_slice(), least);
    match template {
        Template::Unfit => {
            least.note(Rule::C1, proc.span);
            Ok(())
        }
        Template::Waits(_) => Ok(()),
        Template::Comb => {
            let listens = Listens::of(proc.listens.as_slice());
            check_reads(listens, reads.as_slice(), least);
            check_body(alloc, nets, proc, least)
        }
        Template::Clocked { edge, controls } => {
            let listens = Listens::of(proc.listens.as_slice());
            check_levels(listens, controls.as_slice(), least);
            check_element(listens, edge.elem, edge.name, least);
            check_controls(proc, least);
            Ok(())
        }
        Template::Latch { enable, controls } => {
            let listens = Listens::of(proc.listens.as_slice());
            check_levels(listens, controls.as_slice(), least);
            check_element(listens, enable.elem, enable.span, least);
            check_reads(listens, reads.as_slice(), least);
            check_arms(alloc, nets, proc, least)
        }
    }
}

/// Notes edges and events.
fn check_edges(reads: &[Read], least: &mut Least) {
    for read in reads {
        if let Use::Edge(span) = read.how {
            least.note(Rule::C5, span);
        }
    }
}

/// Notes the names of nets with elements that the list lacks.
fn check_reads(listens: Listens<'_>, reads: &[Read], least: &mut Least) {
    for read in reads {
        if let Object::Net(_) = read.object
            && !listens.has(read.run)
        {
            least.note(Rule::C2, read.span);
        }
    }
}

fn check_levels(listens: Listens<'_>, levels: &[Level], least: &mut Least) {
    for level in levels {
        check_element(listens, level.elem, level.span, least);
    }
}

fn check_element(listens: Listens<'_>, elem: u32, name: Span, least: &mut Least) {
    if !listens.has(Run {
        first: elem,
        len: 1,
    }) {
        least.note(Rule::C2, name);
    }
}

/// Looks at the control arms of a clocked process: all but the last.
fn check_controls(proc: &Proc, least: &mut Least) {
    let arms = sole_if(proc.body.as_slice()).unwrap_or(&[]);
    if let Some((_, controls)) = arms.split_last() {
        for arm in controls {
            check_control(arm.body.as_slice(), least);
        }
    }
}

/// Looks at the paths through the whole body of a process.
fn check_body(alloc: Global, nets: &[Net], proc: &Proc, least: &mut Least) -> Result<(), Memory> {
    let mut targets = Vec::new(alloc);
    add_targets(nets, proc.body.as_slice(), &mut targets)?;
    let cells = Cells::of(alloc, proc.vars.as_slice(), targets.as_slice())?;
    let may = may_change(alloc, nets, &cells, targets.as_slice())?;
    let mut way = Paths::new(alloc, nets, &cells)?;
    statements(&mut way, proc.body.as_slice(), least)?;
    way.check_targets(&may, targets.as_slice(), least)
}

/// Looks at the paths through each arm of a latch.
fn check_arms(alloc: Global, nets: &[Net], proc: &Proc, least: &mut Least) -> Result<(), Memory> {
    let mut targets = Vec::new(alloc);
    add_targets(nets, proc.body.as_slice(), &mut targets)?;
    let cells = Cells::of(alloc, proc.vars.as_slice(), targets.as_slice())?;
    let may = may_change(alloc, nets, &cells, targets.as_slice())?;
    let mut way = Paths::new(alloc, nets, &cells)?;
    for arm in sole_if(proc.body.as_slice()).unwrap_or(&[]) {
        statements(&mut way, arm.body.as_slice(), least)?;
        way.check_targets(&may, targets.as_slice(), least)?;
        way.clear();
    }
    Ok(())
}

/// All that the targets may change.
fn may_change<'d>(
    alloc: Global,
    nets: &'d [Net],
    cells: &'d Cells,
    targets: &[Changed],
) -> Result<Paths<'d>, Memory> {
    let mut may = Paths::new(alloc, nets, cells)?;
    may.add_all(targets)?;
    Ok(may)
}
