//! What each process drives.

use sqlite_items::Items;
use std::alloc::Global;
use vv_base::fault::Memory;
use vv_design::{Design, Mode, Net, NetKind, Origin};

/// Scalars of a net, from the left: `count` of them, from `first` on.
#[derive(Clone, Copy)]
pub struct Driven {
    pub net: u32,
    pub first: u32,
    pub count: u32,
}

pub type DrivenList = Items<Driven>;

impl Driven {
    /// The number behind the last scalar.
    pub fn end(self) -> u32 {
        self.first.saturating_add(self.count)
    }

    /// By what runs are in order.
    fn key(self) -> u64 {
        (u64::from(self.net) << 32) | u64::from(self.first)
    }
}

/// For each process the runs of scalars that it drives, in order of the nets by whose names it assigns them; and for each net whether it is a
/// signal that one process alone drives, and all of it.
#[derive(Drop)]
pub struct Drivers {
    pub procs: Items<DrivenList>,
    pub sole: Items<bool>,
}

impl Drivers {
    /// Those of a design.
    pub fn of(alloc: Global, design: &Design) -> Result<Drivers, Memory> {
        let mut lists: Vec<Vec<Driven>> = Vec::new(alloc);
        for _ in design.procs.as_slice() {
            lists.push(Vec::new(alloc))?;
        }
        for source in design.sources.as_slice() {
            if let Origin::Driver { proc, net } = &source.from {
                let driven = Driven {
                    net: *net,
                    first: source.run.first.saturating_sub(design.net(*net)?.first),
                    count: source.run.len,
                };
                if let Some(list) = lists.get_mut(*proc as usize) {
                    list.push(driven)?;
                }
            }
        }
        let mut procs = Items::new(alloc);
        for list in lists {
            procs.push(joined(alloc, list)?)?;
        }
        let sole = sole_nets(alloc, design, &procs)?;
        Ok(Drivers { procs, sole })
    }

    /// What a process drives.
    pub fn of_proc(&self, proc: u32) -> &[Driven] {
        match self.procs.get(proc as usize) {
            Some(list) => list.as_slice(),
            None => &[],
        }
    }

    /// Whether one process alone drives a net.
    pub fn is_sole(&self, net: u32) -> bool {
        match self.sole.get(net as usize) {
            Some(sole) => *sole,
            None => false,
        }
    }
}

/// Runs in order; those that touch are joined.
fn joined(alloc: Global, list: Vec<Driven>) -> Result<DrivenList, Memory> {
    let mut list = list;
    list.sort_by_key(|driven| driven.key())?;
    let mut runs = Items::new(alloc);
    let mut last: Option<Driven> = None;
    for driven in list.as_slice() {
        last = match last {
            Some(before) if before.net == driven.net && before.end() == driven.first => Some(
                Driven {
                    count: before.count.saturating_add(driven.count),
                    ..before
                },
            ),
            Some(before) => {
                runs.push(before)?;
                Some(*driven)
            }
            None => Some(*driven),
        };
    }
    if let Some(before) = last {
        runs.push(before)?;
    }
    Ok(runs)
}

/// For each net among runs the scalars from the first that is driven to the last.
pub fn spans_of(alloc: Global, driven: &[Driven]) -> Result<DrivenList, Memory> {
    let mut spans = Items::new(alloc);
    let mut last: Option<Driven> = None;
    for run in driven {
        last = match last {
            Some(before) if before.net == run.net => Some(Driven {
                count: run.end().saturating_sub(before.first),
                ..before
            }),
            Some(before) => {
                spans.push(before)?;
                Some(*run)
            }
            None => Some(*run),
        };
    }
    if let Some(before) = last {
        spans.push(before)?;
    }
    Ok(spans)
}

/// Whether each net is a signal that one process alone drives, and all of it.
fn sole_nets(
    alloc: Global,
    design: &Design,
    procs: &Items<DrivenList>,
) -> Result<Items<bool>, Memory> {
    let mut drivers: Vec<u32> = vec![in alloc; 0; design.nets.len()]?;
    for list in procs.as_slice() {
        count_drivers(design, list.as_slice(), &mut drivers);
    }
    for net in design.nets.as_slice() {
        if let Some(actual) = driven_by_port(net) {
            add(&mut drivers, actual, 2);
        }
    }
    let mut sole = Items::new(alloc);
    for (number, net) in design.nets.as_slice().iter().enumerate() {
        let signal = matches!(net.kind, NetKind::Signal);
        sole.push(signal && drivers.get(number).copied().unwrap_or(0) == 1)?;
    }
    Ok(sole)
}

/// Counts the nets that a process drives: by 1 where it drives all of one, else by 2.
fn count_drivers(design: &Design, driven: &[Driven], drivers: &mut Vec<u32>) {
    for run in driven {
        let whole = match design.nets.get(run.net as usize) {
            Some(net) => run.first == 0 && run.count == net.shape.size(),
            None => false,
        };
        add(drivers, run.net, if whole { 1 } else { 2 });
    }
}

/// The net that a port of an instance drives.
fn driven_by_port(net: &Net) -> Option<u32> {
    match net.kind {
        NetKind::Port {
            mode: Mode::Out | Mode::Inout,
            actual,
        } => actual,
        _ => None,
    }
}

fn add(counts: &mut Vec<u32>, at: u32, more: u32) {
    if let Some(count) = counts.get_mut(at as usize) {
        *count = count.saturating_add(more);
    }
}
