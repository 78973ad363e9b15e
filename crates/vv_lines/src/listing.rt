//! The objects of a map: the top ports, and then what clocked and latch processes hold.

use sqlite_items::Items;
use std::alloc::Global;
use vv_base::fault::Memory;
use vv_design::{Design, Kind, Origin, Plan};

/// A net, or a variable of a process, by their numbers.
#[derive(Clone, Copy, Debug, PartialEq, Eq)]
pub enum Object {
    Net(u32),
    Variable { proc: u32, number: u32 },
}

/// As what an object is listed: an input or an output of the top, a signal that a clocked process assigns by its name, one that else a
/// latch so assigns, or a variable of a clocked process.
#[derive(Clone, Copy, Debug, PartialEq, Eq)]
pub enum ListedAs {
    Input,
    Output,
    Register,
    Latch,
    Variable,
}

/// An object that is listed.
#[derive(Clone, Copy, Debug, PartialEq, Eq)]
pub struct Listed {
    pub object: Object,
    pub listed_as: ListedAs,
}

pub type ListedList = Items<Listed>;

/// The objects of the map of a design: the ports of the top in their order, and then all others in the order of their declarations.
pub fn listed_objects(alloc: Global, design: &Design, plan: &Plan) -> Result<ListedList, Memory> {
    let mut list = Items::new(alloc);
    let mut held = held(alloc, design, plan)?;
    for port in design.top.as_slice() {
        list.push(Listed {
            object: Object::Net(port.net),
            listed_as: if port.input {
                ListedAs::Input
            } else {
                ListedAs::Output
            },
        })?;
        if let Some(kept) = held.get_mut(port.net as usize) {
            *kept = None;
        }
    }
    let mut next: u32 = 0;
    let mut proc: u32 = 0;
    for kind in plan.kinds.as_slice() {
        if let Kind::Clocked { .. } = kind {
            next = add_nets(design, held.as_slice(), next, proc, &mut list)?;
            add_variables(design, proc, &mut list)?;
        }
        proc = proc.saturating_add(1);
    }
    add_nets(design, held.as_slice(), next, u32::MAX, &mut list)?;
    Ok(list)
}

/// For each net whether a clocked process assigns it by its name, or else a latch.
fn held(alloc: Global, design: &Design, plan: &Plan) -> Result<Vec<Option<ListedAs>>, Memory> {
    let mut held = vec![in alloc; None; design.nets.len()]?;
    for source in design.sources.as_slice() {
        let Origin::Driver { proc, net } = &source.from else {
            continue;
        };
        let by = match plan.kinds.get(*proc as usize) {
            Some(Kind::Clocked { .. }) => ListedAs::Register,
            Some(Kind::Latch { .. }) => ListedAs::Latch,
            Some(Kind::Comb) | None => continue,
        };
        if let Some(kept) = held.get_mut(*net as usize)
            && *kept != Some(ListedAs::Register)
        {
            *kept = Some(by);
        }
    }
    Ok(held)
}

/// Adds the nets from one on that are held and are declared before a process. The net that comes next is answered.
fn add_nets(
    design: &Design,
    held: &[Option<ListedAs>],
    from: u32,
    proc: u32,
    list: &mut ListedList,
) -> Result<u32, Memory> {
    let mut next = from;
    for _ in design.nets.as_slice() {
        let Some(net) = design.nets.get(next as usize) else {
            break;
        };
        if net.procs_before > proc {
            break;
        }
        if let Some(Some(listed_as)) = held.get(next as usize) {
            list.push(Listed {
                object: Object::Net(next),
                listed_as: *listed_as,
            })?;
        }
        next = next.saturating_add(1);
    }
    Ok(next)
}

/// Adds the variables of a process.
fn add_variables(design: &Design, proc: u32, list: &mut ListedList) -> Result<(), Memory> {
    let mut number: u32 = 0;
    for _ in design.proc(proc)?.vars.as_slice() {
        list.push(Listed {
            object: Object::Variable { proc, number },
            listed_as: ListedAs::Variable,
        })?;
        number = number.saturating_add(1);
    }
    Ok(())
}
