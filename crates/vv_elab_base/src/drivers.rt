//! What drives the elements of nets.

use crate::making::{Making, next_number};
use sqlite_items::Items;
use std::alloc::Global;
use vv_base::fault::{Memory, cannot_come};
use vv_design::{Net, Origin, Run, RunList, Source};

/// What drives the elements of a net: for each element the last try of a process that drives it, or 0. `each` is empty where nothing
/// drives the net, and `all` is the last try of a process that drives all of it.
#[derive(Drop)]
pub struct Marks {
    each: Vec<u32>,
    all: u32,
}

/// What is written where an instance drives an element.
const BY_INSTANCE: u32 = u32::MAX;

/// Marks the elements from `first` on that have another mark, or where `only_free` is true no mark, and tells them.
fn mark_all(
    alloc: Global,
    each: &mut [u32],
    run: Run,
    mark: u32,
    only_free: bool,
) -> Result<RunList, Memory> {
    let mut runs = Items::new(alloc);
    let mut fresh = Run {
        first: run.first,
        len: 0,
    };
    for k in run.first..run.end() {
        let is_fresh = match each.get_mut(k as usize) {
            Some(old) => {
                let is_fresh = if only_free { *old == 0 } else { *old != mark };
                if is_fresh {
                    *old = mark;
                }
                is_fresh
            }
            None => false,
        };
        if is_fresh {
            fresh.len = fresh.len.saturating_add(1);
        } else {
            if fresh.len > 0 {
                runs.push(fresh)?;
            }
            fresh = Run {
                first: k.saturating_add(1),
                len: 0,
            };
        }
    }
    if fresh.len > 0 {
        runs.push(fresh)?;
    }
    Ok(runs)
}

impl<'u> Making<'u> {
    /// A net by its number.
    pub fn net(&self, number: u32) -> Result<&Net, Memory> {
        self.design.net(number)
    }

    /// The elements of a net, as places in it, that the process with the next number drives.
    pub fn drive(&mut self, net: u32, run: Run) -> Result<(), Memory> {
        let proc = next_number(self.design.procs.len())?;
        let own = self.design.net(net)?.run();
        let alloc = self.alloc;
        let mark = self.tries;
        let marks = self.marks_of(net, own.len)?;
        if marks.all == mark {
            return Ok(());
        }
        if run
            == (Run {
                first: 0,
                len: own.len,
            })
        {
            marks.all = mark;
        }
        let fresh = mark_all(alloc, marks.each.as_mut_slice(), run, mark, false)?;
        for part in fresh.as_slice() {
            self.design.sources.push(Source {
                run: own.part(part.first, part.len),
                from: Origin::Driver { proc, net },
            })?;
        }
        Ok(())
    }

    /// The elements of a net, as places in it, that an instance drives.
    pub fn drive_by_instance(&mut self, net: u32, run: Run) -> Result<(), Memory> {
        let len = self.design.net(net)?.shape.size();
        let alloc = self.alloc;
        let marks = self.marks_of(net, len)?;
        let _ = mark_all(alloc, marks.each.as_mut_slice(), run, BY_INSTANCE, true)?;
        Ok(())
    }

    /// The elements of a net, as places in it, that nothing inside its entity drives. They are then told as driven.
    pub fn undriven(&mut self, net: u32) -> Result<RunList, Memory> {
        let len = self.design.net(net)?.shape.size();
        let alloc = self.alloc;
        let marks = self.marks_of(net, len)?;
        let run = Run { first: 0, len };
        mark_all(alloc, marks.each.as_mut_slice(), run, BY_INSTANCE, true)
    }

    /// The marks of a net of `len` elements.
    fn marks_of(&mut self, net: u32, len: u32) -> Result<&mut Marks, Memory> {
        let alloc = self.alloc;
        for _ in self.marks.len()..(net as usize).saturating_add(1) {
            self.marks.push(Marks {
                each: Vec::new(alloc),
                all: 0,
            })?;
        }
        match self.marks.get_mut(net as usize) {
            Some(marks) => {
                if marks.each.is_empty() {
                    marks.each = vec![in alloc; 0; len as usize]?;
                }
                Ok(marks)
            }
            None => Err(cannot_come()),
        }
    }
}
