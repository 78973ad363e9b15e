//! Runs of elements.

use sqlite_items::Items;
use std::alloc::Global;
use vv_base::fault::Memory;

/// Elements that stand side by side: `len` of them, from the one with the number `first` on.
#[derive(Clone, Copy, Debug, PartialEq, Eq, PartialOrd, Ord)]
pub struct Run {
    pub first: u32,
    pub len: u32,
}

impl Run {
    /// The number behind the last element.
    pub fn end(self) -> u32 {
        self.first.saturating_add(self.len)
    }

    pub fn is_empty(self) -> bool {
        self.len == 0
    }

    /// The `len` elements from the one with this number in the run on, as far as they lie in it.
    pub fn part(self, first: u32, len: u32) -> Run {
        let rest = self.len.saturating_sub(first);
        Run {
            first: self.first.saturating_add(first),
            len: len.min(rest),
        }
    }

    /// Whether an element is one of these.
    pub fn has(self, element: u32) -> bool {
        self.first <= element && element < self.end()
    }

    /// The run of the elements of this run and of one that begins in it or directly behind it.
    fn with(self, other: Run) -> Run {
        Run {
            first: self.first,
            len: self.end().max(other.end()).saturating_sub(self.first),
        }
    }
}

/// The elements of some runs as runs in order, of which none meets or touches another one.
pub fn merged(alloc: Global, runs: &[Run]) -> Result<RunList, Memory> {
    let mut sorted = Vec::from_slice(alloc, runs)?;
    sorted.sort()?;
    let mut list = Items::new(alloc);
    let mut last: Option<Run> = None;
    for run in &sorted {
        if run.is_empty() {
            continue;
        }
        match last {
            Some(before) if run.first <= before.end() => last = Some(before.with(*run)),
            Some(before) => {
                list.push(before)?;
                last = Some(*run);
            }
            None => last = Some(*run),
        }
    }
    if let Some(last) = last {
        list.push(last)?;
    }
    Ok(list)
}

pub type RunList = Items<Run>;
