//! Which runs have a marked element.

use std::alloc::Global;
use vv_base::fault::Memory;
use vv_design::Run;

/// How many of some marked elements stand before each element, so that a run is looked up at once.
#[derive(Drop)]
pub struct Sums {
    before: Vec<u32>,
}

impl Sums {
    /// The sums of these marks.
    pub fn of(alloc: Global, marks: &[bool]) -> Result<Sums, Memory> {
        let mut before = Vec::new(alloc);
        let mut sum = 0u32;
        before.push(sum)?;
        for mark in marks {
            if *mark {
                sum = sum.saturating_add(1);
            }
            before.push(sum)?;
        }
        Ok(Sums { before })
    }

    fn before(&self, elem: u32) -> u32 {
        match self.before.get(elem as usize) {
            Some(sum) => *sum,
            None => self.before.last().copied().unwrap_or(0),
        }
    }

    /// Whether a run has a marked element.
    pub fn meets(&self, run: Run) -> bool {
        self.before(run.first) < self.before(run.end())
    }
}
