//! The elements that a process is sensitive to.

use vv_design::Run;

/// A set of elements, as runs in order of which none meets or touches another one.
#[derive(Clone, Copy)]
pub struct Listens<'d> {
    runs: &'d [Run],
}

impl<'d> Listens<'d> {
    /// The set of the elements of such runs.
    pub fn of(runs: &'d [Run]) -> Listens<'d> {
        Listens { runs }
    }

    /// The last run that begins no later than at an element.
    fn last_to(self, elem: u32) -> Option<Run> {
        let at = match self.runs.binary_search_by_key(&elem, |run| run.first) {
            Ok(at) => at,
            Err(behind) => behind.checked_sub(1)?,
        };
        self.runs.get(at).copied()
    }

    /// Whether the set has each element of a run.
    pub fn has(self, run: Run) -> bool {
        if run.is_empty() {
            return true;
        }
        match self.last_to(run.first) {
            Some(known) => run.end() <= known.end(),
            None => false,
        }
    }
}
