//! In which order a run goes, and why it has no end.
ghost use Rattle.std.specs.Prelude.{◌≡◌, MatchOption};
ghost use Rattle.vv_gate_run.specs.Order.{NoneSet, IsFirstSet, IsLastSet, IsChosen};
ghost use Rattle.vv_gate_run.specs.declared.order.RunFault.TheVariants.{Memory};

use std::alloc::{AllocError, AllocFailed};
use thiserror::Error;

/// Of the processes or items that may go next, which one does.
#[derive(Clone, Copy, Debug, PartialEq, Eq)]
pub enum Order {
    /// The first in the order of the text.
    First,
    /// The last in the order of the text.
    Last,
}

/// Why a run was not brought to its end.
#[derive(Clone, Copy, Debug, PartialEq, Eq, Error)]
pub enum RunFault {
    /// It has not ended after three turns or steps for each process or item, and three more; or an
    /// item is pending that is not there.
    #[error("the run has not ended")]
    Endless,
    /// An allocation failed.
    #[error("no memory")]
    Memory,
}

impl From<AllocError> for RunFault {
    ghost from_gives = { λ _ e. e ≡ Memory };

    fn from(_error: AllocError) -> RunFault {
        RunFault::Memory
    }
}

impl<T: Drop> From<AllocFailed<T>> for RunFault {
    ghost from_gives = { λ _ e. e ≡ Memory };

    fn from(_failed: AllocFailed<T>) -> RunFault {
        RunFault::Memory
    }
}

/// The first place at which a flag is set.
fn first_set(flags: &[bool]) -> Option<usize>
    ensures { MatchOption result (NoneSet flags.now) (IsFirstSet flags.now) }
{
    for (place, flag) in flags.iter().enumerate() {
        if *flag {
            return Some(place);
        }
    }
    None
}

/// The last place at which a flag is set.
fn last_set(flags: &[bool]) -> Option<usize>
    ensures { MatchOption result (NoneSet flags.now) (IsLastSet flags.now) }
{
    let mut last = None;
    for (place, flag) in flags.iter().enumerate() {
        if *flag {
            last = Some(place);
        }
    }
    last
}

/// The place that the order takes, of those at which a flag is set.
pub(crate) fn choose(flags: &[bool], order: Order) -> Option<usize>
    ensures { MatchOption result (NoneSet flags.now) (IsChosen order flags.now) }
{
    match order {
        Order::First => first_set(flags),
        Order::Last => last_set(flags),
    }
}
