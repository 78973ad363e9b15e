//! Lists of net values, and of events.
ghost use Rattle.std.specs.Prelude.{◌≡◌, not, IfOk};
ghost use Rattle.vv_bits.specs.Nine as nine;
ghost use Rattle.vv_bits.specs.Resolution.{resolve_rule};
ghost use Rattle.vv_cycle.specs.Processes.{at};
ghost use Rattle.vv_cycle.specs.Turns as turns;
ghost use Rattle.vv_cycle.specs.Rows as rows;

use std::alloc::{AllocError, Global};
use vv_bits::{S9, resolve9};

/// The value of a net.
pub(crate) fn value_at(values: &[S9], net: usize) -> S9
    ensures { result ≡ at values.now net }
{
    values.get(net).copied().unwrap_or(S9::U)
}

/// What sources give together.
pub(crate) fn resolution(sources: &[S9]) -> S9
    ensures { result ≡ resolve_rule sources.now }
{
    if sources.is_empty() {
        S9::Z
    } else {
        resolve9(sources)
    }
}

fn is_same(left: S9, right: S9) -> bool
    ensures { result ≡ nine.same left right }
{
    left as u8 == right as u8
}

/// Of each net, whether its values differ.
pub(crate) fn changes(alloc: Global, old: &[S9], new: &[S9]) -> Result<Vec<bool>, AllocError>
    ensures { IfOk result (λ v. v.items ≡ turns.changes old.now new.now) }
{
    let mut events = Vec::new(alloc);
    for (before, after) in old.iter().zip(new) {
        events.push(!is_same(*before, *after))?;
    }
    Ok(events)
}

/// Whether a flag is set.
pub(crate) fn any_true(flags: &[bool]) -> bool
    ensures { result ≡ turns.any_true flags.now }
{
    for flag in flags {
        if *flag {
            return true;
        }
    }
    false
}

/// As many flags as there are nets, none of them set.
pub(crate) fn no_events(alloc: Global, values: &[S9]) -> Result<Vec<bool>, AllocError>
    ensures { IfOk result (λ v. v.items ≡ rows.no_events values.now) }
{
    let events = vec![in alloc; false; values.len()]?;
    Ok(events)
}
