//! Replays: a design or a text is run under a stimulus, and its cycles are printed.

ghost use Rattle.std.specs.Prelude.{◌≤◌};
ghost use Rattle.vv_base.specs.Outside.{NoneFell};

use crate::halts::{Halt, Reason, Sources, run_halt};
use crate::inputs::{Elaborated, elaborate_top, load_bound, load_flat, load_rows, load_sources};
use crate::orders::{DesignReplay, TextReplay};
use crate::run::slices;
use std::alloc::Global;
use vv_base::fault::Span;
use vv_base::shelf::Shelf;
use vv_base::sink::Sink;
use vv_bridge::{Ran, replay4, replay9};
use vv_flat::Flat;
use vv_readback::Bound;

/// Loads and elaborates the files, loads the stimulus, and prints the cycles of the design.
pub fn replay_design<D: Shelf, O: Sink>(
    alloc: Global,
    order: &DesignReplay<'_>,
    shelf: &mut D,
    out: &mut O,
) -> Result<(), Halt>
    ensures loads { NoneFell (D.failed_loads shelf.old) (D.failed_loads shelf.new) }
    ensures saves { NoneFell (D.failed_saves shelf.old) (D.failed_saves shelf.new) }
    ensures later { O.faults out.old ≤ O.faults out.new }
{
    let files = load_sources(alloc, order.files, shelf)?;
    replay_files(alloc, order, files.as_slice(), shelf, out)
}

fn replay_files<D: Shelf, O: Sink>(
    alloc: Global,
    order: &DesignReplay<'_>,
    files: &[Vec<u8>],
    shelf: &mut D,
    out: &mut O,
) -> Result<(), Halt>
    ensures loads { NoneFell (D.failed_loads shelf.old) (D.failed_loads shelf.new) }
    ensures saves { NoneFell (D.failed_saves shelf.old) (D.failed_saves shelf.new) }
    ensures later { O.faults out.old ≤ O.faults out.new }
{
    let files = slices(alloc, files)?;
    let sources = Sources {
        names: order.files,
        files: files.as_slice(),
    };
    replay_sources(alloc, order, &sources, shelf, out)
}

fn replay_sources<D: Shelf, O: Sink>(
    alloc: Global,
    order: &DesignReplay<'_>,
    sources: &Sources<'_, '_>,
    shelf: &mut D,
    out: &mut O,
) -> Result<(), Halt>
    ensures loads { NoneFell (D.failed_loads shelf.old) (D.failed_loads shelf.new) }
    ensures saves { NoneFell (D.failed_saves shelf.old) (D.failed_saves shelf.new) }
    ensures later { O.faults out.old ≤ O.faults out.new }
{
    let known = elaborate_top(alloc, sources, order.top)?;
    replay_elaborated(alloc, order.stimulus, sources, &known, shelf, out)
}

fn replay_elaborated<D: Shelf, O: Sink>(
    alloc: Global,
    stimulus: &str,
    sources: &Sources<'_, '_>,
    known: &Elaborated,
    shelf: &mut D,
    out: &mut O,
) -> Result<(), Halt>
    ensures loads { NoneFell (D.failed_loads shelf.old) (D.failed_loads shelf.new) }
    ensures saves { NoneFell (D.failed_saves shelf.old) (D.failed_saves shelf.new) }
    ensures later { O.faults out.old ≤ O.faults out.new }
{
    let lines = known.lines.as_slice();
    let rows = load_rows(alloc, stimulus, lines, shelf)?;
    let ran = replay9(
        alloc,
        &known.front.design,
        &known.front.plan,
        lines,
        rows.as_slice(),
        out,
    );
    design_answer(alloc, sources, &ran)
}

/// What a replay of a design came to.
fn design_answer(alloc: Global, sources: &Sources<'_, '_>, ran: &Ran) -> Result<(), Halt> {
    match ran {
        Ran::Range { row, at } => Err(range_halt(alloc, sources, *row, *at)),
        other => text_answer(other),
    }
}

/// The run of a design reached a range error.
pub fn range_halt(alloc: Global, sources: &Sources<'_, '_>, row: u64, at: Span) -> Halt {
    run_halt(alloc, sources, Reason::RangeError, "range error", row, at)
}

/// Loads the text, the map and the stimulus, and prints the cycles of the text.
pub fn replay_text<D: Shelf, O: Sink>(
    alloc: Global,
    order: &TextReplay<'_>,
    shelf: &mut D,
    out: &mut O,
) -> Result<(), Halt>
    ensures loads { NoneFell (D.failed_loads shelf.old) (D.failed_loads shelf.new) }
    ensures saves { NoneFell (D.failed_saves shelf.old) (D.failed_saves shelf.new) }
    ensures later { O.faults out.old ≤ O.faults out.new }
{
    let flat = load_flat(alloc, order.text, order.top, shelf)?;
    replay_flat(alloc, order, &flat, shelf, out)
}

fn replay_flat<D: Shelf, O: Sink>(
    alloc: Global,
    order: &TextReplay<'_>,
    flat: &Flat,
    shelf: &mut D,
    out: &mut O,
) -> Result<(), Halt>
    ensures loads { NoneFell (D.failed_loads shelf.old) (D.failed_loads shelf.new) }
    ensures saves { NoneFell (D.failed_saves shelf.old) (D.failed_saves shelf.new) }
    ensures later { O.faults out.old ≤ O.faults out.new }
{
    let bound = load_bound(alloc, order.map, flat, None, shelf)?;
    replay_bound(alloc, order.stimulus, flat, &bound, shelf, out)
}

fn replay_bound<D: Shelf, O: Sink>(
    alloc: Global,
    stimulus: &str,
    flat: &Flat,
    bound: &Bound,
    shelf: &mut D,
    out: &mut O,
) -> Result<(), Halt>
    ensures loads { NoneFell (D.failed_loads shelf.old) (D.failed_loads shelf.new) }
    ensures saves { NoneFell (D.failed_saves shelf.old) (D.failed_saves shelf.new) }
    ensures later { O.faults out.old ≤ O.faults out.new }
{
    let lines = bound.lines.as_slice();
    let rows = load_rows(alloc, stimulus, lines, shelf)?;
    let ran = replay4(alloc, flat, lines, &bound.binding, rows.as_slice(), out);
    text_answer(&ran)
}

/// What a replay of a text came to. It meets nothing but its end and faults of the outside.
fn text_answer(ran: &Ran) -> Result<(), Halt> {
    match ran {
        Ran::Done { rows: _ } => Ok(()),
        Ran::Failed => Err(Halt::Output),
        _ => Err(Halt::Memory),
    }
}
