//! Comparisons: a design and a text are run under the same stimulus.

ghost use Rattle.vv_base.specs.Outside.{NoneFell};

use crate::halts::{Halt, Reason, Sources, run_halt};
use crate::inputs::{Elaborated, elaborate_top, load_bound, load_flat, load_rows, load_sources};
use crate::orders::Comparison;
use crate::replays::range_halt;
use crate::run::slices;
use std::alloc::Global;
use vv_base::fault::{Memory, cannot_come};
use vv_base::shelf::Shelf;
use vv_base::text::ByteList;
use vv_bits::{Bits4, Bits9};
use vv_bridge::{Ran, compare, digits4, digits9};
use vv_flat::Flat;
use vv_map::Line;
use vv_readback::Bound;

/// Loads and elaborates the files, loads the text, the map and the stimulus, and runs both. The line that tells their agreement is
/// answered.
pub fn compare_order<D: Shelf>(
    alloc: Global,
    order: &Comparison<'_>,
    shelf: &mut D,
) -> Result<String, Halt>
    ensures loads { NoneFell (D.failed_loads shelf.old) (D.failed_loads shelf.new) }
    ensures saves { NoneFell (D.failed_saves shelf.old) (D.failed_saves shelf.new) }
{
    let files = load_sources(alloc, order.files, shelf)?;
    compare_files(alloc, order, files.as_slice(), shelf)
}

fn compare_files<D: Shelf>(
    alloc: Global,
    order: &Comparison<'_>,
    files: &[Vec<u8>],
    shelf: &mut D,
) -> Result<String, Halt>
    ensures loads { NoneFell (D.failed_loads shelf.old) (D.failed_loads shelf.new) }
    ensures saves { NoneFell (D.failed_saves shelf.old) (D.failed_saves shelf.new) }
{
    let files = slices(alloc, files)?;
    let sources = Sources {
        names: order.files,
        files: files.as_slice(),
    };
    compare_sources(alloc, order, &sources, shelf)
}

fn compare_sources<D: Shelf>(
    alloc: Global,
    order: &Comparison<'_>,
    sources: &Sources<'_, '_>,
    shelf: &mut D,
) -> Result<String, Halt>
    ensures loads { NoneFell (D.failed_loads shelf.old) (D.failed_loads shelf.new) }
    ensures saves { NoneFell (D.failed_saves shelf.old) (D.failed_saves shelf.new) }
{
    let known = elaborate_top(alloc, sources, order.top)?;
    compare_elaborated(alloc, order, sources, &known, shelf)
}

fn compare_elaborated<D: Shelf>(
    alloc: Global,
    order: &Comparison<'_>,
    sources: &Sources<'_, '_>,
    known: &Elaborated,
    shelf: &mut D,
) -> Result<String, Halt>
    ensures loads { NoneFell (D.failed_loads shelf.old) (D.failed_loads shelf.new) }
    ensures saves { NoneFell (D.failed_saves shelf.old) (D.failed_saves shelf.new) }
{
    let flat = load_flat(alloc, order.text, order.top, shelf)?;
    compare_flat(alloc, order, sources, known, &flat, shelf)
}

fn compare_flat<D: Shelf>(
    alloc: Global,
    order: &Comparison<'_>,
    sources: &Sources<'_, '_>,
    known: &Elaborated,
    flat: &Flat,
    shelf: &mut D,
) -> Result<String, Halt>
    ensures loads { NoneFell (D.failed_loads shelf.old) (D.failed_loads shelf.new) }
    ensures saves { NoneFell (D.failed_saves shelf.old) (D.failed_saves shelf.new) }
{
    let own = Some(known.lines.as_slice());
    let bound = load_bound(alloc, order.map, flat, own, shelf)?;
    compare_bound(alloc, order.stimulus, sources, known, flat, &bound, shelf)
}

fn compare_bound<D: Shelf>(
    alloc: Global,
    stimulus: &str,
    sources: &Sources<'_, '_>,
    known: &Elaborated,
    flat: &Flat,
    bound: &Bound,
    shelf: &mut D,
) -> Result<String, Halt>
    ensures loads { NoneFell (D.failed_loads shelf.old) (D.failed_loads shelf.new) }
    ensures saves { NoneFell (D.failed_saves shelf.old) (D.failed_saves shelf.new) }
{
    let lines = known.lines.as_slice();
    let rows = load_rows(alloc, stimulus, lines, shelf)?;
    let ran = compare(
        alloc,
        &known.front.design,
        &known.front.plan,
        flat,
        lines,
        &bound.binding,
        rows.as_slice(),
    );
    answer(alloc, sources, lines, &ran)
}

/// What a comparison came to.
fn answer(
    alloc: Global,
    sources: &Sources<'_, '_>,
    lines: &[Line],
    ran: &Ran,
) -> Result<String, Halt> {
    match ran {
        Ran::Done { rows } => Ok(format!(in alloc; "equal {rows}\n")?),
        Ran::Range { row, at } => Err(range_halt(alloc, sources, *row, *at)),
        Ran::Clash { row, at } => {
            Err(run_halt(alloc, sources, Reason::Clash, "clash", *row, *at))
        }
        Ran::Control { row, at } => Err(run_halt(
            alloc,
            sources,
            Reason::ControlFault,
            "control fault",
            *row,
            *at,
        )),
        Ran::Differs {
            row,
            line,
            vhdl,
            verilog,
        } => Err(difference(alloc, *row, lines.get(*line as usize), vhdl, verilog)),
        Ran::Failed => Err(Halt::Output),
        Ran::Memory => Err(Halt::Memory),
    }
}

/// A line has other bits in the text than in the design.
fn difference(alloc: Global, row: u64, line: Option<&Line>, vhdl: &Bits9, verilog: &Bits4) -> Halt {
    let path: Result<&[u8], Memory> = match line {
        Some(line) => Ok(line.vhdl.as_slice()),
        None => Err(cannot_come()),
    };
    match path {
        Ok(path) => told_difference(difference_line(alloc, row, path, vhdl, verilog)),
        Err(_) => Halt::Memory,
    }
}

fn told_difference(line: Result<ByteList, Memory>) -> Halt {
    match line {
        Ok(line) => Halt::Told(Reason::Difference, line),
        Err(Memory) => Halt::Memory,
    }
}

/// The line of a difference.
fn difference_line(
    alloc: Global,
    row: u64,
    path: &[u8],
    vhdl: &Bits9,
    verilog: &Bits4,
) -> Result<ByteList, Memory> {
    let mut line = ByteList::new(alloc);
    push_row(alloc, row, &mut line)?;
    line.extend_from_slice(path)?;
    line.extend_from_slice(b": vhdl ")?;
    push_digits(digits9(alloc, vhdl.as_slice()), &mut line)?;
    line.extend_from_slice(b" verilog ")?;
    push_digits(digits4(alloc, verilog.as_slice()), &mut line)?;
    line.push(b'\n')?;
    Ok(line)
}

/// Appends the number of a row.
fn push_row(alloc: Global, row: u64, line: &mut ByteList) -> Result<(), Memory> {
    let row = format!(in alloc; "row {row}: ")?;
    line.extend_from_slice(row.as_bytes())
}

/// Appends digits.
fn push_digits(digits: Result<ByteList, Memory>, line: &mut ByteList) -> Result<(), Memory> {
    line.extend_from_slice(digits?.as_slice())
}
