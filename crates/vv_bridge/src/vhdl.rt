//! Replays of a design.

ghost use Rattle.std.specs.Prelude.{◌≤◌};

use crate::cycles::{begin_row, heading, push_bits9};
use crate::ran::{Ran, Stop};
use std::alloc::Global;
use vv_base::fault::Memory;
use vv_base::sink::Sink;
use vv_base::text::ByteList;
use vv_design::{Design, Plan};
use vv_map::Line;
use vv_sim9::{Sim9, Step};
use vv_stim::Row;

/// Runs the design under the rows and puts the cycles. The lines are the design's own, the k-th line of an input is input k, and the rows
/// are lawful for these inputs. A clash or a control fault ends nothing. Where a range error is reached, the first record and the text of
/// all earlier rows have been put.
pub fn replay9<O: Sink>(
    alloc: Global,
    design: &Design,
    plan: &Plan,
    lines: &[Line],
    rows: &[Row],
    out: &mut O,
) -> Ran
    ensures later { O.faults out.old ≤ O.faults out.new }
{
    match replayed(alloc, design, plan, lines, rows, out) {
        Ok(rows) => Ran::Done { rows },
        Err(stop) => stop.ran(),
    }
}

fn replayed<O: Sink>(
    alloc: Global,
    design: &Design,
    plan: &Plan,
    lines: &[Line],
    rows: &[Row],
    out: &mut O,
) -> Result<u64, Stop>
    ensures later { O.faults out.old ≤ O.faults out.new }
{
    let heading = heading(alloc, lines)?;
    out.put(heading.as_slice())?;
    let mut sim = Sim9::new(alloc, design, plan)?;
    let step = sim.power();
    put_row(alloc, &sim, step, lines, 0, out)?;
    let mut number: u64 = 0;
    for row in rows {
        number = number.saturating_add(1);
        let step = sim.row(row);
        put_row(alloc, &sim, step, lines, number, out)?;
    }
    Ok(number)
}

/// Puts the record of a row, unless it reached a range error.
fn put_row<O: Sink>(
    alloc: Global,
    sim: &Sim9<'_>,
    step: Step,
    lines: &[Line],
    row: u64,
    out: &mut O,
) -> Result<(), Stop>
    ensures later { O.faults out.old ≤ O.faults out.new }
{
    match step {
        Step::Settled { met: _ } => {
            let record = record_of_row(alloc, sim, lines, row)?;
            out.put(record.as_slice())?;
            Ok(())
        }
        Step::Range { at, met: _ } => Err(Stop::Range { row, at }),
    }
}

fn record_of_row(
    alloc: Global,
    sim: &Sim9<'_>,
    lines: &[Line],
    number: u64,
) -> Result<ByteList, Memory> {
    let mut record = begin_row(alloc, number)?;
    for (k, line) in lines.iter().enumerate() {
        if !line.kind.is_input() {
            push_bits9(&mut record, sim.value(k).unwrap_or(&[]))?;
        }
    }
    record.push(b'\n')?;
    Ok(record)
}
