//! Replays of a text.

ghost use Rattle.std.specs.Prelude.{◌≤◌};

use crate::cycles::{begin_row, heading, push_bits4};
use crate::ran::{Ran, Stop};
use crate::text4::{inputs_of, row_of, start_of};
use std::alloc::Global;
use vv_base::fault::Memory;
use vv_base::sink::Sink;
use vv_base::text::ByteList;
use vv_flat::Flat;
use vv_map::{Binding, Line};
use vv_sim4::Sim4;
use vv_stim::Row;

/// Runs the text under the rows and puts the cycles. The k-th line of an input is input k, and the rows are lawful for these inputs.
pub fn replay4<O: Sink>(
    alloc: Global,
    flat: &Flat,
    lines: &[Line],
    binding: &Binding,
    rows: &[Row],
    out: &mut O,
) -> Ran
    ensures later { O.faults out.old ≤ O.faults out.new }
{
    match replayed(alloc, flat, lines, binding, rows, out) {
        Ok(rows) => Ran::Done { rows },
        Err(stop) => stop.ran(),
    }
}

fn replayed<O: Sink>(
    alloc: Global,
    flat: &Flat,
    lines: &[Line],
    binding: &Binding,
    rows: &[Row],
    out: &mut O,
) -> Result<u64, Stop>
    ensures later { O.faults out.old ≤ O.faults out.new }
{
    let heading = heading(alloc, lines)?;
    out.put(heading.as_slice())?;
    let inputs = inputs_of(alloc, lines, binding)?;
    let mut sim = Sim4::new(alloc, flat)?;
    let start = start_of(alloc, lines, binding)?;
    sim.power(&start);
    put_row(alloc, &sim, lines, binding, 0, out)?;
    let mut number: u64 = 0;
    for row in rows {
        number = number.saturating_add(1);
        let row = row_of(alloc, inputs.as_slice(), row)?;
        sim.row(&row);
        put_row(alloc, &sim, lines, binding, number, out)?;
    }
    Ok(number)
}

/// Puts the record of a row.
fn put_row<O: Sink>(
    alloc: Global,
    sim: &Sim4<'_>,
    lines: &[Line],
    binding: &Binding,
    number: u64,
    out: &mut O,
) -> Result<(), Stop>
    ensures later { O.faults out.old ≤ O.faults out.new }
{
    let record = record_of_row(alloc, sim, lines, binding, number)?;
    out.put(record.as_slice())?;
    Ok(())
}

fn record_of_row(
    alloc: Global,
    sim: &Sim4<'_>,
    lines: &[Line],
    binding: &Binding,
    number: u64,
) -> Result<ByteList, Memory> {
    let mut record = begin_row(alloc, number)?;
    for (line, object) in lines.iter().zip(binding.objects.as_slice()) {
        if !line.kind.is_input() {
            push_bits4(&mut record, sim.value(*object).unwrap_or(&[]))?;
        }
    }
    record.push(b'\n')?;
    Ok(record)
}
