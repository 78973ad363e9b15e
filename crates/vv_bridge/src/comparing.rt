//! Both meanings under the same rows.

use crate::ran::{Ran, ran_of};
use crate::text4::{inputs_of, row_of, start_of};
use std::alloc::Global;
use vv_base::fault::Memory;
use vv_bits::{Bits4, Bits9, S9, V4, abs4};
use vv_design::{Design, Plan};
use vv_flat::Flat;
use vv_map::{Binding, Line};
use vv_sim4::Sim4;
use vv_sim9::{Sim9, Step};
use vv_stim::Row;

/// Runs the design and the text under the rows, and tells what comes first: a clash, a control fault or a range error of the design, or the
/// first line whose bits differ. In each row the design is run first. The lines are the design's own, the k-th line of an input is input
/// k, and the rows are lawful for these inputs.
pub fn compare(
    alloc: Global,
    design: &Design,
    plan: &Plan,
    flat: &Flat,
    lines: &[Line],
    binding: &Binding,
    rows: &[Row],
) -> Ran {
    match compared(alloc, design, plan, flat, lines, binding, rows) {
        Ok(ran) => ran,
        Err(Memory) => Ran::Memory,
    }
}

fn compared(
    alloc: Global,
    design: &Design,
    plan: &Plan,
    flat: &Flat,
    lines: &[Line],
    binding: &Binding,
    rows: &[Row],
) -> Result<Ran, Memory> {
    let inputs = inputs_of(alloc, lines, binding)?;
    let mut vhdl = Sim9::new(alloc, design, plan)?;
    let mut verilog = Sim4::new(alloc, flat)?;
    let start = start_of(alloc, lines, binding)?;
    let step = vhdl.power();
    verilog.power(&start);
    if let Some(ran) = ended(alloc, step, &vhdl, &verilog, lines, binding, 0)? {
        return Ok(ran);
    }
    let mut number: u64 = 0;
    for row in rows {
        number = number.saturating_add(1);
        let step = vhdl.row(row);
        let row = row_of(alloc, inputs.as_slice(), row)?;
        verilog.row(&row);
        if let Some(ran) = ended(alloc, step, &vhdl, &verilog, lines, binding, number)? {
            return Ok(ran);
        }
    }
    Ok(Ran::Done { rows: number })
}

/// The answer, where it is known after a row.
fn ended(
    alloc: Global,
    step: Step,
    vhdl: &Sim9<'_>,
    verilog: &Sim4<'_>,
    lines: &[Line],
    binding: &Binding,
    row: u64,
) -> Result<Option<Ran>, Memory> {
    match step {
        Step::Settled { met: Some(met) }
        | Step::Range {
            at: _,
            met: Some(met),
        } => { Ok(Some(ran_of(met, row))) }
        Step::Range { at, met: None } => Ok(Some(Ran::Range { row, at })),
        Step::Settled { met: None } => differing(alloc, vhdl, verilog, lines, binding, row),
    }
}

/// The first line whose bits differ.
fn differing(
    alloc: Global,
    vhdl: &Sim9<'_>,
    verilog: &Sim4<'_>,
    lines: &[Line],
    binding: &Binding,
    row: u64,
) -> Result<Option<Ran>, Memory> {
    let mut number: u32 = 0;
    for (k, line) in lines.iter().enumerate() {
        if !line.kind.is_input()
            && let Some(object) = binding.objects.get(k).copied()
        {
            let nine = vhdl.value(k).unwrap_or(&[]);
            let four = verilog.value(object).unwrap_or(&[]);
            if !agrees(nine, four) {
                return Ok(Some(Ran::Differs {
                    row,
                    line: number,
                    vhdl: Bits9::from_slice(alloc, nine)?,
                    verilog: Bits4::from_slice(alloc, four)?,
                }));
            }
        }
        number = number.saturating_add(1);
    }
    Ok(None)
}

/// Whether bits of Verilog are the abstraction of bits of VHDL.
fn agrees(nine: &[S9], four: &[V4]) -> bool {
    if nine.len() != four.len() {
        return false;
    }
    for (bit, other) in nine.iter().zip(four) {
        if abs4(*bit) != *other {
            return false;
        }
    }
    true
}
