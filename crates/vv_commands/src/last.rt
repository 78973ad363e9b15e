//! The last values of a run.

use std::alloc::Global;
use vv_base::fault::{Memory, Span};
use vv_base::text::ByteList;
use vv_bridge::digits9;
use vv_design::{Design, Plan};
use vv_map::{Line, LineKind};
use vv_sim9::{Sim9, Step};
use vv_stim::Row;

/// What a run came to.
#[derive(Drop)]
pub enum Last {
    /// The digits of the first output after the last row. There are none where there is no output.
    Digits(ByteList),
    /// A range error at this row.
    Range { row: u64, at: Span },
}

/// Runs a design under rows, and tells the last value of its first output. The lines are the design's own, the k-th line of an input is
/// input k, and the rows are lawful for these inputs. A clash and a control fault end nothing.
pub fn last_bits(
    alloc: Global,
    design: &Design,
    plan: &Plan,
    lines: &[Line],
    rows: &[Row],
) -> Result<Last, Memory> {
    let mut sim = Sim9::new(alloc, design, plan)?;
    if let Some((row, at)) = range_error(&mut sim, rows) {
        return Ok(Last::Range { row, at });
    }
    let digits = output_digits(alloc, &sim, lines)?;
    Ok(Last::Digits(digits))
}

/// Runs all rows. The first range error and its row are told.
fn range_error(sim: &mut Sim9<'_>, rows: &[Row]) -> Option<(u64, Span)> {
    if let Step::Range { at, met: _ } = sim.power() {
        return Some((0, at));
    }
    let mut number: u64 = 0;
    for row in rows {
        number = number.saturating_add(1);
        if let Step::Range { at, met: _ } = sim.row(row) {
            return Some((number, at));
        }
    }
    None
}

/// The digits of the present value of the first output.
fn output_digits(alloc: Global, sim: &Sim9<'_>, lines: &[Line]) -> Result<ByteList, Memory> {
    for (number, line) in lines.iter().enumerate() {
        if line.kind == LineKind::Out {
            return digits9(alloc, sim.value(number).unwrap_or(&[]));
        }
    }
    Ok(ByteList::new(alloc))
}
