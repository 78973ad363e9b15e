//! What a text sees of rows.

use sqlite_items::Items;
use std::alloc::Global;
use vv_base::fault::Memory;
use vv_bits::{Bits4, V4, abs4};
use vv_map::{Binding, Line, LineKind};
use vv_sim4::{Change4, Row4};
use vv_stim::Row;

/// The objects of the inputs.
pub fn inputs_of(alloc: Global, lines: &[Line], binding: &Binding) -> Result<Vec<usize>, Memory> {
    let mut inputs = Vec::new(alloc);
    for (line, object) in lines.iter().zip(binding.objects.as_slice()) {
        if line.kind.is_input() {
            inputs.push(*object)?;
        }
    }
    Ok(inputs)
}

/// What a bit of an input starts with.
fn level_of(kind: LineKind) -> V4 {
    match kind {
        LineKind::Clk0 | LineKind::Ctl0 => V4::Zero,
        LineKind::Clk1 | LineKind::Ctl1 => V4::One,
        _ => V4::X,
    }
}

/// The bits of the inputs at power-on.
pub fn start_of(alloc: Global, lines: &[Line], binding: &Binding) -> Result<Row4, Memory> {
    let mut changes = Items::new(alloc);
    for (line, object) in lines.iter().zip(binding.objects.as_slice()) {
        if line.kind.is_input() {
            let mut bits = Bits4::new(alloc);
            for _ in 0..line.width {
                bits.push(level_of(line.kind))?;
            }
            changes.push(Change4 {
                object: *object,
                bits,
            })?;
        }
    }
    Ok(Row4 { changes })
}

/// What Verilog sees of a row.
pub fn row_of(alloc: Global, inputs: &[usize], row: &Row) -> Result<Row4, Memory> {
    let mut changes = Items::new(alloc);
    for change in row.changes.as_slice() {
        let Some(object) = inputs.get(change.input) else {
            continue;
        };
        let mut bits = Bits4::new(alloc);
        for bit in change.bits.as_slice() {
            bits.push(abs4(*bit))?;
        }
        changes.push(Change4 {
            object: *object,
            bits,
        })?;
    }
    Ok(Row4 { changes })
}
