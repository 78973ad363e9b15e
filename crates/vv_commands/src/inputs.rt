//! Reads a stimulus.

use sqlite_items::Items;
use std::alloc::Global;
use vv_base::fault::Memory;
use vv_base::text::Text;
use vv_design::Class;
use vv_map::{Line, LineKind};
use vv_record::RecordFault;
use vv_stim::{Input, RowList, rows};

/// The rows of a stimulus for the inputs among these lines, of which the k-th is input k; or the rule that a record breaks.
pub fn rows_of(alloc: Global, bytes: &[u8], lines: &[Line]) -> Result<RowList, RecordFault> {
    let inputs = inputs_of(alloc, lines)?;
    rows(alloc, bytes, inputs.as_slice())
}

/// The inputs among these lines, under their VHDL names.
fn inputs_of(alloc: Global, lines: &[Line]) -> Result<Items<Input>, Memory> {
    let mut inputs = Items::new(alloc);
    for line in lines {
        if line.kind.is_input() {
            inputs.push(Input {
                name: Text::from_slice(alloc, line.vhdl.as_slice())?,
                width: line.width,
                class: class_of(line.kind),
            })?;
        }
    }
    Ok(inputs)
}

/// The class of an input.
fn class_of(kind: LineKind) -> Class {
    match kind {
        LineKind::Clk0 => Class::Clock(false),
        LineKind::Clk1 => Class::Clock(true),
        LineKind::Ctl0 => Class::Control(false),
        LineKind::Ctl1 => Class::Control(true),
        LineKind::Data | LineKind::Out | LineKind::Reg | LineKind::Lat | LineKind::Var => {
            Class::Data
        }
    }
}
