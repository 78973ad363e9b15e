//! Large designs from a number: the source of a chain of registers, and a stimulus for it.
#![tactic(auto)]

mod draws;
mod source;
mod stimulus;

use std::alloc::Global;
use vv_base::fault::Memory;
use vv_base::text::ByteList;

/// A source in VHDL, whose top is `chain`, and a stimulus for it.
#[derive(Drop)]
pub struct Made {
    pub source: ByteList,
    pub stim: ByteList,
}

/// A chain of 1 to 1,024 stages, drawn from a seed of 0 to 65,535, and 100 rows for it.
pub fn make(alloc: Global, stages: u32, seed: u32) -> Result<Made, Memory> {
    Ok(Made {
        source: source::source(alloc, stages, seed)?,
        stim: stimulus::stimulus(alloc)?,
    })
}
