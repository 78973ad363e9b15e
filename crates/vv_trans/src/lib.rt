//! The whole translation: from the bytes of files to Verilog text and map, or to the rule that is broken first.
#![tactic(auto)]

pub mod laws;
pub mod out;
pub mod translate;
pub mod whole;
