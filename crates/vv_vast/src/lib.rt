//! The Verilog that is written: in specs/ its tokens, its grammar, and the flat design that it stands for.
#![tactic(auto)]

pub mod laws;
pub mod words;
