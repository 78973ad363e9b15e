//! The Verilog text and the map of a file of gates.
#![tactic(auto)]

pub mod map;
mod names;
mod ports;
pub mod text;
