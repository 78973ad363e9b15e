//! Runs the two meanings of a file of gates, plainly and slowly: what each call answers is the
//! definition.
//!
//! `vhdl` runs the VHDL design of a file. `flat` makes the flat design that the file's text stands
//! for, and `verilog` runs it. `specs/` has what contracts see of the states, as those of the
//! definitions.
#![tactic(auto)]

pub mod flat;
pub mod order;
pub mod ports;
pub mod verilog;
pub mod vhdl;
