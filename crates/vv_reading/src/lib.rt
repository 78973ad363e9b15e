//! Reads tokens by the grammar of VHDL into nodes.
#![tactic(auto)]

pub mod reading;
