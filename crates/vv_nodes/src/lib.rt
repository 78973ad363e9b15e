//! Syntax trees of VHDL as the events of a reading make them, with nodes of one type.
#![tactic(auto)]

mod making;
pub mod node;
pub mod parts;
pub mod replay;
pub mod values;
