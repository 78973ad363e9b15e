//! Reads whole files: their units with all that stands in them.
#![tactic(auto)]

pub mod parse;
pub mod unit;
