//! Reads a file of gates: by a small machine its tree, or the first token that no text goes on with.
#![tactic(auto)]

pub mod places;
pub mod reader;
