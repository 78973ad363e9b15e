//! Laws of the grammar: a file has at most one reading, and the machine finds it.
#![tactic(auto)]

pub mod laws;
