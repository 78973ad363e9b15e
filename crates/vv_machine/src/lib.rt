//! The machine that goes by the table of the grammar over the tokens of a file.
#![tactic(auto)]

pub mod jumps;
pub mod machine;
pub mod stack;
