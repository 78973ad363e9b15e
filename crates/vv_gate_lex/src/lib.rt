//! The tokens of a file of gates.
#![tactic(auto)]

pub mod keywords;
pub mod laws;
pub mod lexer;
