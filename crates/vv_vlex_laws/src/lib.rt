//! Laws of the lexical elements: they are those of the one cut of a file into longest pieces.
#![tactic(auto)]

pub mod laws;
