//! The grammar by its productions, and that the table of places reads just what they admit.
#![tactic(auto)]

pub mod laws;
