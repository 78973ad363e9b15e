//! Statements that stay: those of clocked processes and of functions.
#![tactic(auto)]

mod assignments;
mod cases;
mod keeper;

pub use cases::{test, turned};
pub use keeper::{Keeper, Signal, SignalList};
