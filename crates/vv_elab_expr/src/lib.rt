//! Expressions of a design, out of those of the checked units.
#![tactic(auto)]

mod aggregates;
mod calls;
mod chains;
pub mod expressions;
pub mod names;
