//! Functions, which keep their statements.
#![tactic(auto)]

mod function;

pub use function::{LoweredFunction, lower_fun};
