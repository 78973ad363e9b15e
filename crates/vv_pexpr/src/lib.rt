//! Reads expressions, names and aggregates.
#![tactic(auto)]

pub mod calls;
pub mod expression;
