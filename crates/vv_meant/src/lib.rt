//! What each part of an expression may mean: the upward half of overload resolution.
#![tactic(auto)]

pub mod calls;
pub mod cands;
pub mod count;
pub mod literals;
mod names;
pub mod note;
pub mod noted;
mod operators;
pub mod types;
