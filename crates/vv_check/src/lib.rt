//! The checked units: declarations and concurrent statements with typed expressions, and the rules of types on them.
#![tactic(auto)]

mod associations;
mod builtin;
mod concurrents;
mod declarations;
mod units;

pub use units::check;
