//! Static evaluation: expressions become a flat code, and a machine with frames of its own runs it. Nothing recurses on calls.
#![tactic(auto)]

mod aggregates;
mod eval;
mod integers;
mod machine;
mod operators;
mod steps;
mod targets;

pub use eval::{fold, fold_links};
