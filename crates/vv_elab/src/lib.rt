//! Elaboration: from the checked units to the design of a top.
#![tactic(auto)]

mod concurrent;
mod instances;
mod processes;
mod reads;
mod tops;

pub use tops::elaborate;
