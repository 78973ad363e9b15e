//! What the names of modules mean, which calls and instances lead back to themselves, and how much each module comes to.
#![tactic(auto)]

pub mod faults;
pub mod graph;
pub mod loads;
pub mod scope;
