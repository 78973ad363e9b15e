//! Instances of the nodes that stand for them.
#![tactic(auto)]

pub mod instance;
