//! Subtypes and interfaces of the nodes that stand for them.
#![tactic(auto)]

pub mod interface;
pub mod subtype;
