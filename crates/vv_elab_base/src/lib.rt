//! What elaboration works on: a design that is being made, subtypes, values as those of a subtype, and what operators give.
#![tactic(auto)]

pub mod drivers;
pub mod keys;
pub mod known;
pub mod making;
pub mod objects;
pub mod operators;
pub mod paths;
pub mod specialisations;
pub mod sub;
pub mod wanted;
