//! What all crates of the translator share: places and rules of refusals, lists of bytes, and the outside.
#![tactic(auto)]

pub mod fault;
pub mod files;
pub mod memory;
pub mod names;
pub mod rules;
pub mod shelf;
pub mod sink;
#[cfg(test)]
mod tests;
pub mod text;
