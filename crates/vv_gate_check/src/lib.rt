//! The first place at which a file of gates breaks one of its conditions.
#![tactic(auto)]

mod names;
mod place;

pub use place::first_broken;
