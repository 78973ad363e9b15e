//! The flat design of modules: names become numbers, and instances are put in their places.
//!
//! Where no rule on names, sizes, limits and drivers is broken, `expand` makes the flat design, with the help of `lower`, and `cycles`
//! looks for a cycle of dependences in it.
#![tactic(auto)]

mod cycles;
mod expand;
mod flatten;
mod functions;
mod lower;

pub use flatten::flat;
