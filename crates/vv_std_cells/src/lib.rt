//! The operators of `standard` and `std_logic_1164` over values that lie in cells. No call takes memory.
#![tactic(auto)]

mod elements;
mod relations;
mod rows;

pub use rows::std_in;
