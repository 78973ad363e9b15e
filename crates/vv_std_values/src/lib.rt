//! The values of the operators of `standard` and `std_logic_1164`.
#![tactic(auto)]

mod arrays;
mod gates;
mod relations;
mod rows;

pub use gates::Gate;
pub use rows::std_value;
