//! The operators and functions of `numeric_std` by their rows, over values that lie in cells. No call takes memory.
#![tactic(auto)]

mod rows;
mod table;

pub use rows::num_in;
pub use table::{Operands, Row, row_of};
