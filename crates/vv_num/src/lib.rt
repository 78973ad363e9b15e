//! The built-in package `numeric_std`: what it declares, and the values of its operators and functions, as values and in cells.
#![tactic(auto)]

mod operands;
mod results;
#[cfg(test)]
mod tests;
mod values;

pub use values::{Outcome, num_value};
pub use vv_num_cells::num_in;
pub use vv_num_decls::num_decls;
