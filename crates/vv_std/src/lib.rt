//! The built-in packages `standard` and `std_logic_1164`: what they declare, and the values of their operators, as values and in cells.
#![tactic(auto)]

#[cfg(test)]
mod cell_tests;
#[cfg(test)]
mod value_tests;

pub use vv_std_cells::std_in;
pub use vv_std_decls::std_decls;
pub use vv_std_values::{Gate, std_value};
