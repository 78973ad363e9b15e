//! Nine-valued and four-valued logic.
//!
//! The nine values, their operators and their resolution are those of the package
//! `std_logic_1164` (IEEE 1164-1993). The four values are those of Verilog (IEEE 1364-2005,
//! clauses 4.6.1 and 5.1). Each operator is one look-up in a table, and its contract says the
//! rule that the table has to keep.
#![tactic(auto)]

mod bits;
mod four;
mod nine;
mod resolution;
mod table;
#[cfg(test)]
mod tests;

pub use bits::{Bits4, Bits9};
pub use four::{V4, abs4, and4, not4, or4, xor4};
pub use nine::{S9, and9, nand9, nor9, not9, or9, xnor9, xor9};
pub use resolution::{resolve4, resolve9};
pub use table::Table;
