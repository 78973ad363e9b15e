//! Vectors that lie in cells, one element in each.
#![tactic(auto)]

pub mod laws;
mod reading;
#[cfg(test)]
mod tests;
mod writing;

pub use reading::{any_meta, bit, number, scalar};
pub use writing::{copy, fill, put_scalar, write_bit, write_number};
