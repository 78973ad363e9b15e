//! Sums, differences and products of the vectors of `numeric_std`, over cells.
//!
//! A vector is unsigned or signed, and an operand can be a number in its place. Each call reads its operands before it
//! writes, so the places may meet.
#![tactic(auto)]

pub mod laws;
mod operands;
mod rows;
#[cfg(test)]
mod tests;

pub use operands::{Operator, VectorKind};
pub use rows::{
    absolute, combine_number_with_vector, combine_vector_with_number, combine_vectors, negate,
};
