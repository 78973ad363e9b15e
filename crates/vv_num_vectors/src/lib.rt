//! Operators of `numeric_std` that compare, combine, move and convert vectors in cells.
//!
//! A vector lies in a place, one element per cell, and a number in a place of one cell. No call takes memory.
#![tactic(auto)]

mod comparison;
mod conversion;
pub mod laws;
mod logic;
mod movement;
mod operand;
#[cfg(test)]
mod tests;

pub use comparison::{Relation, compare};
pub use conversion::{to_integer, to_vector};
pub use logic::{Gate, combine, invert};
pub use movement::{
    resize_signed, resize_unsigned, rotate_left, rotate_right, shift_left, shift_right_signed,
    shift_right_unsigned,
};
pub use operand::Operand;
