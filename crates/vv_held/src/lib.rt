//! Values with their bounds, subtypes without pointers, and what static evaluation knows of declarations.
#![tactic(auto)]

mod env;
pub mod held;
pub mod integers;
pub mod shape;

pub use env::{Entry, Env};
pub use held::Held;
pub use shape::Shape;
