//! What values, types and built-in declarations are, and the codec that gives a value its bits.
#![tactic(auto)]

mod base;
mod cells;
mod codec;
mod declarations;
mod digits;
pub mod laws;
mod numeric;
mod operators;
mod standard;
#[cfg(test)]
mod tests;
mod value;

pub use base::{BaseList, BaseType, Bounds, Subtype};
pub use cells::{Cells, Place};
pub use codec::Codec;
pub use declarations::{BuiltDecl, DeclList, ObjectKind, TextList, What};
pub use numeric::NumFn;
pub use operators::Op;
pub use standard::StdFn;
pub use value::{Value, ValueList};
