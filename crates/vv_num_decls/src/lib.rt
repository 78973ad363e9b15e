//! The declarations of the built-in package `numeric_std`.
#![tactic(auto)]

mod declarations;
mod functions;
pub mod laws;

pub use declarations::num_decls;
