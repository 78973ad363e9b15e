//! Overload resolution: the single interpretation of an expression.
#![tactic(auto)]

mod node;
mod resolving;
mod selecting;

pub use resolving::{resolve, resolve_choice, resolve_range, stray_attribute};
