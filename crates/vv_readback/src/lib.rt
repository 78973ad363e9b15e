//! Texts and maps that are read back.
//!
//! `text` makes the flat design of a text, `bound` the lines of a map with their objects, and `certificate` does both with what was just
//! written.
#![tactic(auto)]

mod bound;
mod certificate;
mod text;

pub use bound::{Bound, read_bound};
pub use certificate::certify;
pub use text::flat_of;
