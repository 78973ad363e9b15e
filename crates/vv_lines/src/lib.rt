//! Which objects of a design its map lists, and in which order.
#![tactic(auto)]

mod listing;

pub use listing::{Listed, ListedAs, ListedList, Object, listed_objects};
