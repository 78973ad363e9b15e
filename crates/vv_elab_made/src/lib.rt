//! Expressions of a design that are made of made parts. Nothing here goes down a tree of the checked units.
#![tactic(auto)]

pub mod arrangements;
pub mod callings;
pub mod joins;
pub mod leaves;
pub mod nodes;
pub mod parts;
