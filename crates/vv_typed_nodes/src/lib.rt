//! Nodes of typed trees, and the rows of the tables that built-in declarations are.
#![tactic(auto)]

pub mod callees;
pub mod node;
