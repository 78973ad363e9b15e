//! Declarations, statements and functions of a design.
#![tactic(auto)]

mod cases;
pub mod declarations;
pub mod functions;
pub mod statements;
mod targets;
