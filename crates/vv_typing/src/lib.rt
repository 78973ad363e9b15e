//! Expressions and statements with their types, once they break no rule of types.
#![tactic(auto)]

pub mod forms;
pub mod statements;
pub mod tables;
