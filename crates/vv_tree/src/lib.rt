//! Syntax trees of VHDL, whose nodes lie in an arena.
#![tactic(auto)]

pub mod concurrent;
pub mod declaration;
pub mod expression;
pub mod leaf;
pub mod span;
pub mod statement;
pub mod unit;
