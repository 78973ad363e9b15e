//! The engine of Verilog: it runs a flat design, row by row. All its memory is taken when it is made.
//!
//! `layout`, `build`, `expressions` and `statements` make the code of a design, and `sim` is the engine as its callers see it.
#![tactic(auto)]

mod build;
mod expressions;
mod layout;
mod sim;
mod statements;

pub use sim::{Change4, Change4List, Row4, Sim4};
