//! The VHDL engine: a design becomes places in cells and a flat code over them, and rows run that code without more memory.
//!
//! `build` has code and places that are being made, `names`, `operators`, `expressions` and `statements` make the code, `lay` lays out the
//! objects and processes of a design, `lines` gives the bits of the lines of its map, and `sim` is the engine as its user sees it.
#![tactic(auto)]

mod build;
mod expressions;
mod lay;
mod lines;
mod names;
mod operators;
mod sim;
mod statements;

pub use sim::{Sim9, Step};
