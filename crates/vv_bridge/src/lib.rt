//! Runs of rows: the text of the cycles of either meaning, and both compared.
#![tactic(auto)]

mod comparing;
mod cycles;
mod ran;
mod text4;
mod verilog;
mod vhdl;

pub use comparing::compare;
pub use cycles::{digits4, digits9};
pub use ran::Ran;
pub use verilog::replay4;
pub use vhdl::replay9;
