//! The tokens of a Verilog text.
#![tactic(auto)]

mod lexer;
mod signs;
pub mod token;

pub use lexer::tokens;
