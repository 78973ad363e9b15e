//! The lexical elements of VHDL: from the bytes of a file to its tokens, or to the first place where none starts.
#![tactic(auto)]

pub mod class;
pub mod element;
pub mod lexer;
pub mod number;
pub mod piece;
pub mod quoted;
pub mod sign;
pub mod token;
pub mod tokens;
pub mod word;
pub mod words;
