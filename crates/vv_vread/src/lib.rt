//! Reads the modules of a text, or tells where it ceases to be one.
//!
//! `reader` goes over its tokens by recursive descent with one token of look-ahead, and `deep` passes
//! over what nests too deep to be read, since a rule on tokens behind it goes before the rule on depth.
#![tactic(auto)]

mod deep;
mod expressions;
mod modules;
mod reader;
mod statements;

pub use modules::read;
