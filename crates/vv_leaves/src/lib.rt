//! Parts of syntax trees that are one token.
#![tactic(auto)]

pub mod leaf;
