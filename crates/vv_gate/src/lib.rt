//! A file of gates: one entity of scalar `std_logic` ports and one architecture of logical expressions.
//! Its tokens, its tree, and in specs/ what they mean.
#![tactic(auto)]

pub mod token;
pub mod tree;
