//! What the declarations of built-in packages are made of.
#![tactic(auto)]

mod building;

pub use building::{
    built, concatenations_of, list_of, logic_of, operators_on, relational_on, relations_of,
};
