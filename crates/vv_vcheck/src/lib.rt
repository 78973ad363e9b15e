//! The rules on names, sizes, limits and drivers of modules: one walk over the text finds the least place at which each is broken.
#![tactic(auto)]

mod connections;
mod expressions;
mod statements;
mod walk;

pub use walk::check;
