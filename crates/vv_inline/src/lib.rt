//! Puts own wires that are read once in place of their reads, leaves out those that are not read, and numbers the others.
#![tactic(auto)]

mod count;
mod events;
mod items;
mod rebuild;
mod simple;
mod size;
mod statements;
mod tables;

pub use items::{Module, finish, finish_function};
