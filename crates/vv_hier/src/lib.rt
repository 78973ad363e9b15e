//! Modules: one for each specialisation.
#![tactic(auto)]

mod constants;
mod functions;
mod index;
mod instances;
mod module;
mod puts;
mod whole;

pub use whole::modules;
