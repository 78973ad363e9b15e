//! The grammar of VHDL as a table of places.
#![tactic(auto)]

pub mod all;
pub mod edition;
pub mod event;
pub mod form;
pub mod place;
pub mod rows;
pub mod shape;
pub mod starts;
pub mod step;
pub mod table;
pub mod terminal;
