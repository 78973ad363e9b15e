//! The machine of the Verilog engine: instructions over words of four-valued bits, and the events and updates of a row. A run takes no
//! memory.
//!
//! `pair` has words of four-valued bits and their operators, `store` the words on which instructions work, `lists` and `active` who
//! waits for changes and who is active, and `state` what events and updates do. `code` has the instructions, and `run` runs them.
#![tactic(auto)]

pub mod active;
pub mod code;
pub mod lists;
pub mod pair;
pub mod run;
pub mod state;
pub mod store;
