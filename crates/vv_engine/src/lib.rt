//! The machine of the VHDL engine: a flat code over cells, and the cycle in which processes resume and nets are updated. A run takes no
//! memory.
#![tactic(auto)]

mod code;
mod engine;
mod integers;
mod lists;
mod marks;
mod state;

pub use code::Instr;
pub use engine::{Engine, Watch};
pub use lists::{Lists, Segments};
pub use marks::{Marks, Ready};
pub use state::State;
