//! Processes. Clocked ones keep their statements. Combinational ones and latches become assignments.
#![tactic(auto)]

mod clocked;
mod comb;
mod controls;
mod drivers;
mod latch;
mod process;
mod registers;
mod single;
mod twice;
mod ways;

pub use drivers::{Driven, DrivenList, Drivers};
pub use process::{Lowered, last_part, lower_proc, within};
