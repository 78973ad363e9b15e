//! What the commands over a design and its text share: stimuli become the rows that runs take, and what a run ends with.
//!
//! `inputs` has the rows of a stimulus, and `last` the last values of a run.
#![tactic(auto)]

mod inputs;
mod last;

pub use inputs::rows_of;
pub use last::{Last, last_bits};
