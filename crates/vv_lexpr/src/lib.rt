//! Writing expressions of a design in Verilog.
#![tactic(auto)]

mod aggregates;
mod calls;
mod chains;
mod choices;
mod operands;
mod ranges;
mod stack;
mod values;

pub use calls::function_name;
pub use choices::{Selector, chosen, labels, selector_of};
pub use ranges::natural;
pub use values::{target_spot, value, value_at};
