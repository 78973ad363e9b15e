//! What the parts of a design read and change, as runs of elements, and the forms of conditions by which the templates of processes
//! are told. Templates, drivers, lowering and the engine stand on it.
#![tactic(auto)]

mod conditions;
mod least;
mod names;
mod reads;
mod sums;
mod targets;
mod template;
mod values;

pub use conditions::{EdgeForm, Level, conjuncts, edge_of, level_of, whole_logic};
pub use least::Least;
pub use names::{Object, Place, part_of, part_of_target};
pub use reads::{Read, Use, add_reads, add_statement_reads, add_target_reads, is_static};
pub use sums::Sums;
pub use targets::{Changed, add_targets};
pub use template::{Template, add_data_reads, further_conjuncts, sole_if, template_of};
pub use values::{is_logic, scalar_of, start_of};
