//! What a flat Verilog design means: values, items, states and the steps between them.
//!
//! A step is one event of IEEE 1364-2005, clause 11, where all waiting nonblocking updates are made
//! as one batch. The definitions stand in `specs/`. Each function here is a law of them: its body is
//! empty, and its contract is what is proved.
#![tactic(auto)]

mod equations;
mod examples;
mod orders;
mod rows;
mod steps;
mod syntax;
mod values;

pub use equations::{ends_agree, one_solution, quiet_solves, run_holds};
pub use examples::{
    chain_is_lawful, gate_is_lawful, register_is_lawful, register_meets_premises, register_settles,
};
pub use orders::{order_checks, order_of};
pub use rows::{
    one_row_end, power_on_holds, power_on_solves, power_on_steps_end, row_ends, row_holds,
    row_solves, row_steps_end, row_swaps,
};
pub use steps::{ordered_run_settles, steps_end, stuck_is_quiet};
pub use syntax::{
    constructs_are_fair, runs_see_their_writes, statements_compute, values_rest_on_reads,
};
pub use values::{
    arithmetic_wraps, case_equality_is_exact, condition_chooses, equality_tells, numbers_wrap,
    orders_compare_numbers, part_writes_stay, parts_are_read, sizes_are_kept, unknown_spreads,
    values_compute, z_counts_as_x,
};
