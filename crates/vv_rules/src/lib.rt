//! The rules on typed expressions: what is read, the order of aggregates, orderings without a value, and literals.
#![tactic(auto)]

mod rules;

pub use rules::{
    BOUNDED, COMPARED, Context, PLAIN, broken, broken_parts, broken_range, earlier, kind_of,
    refusal,
};
