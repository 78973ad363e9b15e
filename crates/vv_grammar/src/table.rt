//! The grammar: what each place admits, by the productions of IEEE 1076-1993 that the subset has.

pub mod concurrent;
pub mod declarations;
pub mod expressions;
pub mod statements;
pub mod subtypes;
pub mod units;
