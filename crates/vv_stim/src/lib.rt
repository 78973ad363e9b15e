//! Stimulus rows: which inputs get which values, row by row.
#![tactic(auto)]

mod reading;

pub use reading::{Change, ChangeList, Input, Row, RowList, rows};
