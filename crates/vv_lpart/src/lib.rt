//! What written expressions are made of: parts and runs of bits, how values lie in bits, ranges of numbers, and the rows of
//! `numeric_std` by what they do.
#![tactic(auto)]

mod layout;
mod names;
mod range;
mod rows;
mod text;

pub use layout::{Layout, bits_of, digits, push_number, push_value, scalar_width, scalars};
pub use names::{mangled, name_of, own_name, own_number, put_name, range_of};
pub use range::Range;
pub use rows::{Does, Number, Row};
pub use text::{Joined, Part, Run};
