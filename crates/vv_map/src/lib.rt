//! The map: which objects of the design and of the text belong together.
//!
//! `lines` has what a line is and writes lines, `forms` reads the forms of their fields, `reading` reads a map, `binding` finds the
//! objects, and `own` has the lines of a design.
#![tactic(auto)]

mod binding;
mod forms;
mod lines;
mod own;
mod reading;

pub use binding::{Binding, ObjectList, bind};
pub use lines::{Line, LineKind, LineList, record_of};
pub use own::{own_lines, write_map};
pub use reading::read_map;
