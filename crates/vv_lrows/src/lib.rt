//! What the operators give of parts that are written already, and where the parts of objects lie.
#![tactic(auto)]

mod division;
mod logic;
mod pool;
mod spots;
mod vectors;

pub use division::{absolute_of, divided, number_of, power_of_two, sign_of, step_needed};
pub use logic::{ordered, relates_numbers, standard};
pub use pool::{Held, Pool};
pub use spots::{
    Place, Rows, Spot, element_at, element_by, index_digits, moved, read_spot, reference, spot_of,
    table,
};
pub use vectors::{number_needed, numeric, numeric_of_one};
