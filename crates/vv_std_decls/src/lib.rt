//! The declarations of the built-in packages `standard` and `std_logic_1164`.
#![tactic(auto)]

mod declarations;
pub mod laws;

pub use declarations::std_decls;
