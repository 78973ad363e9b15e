//! Laws of the operators of `standard` and `std_logic_1164`: when values are the same, and how rows over cells and rows over values agree.
#![tactic(auto)]

pub mod laws;
