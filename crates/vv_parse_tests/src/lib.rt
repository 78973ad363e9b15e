//! Tests of reading VHDL into trees, apart from the calls, so that neither is proved again with the other.
#![tactic(auto)]

#[cfg(test)]
mod tests;
