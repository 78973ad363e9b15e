//! Tests of the top call, apart from it, so that neither is proved again with the other.
#![tactic(auto)]

#[cfg(test)]
mod tests;
