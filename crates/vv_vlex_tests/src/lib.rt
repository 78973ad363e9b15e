//! Tests of the lexical elements, apart from them, so that neither is proved again with the other.
#![tactic(auto)]

#[cfg(test)]
mod tests;
