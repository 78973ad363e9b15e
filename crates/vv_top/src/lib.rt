//! The translator's top call, which does all that the program does.
//!
//! `words`, `loads`, `run` and `tell` are the translation. `orders` has the words of the other commands, `halts` why they end early,
//! `inputs` what they load, `replays`, `comparison` and `generation` do one each, and `further` joins them. `lines` has what is printed.
#![tactic(auto)]

mod comparison;
pub mod further;
mod generation;
pub mod halts;
mod inputs;
pub mod lines;
pub mod loads;
pub mod orders;
mod replays;
pub mod run;
pub mod tell;
pub mod top;
pub mod words;
