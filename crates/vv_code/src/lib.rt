//! The code of expressions and of function bodies for static evaluation. It is flat: nothing that runs it recurses on calls.
#![tactic(auto)]

mod bodies;
mod code;
mod expressions;
mod rows;
mod slots;
mod statements;

pub use bodies::{code_of, code_of_body, code_of_links};
pub use code::{Arity, Code, End, Instr, MarkAt};
pub use rows::is_natural_operand;
