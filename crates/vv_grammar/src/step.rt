//! The steps of a production, and how a place goes on.

use crate::form::Form;
use crate::place::Place;
use crate::terminal::Terminal;

/// A step of a production.
#[derive(Clone, Copy, Debug, PartialEq, Eq)]
pub enum Step {
    /// What this place admits.
    Call(Place),
    /// What this place admits, any number of times, each a part of a list.
    Many(Place),
    /// A token that leaves nothing.
    Skip(Terminal),
    /// A token that is a part.
    Keep(Terminal),
    /// Something is made of the parts that were read last.
    Make(Form),
}

/// What becomes of the token that chooses an alternative.
#[derive(Clone, Copy, Debug, PartialEq, Eq)]
pub enum Take {
    /// It is a part.
    Keep,
    /// It leaves nothing.
    Skip,
    /// It is not taken.
    Look,
}

/// How a place goes on at one of some tokens: what becomes of that token, and the steps behind it.
pub type Alternative = (&'static [Terminal], Take, &'static [Step]);

/// How deep expressions or statements nest at a place.
#[derive(Clone, Copy, Debug, PartialEq, Eq)]
pub enum Level {
    /// As deep as round it.
    Same,
    /// An expression starts here.
    Expression,
    /// An expression started at the token that was read last.
    ExpressionBehind,
    /// A statement starts here.
    Statement,
    /// A statement started where the production round it did.
    StatementBehind,
}
