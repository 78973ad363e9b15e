//! What is read from a token on.

use crate::form::Form;
use crate::place::Place;
use crate::step::Step;
use crate::terminal::Terminal;
use vv_vlex::sign::Sign;

/// A whole file: its units as a list, up to the end.
pub const FILE: [Step; 3] = [
    Step::Make(Form::Empty),
    Step::Many(Place::Unit),
    Step::Skip(Terminal::End),
];

/// An expression.
pub const EXPRESSION: [Step; 1] = [Step::Call(Place::Expression)];

/// A name.
pub const NAME: [Step; 1] = [Step::Call(Place::Name)];

/// An aggregate.
pub const AGGREGATE: [Step; 2] = [
    Step::Keep(Terminal::Mark(Sign::Open)),
    Step::Call(Place::AggregateElements),
];
