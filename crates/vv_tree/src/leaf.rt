//! What one token of a tree says.

use vv_base::fault::{Name, Span};
use vv_vlex::word::Word;

/// An identifier.
#[derive(Clone, Copy, Debug, PartialEq, Eq)]
pub struct Ident {
    pub name: Name,
    pub span: Span,
}

/// A reserved word that says which case there is.
#[derive(Clone, Copy, Debug, PartialEq, Eq)]
pub struct Keyword {
    pub word: Word,
    pub span: Span,
}

/// A literal. Texts are as in the token of their kind.
#[derive(Clone, Copy)]
pub enum Literal<'a> {
    Integer(i32, Span),
    Character {
        byte: u8,
        name: Name,
        span: Span,
    },
    Text {
        bytes: &'a [u8],
        name: Name,
        span: Span,
    },
    BitText(&'a [u8], Span),
}

/// What an operator is written as (IEEE 1076-1993, clause 7.2).
#[derive(Clone, Copy, Debug, PartialEq, Eq)]
pub enum OperatorSymbol {
    And,
    Or,
    Xor,
    Xnor,
    Nand,
    Nor,
    Equal,
    NotEqual,
    Less,
    LessEqual,
    Greater,
    GreaterEqual,
    ShiftLeftLogical,
    ShiftRightLogical,
    ShiftLeftArithmetic,
    ShiftRightArithmetic,
    RotateLeft,
    RotateRight,
    Plus,
    Minus,
    Concatenate,
    Multiply,
    Divide,
    Mod,
    Rem,
}

/// An operator that stands between its operands or is a sign before one.
#[derive(Clone, Copy, Debug, PartialEq, Eq)]
pub struct Operator {
    pub symbol: OperatorSymbol,
    pub span: Span,
}

/// The direction of a range.
#[derive(Clone, Copy, Debug, PartialEq, Eq)]
pub enum Direction {
    To(Span),
    Downto(Span),
}

/// The mode of a port.
#[derive(Clone, Copy, Debug, PartialEq, Eq)]
pub enum Mode {
    In(Span),
    Out(Span),
    Inout(Span),
}

/// How an assignment is written: a signal's by `<=`, a variable's by `:=`.
#[derive(Clone, Copy, Debug, PartialEq, Eq)]
pub enum AssignmentSign {
    Signal(Span),
    Variable(Span),
}

/// What a declared entity is named by, where that is more than an identifier: a function by an operator's text, an enumeration
/// literal by a character, all entities of a class by `others` or `all`.
#[derive(Clone, Copy)]
pub enum Designator<'a> {
    Ident(Ident),
    Literal(Literal<'a>),
    Others(Span),
    All(Span),
}
