//! Expressions of a design, and targets of its assignments.

use crate::shape::Shape;
use sqlite_items::{Boxed, Items};
use vv_base::fault::Span;
use vv_types::{Bounds, NumFn, Op, StdFn, Value};

/// An expression, with the kind of its value. Its span is that of the written expression.
#[cycle(expr)]
#[derive(Drop)]
pub struct Expr {
    pub form: Form,
    pub shape: Shape,
    pub span: Span,
}

/// The form of an expression. Numbers of nets and functions are those of the design, numbers of variables those of the process, or of
/// the function, whose parameters are numbered first and whose locals stand behind them.
#[cycle(expr)]
#[derive(Drop)]
pub enum Form {
    /// A constant. Static names, attributes and static calls have become one.
    Value(Value),
    /// A large constant by its number in the design.
    Constant(u32),
    /// A whole net.
    Net(u32),
    /// A whole variable.
    Variable(u32),
    /// A static index inside its bounds, or a static slice: the scalars of this expression's shape, from the one with the number
    /// `first` on.
    Elements {
        of: Boxed<Expr>,
        first: u32,
    },
    /// An index that is not static, or a static one outside the bounds. Outside the bounds it is a range error at the index.
    Element {
        of: Boxed<Expr>,
        index: Boxed<Expr>,
        bounds: Bounds,
    },
    /// An aggregate: its parts in the order of the text, and for each element from the left the number of its part.
    Aggregate {
        parts: ExprList,
        elements: NumberList,
    },
    /// Operands that `&` joins.
    Concatenation(ExprList),
    /// A sign, `not`, `abs`, a relation, a power, or a function of `numeric_std`.
    Apply {
        operator: Operator,
        operands: ExprList,
    },
    /// Operands that operators join, from the left.
    Chain {
        first: Boxed<Expr>,
        links: LinkList,
    },
    /// The number of a position, or the value of an enumeration type at a number from `low` to `high`. Else it is a range error at this
    /// expression.
    Position(Boxed<Expr>),
    AtPosition {
        of: Boxed<Expr>,
        low: i32,
        high: i32,
    },
    /// The operand, whose number or position is from `low` to `high`. Else it is a range error at this expression, whose span is that of
    /// the operand as it is written, with its parentheses.
    Check {
        operand: Boxed<Expr>,
        low: i32,
        high: i32,
    },
    /// A call of `rising_edge`, or of `falling_edge` where `rising` is false.
    Edge {
        rising: bool,
        of: Boxed<Expr>,
    },
    /// Whether a net has an event.
    Event(Boxed<Expr>),
    /// A call of a function. The arguments are in the order of the text, and `formals` has the number of the parameter of each.
    Call {
        function: u32,
        formals: NumberList,
        arguments: ExprList,
    },
}

/// An operator and its right operand, behind the operands before it. `shape` and `span` are of what these operands give together.
#[cycle(expr)]
#[derive(Drop)]
pub struct Link {
    pub operator: Operator,
    pub right: Expr,
    pub shape: Shape,
    pub span: Span,
}

/// What an operator does: a row of a table, or integer arithmetic.
#[derive(Clone, Copy, Debug, PartialEq, Eq)]
pub enum Operator {
    Standard(StdFn),
    Numeric(NumFn),
    Integer(Op),
}

/// What an assignment changes: a net or a variable, and the parts that are taken of it, each of what the ones before it give. `whole` is
/// the shape of the net or the variable, and `shape` that of what is changed.
#[derive(Drop)]
pub struct Target {
    pub object: u32,
    pub whole: Shape,
    pub parts: PartList,
    pub shape: Shape,
    pub span: Span,
}

/// A part of a target, with its own shape.
#[derive(Drop)]
pub enum Part {
    /// The scalars from the one with the number `first` on.
    Elements {
        first: u32,
        shape: Shape,
    },
    /// An element by an index that is not static, or by a static one outside the bounds.
    Element {
        index: Expr,
        bounds: Bounds,
        shape: Shape,
    },
}

pub type ExprList = Items<Expr>;

pub type LinkList = Items<Link>;

pub type PartList = Items<Part>;

pub type NumberList = Items<u32>;
