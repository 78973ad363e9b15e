//! Expressions, names and ranges.

ghost use Rattle.std.specs.Prelude.{◌≡◌, IfOk};
ghost use Rattle.vv_tree.specs.View.{expr_tree, expr_kind_tree};

use crate::leaf::{Direction, Ident, Literal, Operator};
use bumpalo::Bump;
use std::alloc::Global;
use vv_base::fault::{Memory, Span};

/// An expression in an arena.
#[cycle(expressions)]
#[derive(Clone, Copy)]
pub struct Expr<'a> {
    /// What it is.
    pub node: &'a Box<ExprKind<'a>, &'a Bump<Global>>,
}

/// What an expression is.
#[cycle(expressions)]
#[derive(Clone, Copy)]
pub enum ExprKind<'a> {
    /// A name: an identifier and the parts behind it.
    Name {
        identifier: Ident,
        parts: &'a [Part<'a>],
        span: Span,
    },
    Literal(Literal<'a>),
    Parentheses {
        inner: Expr<'a>,
        span: Span,
    },
    Aggregate {
        elements: &'a [Element<'a>],
        span: Span,
    },
    Power {
        base: Expr<'a>,
        exponent: Expr<'a>,
        span: Span,
    },
    Abs {
        operand: Expr<'a>,
        span: Span,
    },
    Not {
        operand: Expr<'a>,
        span: Span,
    },
    /// Factors that multiplying operators join.
    Product {
        first: Expr<'a>,
        others: &'a [Operand<'a>],
        span: Span,
    },
    /// A first term with its sign.
    Signed {
        sign: Operator,
        operand: Expr<'a>,
        span: Span,
    },
    /// Terms that adding operators join.
    Sum {
        first: Expr<'a>,
        others: &'a [Operand<'a>],
        span: Span,
    },
    Shift {
        left: Expr<'a>,
        operator: Operator,
        right: Expr<'a>,
        span: Span,
    },
    Relation {
        left: Expr<'a>,
        operator: Operator,
        right: Expr<'a>,
        span: Span,
    },
    /// Relations that one logical operator joins.
    Logic {
        first: Expr<'a>,
        others: &'a [Operand<'a>],
        span: Span,
    },
}

/// A part of a name behind its identifier.
#[cycle(expressions)]
#[derive(Clone, Copy)]
pub enum Part<'a> {
    Selected(Ident),
    /// Indexes, a slice, or the arguments of a call.
    Arguments {
        arguments: &'a [Argument<'a>],
        span: Span,
    },
    Attribute {
        attribute: Ident,
        span: Span,
    },
    /// The attribute `range`.
    RangeAttribute(Span),
    /// The operand of a qualified expression.
    Qualified {
        operand: Expr<'a>,
        span: Span,
    },
}

/// An argument.
#[cycle(expressions)]
#[derive(Clone, Copy)]
pub enum Argument<'a> {
    Positional(Range<'a>),
    Named {
        formal: Ident,
        actual: Range<'a>,
        span: Span,
    },
}

/// An element of an aggregate.
#[cycle(expressions)]
#[derive(Clone, Copy)]
pub enum Element<'a> {
    Positional(Expr<'a>),
    Bound {
        choices: &'a [Choice<'a>],
        value: Expr<'a>,
        span: Span,
    },
}

/// A choice of an aggregate, a case statement or a selected assignment.
#[cycle(expressions)]
#[derive(Clone, Copy)]
pub enum Choice<'a> {
    Range(Range<'a>),
    Others(Span),
}

/// A range, or one value where a range can stand.
#[cycle(expressions)]
#[derive(Clone, Copy)]
pub enum Range<'a> {
    Value(Expr<'a>),
    Bounds {
        left: Expr<'a>,
        direction: Direction,
        right: Expr<'a>,
        span: Span,
    },
}

/// An operator and the operand behind it.
#[cycle(expressions)]
#[derive(Clone, Copy)]
pub struct Operand<'a> {
    pub operator: Operator,
    pub operand: Expr<'a>,
    pub span: Span,
}

#[tactic(auto, unfolding(crate::specs::Expressions::expr_tree, crate::specs::Expressions::expr_kind_tree))]
impl<'a> Expr<'a> {
    /// What it is.
    pub fn kind(self) -> &'a ExprKind<'a>
        ensures tree { expr_kind_tree result.now ≡ expr_tree self.entry }
        ensures same { result.now ≡ self.entry.node.now.value }
    {
        self.node
    }
}

#[tactic(auto, unfolding(crate::specs::Expressions::expr_tree, crate::specs::Expressions::expr_kind_tree))]
impl<'a> ExprKind<'a> {
    /// It in the arena.
    pub fn keep(self, arena: &'a Bump<Global>) -> Result<Expr<'a>, Memory>
        ensures { IfOk result (λ kept. expr_tree kept ≡ expr_kind_tree self.entry) }
    {
        Ok(Expr {
            node: arena.try_alloc(Box::new(arena, self)?)?,
        })
    }
}
