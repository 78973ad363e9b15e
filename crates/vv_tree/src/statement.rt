//! Sequential statements.

ghost use Rattle.std.specs.Prelude.{◌≡◌, IfOk};
ghost use Rattle.vv_tree.specs.View.{stmt_tree, stmt_kind_tree};

use crate::declaration::DiscreteRange;
use crate::expression::{Choice, Expr};
use crate::leaf::{AssignmentSign, Ident};
use bumpalo::Bump;
use std::alloc::Global;
use vv_base::fault::{Memory, Span};

/// An assertion: its condition, its report and its severity.
#[derive(Clone, Copy)]
pub struct Assertion<'a> {
    pub condition: Expr<'a>,
    pub report: Option<Expr<'a>>,
    pub severity: Option<Expr<'a>>,
    pub span: Span,
}

/// A sequential statement in an arena.
#[cycle(statements)]
#[derive(Clone, Copy)]
pub struct Stmt<'a> {
    /// What it is.
    pub node: &'a Box<StmtKind<'a>, &'a Bump<Global>>,
}

/// What a sequential statement is.
#[cycle(statements)]
#[derive(Clone, Copy)]
pub enum StmtKind<'a> {
    Labelled {
        label: Ident,
        statement: Stmt<'a>,
        span: Span,
    },
    Assignment {
        target: Expr<'a>,
        sign: AssignmentSign,
        value: Expr<'a>,
        span: Span,
    },
    If {
        arms: &'a [IfArm<'a>],
        otherwise: Option<&'a [Stmt<'a>]>,
        end: Option<Ident>,
        span: Span,
    },
    Case {
        selector: Expr<'a>,
        arms: &'a [CaseArm<'a>],
        end: Option<Ident>,
        span: Span,
    },
    For {
        identifier: Ident,
        range: DiscreteRange<'a>,
        statements: &'a [Stmt<'a>],
        end: Option<Ident>,
        span: Span,
    },
    While {
        condition: Expr<'a>,
        statements: &'a [Stmt<'a>],
        end: Option<Ident>,
        span: Span,
    },
    Loop {
        statements: &'a [Stmt<'a>],
        end: Option<Ident>,
        span: Span,
    },
    Exit {
        label: Option<Ident>,
        condition: Option<Expr<'a>>,
        span: Span,
    },
    Next {
        label: Option<Ident>,
        condition: Option<Expr<'a>>,
        span: Span,
    },
    Return {
        value: Expr<'a>,
        span: Span,
    },
    Null(Span),
    /// `wait until` with its condition.
    Wait {
        condition: Expr<'a>,
        span: Span,
    },
    Assertion(Assertion<'a>),
    Report {
        message: Expr<'a>,
        severity: Option<Expr<'a>>,
        span: Span,
    },
}

/// A condition with its statements.
#[cycle(statements)]
#[derive(Clone, Copy)]
pub struct IfArm<'a> {
    pub condition: Expr<'a>,
    pub statements: &'a [Stmt<'a>],
    pub span: Span,
}

/// Choices with their statements.
#[cycle(statements)]
#[derive(Clone, Copy)]
pub struct CaseArm<'a> {
    pub choices: &'a [Choice<'a>],
    pub statements: &'a [Stmt<'a>],
    pub span: Span,
}

#[tactic(auto, unfolding(crate::specs::Statements::stmt_tree, crate::specs::Statements::stmt_kind_tree))]
impl<'a> Stmt<'a> {
    /// What it is.
    pub fn kind(self) -> &'a StmtKind<'a>
        ensures tree { stmt_kind_tree result.now ≡ stmt_tree self.entry }
        ensures same { result.now ≡ self.entry.node.now.value }
    {
        self.node
    }
}

#[tactic(auto, unfolding(crate::specs::Statements::stmt_tree, crate::specs::Statements::stmt_kind_tree))]
impl<'a> StmtKind<'a> {
    /// It in the arena.
    pub fn keep(self, arena: &'a Bump<Global>) -> Result<Stmt<'a>, Memory>
        ensures { IfOk result (λ kept. stmt_tree kept ≡ stmt_kind_tree self.entry) }
    {
        Ok(Stmt {
            node: arena.try_alloc(Box::new(arena, self)?)?,
        })
    }
}
