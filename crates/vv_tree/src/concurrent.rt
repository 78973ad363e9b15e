//! Concurrent statements.

ghost use Rattle.std.specs.Prelude.{◌≡◌, IfOk};
ghost use Rattle.vv_tree.specs.View.{conc_tree, conc_kind_tree};

use crate::declaration::{Decl, DiscreteRange, Mark};
use crate::expression::{Choice, Expr};
use crate::leaf::Ident;
use crate::statement::{Assertion, Stmt};
use bumpalo::Bump;
use std::alloc::Global;
use vv_base::fault::{Memory, Span};

/// To which signals a process is sensitive, as it is written. The names are names as expressions.
#[derive(Clone, Copy)]
pub enum Sensitivity<'a> {
    Absent,
    Listed(&'a [Expr<'a>], Span),
    All(Span),
}

/// A value of a conditional assignment.
#[derive(Clone, Copy)]
pub enum Waveform<'a> {
    Always(Expr<'a>),
    When {
        value: Expr<'a>,
        condition: Expr<'a>,
        span: Span,
    },
}

/// A value of a selected assignment with its choices.
#[derive(Clone, Copy)]
pub struct Selection<'a> {
    pub value: Expr<'a>,
    pub choices: &'a [Choice<'a>],
    pub span: Span,
}

/// What an instance is of.
#[derive(Clone, Copy)]
pub enum InstanceUnit<'a> {
    Component(Mark<'a>),
    Entity {
        mark: Mark<'a>,
        architecture: Option<Ident>,
        span: Span,
    },
}

/// What is associated with a formal.
#[derive(Clone, Copy)]
pub enum Actual<'a> {
    Open(Span),
    Given(Expr<'a>),
}

/// An association of a generic or a port.
#[derive(Clone, Copy)]
pub enum Association<'a> {
    Positional(Actual<'a>),
    Named {
        formal: Ident,
        actual: Actual<'a>,
        span: Span,
    },
}

/// A concurrent statement in an arena.
#[cycle(concurrents)]
#[derive(Clone, Copy)]
pub struct Conc<'a> {
    /// What it is.
    pub node: &'a Box<ConcKind<'a>, &'a Bump<Global>>,
}

/// What a concurrent statement is.
#[cycle(concurrents)]
#[derive(Clone, Copy)]
pub enum ConcKind<'a> {
    Labelled {
        label: Ident,
        statement: Conc<'a>,
        span: Span,
    },
    Process {
        sensitivity: Sensitivity<'a>,
        declarations: &'a [Decl<'a>],
        statements: &'a [Stmt<'a>],
        end: Option<Ident>,
        span: Span,
    },
    Conditional {
        target: Expr<'a>,
        waveforms: &'a [Waveform<'a>],
        span: Span,
    },
    Selected {
        selector: Expr<'a>,
        target: Expr<'a>,
        selections: &'a [Selection<'a>],
        span: Span,
    },
    Assertion(Assertion<'a>),
    Instance {
        unit: InstanceUnit<'a>,
        generics: &'a [Association<'a>],
        ports: &'a [Association<'a>],
        span: Span,
    },
    ForGenerate {
        identifier: Ident,
        range: DiscreteRange<'a>,
        declarations: &'a [Decl<'a>],
        statements: &'a [Conc<'a>],
        end: Option<Ident>,
        span: Span,
    },
    IfGenerate {
        condition: Expr<'a>,
        declarations: &'a [Decl<'a>],
        statements: &'a [Conc<'a>],
        end: Option<Ident>,
        span: Span,
    },
}

#[tactic(auto, unfolding(crate::specs::Concurrents::conc_tree, crate::specs::Concurrents::conc_kind_tree))]
impl<'a> Conc<'a> {
    /// What it is.
    pub fn kind(self) -> &'a ConcKind<'a>
        ensures tree { conc_kind_tree result.now ≡ conc_tree self.entry }
        ensures same { result.now ≡ self.entry.node.now.value }
    {
        self.node
    }
}

#[tactic(auto, unfolding(crate::specs::Concurrents::conc_tree, crate::specs::Concurrents::conc_kind_tree))]
impl<'a> ConcKind<'a> {
    /// It in the arena.
    pub fn keep(self, arena: &'a Bump<Global>) -> Result<Conc<'a>, Memory>
        ensures { IfOk result (λ kept. conc_tree kept ≡ conc_kind_tree self.entry) }
    {
        Ok(Conc {
            node: arena.try_alloc(Box::new(arena, self)?)?,
        })
    }
}
