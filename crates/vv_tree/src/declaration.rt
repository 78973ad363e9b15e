//! Subtypes and declarations.

ghost use Rattle.std.specs.Prelude.{◌≡◌, IfOk};
ghost use Rattle.vv_tree.specs.View.{decl_tree, decl_kind_tree};

use crate::expression::{Expr, Range};
use crate::leaf::{Designator, Ident, Keyword, Mode};
use crate::statement::Stmt;
use bumpalo::Bump;
use std::alloc::Global;
use vv_base::fault::{Memory, Span};

/// The mark of a type, a subtype or a unit: identifiers with dots between them.
#[derive(Clone, Copy)]
pub struct Mark<'a> {
    pub first: Ident,
    pub others: &'a [Ident],
    pub span: Span,
}

/// A discrete range: by its bounds, or by a mark and its range.
#[derive(Clone, Copy)]
pub enum DiscreteRange<'a> {
    Range(Range<'a>),
    Marked {
        mark: Mark<'a>,
        range: Range<'a>,
        span: Span,
    },
}

/// What narrows a type to a subtype.
#[derive(Clone, Copy)]
pub enum Constraint<'a> {
    Index(DiscreteRange<'a>, Span),
    Range(Range<'a>, Span),
}

/// A subtype indication.
#[derive(Clone, Copy)]
pub struct SubtypeIndication<'a> {
    pub mark: Mark<'a>,
    pub constraint: Option<Constraint<'a>>,
    pub span: Span,
}

/// The definition of a type.
#[derive(Clone, Copy)]
pub enum TypeDefinition<'a> {
    Enumeration {
        literals: &'a [Designator<'a>],
        span: Span,
    },
    Array {
        index: ArrayIndex<'a>,
        element: SubtypeIndication<'a>,
        span: Span,
    },
}

/// The index of an array type, with or without bounds.
#[derive(Clone, Copy)]
pub enum ArrayIndex<'a> {
    Bounded(DiscreteRange<'a>),
    Unbounded(Mark<'a>, Span),
}

/// Generics, parameters or ports.
#[derive(Clone, Copy)]
pub enum Interface<'a> {
    /// Generics or parameters.
    Constant {
        identifiers: &'a [Ident],
        subtype: SubtypeIndication<'a>,
        value: Option<Expr<'a>>,
        span: Span,
    },
    Port {
        identifiers: &'a [Ident],
        mode: Option<Mode>,
        subtype: SubtypeIndication<'a>,
        value: Option<Expr<'a>>,
        span: Span,
    },
}

/// What a function takes and gives. The keyword is `pure` or `function`, whichever stands first.
#[derive(Clone, Copy)]
pub struct FunctionSpecification<'a> {
    pub keyword: Keyword,
    pub designator: Designator<'a>,
    pub parameters: &'a [Interface<'a>],
    pub result: Mark<'a>,
    pub span: Span,
}

/// A name of a use clause.
#[derive(Clone, Copy)]
pub struct SelectedName<'a> {
    pub library: Ident,
    pub package: Ident,
    pub suffix: Option<Designator<'a>>,
    pub span: Span,
}

/// A use clause.
#[derive(Clone, Copy)]
pub struct UseClause<'a> {
    pub names: &'a [SelectedName<'a>],
    pub span: Span,
}

/// A declaration in an arena.
#[cycle(declarations)]
#[derive(Clone, Copy)]
pub struct Decl<'a> {
    /// What it is.
    pub node: &'a Box<DeclKind<'a>, &'a Bump<Global>>,
}

/// What a declaration is.
#[cycle(declarations)]
#[derive(Clone, Copy)]
pub enum DeclKind<'a> {
    Type {
        identifier: Ident,
        definition: TypeDefinition<'a>,
        span: Span,
    },
    Subtype {
        identifier: Ident,
        subtype: SubtypeIndication<'a>,
        span: Span,
    },
    Constant {
        identifiers: &'a [Ident],
        subtype: SubtypeIndication<'a>,
        value: Option<Expr<'a>>,
        span: Span,
    },
    Signal {
        identifiers: &'a [Ident],
        subtype: SubtypeIndication<'a>,
        value: Option<Expr<'a>>,
        span: Span,
    },
    Variable {
        identifiers: &'a [Ident],
        subtype: SubtypeIndication<'a>,
        value: Option<Expr<'a>>,
        span: Span,
    },
    Function {
        specification: FunctionSpecification<'a>,
        span: Span,
    },
    FunctionBody {
        specification: FunctionSpecification<'a>,
        declarations: &'a [Decl<'a>],
        statements: &'a [Stmt<'a>],
        end: Option<Designator<'a>>,
        span: Span,
    },
    Component {
        identifier: Ident,
        generics: &'a [Interface<'a>],
        ports: &'a [Interface<'a>],
        end: Option<Ident>,
        span: Span,
    },
    Attribute {
        identifier: Ident,
        mark: Mark<'a>,
        span: Span,
    },
    AttributeSpecification {
        identifier: Ident,
        entities: &'a [Designator<'a>],
        class: Keyword,
        value: Expr<'a>,
        span: Span,
    },
    Use(UseClause<'a>),
}

#[tactic(auto, unfolding(crate::specs::Declarations::decl_tree, crate::specs::Declarations::decl_kind_tree))]
impl<'a> Decl<'a> {
    /// What it is.
    pub fn kind(self) -> &'a DeclKind<'a>
        ensures tree { decl_kind_tree result.now ≡ decl_tree self.entry }
        ensures same { result.now ≡ self.entry.node.now.value }
    {
        self.node
    }
}

#[tactic(auto, unfolding(crate::specs::Declarations::decl_tree, crate::specs::Declarations::decl_kind_tree))]
impl<'a> DeclKind<'a> {
    /// It in the arena.
    pub fn keep(self, arena: &'a Bump<Global>) -> Result<Decl<'a>, Memory>
        ensures { IfOk result (λ kept. decl_tree kept ≡ decl_kind_tree self.entry) }
    {
        Ok(Decl {
            node: arena.try_alloc(Box::new(arena, self)?)?,
        })
    }
}
