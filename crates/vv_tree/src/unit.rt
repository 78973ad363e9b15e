//! Units and their contexts.

use crate::concurrent::Conc;
use crate::declaration::{Decl, Interface, UseClause};
use crate::leaf::Ident;
use vv_base::fault::Span;
pub use vv_grammar::edition::Edition;

/// A clause of a context.
#[derive(Clone, Copy)]
pub enum Context<'a> {
    Library {
        identifiers: &'a [Ident],
        span: Span,
    },
    Use(UseClause<'a>),
}

/// What a unit declares.
#[derive(Clone, Copy)]
pub enum UnitKind<'a> {
    Entity {
        identifier: Ident,
        generics: &'a [Interface<'a>],
        ports: &'a [Interface<'a>],
        end: Option<Ident>,
        span: Span,
    },
    Architecture {
        identifier: Ident,
        entity: Ident,
        declarations: &'a [Decl<'a>],
        statements: &'a [Conc<'a>],
        end: Option<Ident>,
        span: Span,
    },
    Package {
        identifier: Ident,
        declarations: &'a [Decl<'a>],
        end: Option<Ident>,
        span: Span,
    },
    PackageBody {
        identifier: Ident,
        declarations: &'a [Decl<'a>],
        end: Option<Ident>,
        span: Span,
    },
}

/// A unit with its context clauses.
#[derive(Clone, Copy)]
pub struct Unit<'a> {
    pub contexts: &'a [Context<'a>],
    pub kind: UnitKind<'a>,
    pub span: Span,
}
