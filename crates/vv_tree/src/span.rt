//! Where each node stands: the places of its first and its last token and all between them.

use crate::concurrent::{Actual, Association, Conc, ConcKind, InstanceUnit, Waveform};
use crate::declaration::{
    ArrayIndex, Constraint, Decl, DeclKind, DiscreteRange, Interface, TypeDefinition,
};
use crate::expression::{Argument, Choice, Element, Expr, ExprKind, Part, Range};
use crate::leaf::{AssignmentSign, Designator, Direction, Literal, Mode};
use crate::statement::{Stmt, StmtKind};
use crate::unit::{Context, UnitKind};
use vv_base::fault::Span;

impl<'a> Literal<'a> {
    /// Its place.
    pub fn span(self) -> Span {
        match self {
            Literal::Integer(_, span)
            | Literal::Character { span, .. }
            | Literal::Text { span, .. }
            | Literal::BitText(_, span) => span,
        }
    }
}

impl Direction {
    /// The place of its word.
    pub fn span(self) -> Span {
        match self {
            Direction::To(span) | Direction::Downto(span) => span,
        }
    }
}

impl Mode {
    /// The place of its word.
    pub fn span(self) -> Span {
        match self {
            Mode::In(span) | Mode::Out(span) | Mode::Inout(span) => span,
        }
    }
}

impl AssignmentSign {
    /// Its place.
    pub fn span(self) -> Span {
        match self {
            AssignmentSign::Signal(span) | AssignmentSign::Variable(span) => span,
        }
    }
}

impl<'a> Designator<'a> {
    /// Its place.
    pub fn span(self) -> Span {
        match self {
            Designator::Ident(ident) => ident.span,
            Designator::Literal(literal) => literal.span(),
            Designator::Others(span) | Designator::All(span) => span,
        }
    }
}

impl<'a> Expr<'a> {
    /// Its place.
    pub fn span(self) -> Span {
        match self.kind() {
            ExprKind::Literal(literal) => literal.span(),
            ExprKind::Name { span, .. }
            | ExprKind::Parentheses { span, .. }
            | ExprKind::Aggregate { span, .. }
            | ExprKind::Power { span, .. }
            | ExprKind::Abs { span, .. }
            | ExprKind::Not { span, .. }
            | ExprKind::Product { span, .. }
            | ExprKind::Signed { span, .. }
            | ExprKind::Sum { span, .. }
            | ExprKind::Shift { span, .. }
            | ExprKind::Relation { span, .. }
            | ExprKind::Logic { span, .. } => *span,
        }
    }
}

impl<'a> Part<'a> {
    /// Its place.
    pub fn span(self) -> Span {
        match self {
            Part::Selected(ident) => ident.span,
            Part::Arguments { span, .. }
            | Part::Attribute { span, .. }
            | Part::RangeAttribute(span)
            | Part::Qualified { span, .. } => span,
        }
    }
}

impl<'a> Range<'a> {
    /// Its place.
    pub fn span(self) -> Span {
        match self {
            Range::Value(value) => value.span(),
            Range::Bounds { span, .. } => span,
        }
    }
}

impl<'a> Argument<'a> {
    /// Its place.
    pub fn span(self) -> Span {
        match self {
            Argument::Positional(actual) => actual.span(),
            Argument::Named { span, .. } => span,
        }
    }
}

impl<'a> Element<'a> {
    /// Its place.
    pub fn span(self) -> Span {
        match self {
            Element::Positional(value) => value.span(),
            Element::Bound { span, .. } => span,
        }
    }
}

impl<'a> Choice<'a> {
    /// Its place.
    pub fn span(self) -> Span {
        match self {
            Choice::Range(range) => range.span(),
            Choice::Others(span) => span,
        }
    }
}

impl<'a> DiscreteRange<'a> {
    /// Its place.
    pub fn span(self) -> Span {
        match self {
            DiscreteRange::Range(range) => range.span(),
            DiscreteRange::Marked { span, .. } => span,
        }
    }
}

impl<'a> Constraint<'a> {
    /// Its place.
    pub fn span(self) -> Span {
        match self {
            Constraint::Index(_, span) | Constraint::Range(_, span) => span,
        }
    }
}

impl<'a> TypeDefinition<'a> {
    /// Its place.
    pub fn span(self) -> Span {
        match self {
            TypeDefinition::Enumeration { span, .. } | TypeDefinition::Array { span, .. } => span,
        }
    }
}

impl<'a> ArrayIndex<'a> {
    /// Its place.
    pub fn span(self) -> Span {
        match self {
            ArrayIndex::Bounded(range) => range.span(),
            ArrayIndex::Unbounded(_, span) => span,
        }
    }
}

impl<'a> Interface<'a> {
    /// Its place.
    pub fn span(self) -> Span {
        match self {
            Interface::Constant { span, .. } | Interface::Port { span, .. } => span,
        }
    }
}

impl<'a> Stmt<'a> {
    /// Its place.
    pub fn span(self) -> Span {
        match self.kind() {
            StmtKind::Null(span) => *span,
            StmtKind::Assertion(assertion) => assertion.span,
            StmtKind::Labelled { span, .. }
            | StmtKind::Assignment { span, .. }
            | StmtKind::If { span, .. }
            | StmtKind::Case { span, .. }
            | StmtKind::For { span, .. }
            | StmtKind::While { span, .. }
            | StmtKind::Loop { span, .. }
            | StmtKind::Exit { span, .. }
            | StmtKind::Next { span, .. }
            | StmtKind::Return { span, .. }
            | StmtKind::Wait { span, .. }
            | StmtKind::Report { span, .. } => *span,
        }
    }
}

impl<'a> Decl<'a> {
    /// Its place.
    pub fn span(self) -> Span {
        match self.kind() {
            DeclKind::Use(clause) => clause.span,
            DeclKind::Type { span, .. }
            | DeclKind::Subtype { span, .. }
            | DeclKind::Constant { span, .. }
            | DeclKind::Signal { span, .. }
            | DeclKind::Variable { span, .. }
            | DeclKind::Function { span, .. }
            | DeclKind::FunctionBody { span, .. }
            | DeclKind::Component { span, .. }
            | DeclKind::Attribute { span, .. }
            | DeclKind::AttributeSpecification { span, .. } => *span,
        }
    }
}

impl<'a> Waveform<'a> {
    /// Its place.
    pub fn span(self) -> Span {
        match self {
            Waveform::Always(value) => value.span(),
            Waveform::When { span, .. } => span,
        }
    }
}

impl<'a> InstanceUnit<'a> {
    /// Its place.
    pub fn span(self) -> Span {
        match self {
            InstanceUnit::Component(mark) => mark.span,
            InstanceUnit::Entity { span, .. } => span,
        }
    }
}

impl<'a> Actual<'a> {
    /// Its place.
    pub fn span(self) -> Span {
        match self {
            Actual::Open(span) => span,
            Actual::Given(value) => value.span(),
        }
    }
}

impl<'a> Association<'a> {
    /// Its place.
    pub fn span(self) -> Span {
        match self {
            Association::Positional(actual) => actual.span(),
            Association::Named { span, .. } => span,
        }
    }
}

impl<'a> Conc<'a> {
    /// Its place.
    pub fn span(self) -> Span {
        match self.kind() {
            ConcKind::Assertion(assertion) => assertion.span,
            ConcKind::Labelled { span, .. }
            | ConcKind::Process { span, .. }
            | ConcKind::Conditional { span, .. }
            | ConcKind::Selected { span, .. }
            | ConcKind::Instance { span, .. }
            | ConcKind::ForGenerate { span, .. }
            | ConcKind::IfGenerate { span, .. } => *span,
        }
    }
}

impl<'a> Context<'a> {
    /// Its place.
    pub fn span(self) -> Span {
        match self {
            Context::Library { span, .. } => span,
            Context::Use(clause) => clause.span,
        }
    }
}

impl<'a> UnitKind<'a> {
    /// Its place.
    pub fn span(self) -> Span {
        match self {
            UnitKind::Entity { span, .. }
            | UnitKind::Architecture { span, .. }
            | UnitKind::Package { span, .. }
            | UnitKind::PackageBody { span, .. } => span,
        }
    }
}
