//! Where a reader stands in the grammar, with what it has read.

use vv_gate::token::Mark;
use vv_gate::tree::{GateFile, Group, Ident, Operator, Term};

/// The packages that the use clauses name.
#[derive(Clone, Copy)]
pub struct Context<'a> {
    /// `std_logic_1164`
    pub logic: Ident<'a>,
    /// `numeric_std`, where a second use clause names it.
    pub numeric: Option<Ident<'a>>,
}

/// An entity up to one of its ports: the groups before, and the names of this group before.
#[derive(Drop)]
pub struct Ports<'a> {
    pub context: Context<'a>,
    pub entity: Ident<'a>,
    /// The groups that are closed.
    pub groups: Vec<Group<'a>>,
    /// The names of the open group.
    pub idents: Vec<Ident<'a>>,
}

/// An assignment up to one of its terms. The operator is known from the second term on.
#[derive(Drop)]
pub struct Chain<'a> {
    /// The file without this assignment.
    pub file: Box<GateFile<'a>>,
    pub target: Ident<'a>,
    pub operator: Option<Operator>,
    /// The terms before this one.
    pub terms: Vec<Term<'a>>,
}

/// What is wanted next. What is large is boxed, since a place is moved at each token.
#[derive(Drop)]
pub enum Place<'a> {
    /// `std_logic_1164`
    Logic,
    /// `use` or `entity`
    AfterLogic(Ident<'a>),
    /// `numeric_std`
    Numeric(Ident<'a>),
    /// The entity's name.
    Entity(Context<'a>),
    /// A port's name.
    Port(Box<Ports<'a>>),
    /// `,` or `:`
    AfterPort(Box<Ports<'a>>, Ident<'a>),
    /// `in` or `out`
    Mode(Box<Ports<'a>>, Ident<'a>),
    /// `;` or `)`
    AfterGroup(Box<Ports<'a>>, Group<'a>),
    /// The architecture's name.
    Architecture(Box<Ports<'a>>),
    /// The name of the architecture's entity.
    Of(Box<Ports<'a>>, Ident<'a>),
    /// A target or `end`
    Statement(Box<GateFile<'a>>),
    /// `not` or an operand
    Term(Chain<'a>),
    /// An operand behind `not`
    Operand(Chain<'a>),
    /// An operator or `;`
    AfterTerm(Chain<'a>, Term<'a>),
    /// The end of the file.
    Finish(Box<GateFile<'a>>),
}

/// A place, and the words and signs that have to stand before it.
#[derive(Drop)]
pub struct State<'a> {
    /// What still has to stand before the place, in order.
    pub expected: &'a [Mark],
    pub place: Place<'a>,
}

/// Why a token was not taken.
#[derive(Clone, Copy, Debug, PartialEq, Eq)]
pub enum Stop {
    /// No text of the grammar goes on with it.
    Misplaced,
    /// An allocation failed.
    Memory,
}
