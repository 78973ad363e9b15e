//! The tree of a file of gates.

/// An identifier with its letters folded to lower case, and the offset of its first byte.
#[derive(Clone, Copy)]
pub struct Ident<'a> {
    pub text: &'a [u8],
    pub at: usize,
}

/// Ports that are declared together, in their order.
#[derive(Drop)]
pub struct Group<'a> {
    pub idents: Vec<Ident<'a>>,
    pub input: bool,
}

#[derive(Clone, Copy, Debug, PartialEq, Eq)]
pub enum Operator {
    And,
    Or,
    Xor,
}

#[derive(Clone, Copy)]
pub enum Operand<'a> {
    /// `'0'`
    Low,
    /// `'1'`
    High,
    Port(Ident<'a>),
}

/// An operand, or `not` of it.
#[derive(Clone, Copy)]
pub struct Term<'a> {
    pub negated: bool,
    pub operand: Operand<'a>,
}

/// An assignment of a chain of terms. The operator of a chain of one term is `And`.
#[derive(Drop)]
pub struct Assignment<'a> {
    pub target: Ident<'a>,
    pub operator: Operator,
    pub terms: Vec<Term<'a>>,
}

/// A file of gates.
#[derive(Drop)]
pub struct GateFile<'a> {
    /// The name `std_logic_1164` of the first use clause.
    pub logic: Ident<'a>,
    /// The name `numeric_std` of the second use clause.
    pub numeric: Option<Ident<'a>>,
    pub entity: Ident<'a>,
    pub groups: Vec<Group<'a>>,
    pub architecture: Ident<'a>,
    /// The entity that the architecture names.
    pub of: Ident<'a>,
    pub assignments: Vec<Assignment<'a>>,
}
