//! The rules that a source can break.

ghost use Rattle.std.specs.Prelude.{◌≡◌};

/// One of the rules, in the order in which they are told where several are broken at one place.
#[derive(Clone, Copy, Debug, PartialEq, Eq)]
pub enum Rule {
    /// A file has more bytes than one source file may have.
    L1,
    /// A byte begins no lexical element.
    X1,
    /// A string or character literal is not closed on its line.
    X2,
    /// A number is not formed as the language asks.
    X3,
    /// An extended identifier stands in the text.
    X4,
    /// A bit string literal has a digit that its base lacks, or no digit.
    X5,
    /// No text of the grammar goes on with this token.
    Y1,
    /// A statement or an expression is nested too deeply.
    Y2,
    /// A name has no visible declaration.
    N1,
    /// A name is declared twice in one region, and the two cannot be told apart by their profiles.
    N2,
    /// A name is visible only by use clauses that give different declarations.
    N3,
    /// A library or a unit that is named is missing, or a package needs itself.
    N4,
    /// A unit stands twice.
    N5,
    /// A name denotes a thing that cannot stand where the name does.
    N6,
    /// An expression has no meaning with fitting types.
    T1,
    /// An expression has several meanings with fitting types.
    T2,
    /// The target of an assignment cannot be assigned, or not by this sign.
    T3,
    /// A port of mode out is read.
    T4,
    /// The elements of an aggregate stand in a wrong order, or its bounds are not known.
    T5,
    /// An ordering is used that is predefined for logic values or for an array.
    T6,
    /// A literal holds a logic value that cannot stand there.
    T7,
    /// An association does not fit its formal, or a component does not fit its entity.
    T8,
    /// A form stands where the language or the subset has no place for it.
    T9,
    /// An expression that has to be static is not.
    E1,
    /// A static evaluation meets a range error, a zero divisor or the end of a function body.
    E2,
    /// The steps of static evaluation are spent.
    E3,
    /// A subtype, a slice or a result has no values or no elements, or a top port has no bounds.
    E4,
    /// Two lengths or ranges that have to agree differ.
    E5,
    /// Instances nest too deeply, or an entity contains itself.
    E6,
    /// A design has more parts of one kind than the limit.
    E7,
    /// A width is over the limit.
    E8,
    /// A generic has no value.
    E9,
    /// An entity is missing, or it has no architecture.
    E10,
    /// A choice is given twice or lies outside, or values stay uncovered.
    E11,
    /// A division or a power has an operand that no circuit is made for.
    E12,
    /// A process fits no template.
    C1,
    /// The sensitivity list of a process lacks a name that it needs.
    C2,
    /// A part of a variable is read before it is assigned.
    C3,
    /// The asynchronous part of a clocked process does more than assign static values.
    C4,
    /// An edge of a signal is asked for where no clock can stand.
    C5,
    /// A part of a target is not assigned on each path.
    C6,
    /// A signal with no resolution has two sources.
    D1,
    /// A clock or an enable is not a scalar input of the top.
    D2,
    /// A clock or an enable is read as data.
    D3,
    /// A control is not a scalar input of the top, has both levels, or is a clock or an enable too.
    D4,
    /// An enable has both levels, or is a clock too.
    D5,
    /// Signals depend on each other in a cycle.
    D6,
    /// A port of the top has a mode or a type that is left out.
    D7,
}

impl Rule {
    ghost use Rattle.vv_base.specs.Codes.{code_of};

    /// The text by which the rule is printed.
    pub fn code(self) -> &'static str
        ensures { result.now ≡ code_of self }
    {
        match self {
            Rule::L1 => "L1",
            Rule::X1 => "X1",
            Rule::X2 => "X2",
            Rule::X3 => "X3",
            Rule::X4 => "X4",
            Rule::X5 => "X5",
            Rule::Y1 => "Y1",
            Rule::Y2 => "Y2",
            Rule::N1 => "N1",
            Rule::N2 => "N2",
            Rule::N3 => "N3",
            Rule::N4 => "N4",
            Rule::N5 => "N5",
            Rule::N6 => "N6",
            Rule::T1 => "T1",
            Rule::T2 => "T2",
            Rule::T3 => "T3",
            Rule::T4 => "T4",
            Rule::T5 => "T5",
            Rule::T6 => "T6",
            Rule::T7 => "T7",
            Rule::T8 => "T8",
            Rule::T9 => "T9",
            Rule::E1 => "E1",
            Rule::E2 => "E2",
            Rule::E3 => "E3",
            Rule::E4 => "E4",
            Rule::E5 => "E5",
            Rule::E6 => "E6",
            Rule::E7 => "E7",
            Rule::E8 => "E8",
            Rule::E9 => "E9",
            Rule::E10 => "E10",
            Rule::E11 => "E11",
            Rule::E12 => "E12",
            Rule::C1 => "C1",
            Rule::C2 => "C2",
            Rule::C3 => "C3",
            Rule::C4 => "C4",
            Rule::C5 => "C5",
            Rule::C6 => "C6",
            Rule::D1 => "D1",
            Rule::D2 => "D2",
            Rule::D3 => "D3",
            Rule::D4 => "D4",
            Rule::D5 => "D5",
            Rule::D6 => "D6",
            Rule::D7 => "D7",
        }
    }
}
