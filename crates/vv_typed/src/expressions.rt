//! Typed expressions.

use sqlite_items::{Boxed, Items};
use vv_base::fault::Span;
use vv_types::{BaseType, NumFn, Op, StdFn};

/// An expression with its type. Its span is that of the whole written expression.
#[cycle(typed)]
#[derive(Drop)]
pub struct Typed {
    pub form: Form,
    pub base: BaseType,
    pub span: Span,
}

/// The form of an expression, with its parts in the order of the text. Declarations have their numbers.
#[cycle(typed)]
#[derive(Drop)]
pub enum Form {
    /// A number of the type integer.
    Integer(i32),
    /// A character literal: its declaration, and its position from 0 among the literals of its type.
    Character {
        decl: u32,
        position: u32,
    },
    /// A string literal: the position of each character among the literals of the element type, leftmost first.
    String(NumberList),
    /// A bit string literal: the position of each digit among the literals of the element type, leftmost first.
    BitString(NumberList),

    /// An object by its declaration.
    Object(u32),
    /// An identifier that is a literal of an enumeration type: its declaration, and its position from 0.
    Literal {
        decl: u32,
        position: u32,
    },
    /// A type or a subtype, as the prefix of an attribute or as a range.
    Mark(TypeMark),
    /// A call of a function. `args` are in the order of the text, and `formals` has the number of the parameter of each of them,
    /// from 0. A parameter that has none of them takes its default.
    Call {
        callee: Callee,
        formals: NumberList,
        args: TypedList,
    },
    /// A call of `rising_edge`, or of `falling_edge` where `rising` is false.
    Edge {
        rising: bool,
        signal: Boxed<Typed>,
    },
    /// Elements of a name or of what a call gives. Each suffix is taken of what the ones before it give.
    Part {
        prefix: Boxed<Typed>,
        suffixes: SuffixList,
    },
    /// A type conversion.
    Conversion {
        mark: TypeMark,
        operand: Boxed<Typed>,
    },
    /// A qualified expression.
    Qualified {
        mark: TypeMark,
        operand: Boxed<Typed>,
    },

    /// The attribute `length` of an array object or of an array subtype.
    Length(Boxed<Typed>),
    /// The attribute `range`. Its base type is that of the indexes, as is that of `ReverseRange`.
    Range(Boxed<Typed>),
    /// The attribute `reverse_range`.
    ReverseRange(Boxed<Typed>),
    /// The attribute `left` of an array object or of a type, as are the next three.
    Left(Boxed<Typed>),
    Right(Boxed<Typed>),
    High(Boxed<Typed>),
    Low(Boxed<Typed>),
    /// The attribute `pos`: the position of a value, which a number has for itself.
    Pos {
        mark: TypeMark,
        operand: Boxed<Typed>,
    },
    /// The attribute `val`: the value at a position.
    Val {
        mark: TypeMark,
        operand: Boxed<Typed>,
    },
    /// The attribute `event` of a signal.
    Event(Boxed<Typed>),

    /// Operands that `and`, `or`, `xor`, `xnor`, `nand` or `nor` joins, from the left.
    Logical {
        first: Boxed<Typed>,
        rest: LinkList,
    },
    Relation {
        left: Boxed<Typed>,
        callee: Callee,
        right: Boxed<Typed>,
    },
    /// A shift operator, which no package declares.
    Shift {
        left: Boxed<Typed>,
        callee: Callee,
        right: Boxed<Typed>,
    },
    /// Operands that `+`, `-` and `&` join, from the left.
    Sum {
        first: Boxed<Typed>,
        rest: LinkList,
    },
    /// A sign before the first operand of a sum.
    Sign {
        callee: Callee,
        operand: Boxed<Typed>,
    },
    /// Operands that `*`, `/`, `mod` and `rem` join, from the left.
    Product {
        first: Boxed<Typed>,
        rest: LinkList,
    },
    Power {
        left: Boxed<Typed>,
        callee: Callee,
        right: Boxed<Typed>,
    },
    Absolute {
        callee: Callee,
        operand: Boxed<Typed>,
    },
    Not {
        callee: Callee,
        operand: Boxed<Typed>,
    },
    Parenthesis(Boxed<Typed>),
    Aggregate(ElementList),
}

/// What an operator or a call names.
#[derive(Clone, Copy, Debug, PartialEq, Eq)]
pub enum Callee {
    /// A predefined operator without an integer result, or a logical operator of `std_logic_1164`.
    Standard(StdFn),
    /// An operator or a function of `numeric_std`.
    Numeric(NumFn),
    /// A predefined operator on integers with an integer result. Or a predefined ordering of `std_ulogic` or of arrays, which has no
    /// value.
    Predefined(Op),
    /// A user function by its declaration.
    User(u32),
}

/// An operator and its right operand, behind the operands before it. `base` and `span` are of what these operands give together.
#[cycle(typed)]
#[derive(Drop)]
pub struct Link {
    pub callee: Callee,
    pub right: Typed,
    pub base: BaseType,
    pub span: Span,
}

/// An index or the range of a slice behind a name. `span` is that of the name up to there.
#[cycle(typed)]
#[derive(Drop)]
pub enum Suffix {
    /// One element. `base` is its type.
    Index {
        index: Typed,
        base: BaseType,
        span: Span,
    },
    Slice {
        range: TRange,
        span: Span,
    },
}

/// A range of indexes or of values, or a choice.
#[cycle(typed)]
#[derive(Drop)]
pub enum TRange {
    /// One value as a choice. Or a `Range`, a `ReverseRange` or a `Mark`, with all that it has.
    Whole(Typed),
    /// From the left value to the right one, downwards where `down` is true.
    Between {
        left: Typed,
        right: Typed,
        down: bool,
    },
    /// A range within a subtype that is written before it.
    Within {
        mark: TypeMark,
        range: Boxed<TRange>,
    },
    /// The choice `others`, with its place. No slice and no loop has it.
    Others(Span),
}

/// An element of an aggregate. It stands by its position where there are no choices.
#[cycle(typed)]
#[derive(Drop)]
pub struct Element {
    pub choices: TRangeList,
    pub value: Typed,
}

/// A type or a subtype by its declaration.
#[derive(Clone, Copy, Debug, PartialEq, Eq)]
pub struct TypeMark {
    pub decl: u32,
}

pub type TypedList = Items<Typed>;

pub type LinkList = Items<Link>;

pub type SuffixList = Items<Suffix>;

pub type TRangeList = Items<TRange>;

pub type ElementList = Items<Element>;

pub type NumberList = Items<u32>;
