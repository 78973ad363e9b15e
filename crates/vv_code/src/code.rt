//! The code of expressions and function bodies.

use vv_base::fault::Span;
use vv_held::Shape;
use vv_typed::{ElementList, NumberList};
use vv_types::{BaseType, Bounds, NumFn, Op, StdFn};

/// How many operands an operator has.
#[derive(Clone, Copy, Debug, PartialEq, Eq)]
pub enum Arity {
    One,
    Two,
}

/// Which end of a range an attribute gives.
#[derive(Clone, Copy, Debug, PartialEq, Eq)]
pub enum End {
    Left,
    Right,
    Low,
    High,
    Length,
}

/// Where the shape of a type mark is: it is known, or a function declares it.
#[derive(Clone, Copy)]
pub enum MarkAt {
    Fixed(Shape),
    Slot(u32),
    Unknown,
}

/// An instruction. Values and ranges stand on a stack, and the objects of a function in slots.
#[derive(Clone, Copy)]
pub enum Instr<'t> {
    // Values.
    Integer(i32),
    Literal {
        base: BaseType,
        position: u32,
    },
    Text {
        base: BaseType,
        positions: &'t NumberList,
        span: Span,
    },
    Global(u32),
    Local(u32),
    NotStatic,

    // Operators.
    Standard {
        f: StdFn,
        arity: Arity,
        span: Span,
    },
    Numeric {
        f: NumFn,
        arity: Arity,
        span: Span,
    },
    Whole {
        op: Op,
        arity: Arity,
        span: Span,
    },
    Decide {
        on: bool,
        gives: bool,
        to: usize,
    },
    Call {
        decl: u32,
        formals: Option<&'t NumberList>,
        count: u32,
        span: Span,
    },

    // Names, types and attributes.
    Index(Span),
    Slice(Span),
    MakeRange {
        down: bool,
        base: BaseType,
    },
    MarkRange(MarkAt),
    GlobalRange(u32),
    Bounds(Bounds),
    LocalRange(u32),
    ValueRange,
    Reverse,
    RangeEnd {
        end: End,
        base: BaseType,
    },
    Convert {
        mark: MarkAt,
        span: Span,
    },
    Qualify {
        mark: MarkAt,
        span: Span,
    },
    Position,
    AtPosition {
        mark: MarkAt,
        span: Span,
    },
    Others,
    Aggregate {
        elements: &'t ElementList,
        base: BaseType,
        wanted: bool,
        span: Span,
    },

    // What an aggregate is wanted at.
    WantMark(MarkAt),
    WantElementOf(MarkAt),
    FitElement {
        mark: MarkAt,
        span: Span,
    },
    Natural(Span),
    WantSlot {
        slot: u32,
        suffixes: u32,
    },
    EndWant,

    // Statements.
    Store {
        slot: u32,
        suffixes: u32,
        span: Span,
    },
    Jump(usize),
    Unless(usize),
    Choose {
        choices: u32,
        to: usize,
    },
    NoChoice(Span),
    Turn(Span),
    StartLoop {
        slot: u32,
        hidden: u32,
        base: BaseType,
    },
    NextTurn {
        slot: u32,
        hidden: u32,
        to: usize,
        span: Span,
    },
    Return {
        mark: MarkAt,
        span: Span,
    },
    End(Span),
    Done,

    // Declarations.
    ShapeMark(MarkAt),
    ShapeArray,
    ShapeRange(Span),
    SetShape(u32),
    IfGiven {
        slot: u32,
        to: usize,
    },
    StartSlot {
        slot: u32,
        span: Span,
    },
    DefaultSlot {
        slot: u32,
        span: Span,
    },
    FitSlot {
        slot: u32,
        span: Span,
    },
}

/// The code of one expression or one function.
#[derive(Drop)]
pub struct Code<'t> {
    pub decl: u32,
    pub slots: u32,
    pub instrs: Vec<Instr<'t>>,
}
