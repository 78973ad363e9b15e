//! The flat design. Objects, bits, functions and items have their positions as their numbers.

use sqlite_items::{Boxed, Items};
use vv_base::text::Text;
use vv_bits::{Bits4, V4};
use vv_vtree::{VBinary, VEdge, VSign, VUnary};

/// Consecutive bits, from bit 0 of a vector on. In an item they are bits of the design, and in a function those of its frame.
#[derive(Clone, Copy, Debug, PartialEq, Eq)]
pub struct Place {
    pub first: u32,
    pub width: u32,
}

/// A flat design. Bits that a port connection joins are one bit. A function stands once, for all instances of its module.
#[derive(Drop)]
pub struct Flat {
    pub objects: FlatObjectList,
    pub bits: FlatBitList,
    pub functions: FlatFunctionList,
    pub items: FlatItemList,
}

/// A port, a wire or a reg of an instance. Its bits are numbered on from `first`.
#[derive(Drop)]
pub struct FlatObject {
    pub path: Text,
    pub width: u32,
    pub top: TopKind,
    pub first: u32,
}

/// Whether an object is a port of the top.
#[derive(Clone, Copy, Debug, PartialEq, Eq)]
pub enum TopKind {
    Input,
    Output,
    Inner,
}

/// What a bit is, which tells how it starts.
#[derive(Clone, Copy, Debug, PartialEq, Eq)]
pub enum FlatBit {
    /// It is of an input of the top.
    Input,
    /// It is of a wire that nothing drives.
    Undriven,
    /// It is of a wire that an assignment drives.
    Driven,
    /// It is of a reg that starts with this bit.
    Reg(V4),
}

/// A function. The bits of its result come first in its frame, then those of each input, and then those of its regs.
#[derive(Drop)]
pub struct FlatFunction {
    pub result: u32,
    pub inputs: WidthList,
    pub frame: u32,
    pub body: FStmtList,
}

/// An item, with the offset at which it begins in the text.
#[derive(Drop)]
pub enum FlatItem {
    Assign {
        target: Place,
        value: FExpr,
        at: u64,
    },
    Always {
        events: FEventList,
        body: FStmtList,
        at: u64,
    },
}

/// A change that triggers an always construct. One with an edge looks at the first bit.
#[derive(Clone, Copy, Debug, PartialEq, Eq)]
pub struct FEvent {
    pub edge: VEdge,
    pub of: Place,
}

/// An expression.
#[cycle(expressions)]
#[derive(Drop)]
pub enum FExpr {
    Read(Place),
    /// As many bits as `count` from an index on that is evaluated.
    Indexed {
        of: Place,
        index: Boxed<FExpr>,
        count: u32,
    },
    Bits(Bits4),
    Concatenation(FExprList),
    Repetition {
        count: u32,
        part: Boxed<FExpr>,
    },
    Call {
        function: u32,
        args: FExprList,
    },
    Unary {
        op: VUnary,
        operand: Boxed<FExpr>,
    },
    Binary {
        left: Boxed<FExpr>,
        op: VBinary,
        right: Boxed<FExpr>,
    },
    Conditional {
        condition: Boxed<FExpr>,
        yes: Boxed<FExpr>,
        no: Boxed<FExpr>,
    },
}

/// What a statement assigns to.
#[derive(Drop)]
pub enum FTarget {
    Fixed(Place),
    Indexed { of: Place, index: FExpr, count: u32 },
}

/// A statement.
#[cycle(statements)]
#[derive(Drop)]
pub enum FStmt {
    Assignment {
        target: FTarget,
        sign: VSign,
        value: FExpr,
    },
    If {
        arms: FArmList,
        otherwise: FStmtList,
    },
    Case {
        selector: FExpr,
        alternatives: FAlternativeList,
        default: FStmtList,
    },
}

/// A condition of an `if`, and its statements.
#[cycle(statements)]
#[derive(Drop)]
pub struct FArm {
    pub condition: FExpr,
    pub body: FStmtList,
}

/// The labels of a `case`, and their statements.
#[cycle(statements)]
#[derive(Drop)]
pub struct FAlternative {
    pub labels: LabelList,
    pub body: FStmtList,
}

pub type FlatObjectList = Items<FlatObject>;

pub type FlatBitList = Items<FlatBit>;

pub type FlatFunctionList = Items<FlatFunction>;

pub type FlatItemList = Items<FlatItem>;

pub type FEventList = Items<FEvent>;

pub type FExprList = Items<FExpr>;

pub type FStmtList = Items<FStmt>;

pub type FArmList = Items<FArm>;

pub type FAlternativeList = Items<FAlternative>;

pub type LabelList = Items<Bits4>;

pub type WidthList = Items<u32>;
