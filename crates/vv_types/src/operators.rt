//! The names of operators.

/// The name of an operator. `Plus` and `Minus` are both signs and operators between two operands.
#[derive(Clone, Copy, Debug, PartialEq, Eq)]
pub enum Op {
    And,
    Or,
    Xor,
    Xnor,
    Nand,
    Nor,
    Equal,
    NotEqual,
    Less,
    LessEqual,
    Greater,
    GreaterEqual,
    ShiftLeftLogical,
    ShiftRightLogical,
    ShiftLeftArithmetic,
    ShiftRightArithmetic,
    RotateLeft,
    RotateRight,
    Plus,
    Minus,
    Concatenate,
    Times,
    Divide,
    Modulo,
    Remainder,
    Power,
    Absolute,
    Not,
}
