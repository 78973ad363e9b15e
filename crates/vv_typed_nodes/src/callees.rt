//! Which row of which table a built-in declaration is.

use vv_typed::Callee;
use vv_types::{BaseType, NumFn, Op, StdFn};
use vv_visible::types::Library;

/// The numbers of the array types of `numeric_std`.
const UNSIGNED: BaseType = BaseType::Array(97);

const SIGNED: BaseType = BaseType::Array(98);

/// The kinds of operands of an operator on numbers.
#[derive(Clone, Copy, Debug, PartialEq, Eq)]
enum Pair {
    UnsignedUnsigned,
    SignedSigned,
    UnsignedNatural,
    NaturalUnsigned,
    SignedInteger,
    IntegerSigned,
}

/// The kinds of two operands, one of which is a number in a vector.
fn pair_of(left: BaseType, right: BaseType) -> Option<Pair> {
    if left == UNSIGNED && right == UNSIGNED {
        Some(Pair::UnsignedUnsigned)
    } else if left == SIGNED && right == SIGNED {
        Some(Pair::SignedSigned)
    } else if left == UNSIGNED && right == BaseType::Int {
        Some(Pair::UnsignedNatural)
    } else if left == BaseType::Int && right == UNSIGNED {
        Some(Pair::NaturalUnsigned)
    } else if left == SIGNED && right == BaseType::Int {
        Some(Pair::SignedInteger)
    } else if left == BaseType::Int && right == SIGNED {
        Some(Pair::IntegerSigned)
    } else {
        None
    }
}

/// The row of these kinds.
fn pick(row: [NumFn; 6], pair: Pair) -> NumFn {
    match pair {
        Pair::UnsignedUnsigned => row[0],
        Pair::SignedSigned => row[1],
        Pair::UnsignedNatural => row[2],
        Pair::NaturalUnsigned => row[3],
        Pair::SignedInteger => row[4],
        Pair::IntegerSigned => row[5],
    }
}

/// The rows of an operator on numbers, in the order of the kinds.
fn number_row(op: Op) -> Option<[NumFn; 6]> {
    match op {
        Op::Plus => Some([
            NumFn::AddUnsignedUnsigned,
            NumFn::AddSignedSigned,
            NumFn::AddUnsignedNatural,
            NumFn::AddNaturalUnsigned,
            NumFn::AddSignedInteger,
            NumFn::AddIntegerSigned,
        ]),
        Op::Minus => Some([
            NumFn::SubtractUnsignedUnsigned,
            NumFn::SubtractSignedSigned,
            NumFn::SubtractUnsignedNatural,
            NumFn::SubtractNaturalUnsigned,
            NumFn::SubtractSignedInteger,
            NumFn::SubtractIntegerSigned,
        ]),
        Op::Times => Some([
            NumFn::MultiplyUnsignedUnsigned,
            NumFn::MultiplySignedSigned,
            NumFn::MultiplyUnsignedNatural,
            NumFn::MultiplyNaturalUnsigned,
            NumFn::MultiplySignedInteger,
            NumFn::MultiplyIntegerSigned,
        ]),
        _ => relation_row(op),
    }
}

/// The rows of a relation between numbers.
fn relation_row(op: Op) -> Option<[NumFn; 6]> {
    match op {
        Op::Equal => Some([
            NumFn::EqualUnsignedUnsigned,
            NumFn::EqualSignedSigned,
            NumFn::EqualUnsignedNatural,
            NumFn::EqualNaturalUnsigned,
            NumFn::EqualSignedInteger,
            NumFn::EqualIntegerSigned,
        ]),
        Op::NotEqual => Some([
            NumFn::NotEqualUnsignedUnsigned,
            NumFn::NotEqualSignedSigned,
            NumFn::NotEqualUnsignedNatural,
            NumFn::NotEqualNaturalUnsigned,
            NumFn::NotEqualSignedInteger,
            NumFn::NotEqualIntegerSigned,
        ]),
        Op::Less => Some([
            NumFn::LessUnsignedUnsigned,
            NumFn::LessSignedSigned,
            NumFn::LessUnsignedNatural,
            NumFn::LessNaturalUnsigned,
            NumFn::LessSignedInteger,
            NumFn::LessIntegerSigned,
        ]),
        Op::LessEqual => Some([
            NumFn::LessEqualUnsignedUnsigned,
            NumFn::LessEqualSignedSigned,
            NumFn::LessEqualUnsignedNatural,
            NumFn::LessEqualNaturalUnsigned,
            NumFn::LessEqualSignedInteger,
            NumFn::LessEqualIntegerSigned,
        ]),
        Op::Greater => Some([
            NumFn::GreaterUnsignedUnsigned,
            NumFn::GreaterSignedSigned,
            NumFn::GreaterUnsignedNatural,
            NumFn::GreaterNaturalUnsigned,
            NumFn::GreaterSignedInteger,
            NumFn::GreaterIntegerSigned,
        ]),
        Op::GreaterEqual => Some([
            NumFn::GreaterEqualUnsignedUnsigned,
            NumFn::GreaterEqualSignedSigned,
            NumFn::GreaterEqualUnsignedNatural,
            NumFn::GreaterEqualNaturalUnsigned,
            NumFn::GreaterEqualSignedInteger,
            NumFn::GreaterEqualIntegerSigned,
        ]),
        _ => None,
    }
}

/// The row of a logical operator of `numeric_std`.
fn logical_number(op: Op, signed: bool) -> Option<NumFn> {
    let (of_unsigned, of_signed) = match op {
        Op::And => (NumFn::AndUnsigned, NumFn::AndSigned),
        Op::Or => (NumFn::OrUnsigned, NumFn::OrSigned),
        Op::Xor => (NumFn::XorUnsigned, NumFn::XorSigned),
        Op::Nand => (NumFn::NandUnsigned, NumFn::NandSigned),
        Op::Nor => (NumFn::NorUnsigned, NumFn::NorSigned),
        Op::Xnor => (NumFn::XnorUnsigned, NumFn::XnorSigned),
        Op::Not => (NumFn::NotUnsigned, NumFn::NotSigned),
        _ => return None,
    };
    Some(if signed { of_signed } else { of_unsigned })
}

/// The row of an operator of `numeric_std`, for these operands.
fn number_op(op: Op, params: &[BaseType]) -> Option<NumFn> {
    match params {
        [operand] => {
            let signed = *operand == SIGNED;
            if !signed && *operand != UNSIGNED {
                return None;
            }
            match op {
                Op::Absolute => Some(NumFn::AbsoluteSigned),
                Op::Minus => Some(NumFn::NegateSigned),
                _ => logical_number(op, signed),
            }
        }
        [left, right] => {
            let pair = pair_of(*left, *right)?;
            match number_row(op) {
                Some(row) => Some(pick(row, pair)),
                None => match pair {
                    Pair::UnsignedUnsigned => logical_number(op, false),
                    Pair::SignedSigned => logical_number(op, true),
                    _ => None,
                },
            }
        }
        _ => None,
    }
}

/// The row of a relation for equality.
fn equality(op: Op, base: BaseType) -> Option<StdFn> {
    let (equal, other) = match base {
        BaseType::Logic => (StdFn::EqualLogic, StdFn::NotEqualLogic),
        BaseType::Bool => (StdFn::EqualBool, StdFn::NotEqualBool),
        BaseType::Int => (StdFn::EqualInt, StdFn::NotEqualInt),
        BaseType::Enum(_) => (StdFn::EqualEnum, StdFn::NotEqualEnum),
        BaseType::Array(_) => (StdFn::EqualArray, StdFn::NotEqualArray),
    };
    match op {
        Op::Equal => Some(equal),
        Op::NotEqual => Some(other),
        _ => None,
    }
}

/// The row of an ordering. Those of `std_ulogic` and of arrays have none.
fn ordering(op: Op, base: BaseType) -> Option<StdFn> {
    let rows = match base {
        BaseType::Bool => [
            StdFn::LessBool,
            StdFn::LessEqualBool,
            StdFn::GreaterBool,
            StdFn::GreaterEqualBool,
        ],
        BaseType::Int => [
            StdFn::LessInt,
            StdFn::LessEqualInt,
            StdFn::GreaterInt,
            StdFn::GreaterEqualInt,
        ],
        BaseType::Enum(_) => [
            StdFn::LessEnum,
            StdFn::LessEqualEnum,
            StdFn::GreaterEnum,
            StdFn::GreaterEqualEnum,
        ],
        BaseType::Logic | BaseType::Array(_) => return None,
    };
    match op {
        Op::Less => Some(rows[0]),
        Op::LessEqual => Some(rows[1]),
        Op::Greater => Some(rows[2]),
        Op::GreaterEqual => Some(rows[3]),
        _ => None,
    }
}

/// The row of a logical operator of booleans, of `std_ulogic` or of its vectors.
fn logical(op: Op, base: BaseType) -> Option<StdFn> {
    let rows = match base {
        BaseType::Bool => [
            StdFn::AndBool,
            StdFn::OrBool,
            StdFn::XorBool,
            StdFn::NandBool,
            StdFn::NorBool,
            StdFn::XnorBool,
            StdFn::NotBool,
        ],
        BaseType::Logic => [
            StdFn::AndLogic,
            StdFn::OrLogic,
            StdFn::XorLogic,
            StdFn::NandLogic,
            StdFn::NorLogic,
            StdFn::XnorLogic,
            StdFn::NotLogic,
        ],
        BaseType::Array(_) => [
            StdFn::AndVector,
            StdFn::OrVector,
            StdFn::XorVector,
            StdFn::NandVector,
            StdFn::NorVector,
            StdFn::XnorVector,
            StdFn::NotVector,
        ],
        BaseType::Int | BaseType::Enum(_) => return None,
    };
    match op {
        Op::And => Some(rows[0]),
        Op::Or => Some(rows[1]),
        Op::Xor => Some(rows[2]),
        Op::Nand => Some(rows[3]),
        Op::Nor => Some(rows[4]),
        Op::Xnor => Some(rows[5]),
        Op::Not => Some(rows[6]),
        _ => None,
    }
}

/// The row of a concatenation with this result.
fn concatenation(left: BaseType, right: BaseType, gives: BaseType) -> StdFn {
    if left == gives {
        if right == gives {
            StdFn::ConcatenateArrays
        } else {
            StdFn::ConcatenateArrayElement
        }
    } else if right == gives {
        StdFn::ConcatenateElementArray
    } else {
        StdFn::ConcatenateElements
    }
}

/// The row of a predefined operator, or of one of `std_logic_1164`.
fn standard(op: Op, params: &[BaseType], gives: BaseType) -> Option<StdFn> {
    match params {
        [operand] => logical(op, *operand),
        [left, right] => match op {
            Op::Concatenate => Some(concatenation(*left, *right, gives)),
            Op::Equal | Op::NotEqual => equality(op, *left),
            Op::Less | Op::LessEqual | Op::Greater | Op::GreaterEqual => ordering(op, *left),
            _ => logical(op, *left),
        },
        _ => None,
    }
}

/// Whether a declaration is built-in or predefined.
pub fn is_built(lib: &Library<'_>, decl: u32) -> bool {
    match lib.declared(decl) {
        Some(declared) => declared.built.is_some(),
        None => false,
    }
}

/// What a declaration of an operator is.
pub fn operator_callee(
    lib: &Library<'_>,
    decl: u32,
    op: Op,
    params: &[BaseType],
    gives: BaseType,
) -> Callee {
    if !is_built(lib, decl) {
        return Callee::User(decl);
    }
    if let Some(row) = number_op(op, params) {
        return Callee::Numeric(row);
    }
    match standard(op, params, gives) {
        Some(row) => Callee::Standard(row),
        None => Callee::Predefined(op),
    }
}

/// The row of a function of `numeric_std` by its name, of an unsigned operand or result and of a signed one.
fn function_rows(text: &[u8]) -> Option<(NumFn, NumFn)> {
    match text {
        b"shift_left" => Some((NumFn::ShiftLeftUnsigned, NumFn::ShiftLeftSigned)),
        b"shift_right" => Some((NumFn::ShiftRightUnsigned, NumFn::ShiftRightSigned)),
        b"rotate_left" => Some((NumFn::RotateLeftUnsigned, NumFn::RotateLeftSigned)),
        b"rotate_right" => Some((NumFn::RotateRightUnsigned, NumFn::RotateRightSigned)),
        b"resize" => Some((NumFn::ResizeUnsigned, NumFn::ResizeSigned)),
        b"to_integer" => Some((NumFn::ToIntegerUnsigned, NumFn::ToIntegerSigned)),
        b"to_unsigned" => Some((NumFn::ToUnsigned, NumFn::ToUnsigned)),
        b"to_signed" => Some((NumFn::ToSigned, NumFn::ToSigned)),
        _ => None,
    }
}

/// What a declaration of a function is.
pub fn function_callee(lib: &Library<'_>, decl: u32, params: &[BaseType]) -> Callee {
    let Some(declared) = lib.declared(decl) else {
        return Callee::User(decl);
    };
    let Some(text) = &declared.built else {
        return Callee::User(decl);
    };
    match function_rows(text.as_slice()) {
        Some((of_unsigned, of_signed)) => Callee::Numeric(match params.first() {
            Some(first) => if *first == SIGNED {
                of_signed
            } else {
                of_unsigned
            },
            None => of_unsigned,
        }),
        None => Callee::User(decl),
    }
}
