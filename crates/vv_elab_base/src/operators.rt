//! What operators and functions of the packages give, and which operands they refuse.

use crate::making::{Made, Making};
use crate::sub::{ALL, Sub, whole_range};
use vv_base::fault::{Fault, Rule, Span};
use vv_design::Operator;
use vv_held::held::{misfit, refused};
use vv_held::shape::{downto_zero, upwards};
use vv_types::{BaseType, Bounds, NumFn, Op, StdFn};

/// The most elements of an operand or a result of arithmetic on vectors.
const MOST_BITS: u32 = 128;

/// The most elements of a vector.
pub const MOST_LENGTH: u32 = 4096;

/// The numbers that natural has.
pub const NATURAL: Bounds = Bounds {
    left: 0,
    right: i32::MAX,
    down: false,
};

/// What a function of `numeric_std` does with lengths.
#[derive(Clone, Copy, PartialEq, Eq)]
pub enum Row {
    Sum,
    Product,
    OneOperand,
    ByElement,
    Complement,
    Shift,
    Length,
    Number,
    Relation,
}

/// The row of a function.
pub fn row_of(f: NumFn) -> Row {
    match f {
        NumFn::AddUnsignedUnsigned
        | NumFn::AddSignedSigned
        | NumFn::AddUnsignedNatural
        | NumFn::AddNaturalUnsigned
        | NumFn::AddSignedInteger
        | NumFn::AddIntegerSigned
        | NumFn::SubtractUnsignedUnsigned
        | NumFn::SubtractSignedSigned
        | NumFn::SubtractUnsignedNatural
        | NumFn::SubtractNaturalUnsigned
        | NumFn::SubtractSignedInteger
        | NumFn::SubtractIntegerSigned => Row::Sum,
        NumFn::MultiplyUnsignedUnsigned
        | NumFn::MultiplySignedSigned
        | NumFn::MultiplyUnsignedNatural
        | NumFn::MultiplyNaturalUnsigned
        | NumFn::MultiplySignedInteger
        | NumFn::MultiplyIntegerSigned => Row::Product,
        NumFn::AbsoluteSigned | NumFn::NegateSigned => Row::OneOperand,
        NumFn::AndUnsigned
        | NumFn::AndSigned
        | NumFn::OrUnsigned
        | NumFn::OrSigned
        | NumFn::XorUnsigned
        | NumFn::XorSigned
        | NumFn::NandUnsigned
        | NumFn::NandSigned
        | NumFn::NorUnsigned
        | NumFn::NorSigned
        | NumFn::XnorUnsigned
        | NumFn::XnorSigned => Row::ByElement,
        NumFn::NotUnsigned | NumFn::NotSigned => Row::Complement,
        NumFn::ShiftLeftUnsigned
        | NumFn::ShiftLeftSigned
        | NumFn::ShiftRightUnsigned
        | NumFn::ShiftRightSigned
        | NumFn::RotateLeftUnsigned
        | NumFn::RotateLeftSigned
        | NumFn::RotateRightUnsigned
        | NumFn::RotateRightSigned => Row::Shift,
        NumFn::ResizeUnsigned | NumFn::ResizeSigned | NumFn::ToUnsigned | NumFn::ToSigned => {
            Row::Length
        }
        NumFn::ToIntegerUnsigned | NumFn::ToIntegerSigned => Row::Number,
        _ => Row::Relation,
    }
}

/// A vector of `len` elements with these bounds.
fn vector<'u>(
    making: &Making<'u>,
    base: BaseType,
    bounds: Option<Bounds>,
    span: Span,
) -> Result<Sub, Fault> {
    let sub = match base {
        BaseType::Array(decl) => making.known(decl).sub.with_outer(bounds),
        _ => return Err(misfit()),
    };
    if sub.len() == 0 {
        return Err(refused(Rule::E4, span));
    }
    if sub.len() > MOST_LENGTH {
        return Err(refused(Rule::E8, span));
    }
    Ok(sub)
}

/// A vector with the bounds `n - 1 downto 0`.
pub fn down_vector<'u>(
    making: &Making<'u>,
    base: BaseType,
    len: u32,
    span: Span,
) -> Result<Sub, Fault> {
    vector(making, base, downto_zero(len as usize), span)
}

/// A vector with the bounds `first to first + n - 1`.
pub fn up_vector<'u>(
    making: &Making<'u>,
    base: BaseType,
    first: i32,
    len: u32,
    span: Span,
) -> Result<Sub, Fault> {
    if len > MOST_LENGTH {
        return Err(refused(Rule::E8, span));
    }
    vector(making, base, upwards(first, len as usize), span)
}

/// What all scalars of a type have.
pub fn any<'u>(making: &Making<'u>, base: BaseType) -> Sub {
    Sub::scalar(base, whole_range(making, base))
}

fn same_lengths(left: Sub, right: Sub, span: Span) -> Result<(), Fault> {
    if left.len() == right.len() {
        Ok(())
    } else {
        Err(refused(Rule::E5, span))
    }
}

/// What a function of `numeric_std` gives that is no conversion to a length.
fn numeric<'u>(
    making: &Making<'u>,
    f: NumFn,
    left: Sub,
    right: Sub,
    base: BaseType,
    span: Span,
) -> Result<Sub, Fault> {
    let (a, b) = (left.len(), right.len());
    match row_of(f) {
        Row::Sum | Row::OneOperand => {
            let len = a.max(b);
            if len > MOST_BITS {
                return Err(refused(Rule::E8, span));
            }
            down_vector(making, base, len, span)
        }
        Row::Product => {
            let (a, b) = (if a == 0 { b } else { a }, if b == 0 { a } else { b });
            let len = a.saturating_add(b);
            if len > MOST_BITS {
                return Err(refused(Rule::E8, span));
            }
            down_vector(making, base, len, span)
        }
        Row::ByElement => {
            same_lengths(left, right, span)?;
            down_vector(making, base, a, span)
        }
        Row::Complement | Row::Shift => down_vector(making, base, a, span),
        Row::Number => Ok(Sub::scalar(BaseType::Int, numbers_of(f, a))),
        Row::Relation => Ok(any(making, BaseType::Bool)),
        Row::Length => Err(misfit()),
    }
}

/// The numbers that vectors of a length have.
fn numbers_of(f: NumFn, len: u32) -> Bounds {
    if f == NumFn::ToIntegerUnsigned {
        let right = if len < 31 {
            i32::MAX >> (31 - len)
        } else {
            i32::MAX
        };
        Bounds {
            left: 0,
            right,
            down: false,
        }
    } else if len >= 1 && len < 32 {
        let right = i32::MAX >> (32 - len);
        Bounds {
            left: !right,
            right,
            down: false,
        }
    } else {
        ALL
    }
}

/// What an operator of `standard` or `std_logic_1164` gives that is no concatenation.
fn standard<'u>(
    making: &Making<'u>,
    f: StdFn,
    left: Sub,
    right: Sub,
    base: BaseType,
    span: Span,
) -> Result<Sub, Fault> {
    match f {
        StdFn::AndVector
        | StdFn::OrVector
        | StdFn::XorVector
        | StdFn::NandVector
        | StdFn::NorVector
        | StdFn::XnorVector => {
            same_lengths(left, right, span)?;
            up_vector(making, base, 1, left.len(), span)
        }
        StdFn::NotVector => up_vector(making, base, 1, left.len(), span),
        _ => Ok(any(making, base)),
    }
}

/// What an operator gives. An operator of one operand has it on the left.
pub fn given<'u>(
    making: &Making<'u>,
    operator: Operator,
    left: Sub,
    right: Option<Sub>,
    base: BaseType,
    span: Span,
) -> Result<Sub, Fault> {
    let right = match right {
        Some(right) => right,
        None => Sub::scalar(BaseType::Int, ALL),
    };
    match operator {
        Operator::Standard(f) => standard(making, f, left, right, base, span),
        Operator::Numeric(f) => numeric(making, f, left, right, base, span),
        Operator::Integer(op) => Ok(Sub::scalar(BaseType::Int, integers(op, right))),
    }
}

/// The numbers that an operator gives.
fn integers(op: Op, right: Sub) -> Bounds {
    let divisor = right.extent.scalar;
    if op == Op::Modulo && divisor.left == divisor.right && divisor.left > 0 {
        Bounds {
            left: 0,
            right: divisor.left.saturating_sub(1),
            down: false,
        }
    } else {
        ALL
    }
}

/// What a concatenation gives.
pub fn joined<'u>(
    making: &Making<'u>,
    f: StdFn,
    left: &Made,
    right: &Made,
    base: BaseType,
    span: Span,
) -> Result<Sub, Fault> {
    let (a, b) = match f {
        StdFn::ConcatenateArrays => (left.sub.len(), right.sub.len()),
        StdFn::ConcatenateArrayElement => (left.sub.len(), 1),
        StdFn::ConcatenateElementArray => (1, right.sub.len()),
        _ => (1, 1),
    };
    up_vector(making, base, 0, a.saturating_add(b), span)
}

/// Whether an operator joins arrays or elements.
pub fn is_concatenation(operator: Operator) -> bool {
    match operator {
        Operator::Standard(
            StdFn::ConcatenateArrays
            | StdFn::ConcatenateArrayElement
            | StdFn::ConcatenateElementArray
            | StdFn::ConcatenateElements,
        ) => true,
        _ => false,
    }
}
