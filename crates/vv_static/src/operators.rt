//! The operators of the built-in packages on what stands on the stack.

use crate::machine::Machine;
use vv_base::fault::{Fault, Rule, Span};
use vv_code::Arity;
use vv_held::held::{Held, refused};
use vv_held::shape::{downto_zero, upwards};
use vv_num::{Outcome, num_value};
use vv_std::std_value;
use vv_types::{Bounds, NumFn, StdFn, Value};

/// Whether an operator works by element on vectors of equal lengths.
fn is_by_element(f: StdFn) -> bool {
    match f {
        StdFn::AndVector
        | StdFn::OrVector
        | StdFn::XorVector
        | StdFn::NandVector
        | StdFn::NorVector
        | StdFn::XnorVector => true,
        _ => false,
    }
}

/// The bounds of a value that an operator gave.
fn bounds_of(value: &Value, first: i32) -> Option<Bounds> {
    match value {
        Value::Array(xs) => upwards(first, xs.len()),
        _ => None,
    }
}

/// The value of an operator of `standard` or `std_logic_1164`.
pub fn standard<'t>(
    machine: &mut Machine<'t>,
    f: StdFn,
    arity: Arity,
    span: Span,
) -> Result<Held, Fault> {
    let alloc = machine.alloc;
    let right = machine.pop()?;
    match arity {
        Arity::One => {
            let Held {
                value: operand,
                outer: _,
                inner: _,
            } = right;
            let value = std_value(alloc, f, &[operand])?;
            let outer = bounds_of(&value, 1);
            Ok(Held {
                value,
                outer,
                inner: None,
            })
        }
        Arity::Two => {
            let left = machine.pop()?;
            if is_by_element(f) && left.elements().len() != right.elements().len() {
                return Err(refused(Rule::E5, span));
            }
            let inner = joined_inner(&left, &right, f);
            let Held {
                value: first,
                outer: _,
                inner: _,
            } = left;
            let Held {
                value: second,
                outer: _,
                inner: _,
            } = right;
            let value = std_value(alloc, f, &[first, second])?;
            let outer = bounds_of(&value, if is_by_element(f) { 1 } else { 0 });
            few(&value, span)?;
            Ok(Held {
                value,
                outer,
                inner,
            })
        }
    }
}

/// The bounds of the elements of a concatenation.
fn joined_inner(left: &Held, right: &Held, f: StdFn) -> Option<Bounds> {
    match f {
        StdFn::ConcatenateArrays | StdFn::ConcatenateArrayElement => left.inner,
        StdFn::ConcatenateElementArray => right.inner,
        StdFn::ConcatenateElements => left.outer,
        _ => None,
    }
}

/// Refuses vectors of too many elements.
fn few(value: &Value, span: Span) -> Result<(), Fault> {
    match value {
        Value::Array(xs) => {
            if xs.len() > 4096 {
                Err(refused(Rule::E8, span))
            } else if xs.is_empty() {
                Err(refused(Rule::E4, span))
            } else {
                Ok(())
            }
        }
        _ => Ok(()),
    }
}

/// How a function of `numeric_std` is checked before its value is taken.
#[derive(Clone, Copy, PartialEq, Eq)]
enum Care {
    Arithmetic,
    Product,
    ByElement,
    Count,
    Length,
    None,
}

fn care_of(f: NumFn) -> Care {
    match f {
        NumFn::AddUnsignedUnsigned
        | NumFn::AddSignedSigned
        | NumFn::AddUnsignedNatural
        | NumFn::AddNaturalUnsigned
        | NumFn::AddSignedInteger
        | NumFn::AddIntegerSigned
        | NumFn::SubtractUnsignedUnsigned
        | NumFn::SubtractSignedSigned
        | NumFn::SubtractUnsignedNatural
        | NumFn::SubtractNaturalUnsigned
        | NumFn::SubtractSignedInteger
        | NumFn::SubtractIntegerSigned
        | NumFn::AbsoluteSigned
        | NumFn::NegateSigned => Care::Arithmetic,
        NumFn::MultiplyUnsignedUnsigned
        | NumFn::MultiplySignedSigned
        | NumFn::MultiplyUnsignedNatural
        | NumFn::MultiplyNaturalUnsigned
        | NumFn::MultiplySignedInteger
        | NumFn::MultiplyIntegerSigned => Care::Product,
        NumFn::AndUnsigned
        | NumFn::AndSigned
        | NumFn::OrUnsigned
        | NumFn::OrSigned
        | NumFn::XorUnsigned
        | NumFn::XorSigned
        | NumFn::NandUnsigned
        | NumFn::NandSigned
        | NumFn::NorUnsigned
        | NumFn::NorSigned
        | NumFn::XnorUnsigned
        | NumFn::XnorSigned => Care::ByElement,
        NumFn::ShiftLeftUnsigned
        | NumFn::ShiftLeftSigned
        | NumFn::ShiftRightUnsigned
        | NumFn::ShiftRightSigned
        | NumFn::RotateLeftUnsigned
        | NumFn::RotateLeftSigned
        | NumFn::RotateRightUnsigned
        | NumFn::RotateRightSigned => Care::Count,
        NumFn::ResizeUnsigned | NumFn::ResizeSigned | NumFn::ToUnsigned | NumFn::ToSigned => {
            Care::Length
        }
        _ => Care::None,
    }
}

/// Refuses operands that a function does not have.
fn careful(f: NumFn, left: &Held, right: &Held, span: Span) -> Result<(), Fault> {
    let (a, b) = (left.elements().len(), right.elements().len());
    match care_of(f) {
        Care::Arithmetic => {
            if a > 128 || b > 128 {
                return Err(refused(Rule::E8, span));
            }
        }
        Care::Product => {
            let (a, b) = (if a == 0 { b } else { a }, if b == 0 { a } else { b });
            if a > 128 || b > 128 || a.saturating_add(b) > 128 {
                return Err(refused(Rule::E8, span));
            }
        }
        Care::ByElement => {
            if a != b {
                return Err(refused(Rule::E5, span));
            }
        }
        Care::Count => {
            if let Value::Int(n) = right.value {
                if n < 0 {
                    return Err(refused(Rule::E2, span));
                }
            }
        }
        Care::Length => {
            if let Value::Int(n) = right.value {
                if n < 0 {
                    return Err(refused(Rule::E2, span));
                }
                if n == 0 {
                    return Err(refused(Rule::E4, span));
                }
                if n > 4096 {
                    return Err(refused(Rule::E8, span));
                }
            }
        }
        Care::None => {}
    }
    Ok(())
}

/// The value of an operator or a function of `numeric_std`.
pub fn numeric<'t>(
    machine: &mut Machine<'t>,
    f: NumFn,
    arity: Arity,
    span: Span,
) -> Result<Held, Fault> {
    let alloc = machine.alloc;
    let right = machine.pop()?;
    let outcome = match arity {
        Arity::One => {
            if care_of(f) == Care::Arithmetic && right.elements().len() > 128 {
                return Err(refused(Rule::E8, span));
            }
            let Held {
                value: operand,
                outer: _,
                inner: _,
            } = right;
            num_value(alloc, f, &[operand])?
        }
        Arity::Two => {
            let left = machine.pop()?;
            careful(f, &left, &right, span)?;
            let Held {
                value: first,
                outer: _,
                inner: _,
            } = left;
            let Held {
                value: second,
                outer: _,
                inner: _,
            } = right;
            num_value(alloc, f, &[first, second])?
        }
    };
    match outcome {
        Outcome::Value(value) => {
            let outer = match &value {
                Value::Array(xs) => downto_zero(xs.len()),
                _ => None,
            };
            Ok(Held {
                value,
                outer,
                inner: None,
            })
        }
        Outcome::Range => Err(refused(Rule::E2, span)),
    }
}
