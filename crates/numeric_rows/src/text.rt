//! Operators, operands and results as text.

use std::alloc::{AllocError, Global};
use vv_base::fault::Memory;
use vv_bits::S9;
use vv_num::Outcome;
use vv_types::{NumFn, Value, ValueList};

const LETTERS: [char; 9] = ['U', 'X', '0', '1', 'Z', 'W', 'L', 'H', '-'];

pub const NINE: [S9; 9] = [
    S9::U,
    S9::X,
    S9::Zero,
    S9::One,
    S9::Z,
    S9::W,
    S9::L,
    S9::H,
    S9::Dash,
];

pub const ALL: [NumFn; 84] = [
    NumFn::AddUnsignedUnsigned,
    NumFn::AddSignedSigned,
    NumFn::AddUnsignedNatural,
    NumFn::AddNaturalUnsigned,
    NumFn::AddSignedInteger,
    NumFn::AddIntegerSigned,
    NumFn::SubtractUnsignedUnsigned,
    NumFn::SubtractSignedSigned,
    NumFn::SubtractUnsignedNatural,
    NumFn::SubtractNaturalUnsigned,
    NumFn::SubtractSignedInteger,
    NumFn::SubtractIntegerSigned,
    NumFn::MultiplyUnsignedUnsigned,
    NumFn::MultiplySignedSigned,
    NumFn::MultiplyUnsignedNatural,
    NumFn::MultiplyNaturalUnsigned,
    NumFn::MultiplySignedInteger,
    NumFn::MultiplyIntegerSigned,
    NumFn::AbsoluteSigned,
    NumFn::NegateSigned,
    NumFn::EqualUnsignedUnsigned,
    NumFn::EqualSignedSigned,
    NumFn::EqualUnsignedNatural,
    NumFn::EqualNaturalUnsigned,
    NumFn::EqualSignedInteger,
    NumFn::EqualIntegerSigned,
    NumFn::NotEqualUnsignedUnsigned,
    NumFn::NotEqualSignedSigned,
    NumFn::NotEqualUnsignedNatural,
    NumFn::NotEqualNaturalUnsigned,
    NumFn::NotEqualSignedInteger,
    NumFn::NotEqualIntegerSigned,
    NumFn::LessUnsignedUnsigned,
    NumFn::LessSignedSigned,
    NumFn::LessUnsignedNatural,
    NumFn::LessNaturalUnsigned,
    NumFn::LessSignedInteger,
    NumFn::LessIntegerSigned,
    NumFn::LessEqualUnsignedUnsigned,
    NumFn::LessEqualSignedSigned,
    NumFn::LessEqualUnsignedNatural,
    NumFn::LessEqualNaturalUnsigned,
    NumFn::LessEqualSignedInteger,
    NumFn::LessEqualIntegerSigned,
    NumFn::GreaterUnsignedUnsigned,
    NumFn::GreaterSignedSigned,
    NumFn::GreaterUnsignedNatural,
    NumFn::GreaterNaturalUnsigned,
    NumFn::GreaterSignedInteger,
    NumFn::GreaterIntegerSigned,
    NumFn::GreaterEqualUnsignedUnsigned,
    NumFn::GreaterEqualSignedSigned,
    NumFn::GreaterEqualUnsignedNatural,
    NumFn::GreaterEqualNaturalUnsigned,
    NumFn::GreaterEqualSignedInteger,
    NumFn::GreaterEqualIntegerSigned,
    NumFn::AndUnsigned,
    NumFn::AndSigned,
    NumFn::OrUnsigned,
    NumFn::OrSigned,
    NumFn::XorUnsigned,
    NumFn::XorSigned,
    NumFn::NandUnsigned,
    NumFn::NandSigned,
    NumFn::NorUnsigned,
    NumFn::NorSigned,
    NumFn::XnorUnsigned,
    NumFn::XnorSigned,
    NumFn::NotUnsigned,
    NumFn::NotSigned,
    NumFn::ShiftLeftUnsigned,
    NumFn::ShiftLeftSigned,
    NumFn::ShiftRightUnsigned,
    NumFn::ShiftRightSigned,
    NumFn::RotateLeftUnsigned,
    NumFn::RotateLeftSigned,
    NumFn::RotateRightUnsigned,
    NumFn::RotateRightSigned,
    NumFn::ResizeUnsigned,
    NumFn::ResizeSigned,
    NumFn::ToIntegerUnsigned,
    NumFn::ToIntegerSigned,
    NumFn::ToUnsigned,
    NumFn::ToSigned,
];

/// The vector of some elements.
pub fn vector(alloc: Global, elements: &[S9]) -> Result<Value, Memory> {
    let mut list = ValueList::new(alloc);
    for x in elements {
        list.push(Value::Logic(*x))?;
    }
    Ok(Value::Array(list))
}

/// An operand by its word: a number behind `#`, a vector by its letters, and none for a dot.
pub fn operand(alloc: Global, word: &str) -> Result<Option<Value>, Memory> {
    if word == "." {
        return Ok(None);
    }
    if let Some(number) = word.strip_prefix('#') {
        return Ok(number.parse::<i32>().ok().map(|n| Value::Int(n)));
    }
    let mut list = ValueList::new(alloc);
    for letter in word.chars() {
        let place = LETTERS.iter().position(|x| *x == letter).unwrap_or(8);
        list.push(Value::Logic(NINE.get(place).copied().unwrap_or(S9::Dash)))?;
    }
    Ok(Some(Value::Array(list)))
}

/// The operator or function of this name.
pub fn named(alloc: Global, name: &str) -> Result<Option<NumFn>, AllocError> {
    for f in ALL {
        if format!(in alloc; "{f:?}")?.as_str() == name {
            return Ok(Some(f));
        }
    }
    Ok(None)
}

/// A value as text: the elements of a vector from the left, a truth value as T or F.
pub fn show(alloc: Global, value: &Value, into: &mut String) -> Result<(), AllocError> {
    match value {
        Value::Logic(x) => into.push(LETTERS[*x as usize])?,
        Value::Bool(x) => into.push(if *x { 'T' } else { 'F' })?,
        Value::Int(n) => into.push_str(format!(in alloc; "{n}")?.as_str())?,
        Value::Enum(_) => {}
        Value::Array(xs) => {
            for x in xs.as_slice() {
                show(alloc, x, into)?;
            }
        }
    }
    Ok(())
}

pub fn show_outcome(alloc: Global, outcome: &Outcome, into: &mut String) -> Result<(), AllocError> {
    into.push(' ')?;
    match outcome {
        Outcome::Value(value) => show(alloc, value, into),
        Outcome::Range => into.push_str("Range"),
    }
}
