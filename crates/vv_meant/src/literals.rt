//! Literals, and the names of attributes and operators.

use crate::noted::{Attribute, Kind, Noted, Scene};
use sqlite_items::Items;
use vv_base::fault::{Memory, Name, cannot_come};
use vv_base::names::Names;
use vv_tree::leaf::{Literal, OperatorSymbol};
use vv_types::{BaseType, Op, What};
use vv_visible::types::Library;

/// What a literal may mean.
pub fn literal<'a>(scene: &Scene<'_, '_, '_>, written: &Literal<'a>) -> Result<Noted<'a>, Memory> {
    match written {
        Literal::Integer(value, span) => {
            Ok(Noted::leaf(scene.alloc, Kind::Integer(*value), *span))
        }
        Literal::Character { byte, span, .. } => {
            let mut noted = Noted::leaf(scene.alloc, Kind::Character, *span);
            for decl in scene.lib.letter(scene.scope, *byte) {
                noted.here.add(*decl)?;
            }
            Ok(noted)
        }
        Literal::Text { bytes, span, .. } => {
            Ok(Noted::leaf(scene.alloc, Kind::Text(bytes), *span))
        }
        Literal::BitText(bytes, span) => {
            Ok(Noted::leaf(scene.alloc, Kind::BitText(bytes), *span))
        }
    }
}

/// The type of a literal of an enumeration type.
pub fn literal_base(lib: &Library<'_>, decl: u32) -> Option<BaseType> {
    match lib.declared(decl) {
        Some(declared) => match declared.what {
            What::Literal(base) => Some(base),
            _ => None,
        },
        None => None,
    }
}

/// The position of a literal among those of its type.
pub fn position(lib: &Library<'_>, decl: u32) -> Result<u32, Memory> {
    lib.position(decl).ok_or(cannot_come())
}

/// The literal of a type that a character denotes.
fn letter_of(scene: &Scene<'_, '_, '_>, element: BaseType, byte: u8) -> Option<u32> {
    for decl in scene.lib.letter(scene.scope, byte) {
        if literal_base(scene.lib, *decl) == Some(element) {
            return Some(*decl);
        }
    }
    None
}

/// The element type, where it may have character literals.
fn characters(lib: &Library<'_>, base: BaseType) -> Option<BaseType> {
    let (_, element) = lib.parts(base)?;
    match element {
        BaseType::Logic | BaseType::Enum(_) => Some(element),
        BaseType::Bool | BaseType::Int | BaseType::Array(_) => None,
    }
}

/// Whether a string is a value of a type.
pub fn admits_text(scene: &Scene<'_, '_, '_>, base: BaseType, bytes: &[u8]) -> bool {
    let Some(element) = characters(scene.lib, base) else {
        return false;
    };
    for byte in bytes {
        if letter_of(scene, element, *byte).is_none() {
            return false;
        }
    }
    true
}

/// The positions of the characters of a string.
pub fn text_positions(
    scene: &Scene<'_, '_, '_>,
    base: BaseType,
    bytes: &[u8],
) -> Result<Items<u32>, Memory> {
    let element = characters(scene.lib, base).ok_or(cannot_come())?;
    let mut positions = Items::new(scene.alloc);
    for byte in bytes {
        let decl = letter_of(scene, element, *byte).ok_or(cannot_come())?;
        positions.push(position(scene.lib, decl)?)?;
    }
    Ok(positions)
}

/// How many bits a digit of a bit string has, by the letter before it.
fn digit_width(letter: u8) -> u32 {
    match letter {
        b'o' | b'O' => 3,
        b'x' | b'X' => 4,
        _ => 1,
    }
}

/// The value of a digit, or None where the byte is none.
fn digit_value(byte: u8) -> Option<u8> {
    match byte {
        b'0'..=b'9' => Some(byte - b'0'),
        b'a'..=b'f' => Some(byte - b'a' + 10),
        b'A'..=b'F' => Some(byte - b'A' + 10),
        _ => None,
    }
}

/// The digits of a bit string with the bits that each has.
fn digits(bytes: &[u8]) -> (&[u8], u32) {
    match bytes {
        [letter, b'"', inner @ ..] => (inner, digit_width(*letter)),
        _ => (&[], 1),
    }
}

/// Bit `k` of a digit, counted from the right, as a character.
fn bit_of(digit: u8, k: u32) -> u8 {
    let shifted = if k < 8 { digit >> k } else { 0 };
    if shifted % 2 == 0 { b'0' } else { b'1' }
}

/// Whether a bit string is a value of a type.
pub fn admits_bits(scene: &Scene<'_, '_, '_>, base: BaseType, bytes: &[u8]) -> bool {
    let Some(element) = characters(scene.lib, base) else {
        return false;
    };
    let (inner, width) = digits(bytes);
    for byte in inner {
        if let Some(digit) = digit_value(*byte) {
            for k in 0..width {
                if letter_of(scene, element, bit_of(digit, k)).is_none() {
                    return false;
                }
            }
        }
    }
    true
}

/// The positions of the bits of a bit string.
pub fn bit_positions(
    scene: &Scene<'_, '_, '_>,
    base: BaseType,
    bytes: &[u8],
) -> Result<Items<u32>, Memory> {
    let element = characters(scene.lib, base).ok_or(cannot_come())?;
    let (inner, width) = digits(bytes);
    let mut positions = Items::new(scene.alloc);
    for byte in inner {
        if let Some(digit) = digit_value(*byte) {
            for k in (0..width).rev() {
                let decl = letter_of(scene, element, bit_of(digit, k)).ok_or(cannot_come())?;
                positions.push(position(scene.lib, decl)?)?;
            }
        }
    }
    Ok(positions)
}

/// An attribute by the text of its name.
pub fn attribute_of(names: &Names, name: Name) -> Attribute {
    let Some(text) = names.text(name) else {
        return Attribute::Unknown;
    };
    match text {
        b"length" => Attribute::Length,
        b"reverse_range" => Attribute::ReverseRange,
        b"left" => Attribute::Left,
        b"right" => Attribute::Right,
        b"high" => Attribute::High,
        b"low" => Attribute::Low,
        b"pos" => Attribute::Pos,
        b"val" => Attribute::Val,
        b"event" => Attribute::Event,
        _ => Attribute::Unknown,
    }
}

/// An operator by its symbol.
pub fn op_of(symbol: OperatorSymbol) -> Op {
    match symbol {
        OperatorSymbol::And => Op::And,
        OperatorSymbol::Or => Op::Or,
        OperatorSymbol::Xor => Op::Xor,
        OperatorSymbol::Xnor => Op::Xnor,
        OperatorSymbol::Nand => Op::Nand,
        OperatorSymbol::Nor => Op::Nor,
        OperatorSymbol::Equal => Op::Equal,
        OperatorSymbol::NotEqual => Op::NotEqual,
        OperatorSymbol::Less => Op::Less,
        OperatorSymbol::LessEqual => Op::LessEqual,
        OperatorSymbol::Greater => Op::Greater,
        OperatorSymbol::GreaterEqual => Op::GreaterEqual,
        OperatorSymbol::ShiftLeftLogical => Op::ShiftLeftLogical,
        OperatorSymbol::ShiftRightLogical => Op::ShiftRightLogical,
        OperatorSymbol::ShiftLeftArithmetic => Op::ShiftLeftArithmetic,
        OperatorSymbol::ShiftRightArithmetic => Op::ShiftRightArithmetic,
        OperatorSymbol::RotateLeft => Op::RotateLeft,
        OperatorSymbol::RotateRight => Op::RotateRight,
        OperatorSymbol::Plus => Op::Plus,
        OperatorSymbol::Minus => Op::Minus,
        OperatorSymbol::Concatenate => Op::Concatenate,
        OperatorSymbol::Multiply => Op::Times,
        OperatorSymbol::Divide => Op::Divide,
        OperatorSymbol::Mod => Op::Modulo,
        OperatorSymbol::Rem => Op::Remainder,
    }
}
