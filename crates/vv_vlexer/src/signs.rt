//! Signs at the start of a text, and the operators that they stand for.

use crate::token::Sign;
use vv_vtree::{VBinary, VUnary};

impl Sign {
    /// The longest sign that the text begins with, and its length.
    pub fn first(text: &[u8]) -> Option<(Sign, usize)> {
        let found = match text {
            [b'=', b'=', b'=', ..] => (Sign::Same, 3),
            [b'!', b'=', b'=', ..] => (Sign::NotSame, 3),
            [b'=', b'=', ..] => (Sign::Equal, 2),
            [b'!', b'=', ..] => (Sign::NotEqual, 2),
            [b'<', b'=', ..] => (Sign::LessOrEqual, 2),
            [b'>', b'=', ..] => (Sign::GreaterOrEqual, 2),
            [b'+', b':', ..] => (Sign::PlusColon, 2),
            [byte, ..] => (Sign::of_byte(*byte)?, 1),
            [] => return None,
        };
        Some(found)
    }

    /// The sign that is this byte alone.
    fn of_byte(byte: u8) -> Option<Sign> {
        let sign = match byte {
            b'(' => Sign::Open,
            b')' => Sign::Close,
            b'[' => Sign::OpenBracket,
            b']' => Sign::CloseBracket,
            b'{' => Sign::OpenBrace,
            b'}' => Sign::CloseBrace,
            b';' => Sign::Semicolon,
            b',' => Sign::Comma,
            b'.' => Sign::Point,
            b':' => Sign::Colon,
            b'?' => Sign::Question,
            b'@' => Sign::At,
            b'=' => Sign::Assign,
            b'~' => Sign::Tilde,
            b'&' => Sign::And,
            b'|' => Sign::Or,
            b'^' => Sign::Xor,
            b'+' => Sign::Plus,
            b'-' => Sign::Minus,
            b'*' => Sign::Star,
            b'<' => Sign::Less,
            b'>' => Sign::Greater,
            _ => return None,
        };
        Some(sign)
    }

    /// The operator that it is before an operand.
    pub fn unary(self) -> Option<VUnary> {
        match self {
            Sign::Tilde => Some(VUnary::Not),
            Sign::And => Some(VUnary::And),
            Sign::Or => Some(VUnary::Or),
            Sign::Xor => Some(VUnary::Xor),
            _ => None,
        }
    }

    /// The operator that it is between operands.
    pub fn binary(self) -> Option<VBinary> {
        match self {
            Sign::And => Some(VBinary::And),
            Sign::Or => Some(VBinary::Or),
            Sign::Xor => Some(VBinary::Xor),
            Sign::Plus => Some(VBinary::Add),
            Sign::Minus => Some(VBinary::Subtract),
            Sign::Star => Some(VBinary::Multiply),
            Sign::Less => Some(VBinary::Less),
            Sign::LessOrEqual => Some(VBinary::LessOrEqual),
            Sign::Greater => Some(VBinary::Greater),
            Sign::GreaterOrEqual => Some(VBinary::GreaterOrEqual),
            Sign::Equal => Some(VBinary::Equal),
            Sign::NotEqual => Some(VBinary::NotEqual),
            Sign::Same => Some(VBinary::Same),
            Sign::NotSame => Some(VBinary::NotSame),
            _ => None,
        }
    }
}
