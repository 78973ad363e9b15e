//! Lexical elements that borrow their texts from the bytes of the file.

use crate::sign::Sign;
use crate::word::Word;

/// A lexical element.
#[derive(Clone, Copy, Debug, PartialEq, Eq)]
pub enum Element<'a> {
    /// An identifier as it is written.
    Id(&'a [u8]),
    Word(Word),
    Int(i32),
    Char(u8),
    /// A string as it is written, and what stands between its quotes, where two quotes still stand for one.
    Str { written: &'a [u8], inner: &'a [u8] },
    /// A bit string with its letter and its quotes.
    BitStr(&'a [u8]),
    Sign(Sign),
    /// The end of the file.
    End,
}

/// A lexical element with the offset of its first byte and its length.
#[derive(Clone, Copy, Debug, PartialEq, Eq)]
pub struct Lexeme<'a> {
    pub element: Element<'a>,
    pub at: u32,
    pub len: u32,
}
