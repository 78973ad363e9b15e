//! The tokens of a file.

ghost use Rattle.std.specs.Prelude.{◌≡◌, ◌++◌, ◌∷◌, [], OnOk, OnErr};

use crate::sign::Sign;
use crate::word::Word;
use std::alloc::Global;
use std::marker::Model;
use vv_base::fault::{Memory, Name, Span};
use vv_base::text::ByteList;

/// What a token is.
#[derive(Debug, Drop, PartialEq, Eq)]
pub enum TokenKind {
    Id(Name),
    Word(Word),
    /// A number by its value.
    Int(i32),
    /// Its name has an apostrophe and the byte in two hexadecimal digits, so that letter case is kept.
    Char { byte: u8, name: Name },
    /// The bytes have each doubled quote once. The name has the text as it is written, with its quotes.
    Str { bytes: ByteList, name: Name },
    /// As it is written, with its letter and its quotes.
    BitStr(ByteList),
    Sign(Sign),
    /// The end of the file.
    End,
}

/// A token with its place.
#[derive(Debug, Drop, PartialEq, Eq)]
pub struct Token {
    pub kind: TokenKind,
    pub span: Span,
}

/// The tokens of a file in their order, the last of which is its end.
#[derive(Debug, Drop)]
pub struct TokenList {
    tokens: Vec<Token>,
}

impl Model for TokenList {
    ghost use Rattle.std.specs.Prelude.{List};
    ghost use Rattle.vv_vlex.specs.declared.token.Token.{Token};

    ghost Value = { List Token };

    ghost view = { λ list. list.tokens.items };
}

impl TokenList {
    /// No tokens, which takes no memory.
    pub fn new(alloc: Global) -> TokenList
        ensures { result ≡ [] }
    {
        TokenList {
            tokens: Vec::new(alloc),
        }
    }

    /// The tokens.
    pub fn as_slice(&self) -> &[Token]
        ensures { result.now ≡ self.now }
    {
        self.tokens.as_slice()
    }

    /// Appends a token.
    pub fn push(&mut self, token: Token) -> Result<(), Memory>
        ensures ok { OnOk result (self.new ≡ self.old ++ token ∷ []) }
        ensures err { OnErr result (self.new ≡ self.old) }
    {
        self.tokens.push(token)?;
        Ok(())
    }
}
