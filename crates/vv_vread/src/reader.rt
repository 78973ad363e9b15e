//! The reader: where it stands in the tokens, and the parts of the grammar that are one token.

use std::alloc::Global;
use vv_base::text::Text;
use vv_bits::{Bits4, V4};
use vv_vlexer::token::{Kind, Sign, Token, Word};
use vv_vtree::{VBits, VCode, VFault, VName, VRange};

/// How deep expressions and statements may nest.
pub const DEPTH: u32 = 1024;

/// Reads tokens. `end` is the length of the text, and `too_deep` the offset of the first thing that nests too deep.
#[derive(Drop)]
pub struct Reader<'t> {
    pub alloc: Global,
    pub tokens: &'t [Token<'t>],
    pub passed: usize,
    pub end: u64,
    pub too_deep: Option<u64>,
}

impl<'t> Reader<'t> {
    /// The token that is read next.
    pub fn token(&self) -> Token<'t> {
        match self.tokens.get(self.passed) {
            Some(token) => *token,
            None => Token {
                kind: Kind::End,
                at: self.end,
            },
        }
    }

    /// The offset of that token.
    pub fn at(&self) -> u64 {
        self.token().at
    }

    /// Goes behind that token.
    pub fn pass(&mut self) {
        if self.passed < self.tokens.len() {
            self.passed += 1;
        }
    }

    /// The refusal of that token.
    pub fn refusal(&self) -> VFault {
        VFault::Refused {
            code: VCode::V2,
            at: self.at(),
        }
    }

    /// Whether that token is this sign.
    pub fn is_sign(&self, sign: Sign) -> bool {
        match self.token().kind {
            Kind::Sign(found) => found == sign,
            _ => false,
        }
    }

    /// Whether that token is this word.
    pub fn is_word(&self, word: Word) -> bool {
        match self.token().kind {
            Kind::Word(found) => found == word,
            _ => false,
        }
    }

    /// Passes over this sign where it stands next, and tells whether it does.
    pub fn takes_sign(&mut self, sign: Sign) -> bool {
        let found = self.is_sign(sign);
        if found {
            self.pass();
        }
        found
    }

    /// Passes over this word where it stands next, and tells whether it does.
    pub fn takes_word(&mut self, word: Word) -> bool {
        let found = self.is_word(word);
        if found {
            self.pass();
        }
        found
    }

    /// Passes over this sign.
    pub fn sign(&mut self, sign: Sign) -> Result<(), VFault> {
        if self.takes_sign(sign) {
            Ok(())
        } else {
            Err(self.refusal())
        }
    }

    /// Passes over this word.
    pub fn word(&mut self, word: Word) -> Result<(), VFault> {
        if self.takes_word(word) {
            Ok(())
        } else {
            Err(self.refusal())
        }
    }

    pub fn name(&mut self) -> Result<VName, VFault> {
        let token = self.token();
        let Kind::Name(text) = token.kind else {
            return Err(self.refusal());
        };
        self.pass();
        Ok(VName {
            text: Text::from_slice(self.alloc, text)?,
            at: token.at,
        })
    }

    pub fn number(&mut self) -> Result<u32, VFault> {
        let Kind::Number(number) = self.token().kind else {
            return Err(self.refusal());
        };
        self.pass();
        Ok(number)
    }

    /// The number that stands next, if one does.
    pub fn takes_number(&mut self) -> Option<u32> {
        let Kind::Number(number) = self.token().kind else {
            return None;
        };
        self.pass();
        Some(number)
    }

    pub fn bits(&mut self) -> Result<VBits, VFault> {
        let token = self.token();
        let Kind::Bits(digits) = token.kind else {
            return Err(self.refusal());
        };
        self.pass();
        Ok(VBits {
            bits: self.bits_of(digits)?,
            at: token.at,
        })
    }

    /// The bits that these digits stand for.
    fn bits_of(&self, digits: &[u8]) -> Result<Bits4, VFault> {
        let mut bits = Bits4::new(self.alloc);
        for digit in digits {
            bits.push(bit_of(*digit))?;
        }
        Ok(bits)
    }

    /// A range, where one stands next.
    pub fn range(&mut self) -> Result<Option<VRange>, VFault> {
        let at = self.at();
        if !self.takes_sign(Sign::OpenBracket) {
            return Ok(None);
        }
        let high = self.number()?;
        self.sign(Sign::Colon)?;
        self.zero()?;
        self.sign(Sign::CloseBracket)?;
        Ok(Some(VRange { high, at }))
    }

    /// Passes over the number 0.
    fn zero(&mut self) -> Result<(), VFault> {
        let Kind::Number(0) = self.token().kind else {
            return Err(self.refusal());
        };
        self.pass();
        Ok(())
    }

    /// Notes that what begins at the next token nests too deep.
    pub fn note_depth(&mut self) {
        if self.too_deep.is_none() {
            self.too_deep = Some(self.at());
        }
    }
}

/// The bit that a digit stands for.
fn bit_of(digit: u8) -> V4 {
    match digit {
        b'0' => V4::Zero,
        b'1' => V4::One,
        b'z' => V4::Z,
        _ => V4::X,
    }
}
