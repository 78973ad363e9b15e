//! From the bytes of a file to its tokens, with the numbers of their names.

ghost use Rattle.std.specs.Prelude.{◌≡◌, ◌<◌, ◌≤◌, ◌+◌, ◌++◌, ℕ, List, IfOk, IfErr, OnOk, OnErr, Some, length};
ghost use Rattle.vv_vlex.specs.Elements.{lexeme_of, element_of, char as spec_char, undoubled as spec_undoubled};
ghost use Rattle.vv_vlex.specs.Lexical.{ForRefused};
ghost use Rattle.vv_vlex.specs.Tokens.{Lexed, hex as spec_hex, kind_of, lexed, name_text, names_after, numbered, token_of};

use crate::class::begins_with;
use crate::element::{Element, Lexeme};
use crate::lexer::elements;
use crate::token::{Token, TokenKind, TokenList};
use std::alloc::Global;
use vv_base::fault::{Fault, Memory, Name, Span};
use vv_base::names::Names;
use vv_base::text::ByteList;

fn hex(digit: u8) -> u8
    requires { digit < 16 }
    ensures { result ≡ spec_hex digit }
{
    if digit < 10 {
        b'0' + digit
    } else {
        b'a' + (digit - 10)
    }
}

/// The bytes of a string, by what stands between its quotes.
fn undoubled(alloc: Global, inner: &[u8]) -> Result<ByteList, Memory>
    ensures { IfOk result (λ bytes. bytes ≡ spec_undoubled inner.now) }
{
    let mut bytes = ByteList::new(alloc);
    let mut rest = inner;
    'bytes: while let [first, more @ ..] = rest {
        bytes.push(*first)?;
        rest = more;
        if *first == b'"' && begins_with(more, b'"') {
            rest = &more[1..];
        }
    }
    Ok(bytes)
}

/// The number of a character's name.
#[tactic(auto, unfolding(crate::specs::Tokens::name_text))]
fn character_name(byte: u8, names: &mut Names) -> Result<Name, Memory>
    requires { length names.old < 4294967295 }
    ensures name { IfOk result (λ n. n ≡ numbered names.old (name_text (spec_char byte))) }
    ensures names { OnOk result (names.new ≡ names_after names.old (spec_char byte)) }
    ensures err { OnErr result (names.new ≡ names.old) }
{
    names.intern(&[b'\'', hex(byte / 16), hex(byte % 16)])
}

/// The kind of an element, whose name is seen now.
#[tactic(auto, unfolding(crate::specs::Tokens::name_text))]
fn kind(alloc: Global, element: Element<'_>, names: &mut Names) -> Result<TokenKind, Memory>
    requires { length names.old < 4294967295 }
    ensures kind { IfOk result (λ k. k ≡ kind_of (numbered names.old (name_text (element_of element.entry))) (element_of element.entry)) }
    ensures names { OnOk result (names.new ≡ names_after names.old (element_of element.entry)) }
    ensures err { OnErr result (names.new ≡ names.old) }
{
    match element {
        Element::Id(text) => Ok(TokenKind::Id(names.intern(text)?)),
        Element::Word(word) => Ok(TokenKind::Word(word)),
        Element::Int(value) => Ok(TokenKind::Int(value)),
        Element::Char(byte) => {
            let name = character_name(byte, names)?;
            Ok(TokenKind::Char { byte, name })
        }
        Element::Str { written, inner } => {
            let bytes = undoubled(alloc, inner)?;
            let name = names.intern(written)?;
            Ok(TokenKind::Str { bytes, name })
        }
        Element::BitStr(text) => Ok(TokenKind::BitStr(ByteList::from_slice(alloc, text)?)),
        Element::Sign(sign) => Ok(TokenKind::Sign(sign)),
        Element::End => Ok(TokenKind::End),
    }
}

/// The tokens of a file, or the rule that is broken first. The names of the tokens are seen in their order.
pub fn lex(alloc: Global, file: u32, bytes: &[u8], names: &mut Names) -> Result<TokenList, Fault>
    requires { length names.old ≤ 4261412864 }
    ensures tokens { IfOk result (λ ts. lexed file bytes.now names.old ≡ Ok (record { tokens = ts; names = names.new })) }
    ensures refused { IfErr result (λ fault. ForRefused fault (λ r. lexed file bytes.now names.old ≡ Err (record { rule = r.rule; at = r.span.at }))) }
    ensures file { IfErr result (λ fault. ForRefused fault (λ r. r.span.file ≡ file)) }
    ensures former { (more : List (List ℕ)) × (names.new ≡ names.old ++ more) }
    ensures few { length names.new ≤ length names.old + length bytes.now }
{
    let found = match elements(alloc, file, bytes) {
        Ok(found) => found,
        Err(fault) => return Err(fault),
    };
    let mut tokens = TokenList::new(alloc);
    for lexeme in &found {
        let kind = kind(alloc, lexeme.element, names)?;
        let span = Span {
            file,
            at: lexeme.at,
            len: lexeme.len,
        };
        tokens.push(Token { kind, span })?;
    }
    Ok(tokens)
}
