//! What the grammar sees of a token.

ghost use Rattle.std.specs.Prelude.{◌≡◌, IfOk, map};
ghost use Rattle.vv_grammar.specs.Terminals.{contains, kind_of, kind_of_element, same, terminals_of, terminals_of_elements};
ghost use Rattle.vv_vlex.specs.Elements.{element_of, lexeme_of};

use std::alloc::Global;
use vv_base::fault::Memory;
use vv_vlex::element::{Element, Lexeme};
use vv_vlex::sign::Sign;
use vv_vlex::token::{Token, TokenKind};
use vv_vlex::word::Word;

/// A kind of tokens.
#[derive(Clone, Copy, Debug, PartialEq, Eq)]
pub enum Terminal {
    Id,
    Int,
    Char,
    Str,
    BitStr,
    /// A reserved word.
    Key(Word),
    Mark(Sign),
    End,
}

/// The terminal of a token.
pub fn terminal_of(kind: &TokenKind) -> Terminal
    ensures { result ≡ kind_of kind.now }
{
    match kind {
        TokenKind::Id(_) => Terminal::Id,
        TokenKind::Word(word) => Terminal::Key(*word),
        TokenKind::Int(_) => Terminal::Int,
        TokenKind::Char { .. } => Terminal::Char,
        TokenKind::Str { .. } => Terminal::Str,
        TokenKind::BitStr(_) => Terminal::BitStr,
        TokenKind::Sign(sign) => Terminal::Mark(*sign),
        TokenKind::End => Terminal::End,
    }
}

/// The terminals of tokens.
pub fn terminals(alloc: Global, tokens: &[Token]) -> Result<Vec<Terminal>, Memory>
    ensures { IfOk result (λ all. all.items ≡ terminals_of tokens.now) }
{
    let mut all = Vec::new(alloc);
    for token in tokens {
        all.push(terminal_of(&token.kind))?;
    }
    Ok(all)
}

/// The terminal of a lexical element.
pub fn terminal_of_element(element: Element<'_>) -> Terminal
    ensures { result ≡ kind_of_element (element_of element.entry) }
{
    match element {
        Element::Id(_) => Terminal::Id,
        Element::Word(word) => Terminal::Key(word),
        Element::Int(_) => Terminal::Int,
        Element::Char(_) => Terminal::Char,
        Element::Str { .. } => Terminal::Str,
        Element::BitStr(_) => Terminal::BitStr,
        Element::Sign(sign) => Terminal::Mark(sign),
        Element::End => Terminal::End,
    }
}

/// The terminals of lexical elements.
pub fn terminals_of_elements(
    alloc: Global,
    elements: &[Lexeme<'_>],
) -> Result<Vec<Terminal>, Memory>
    ensures { IfOk result (λ all. all.items ≡ terminals_of_elements (map lexeme_of elements.now)) }
{
    let mut all = Vec::new(alloc);
    for lexeme in elements {
        all.push(terminal_of_element(lexeme.element))?;
    }
    Ok(all)
}

/// Whether these are one terminal.
pub fn is_same(a: Terminal, b: Terminal) -> bool
    ensures { result ≡ same a b }
{
    match a {
        Terminal::Id => matches!(b, Terminal::Id),
        Terminal::Int => matches!(b, Terminal::Int),
        Terminal::Char => matches!(b, Terminal::Char),
        Terminal::Str => matches!(b, Terminal::Str),
        Terminal::BitStr => matches!(b, Terminal::BitStr),
        Terminal::Key(word) => match b {
            Terminal::Key(other) => word as u8 == other as u8,
            _ => false,
        },
        Terminal::Mark(sign) => match b {
            Terminal::Mark(other) => sign as u8 == other as u8,
            _ => false,
        },
        Terminal::End => matches!(b, Terminal::End),
    }
}

/// Whether the terminal is among these.
pub fn is_among(terminal: Terminal, set: &[Terminal]) -> bool
    ensures { result ≡ contains set.now terminal }
{
    let mut rest = set;
    'others: while let [first, more @ ..] = rest {
        if is_same(*first, terminal) {
            return true;
        }
        rest = more;
    }
    false
}
