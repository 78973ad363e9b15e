//! From bytes to elements.

ghost use Rattle.std.specs.Prelude.{◌≡◌, ◌<◌, ◌≤◌, ◌+◌, ◌^◌, ◌++◌, IfOk, IfErr, OnOk, length, map};
ghost use Rattle.vv_vlex.specs.Elements.{lexeme_of};
ghost use Rattle.vv_vlex.specs.Pieces.{piece_of};
ghost use Rattle.vv_vlex.specs.Lexical.{elements_of, placed, IsEnded, is_named_behind as spec_is_named_behind, ForRefused, IsRefusal};

use crate::element::{Element, Lexeme};
use crate::piece::{Piece, piece_at, takes_tick};
use std::alloc::Global;
use vv_base::fault::{Fault, Refusal, Rule, Span};

/// A source file has at most this many bytes.
pub const MOST_BYTES: usize = 16_777_216;

fn refused(rule: Rule, file: u32, at: u32, len: u32) -> Fault
    ensures { ForRefused result (λ r. IsRefusal file rule at len r) }
{
    let span = Span { file, at, len };
    Fault::Refused(Refusal { rule, span })
}

/// Appends a piece's element, if it is one.
fn place<'a>(found: &mut Vec<Lexeme<'a>>, piece: Piece<'a>, at: u32) -> Result<(), Fault>
    requires { piece.size < 2 ^ 32 }
    ensures ok { OnOk result (map lexeme_of found.new.items ≡ map lexeme_of found.old.items ++ placed (piece_of piece.entry).0 at piece.entry.size) }
    ensures few { length found.new.items ≤ length found.old.items + 1 }
    ensures err { IfErr result (λ fault. fault ≡ Fault.Memory) }
{
    if let Some(element) = piece.element {
        let len = piece.size as u32;
        found.push(Lexeme { element, at, len })?;
    }
    Ok(())
}

/// Whether an apostrophe behind the piece is the tick, where `is_named` says so of one before it.
fn is_named_behind(is_named: bool, piece: Piece<'_>) -> bool
    ensures { result ≡ spec_is_named_behind is_named (piece_of piece.entry).0 }
{
    match piece.element {
        Some(element) => takes_tick(element),
        None => is_named,
    }
}

/// The elements of a file and the end of the file, or the rule that is broken first.
pub fn elements(alloc: Global, file: u32, bytes: &[u8]) -> Result<Vec<Lexeme<'_>>, Fault>
    ensures found { IfOk result (λ v. elements_of bytes.now ≡ Ok (map lexeme_of v.items)) }
    ensures refused { IfErr result (λ fault. ForRefused fault (λ r. elements_of bytes.now ≡ Err (record { rule = r.rule; at = r.span.at }))) }
    ensures file { IfErr result (λ fault. ForRefused fault (λ r. r.span.file ≡ file)) }
    ensures ended { IfOk result (λ v. IsEnded (length bytes.now) (map lexeme_of v.items)) }
    ensures limit { IfOk result (λ v. length bytes.now ≤ 16777216) }
{
    if bytes.len() > MOST_BYTES {
        return Err(refused(Rule::L1, file, 0, 0));
    }
    let total = bytes.len();
    let mut found = Vec::new(alloc);
    let mut is_named = false;
    let mut rest = bytes;
    'pieces: while let [first, more @ ..] = rest {
        let at = (total - rest.len()) as u32;
        let piece = match piece_at(is_named, *first, rest, more) {
            Ok(piece) => piece,
            Err(rule) => return Err(refused(rule, file, at, 1)),
        };
        place(&mut found, piece, at)?;
        is_named = is_named_behind(is_named, piece);
        rest = &rest[piece.size..];
    }
    found.push(Lexeme {
        element: Element::End,
        at: total as u32,
        len: 0,
    })?;
    Ok(found)
}
