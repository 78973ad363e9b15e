//! From bytes to tokens. The letters of the bytes are folded to lower case.

ghost use Rattle.std.specs.Prelude.{List, ◌≡◌, ◌==◌, ℕ, ◌≤◌, ◌<◌, ◌-◌, ◌∷◌, [], length, map, MatchOption, true};
ghost use Rattle.vv_gate.specs.Whole.{is_letter, is_digit};
ghost use Rattle.vv_gate_lex.specs.Lexical as spec;
ghost use Rattle.vv_gate_lex.specs.Symbols.{symbol_of, token_of};

use crate::keywords::KEYWORDS;
use vv_gate::token::{Mark, Symbol, Token};

fn is_letter(byte: u8) -> bool
    ensures { result ≡ is_letter byte }
{
    byte >= b'a' && byte <= b'z'
}

fn is_alphanumeric(byte: u8) -> bool
    ensures { result ≡ spec.is_alphanumeric byte }
{
    is_letter(byte) || (byte >= b'0' && byte <= b'9')
}

fn is_blank(byte: u8) -> bool
    ensures { result ≡ spec.is_blank byte }
{
    byte == b' ' || (byte >= b'\t' && byte <= b'\r')
}

fn begins_with(bytes: &[u8], byte: u8) -> bool
    ensures { result ≡ spec.begins (λ c. c == byte) bytes.now }
{
    match bytes {
        [first, ..] => *first == byte,
        [] => false,
    }
}

fn begins_alphanumeric(bytes: &[u8]) -> bool
    ensures { result ≡ spec.begins spec.is_alphanumeric bytes.now }
{
    match bytes {
        [first, ..] => is_alphanumeric(*first),
        [] => false,
    }
}

/// What is left behind a comment, which ends with its line.
fn skip_line(bytes: &[u8]) -> &[u8]
    ensures value { spec.skip result.now ≡ spec.skip_line bytes.now }
    ensures less { length result.now ≤ length bytes.now }
{
    let mut rest = bytes;
    'line: while let [first, more @ ..] = rest {
        rest = more;
        if *first == b'\n' {
            break;
        }
    }
    rest
}

/// What is left behind blanks and comments.
fn skip(bytes: &[u8]) -> &[u8]
    ensures value { result.now ≡ spec.skip bytes.now }
    ensures less { length result.now ≤ length bytes.now }
{
    let mut rest = bytes;
    'blanks: while let [first, more @ ..] = rest {
        if is_blank(*first) {
            rest = more;
        } else if *first == b'-' && begins_with(more, b'-') {
            rest = skip_line(more);
        } else {
            break;
        }
    }
    rest
}

/// The bytes of a name behind its first letter.
fn name_tail(bytes: &[u8]) -> usize
    ensures value { result ≡ spec.name_tail bytes.now }
    ensures within { result ≤ length bytes.now }
{
    let mut rest = bytes;
    let mut count = 0;
    'name: while let [first, more @ ..] = rest {
        if !is_alphanumeric(*first) && !(*first == b'_' && begins_alphanumeric(more)) {
            break;
        }
        rest = more;
        count += 1;
    }
    count
}

fn lookup(table: &[(&[u8], Mark)], text: &[u8]) -> Option<Mark>
    ensures { result ≡ spec.lookup (map (λ k. (k.0.now, k.1)) table.now) text.now }
{
    let mut rest = table;
    'words: while let [entry, more @ ..] = rest {
        if entry.0 == text {
            return Some(entry.1);
        }
        rest = more;
    }
    None
}

/// The reserved words of a length, among which a text of that length is looked up. A longer table does no harm.
fn words_of(size: usize) -> &'static [(&'static [u8], Mark)]
    ensures { (text : List ℕ) → length text ≡ size → spec.lookup (map (λ k. (k.0.now, k.1)) result.now) text ≡ spec.keyword text }
{
    match size {
        1 => &KEYWORDS[..0],
        2 => &KEYWORDS[0..7],
        3 => &KEYWORDS[7..28],
        4 => &KEYWORDS[28..47],
        5 => &KEYWORDS[47..60],
        6 => &KEYWORDS[60..74],
        7 => &KEYWORDS[74..82],
        8 => &KEYWORDS[82..89],
        9 => &KEYWORDS[89..95],
        10 => &KEYWORDS[95..97],
        12 => &KEYWORDS[97..98],
        13 => &KEYWORDS[98..99],
        _ => &KEYWORDS,
    }
}

fn keyword(text: &[u8]) -> Option<Mark>
    ensures { result ≡ spec.keyword text.now }
{
    lookup(words_of(text.len()), text)
}

fn is_bit(bytes: &[u8]) -> bool
    ensures { result ≡ spec.is_bit bytes.now }
{
    match bytes {
        [first, more @ ..] => (*first == b'0' || *first == b'1') && begins_with(more, b'\''),
        [] => false,
    }
}

fn sign<'a>(byte: u8) -> Symbol<'a>
    ensures { (at : ℕ) → symbol_of at result ≡ spec.sign byte }
{
    match byte {
        b';' => Symbol::Mark(Mark::Semicolon),
        b'.' => Symbol::Mark(Mark::Dot),
        b'(' => Symbol::Mark(Mark::Open),
        b')' => Symbol::Mark(Mark::Close),
        b':' => Symbol::Mark(Mark::Colon),
        b',' => Symbol::Mark(Mark::Comma),
        _ => Symbol::Other(byte),
    }
}

/// The symbol of a name or a reserved word that has this text.
fn word<'a>(text: &'a [u8]) -> Symbol<'a>
    ensures { (at : ℕ) → symbol_of at result ≡ spec.named (spec.keyword text.now) text.now at }
{
    match keyword(text) {
        None => Symbol::Name(text),
        Some(mark) => Symbol::Mark(mark),
    }
}

/// The symbol that starts with the byte `first`, and its length.
fn element<'a>(first: u8, bytes: &'a [u8], more: &[u8]) -> (Symbol<'a>, usize)
    requires { bytes.now ≡ first ∷ more.now }
    ensures symbol { (at : ℕ) → symbol_of at result.0 ≡ spec.symbol_at at first more.now }
    ensures size { result.1 ≡ spec.size first more.now }
    ensures some { 0 < result.1 }
    ensures within { result.1 ≤ length bytes.now }
{
    if is_letter(first) {
        let size = name_tail(more) + 1;
        return (word(&bytes[..size]), size);
    }
    if first == b'\'' && is_bit(more) {
        let mark = if begins_with(more, b'0') {
            Mark::Zero
        } else {
            Mark::One
        };
        return (Symbol::Mark(mark), 3);
    }
    if first == b'<' && begins_with(more, b'=') {
        return (Symbol::Mark(Mark::Arrow), 2);
    }
    (sign(first), 1)
}

/// The first token and what follows it; nothing where only blanks and comments are left. `total` is the length of the whole file.
pub fn next<'a>(total: usize, bytes: &'a [u8]) -> Option<(Token<'a>, &'a [u8])>
    requires { length bytes.now ≤ total }
    ensures token { MatchOption result (spec.skip bytes.now ≡ []) (λ r. spec.tokens total bytes.now ≡ token_of r.0 ∷ spec.tokens total r.1.now) }
    ensures less { MatchOption result (Unit {0}) (λ r. length r.1.now < length bytes.now) }
{
    let rest = skip(bytes);
    let [first, more @ ..] = rest else {
        return None;
    };
    let (symbol, size) = element(*first, rest, more);
    let at = total - rest.len();
    Some((Token { symbol, at }, &rest[size..]))
}
