//! Strings and bit strings.

ghost use Rattle.std.specs.Prelude.{◌≡◌, ◌≤◌, ◌<◌, length, IfSome};
ghost use Rattle.vv_vlex.specs.Bytes.{has};
ghost use Rattle.vv_vlex.specs.Quoted as spec;

use crate::class::{Class, begins_with, grouped, is_printable};

/// The length of the longest string that goes on so behind its first quote.
pub fn closed(bytes: &[u8]) -> Option<usize>
    ensures value { result ≡ spec.closed bytes.now }
    ensures within { IfSome result (λ n. n ≤ length bytes.now) }
    ensures some { IfSome result (λ n. 0 < n) }
{
    let mut rest = bytes;
    let mut count = 0;
    let mut end = None;
    'string: while let [first, more @ ..] = rest {
        if !is_printable(*first) {
            break;
        }
        count += 1;
        rest = more;
        if *first == b'"' {
            end = Some(count);
            if !begins_with(more, b'"') {
                break;
            }
            count += 1;
            rest = &more[1..];
        }
    }
    end
}

/// Whether the line or the file ends before any other byte that a string can't have.
pub fn is_open(bytes: &[u8]) -> bool
    ensures { result ≡ spec.is_open bytes.now }
{
    let mut rest = bytes;
    'line: while let [first, more @ ..] = rest {
        if !is_printable(*first) {
            return *first == b'\r' || *first == b'\n';
        }
        rest = more;
    }
    true
}

/// The digits that a bit string with this letter has.
pub fn class_of(letter: u8) -> Option<Class>
    ensures { result ≡ spec.class_of letter }
{
    match letter {
        b'b' | b'B' => Some(Class::Binary),
        b'o' | b'O' => Some(Class::Octal),
        b'x' | b'X' => Some(Class::Hexadecimal),
        _ => None,
    }
}

/// Whether these are digits of the class with single underscores between them.
pub fn are_digits(class: Class, text: &[u8]) -> bool
    ensures { result ≡ spec.are_digits (has class) text.now }
{
    !text.is_empty() && grouped(class, text) == text.len()
}
