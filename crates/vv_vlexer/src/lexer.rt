//! Cuts a text into tokens.

use crate::token::{Kind, Sign, Token, Word};
use std::alloc::Global;
use std::str;
use vv_vtree::words::is_reserved;
use vv_vtree::{VCode, VFault};

/// The tokens of a text, or the first byte at which none starts.
pub fn tokens<'t>(alloc: Global, text: &'t [u8]) -> Result<Vec<Token<'t>>, VFault> {
    let mut tokens = Vec::new(alloc);
    let mut passed = 0;
    for (offset, byte) in text.iter().enumerate() {
        if offset < passed || is_space(*byte) {
            continue;
        }
        let at = offset as u64;
        let Some((kind, length)) = first_token(&text[offset..]) else {
            return Err(VFault::Refused {
                code: VCode::V1,
                at,
            });
        };
        passed = offset.saturating_add(length);
        tokens.push(Token { kind, at })?;
    }
    Ok(tokens)
}

fn is_space(byte: u8) -> bool {
    matches!(byte, b' ' | b'\t' | b'\n' | b'\r')
}

/// Whether the byte belongs to a run: a letter, a digit, `_` or `$`.
fn is_of_run(byte: u8) -> bool {
    byte.is_ascii_alphanumeric() || byte == b'_' || byte == b'$'
}

/// The longest run that the text begins with, and the text behind it.
fn split_run(text: &[u8]) -> (&[u8], &[u8]) {
    match text.iter().position(|byte| !is_of_run(*byte)) {
        Some(length) => text.split_at(length),
        None => (text, &[]),
    }
}

/// The token that the text begins with, and its length.
fn first_token<'t>(text: &'t [u8]) -> Option<(Kind<'t>, usize)> {
    let (run, behind) = split_run(text);
    match run {
        [] => {
            let (sign, length) = Sign::first(text)?;
            Some((Kind::Sign(sign), length))
        }
        [b'0'..=b'9', ..] => number_token(run, behind),
        _ if is_reserved(run) => Some((Kind::Word(Word::of(run)), run.len())),
        [b'$', ..] => None,
        _ => Some((Kind::Name(run), run.len())),
    }
}

/// The token that begins with this run, whose first byte is a digit: a number, or bits where `'b` stands behind it.
fn number_token<'t>(run: &'t [u8], behind: &'t [u8]) -> Option<(Kind<'t>, usize)> {
    let number = number(run)?;
    match behind {
        [b'\'', b'b', digits @ ..] => {
            let (digits, _) = split_run(digits);
            if is_bits(digits, number) {
                let length = run.len().saturating_add(2).saturating_add(digits.len());
                Some((Kind::Bits(digits), length))
            } else {
                None
            }
        }
        _ => Some((Kind::Number(number), run.len())),
    }
}

/// Whether the run has only digits of bits, and as many as told.
fn is_bits(run: &[u8], count: u32) -> bool {
    run.len() == count as usize
        && !run.is_empty()
        && run
            .iter()
            .all(|byte| matches!(*byte, b'0' | b'1' | b'x' | b'z'))
}

/// The number that the run is, if it is one of decimal digits without leading zeros, below 2,147,483,648.
fn number(run: &[u8]) -> Option<u32> {
    if !run.iter().all(|byte| byte.is_ascii_digit())
        || (run.len() > 1 && run.first() == Some(&b'0'))
    {
        return None;
    }
    let digits = str::from_utf8(run).ok()?;
    let number = digits.parse::<u32>().ok()?;
    if number < 0x8000_0000 {
        Some(number)
    } else {
        None
    }
}
