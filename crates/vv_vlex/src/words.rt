//! Identifiers and reserved words.

ghost use Rattle.std.specs.Prelude.{◌≡◌, ℕ, List, length, map};
ghost use Rattle.vv_vlex.specs.Elements.{element_of};
ghost use Rattle.vv_vlex.specs.Words as spec;

use crate::element::Element;
use crate::word::{WORDS, Word};

/// Whether this is the word in some letter case.
#[tactic(auto, unfolding(crate::specs::Words::is_spelled))]
fn is_spelled(word: &[u8], text: &[u8]) -> bool
    ensures { result ≡ spec.is_spelled word.now text.now }
{
    word.eq_ignore_ascii_case(text)
}

fn lookup(table: &[(&[u8], Word)], text: &[u8]) -> Option<Word>
    ensures { result ≡ spec.lookup (map (λ k. (k.0.now, k.1)) table.now) text.now }
{
    let mut rest = table;
    'words: while let [entry, more @ ..] = rest {
        if is_spelled(entry.0, text) {
            return Some(entry.1);
        }
        rest = more;
    }
    None
}

/// The reserved words of a length, among which a text of that length is looked up. A longer table does no harm.
fn words_of(size: usize) -> &'static [(&'static [u8], Word)]
    ensures { (text : List ℕ) → length text ≡ size → spec.lookup (map (λ k. (k.0.now, k.1)) result.now) text ≡ spec.word_of text }
{
    match size {
        1 => &WORDS[..0],
        2 => &WORDS[0..7],
        3 => &WORDS[7..28],
        4 => &WORDS[28..46],
        5 => &WORDS[46..59],
        6 => &WORDS[59..73],
        7 => &WORDS[73..81],
        8 => &WORDS[81..88],
        9 => &WORDS[88..93],
        10 => &WORDS[93..95],
        11 => &WORDS[..0],
        12 => &WORDS[95..96],
        13 => &WORDS[96..97],
        _ => &WORDS,
    }
}

/// The reserved word that has this text in some letter case.
fn word(text: &[u8]) -> Option<Word>
    ensures { result ≡ spec.word_of text.now }
{
    lookup(words_of(text.len()), text)
}

/// The identifier or the reserved word that has this text.
pub fn named<'a>(text: &'a [u8]) -> Element<'a>
    ensures { element_of result ≡ spec.named (spec.word_of text.now) text.now }
{
    match word(text) {
        Some(word) => Element::Word(word),
        None => Element::Id(text),
    }
}
