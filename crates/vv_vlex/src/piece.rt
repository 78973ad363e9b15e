//! One piece of a file: white space, a comment or a lexical element.

ghost use Rattle.std.specs.Prelude.{◌≡◌, ◌≤◌, ◌<◌, ◌+◌, ◌∷◌, true, length, IfOk, IfSome, option_map};
ghost use Rattle.vv_vlex.specs.Bytes.{is_letter as is_spec_letter, is_blank as is_spec_blank};
ghost use Rattle.vv_vlex.specs.Elements.{element_of};
ghost use Rattle.vv_vlex.specs.Pieces as spec;
ghost use Rattle.vv_vlex.specs.Quoted.{closed as closed_of};

use crate::class::{Class, begins_with, is_blank, is_digit, is_letter, is_printable, tail};
use crate::element::Element;
use crate::number::number;
use crate::quoted::{are_digits, class_of, closed, is_open};
use crate::sign::Sign;
use crate::word::Word;
use crate::words::named;
use vv_base::fault::Rule;

/// A piece: its element, if it is one, and its length.
#[derive(Clone, Copy, Debug, PartialEq, Eq)]
pub struct Piece<'a> {
    pub element: Option<Element<'a>>,
    pub size: usize,
}

/// How many bytes of white space stand in front.
fn blanks(bytes: &[u8]) -> usize
    ensures value { result ≡ spec.blanks bytes.now }
    ensures within { result ≤ length bytes.now }
{
    let mut rest = bytes;
    let mut count = 0;
    'blanks: while let [first, more @ ..] = rest {
        if !is_blank(*first) {
            break;
        }
        count += 1;
        rest = more;
    }
    count
}

/// How many bytes stand before the end of the line.
fn line(bytes: &[u8]) -> usize
    ensures value { result ≡ spec.line bytes.now }
    ensures within { result ≤ length bytes.now }
{
    let mut rest = bytes;
    let mut count = 0;
    'line: while let [first, more @ ..] = rest {
        if *first == b'\n' {
            break;
        }
        count += 1;
        rest = more;
    }
    count
}

fn double_sign(first: u8, second: u8) -> Option<Sign>
    ensures { result ≡ spec.double_sign first second }
{
    match (first, second) {
        (b':', b'=') => Some(Sign::Becomes),
        (b'<', b'>') => Some(Sign::Unconstrained),
        (b'<', b'=') => Some(Sign::LessEqual),
        (b'=', b'>') => Some(Sign::Arrow),
        (b'/', b'=') => Some(Sign::NotEqual),
        (b'>', b'=') => Some(Sign::GreaterEqual),
        (b'*', b'*') => Some(Sign::StarStar),
        _ => None,
    }
}

fn single_sign(byte: u8) -> Option<Sign>
    ensures { result ≡ spec.single_sign byte }
{
    match byte {
        b';' => Some(Sign::Semicolon),
        b',' => Some(Sign::Comma),
        b'.' => Some(Sign::Dot),
        b'(' => Some(Sign::Open),
        b')' => Some(Sign::Close),
        b':' => Some(Sign::Colon),
        b'|' => Some(Sign::Bar),
        b'=' => Some(Sign::Equal),
        b'<' => Some(Sign::Less),
        b'>' => Some(Sign::Greater),
        b'+' => Some(Sign::Plus),
        b'-' => Some(Sign::Minus),
        b'&' => Some(Sign::Ampersand),
        b'*' => Some(Sign::Star),
        b'/' => Some(Sign::Slash),
        b'\'' => Some(Sign::Tick),
        _ => None,
    }
}

/// The longest sign that starts with the byte `first`.
#[tactic(auto, unfolding(crate::specs::Pieces::sign_at))]
fn sign<'a>(first: u8, more: &[u8]) -> Result<Piece<'a>, Rule>
    ensures value { spec.result_of result ≡ spec.sign_at first more.now }
    ensures size { IfOk result (λ p. spec.IsSize p.size (1 + length more.now)) }
{
    if let [second, ..] = more
        && let Some(sign) = double_sign(first, *second)
    {
        return Ok(of_element(Element::Sign(sign), 2));
    }
    match single_sign(first) {
        Some(sign) => Ok(of_element(Element::Sign(sign), 1)),
        None => Err(Rule::X1),
    }
}

fn of_element<'a>(element: Element<'a>, size: usize) -> Piece<'a>
    ensures { result ≡ record { element = Some element.entry; size = size } }
{
    Piece {
        element: Some(element),
        size,
    }
}

/// The identifier or reserved word that starts with a letter.
#[tactic(auto, unfolding(crate::specs::Pieces::word_at))]
fn word<'a>(first: u8, bytes: &'a [u8], more: &[u8]) -> Result<Piece<'a>, Rule>
    requires { bytes.now ≡ first ∷ more.now }
    ensures value { spec.result_of result ≡ spec.word_at first more.now }
    ensures size { IfOk result (λ p. spec.IsSize p.size (length bytes.now)) }
{
    let size = tail(Class::Alphanumeric, more) + 1;
    if begins_with(&bytes[size..], b'_') {
        return Err(Rule::X1);
    }
    Ok(of_element(named(&bytes[..size]), size))
}

/// The bit string that starts with this letter; None where the letter starts a word.
#[tactic(auto, unfolding(crate::specs::Pieces::bits_at))]
fn bit_string<'a>(letter: u8, bytes: &'a [u8], more: &[u8]) -> Option<Result<Piece<'a>, Rule>>
    requires { bytes.now ≡ letter ∷ more.now }
    ensures value { option_map spec.result_of result ≡ spec.bits_at letter more.now }
    ensures size { IfSome result (λ r. IfOk r (λ p. spec.IsSize p.size (length bytes.now))) }
{
    let class = class_of(letter)?;
    match more {
        [b'"', inner @ ..] => bits(class, letter, bytes, inner),
        _ => None,
    }
}

/// The bit string of a letter, whose quote stands before `inner`; None where no string starts there.
fn bits<'a>(
    class: Class,
    letter: u8,
    bytes: &'a [u8],
    inner: &[u8],
) -> Option<Result<Piece<'a>, Rule>>
    requires { bytes.now ≡ letter ∷ 34 ∷ inner.now }
    ensures value { option_map spec.result_of result ≡ spec.bits_closed (closed_of inner.now) class letter inner.now }
    ensures size { IfSome result (λ r. IfOk r (λ p. spec.IsSize p.size (length bytes.now))) }
{
    let size = closed(inner)?;
    if are_digits(class, &inner[..size - 1]) {
        let text = &bytes[..size + 2];
        Some(Ok(of_element(Element::BitStr(text), size + 2)))
    } else {
        Some(Err(Rule::X5))
    }
}

/// The string that starts with a quote.
#[tactic(auto, unfolding(crate::specs::Pieces::string_at))]
fn string<'a>(bytes: &'a [u8], more: &'a [u8]) -> Result<Piece<'a>, Rule>
    requires { bytes.now ≡ 34 ∷ more.now }
    ensures value { spec.result_of result ≡ spec.string_at more.now }
    ensures size { IfOk result (λ p. spec.IsSize p.size (1 + length more.now)) }
{
    match closed(more) {
        Some(size) => {
            let written = &bytes[..size + 1];
            let inner = &more[..size - 1];
            Ok(of_element(Element::Str { written, inner }, size + 1))
        }
        None if is_open(more) => Err(Rule::X2),
        None => Err(Rule::X1),
    }
}

/// The character that starts with an apostrophe, where one does.
#[tactic(auto, unfolding(crate::specs::Pieces::character_at))]
fn character<'a>(more: &[u8]) -> Option<Piece<'a>>
    ensures value { option_map (λ p. Ok (spec.piece_of p)) result ≡ spec.character_at more.now }
    ensures size { IfSome result (λ p. spec.IsSize p.size (1 + length more.now)) }
{
    match more {
        [byte, b'\'', ..] if is_printable(*byte) => Some(of_element(Element::Char(*byte), 3)),
        _ => None,
    }
}

/// The piece that starts with the byte `first`, or the rule that is broken there. `is_named` says that the element before
/// is one behind which an apostrophe is the tick.
#[tactic(auto, unfolding(crate::specs::Pieces::piece_at))]
pub fn piece_at<'a>(
    is_named: bool,
    first: u8,
    bytes: &'a [u8],
    more: &'a [u8],
) -> Result<Piece<'a>, Rule>
    requires { bytes.now ≡ first ∷ more.now }
    ensures value { spec.result_of result ≡ spec.piece_at is_named first more.now }
    ensures size { IfOk result (λ p. spec.IsSize p.size (length bytes.now)) }
{
    if is_blank(first) {
        let size = blanks(more) + 1;
        return Ok(Piece {
            element: None,
            size,
        });
    }
    if first == b'-' && begins_with(more, b'-') {
        let size = line(more) + 1;
        return Ok(Piece {
            element: None,
            size,
        });
    }
    if is_letter(first) {
        return match bit_string(first, bytes, more) {
            Some(found) => found,
            None => word(first, bytes, more),
        };
    }
    if is_digit(first) {
        return match number(bytes) {
            Some((value, size)) => Ok(of_element(Element::Int(value as i32), size)),
            None => Err(Rule::X3),
        };
    }
    match first {
        b'"' => string(bytes, more),
        b'\\' => Err(Rule::X4),
        b'\'' if !is_named => match character(more) {
            Some(found) => Ok(found),
            None => sign(first, more),
        },
        _ => sign(first, more),
    }
}

/// Whether an apostrophe behind this element is the tick.
#[tactic(auto, unfolding(crate::specs::Pieces::takes_tick))]
pub fn takes_tick(element: Element<'_>) -> bool
    ensures { result ≡ spec.takes_tick (element_of element.entry) }
{
    match element {
        Element::Id(_) => true,
        Element::Word(Word::Range | Word::All) => true,
        Element::Sign(Sign::Close) => true,
        _ => false,
    }
}
