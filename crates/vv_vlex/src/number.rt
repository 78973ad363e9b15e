//! Numbers.

ghost use Rattle.std.specs.Prelude.{◌≡◌, ◌≤◌, ◌<◌, ◌+◌, ◌*◌, ◌^◌, ◌||◌, ◌==◌, length, IfSome, option_map, drop};
ghost use Rattle.vv_vlex.specs.Bytes.{is_digit as is_spec_digit, is_letter as is_spec_letter, begins, grouped as spec_grouped};
ghost use Rattle.vv_vlex.specs.Numbers as spec;

use crate::class::{Class, begins_with, digit, grouped, is_digit, is_letter};

/// The largest number.
pub const MOST: u64 = 2_147_483_647;

/// A number as it is written: its digits, the digits of its exponent, of which there may be none, and its length.
#[derive(Clone, Copy, Debug, PartialEq, Eq)]
pub struct Literal<'a> {
    pub base: u32,
    pub digits: &'a [u8],
    pub power: &'a [u8],
    pub size: usize,
}

/// A number, if it isn't over the largest.
fn limited(number: u64) -> Option<u32>
    ensures { result ≡ spec.limited number }
{
    if number > MOST {
        return None;
    }
    Some(number as u32)
}

/// The number that digits stand for, if it isn't over the largest.
fn value(base: u32, digits: &[u8]) -> Option<u32>
    requires some { 1 ≤ base }
    requires few { base ≤ 16 }
    ensures value { result ≡ spec.limited (spec.value base digits.now) }
    ensures most { IfSome result (λ n. n ≤ 2147483647) }
{
    let mut rest = digits;
    let mut sum: u64 = 0;
    'digits: while let [first, more @ ..] = rest {
        if sum > MOST {
            return None;
        }
        if *first != b'_' {
            sum = sum * u64::from(base) + u64::from(digit(*first));
        }
        rest = more;
    }
    limited(sum)
}

/// A number times a power of the base, if it isn't over the largest.
fn scaled(number: u32, base: u32, power: u32) -> Option<u32>
    requires within { number ≤ 2147483647 }
    requires some { 2 ≤ base }
    requires few { base ≤ 16 }
    ensures value { result ≡ spec.limited (number * base ^ power) }
    ensures most { IfSome result (λ n. n ≤ 2147483647) }
{
    if number == 0 {
        return Some(0);
    }
    let mut product = u64::from(number);
    for turn in 0..power {
        product *= u64::from(base);
        if product > MOST {
            return None;
        }
    }
    Some(product as u32)
}

/// Where the digits of an exponent begin behind its letter and its sign; 0 where no exponent starts.
fn exponent_mark(bytes: &[u8]) -> usize
    ensures value { result ≡ spec.exponent_mark bytes.now }
    ensures within { result ≤ length bytes.now }
{
    let [letter, more @ ..] = bytes else {
        return 0;
    };
    if *letter != b'e' && *letter != b'E' {
        return 0;
    }
    match more {
        [first, ..] if is_digit(*first) => 1,
        [b'+', first, ..] if is_digit(*first) => 2,
        _ => 0,
    }
}

/// The digits of the exponent in front, and the length of the whole exponent.
#[tactic(auto, unfolding(crate::specs::Numbers::exponent))]
fn exponent(bytes: &[u8]) -> (&[u8], usize)
    ensures digits { result.0.now ≡ (spec.exponent bytes.now).0 }
    ensures size { result.1 ≡ (spec.exponent bytes.now).1 }
    ensures within { result.1 ≤ length bytes.now }
{
    let mark = exponent_mark(bytes);
    if mark == 0 {
        return (&[], 0);
    }
    let digits = &bytes[mark..];
    let size = grouped(Class::Decimal, digits);
    (&digits[..size], mark + size)
}

/// The number in front that is written without a base, whose digits are the first `size` bytes.
fn decimal(bytes: &[u8], size: usize) -> Literal<'_>
    requires { size ≤ length bytes.now }
    ensures value { spec.literal_of result ≡ spec.decimal_of size bytes.now }
    ensures within { result.size ≤ length bytes.now }
    ensures least { size ≤ result.size }
{
    let (power, behind) = exponent(&bytes[size..]);
    Literal {
        base: 10,
        digits: &bytes[..size],
        power,
        size: size + behind,
    }
}

/// The number that is written with this base, by the bytes behind the first `#`, before which `size` bytes stand.
fn based_inner(size: usize, base: u32, inner: &[u8]) -> Option<Literal<'_>>
    requires { size + 1 + length inner.now < 2 ^ 64 }
    ensures value { option_map spec.literal_of result ≡ spec.based_inner size base (spec_grouped (spec.has_extended) inner.now) inner.now }
    ensures within { IfSome result (λ l. l.size ≤ size + 1 + length inner.now) }
    ensures base { IfSome result (λ l. l.base ≡ base) }
    ensures least { IfSome result (λ l. size ≤ l.size) }
{
    let count = grouped(Class::Extended, inner);
    if count == 0 || !begins_with(&inner[count..], b'#') {
        return None;
    }
    let (power, behind) = exponent(&inner[count + 1..]);
    Some(Literal {
        base,
        digits: &inner[..count],
        power,
        size: size + count + behind + 2,
    })
}

/// The number in front that is written with a base, which stands in the first `size` bytes.
#[tactic(auto, unfolding(crate::specs::Numbers::based))]
fn based(bytes: &[u8], size: usize) -> Option<Literal<'_>>
    requires { size ≤ length bytes.now }
    ensures value { option_map spec.literal_of result ≡ spec.based size bytes.now }
    ensures within { IfSome result (λ l. l.size ≤ length bytes.now) }
    ensures base { IfSome result (λ l. (2 ≤ l.base) × (l.base ≤ 16)) }
    ensures least { IfSome result (λ l. size ≤ l.size) }
{
    let base = value(10, &bytes[..size])?;
    if base < 2 || base > 16 || !begins_with(&bytes[size..], b'#') {
        return None;
    }
    based_inner(size, base, &bytes[size + 1..])
}

/// The longest number in front, whether it is good or bad.
#[tactic(auto, unfolding(crate::specs::Numbers::longest))]
fn longest(bytes: &[u8]) -> Literal<'_>
    ensures value { spec.literal_of result ≡ spec.longest bytes.now }
    ensures within { result.size ≤ length bytes.now }
    ensures some { 2 ≤ result.base }
    ensures few { result.base ≤ 16 }
    ensures least { spec_grouped is_spec_digit bytes.now ≤ result.size }
{
    let size = grouped(Class::Decimal, bytes);
    match based(bytes, size) {
        Some(literal) => literal,
        None => decimal(bytes, size),
    }
}

/// Whether the base has all the digits.
fn are_below(base: u32, digits: &[u8]) -> bool
    ensures { result ≡ spec.are_below base digits.now }
{
    let mut rest = digits;
    'digits: while let [first, more @ ..] = rest {
        if *first != b'_' && digit(*first) >= base {
            return false;
        }
        rest = more;
    }
    true
}

/// The value of a literal, if it isn't over the largest.
fn value_of(literal: Literal<'_>) -> Option<u32>
    requires some { 2 ≤ literal.base }
    requires few { literal.base ≤ 16 }
    ensures value { result ≡ spec.limited (spec.literal_value (spec.literal_of literal.entry)) }
    ensures most { IfSome result (λ n. n ≤ 2147483647) }
{
    let number = value(literal.base, literal.digits)?;
    if number == 0 {
        return Some(0);
    }
    let power = value(10, literal.power)?;
    scaled(number, literal.base, power)
}

/// Whether a letter or a point follows.
fn goes_on(behind: &[u8]) -> bool
    ensures { result ≡ begins (λ c. is_spec_letter c || c == 46) behind.now }
{
    match behind {
        [first, ..] => is_letter(*first) || *first == b'.',
        [] => false,
    }
}

/// The value and the length of the number in front. None where the number is bad.
#[tactic(auto, unfolding(crate::specs::Numbers::number))]
pub fn number(bytes: &[u8]) -> Option<(u32, usize)>
    ensures value { result ≡ spec.number bytes.now }
    ensures within { IfSome result (λ n. n.1 ≤ length bytes.now) }
    ensures least { IfSome result (λ n. spec_grouped is_spec_digit bytes.now ≤ n.1) }
    ensures most { IfSome result (λ n. n.0 ≤ 2147483647) }
{
    let literal = longest(bytes);
    let behind = &bytes[literal.size..];
    if !are_below(literal.base, literal.digits) || goes_on(behind) {
        return None;
    }
    let value = value_of(literal)?;
    Some((value, literal.size))
}
