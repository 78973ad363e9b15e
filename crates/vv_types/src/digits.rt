//! Binary digits of numbers.

ghost use Rattle.std.specs.Prelude.{◌≡◌, ◌<◌, ◌≤◌, ◌++◌, ◌^◌, ◌/◌, ◌%◌, OnOk, OnErr};
ghost use Rattle.vv_types.specs.Number.{digit, vector_of};
ghost use Rattle.vv_types.specs.Prefix.{Extends};
ghost use Rattle.vv_types.specs.Codec.{digit_count, reach, int_width, enum_width};

use vv_base::fault::Memory;
use vv_bits::S9;

/// The fewest binary digits that hold `n`.
fn digits_of(n: u32) -> u32
    ensures value { result ≡ digit_count n }
    ensures bound { result ≤ 32 }
    ensures small { n < 2 ^ 31 → result ≤ 31 }
{
    if n == 0 { 0 } else { n.ilog2() + 1 }
}

/// What the digits beside the sign hold.
fn reach(n: i32) -> u32
    ensures value { result ≡ reach n }
    ensures bound { result < 2 ^ 31 }
{
    if n < 0 { !n as u32 } else { n as u32 }
}

/// The fewest bits that hold the numbers from `low` to `high`.
pub(crate) fn int_width(low: i32, high: i32) -> u32
    ensures value { result ≡ int_width low high }
    ensures bound { result ≤ 32 }
{
    if low < 0 {
        1 + digits_of(reach(low).max(reach(high)))
    } else {
        digits_of(reach(high)).max(1)
    }
}

/// The fewest bits that hold the positions of `count` literals.
pub(crate) fn enum_width(count: u32) -> u32
    ensures value { result ≡ enum_width count }
    ensures bound { result ≤ 32 }
{
    digits_of(count.saturating_sub(1)).max(1)
}

/// Digit `k` of `n`, counted from the right.
fn digit_of(n: u32, k: u32) -> S9
    requires { k < 32 }
    ensures { result ≡ digit (n / 2 ^ k % 2) }
{
    if (n >> k) % 2 == 0 { S9::Zero } else { S9::One }
}

/// Appends the last `width` binary digits of `n`. Where it fails, some of them may stand there.
pub(crate) fn push_digits(width: u32, n: u32, into: &mut Vec<S9>) -> Result<(), Memory>
    requires { width ≤ 32 }
    ensures ok { OnOk result (into.new.items ≡ into.old.items ++ vector_of width n) }
    ensures err { OnErr result (Extends into.old.items into.new.items) }
{
    for k in (0..width).rev() {
        into.push(digit_of(n, k))?;
    }
    Ok(())
}
