//! Laws of the codec and of the numbers of vectors. Each function does nothing: its contract is the law.

ghost use Rattle.std.specs.Prelude.{◌≡◌, ℕ, suc, ◌+◌, ◌-◌, ◌*◌, ◌%◌, ◌^◌, ◌<◌, ◌≤◌, ℤ, pos, ◌≤ℤ◌, ◌<ℤ◌, ◌+ℤ◌, ◌-ℤ◌, ◌*ℤ◌, List, length};
ghost use Rattle.std.specs.List.{AllByRecursion};
ghost use Rattle.vv_bits.specs.declared.nine.S9.{S9};
ghost use Rattle.vv_types.specs.Number.{IsBinary, number_of, signed_number_of, vector_of, signed_vector_of, residue};
ghost use Rattle.vv_types.specs.Codec.{IsFewest, IsHeldBy, IsValueOf, bits_of, int_width, enum_width, scalar_codec, width_of};

use crate::base::BaseType;
use crate::codec::Codec;
use crate::value::Value;

/// Numbers that are not below 0 have the fewest bits that hold the highest one.
pub fn natural_width_is_fewest(low: i32, high: i32)
    requires from { pos 0 ≤ℤ low }
    requires to { low ≤ℤ high }
    ensures { IsFewest (λ w. high <ℤ pos (2 ^ w)) (int_width low high) }
{}

/// Where the lowest number is below 0, the width is the fewest bits whose two's complement has the lowest and the highest one.
pub fn signed_width_is_fewest(low: i32, high: i32)
    requires { low <ℤ pos 0 }
    ensures { IsFewest (λ w. IsHeldBy w low × IsHeldBy w high) (int_width low high) }
{}

/// Positions have the fewest bits that hold the last one.
pub fn position_width_is_fewest(count: u32)
    ensures { IsFewest (λ w. count - 1 < 2 ^ w) (enum_width count) }
{}

/// A scalar has at most 32 bits.
pub fn scalars_have_few_bits(base: BaseType, low: i32, high: i32, count: u32)
    ensures { width_of (scalar_codec base low high count) ≤ 32 }
{}

/// A value has as many bits as the width of its codec.
pub fn bits_are_as_many_as_the_width(codec: &Codec, value: &Value)
    requires { IsValueOf codec.now value.now }
    ensures { length (bits_of codec.now value.now) ≡ width_of codec.now }
{}

/// The bits of a number of a range, read as a number, are that number.
pub fn bits_have_the_number(low: i32, high: i32, x: i32)
    requires from { low ≤ℤ x }
    requires to { x ≤ℤ high }
    ensures natural { pos 0 ≤ℤ low → pos (number_of (signed_vector_of (int_width low high) x)) ≡ x }
    ensures signed { low <ℤ pos 0 → signed_number_of (signed_vector_of (int_width low high) x) ≡ x }
{}

/// The bits of a position, read as a number, are that position.
pub fn bits_have_the_position(count: u32, position: u32)
    requires { position < count }
    ensures { number_of (vector_of (enum_width count) position) ≡ position }
{}

/// Vectors of numbers and numbers of vectors.
pub fn vectors_and_numbers()
    ensures length { (k n : ℕ) → length (vector_of k n) ≡ k }
    ensures number { (k n : ℕ) → number_of (vector_of k n) ≡ n % 2 ^ k }
    ensures cut { (k n w : ℕ) → k ≤ w → vector_of k (n % 2 ^ w) ≡ vector_of k n }
    ensures vector { (xs : List S9) → AllByRecursion IsBinary xs → vector_of (length xs) (number_of xs) ≡ xs }
    ensures signed_number { (k : ℕ) (z : ℤ) → IsHeldBy (suc k) z → signed_number_of (signed_vector_of (suc k) z) ≡ z }
    ensures signed_vector { (xs : List S9) → residue (length xs) (signed_number_of xs) ≡ number_of xs }
{}

/// Modulo a power of two, a sum, a difference and a product of numbers are those of what is left of the numbers.
pub fn sums_and_products()
    ensures sum { (k : ℕ) (a b : ℤ) → residue k (a +ℤ b) ≡ (residue k a + residue k b) % 2 ^ k }
    ensures difference { (k : ℕ) (a b : ℤ) → residue k (a -ℤ b) ≡ (residue k a + (2 ^ k - residue k b)) % 2 ^ k }
    ensures product { (k : ℕ) (a b : ℤ) → residue k (a *ℤ b) ≡ (residue k a * residue k b) % 2 ^ k }
{}
