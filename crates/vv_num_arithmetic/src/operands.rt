//! Operands as numbers modulo 2 to the 128.

ghost use Rattle.std.specs.Prelude.{◌≡◌, ◌^◌, ◌<◌, ◌≤◌, ℤ, pos, List, length, unsigned_abs};
ghost use Rattle.vv_bits.specs.declared.nine.S9.{S9};
ghost use Rattle.vv_types.specs.Codec.{reach};
ghost use Rattle.vv_types.specs.Number.{number_of, residue, signed_number_of};
ghost use Rattle.vv_num_arithmetic.specs.Arithmetic.{apply, value_of};

/// How the elements of a vector are read.
#[derive(Clone, Copy, Debug, PartialEq, Eq)]
pub enum VectorKind {
    Unsigned,
    Signed,
}

/// An operator on two operands.
#[derive(Clone, Copy, Debug, PartialEq, Eq)]
pub enum Operator {
    Add,
    Subtract,
    Multiply,
}

/// A number of `size` digits with its first digit repeated on the left.
pub(crate) fn sign_extended(n: u128, size: u32) -> u128
    requires { size ≤ 128 }
    ensures { (xs : List S9) → length xs ≡ size → number_of xs ≡ n → result ≡ residue 128 (signed_number_of xs) }
{
    if size == 0 || size == 128 {
        return n;
    }
    if (n >> (size - 1)) % 2 == 0 {
        n
    } else {
        n.wrapping_sub(1 << size)
    }
}

/// The value of a vector of `size` elements with the number `n`.
pub(crate) fn extended(kind: VectorKind, n: u128, size: u32) -> u128
    requires { size ≤ 128 }
    ensures { (xs : List S9) → length xs ≡ size → number_of xs ≡ n → result ≡ residue 128 (value_of kind xs) }
{
    match kind {
        VectorKind::Unsigned => n,
        VectorKind::Signed => sign_extended(n, size),
    }
}

/// The last `size` digits of a number.
pub(crate) fn cut(z: i32, size: u32) -> u128
    requires { size ≤ 128 }
    ensures { result ≡ residue size z }
{
    let digits = i128::from(z).cast_unsigned();
    if size < 128 {
        digits % (1 << size)
    } else {
        digits
    }
}

/// What an operator makes of two values.
pub(crate) fn combined(operator: Operator, x: u128, y: u128) -> u128
    ensures { (v w : ℤ) → x ≡ residue 128 v → y ≡ residue 128 w → result ≡ residue 128 (apply operator v w) }
{
    match operator {
        Operator::Add => x.wrapping_add(y),
        Operator::Subtract => x.wrapping_sub(y),
        Operator::Multiply => x.wrapping_mul(y),
    }
}

/// A value, or its opposite where it is below 0.
pub(crate) fn distance(x: u128) -> u128
    ensures { (v : ℤ) → reach v < 2 ^ 127 → x ≡ residue 128 v → result ≡ residue 128 (pos (unsigned_abs v)) }
{
    if x >> 127 == 0 {
        x
    } else {
        combined(Operator::Subtract, 0, x)
    }
}
