//! Operands that are numbers, or vectors that stand for numbers.

ghost use Rattle.std.specs.Prelude.{◌≡◌, ◌<◌, ◌≤◌, ◌/◌, ◌%◌, ◌^◌, ℕ, get_or, length};
ghost use Rattle.vv_types.specs.Number.{bit, digit};
ghost use Rattle.vv_num_vectors.specs.Operands.{IsIn, IsWorth, digits_of, elements_of, is_meta_in, sign_of, size_of};

use vv_bits::S9;
use vv_types::{Cells, Place};
use vv_vectors::{any_meta, bit, scalar};

/// A vector of `numeric_std` that stands for a number, or the cell of a number.
#[derive(Clone, Copy, Debug, PartialEq, Eq)]
pub enum Operand {
    Unsigned(Place),
    Signed(Place),
    Number(Place),
}

/// What an element counts.
pub(crate) fn counts(x: S9) -> u8
    ensures value { result ≡ bit x }
    ensures small { result < 2 }
{
    match x {
        S9::One | S9::H => 1,
        _ => 0,
    }
}

/// Digit `k` of `n`, counted from the right.
fn digit_of(n: u32, k: u32) -> S9
    requires { k < 32 }
    ensures { result ≡ digit (n / 2 ^ k % 2) }
{
    if (n >> k) % 2 == 0 { S9::Zero } else { S9::One }
}

impl Operand {
    /// How many elements the operand has. A number has its 32 digits.
    pub(crate) fn size(self) -> u32
        ensures { result ≡ size_of self }
    {
        match self {
            Operand::Unsigned(place) | Operand::Signed(place) => place.size,
            Operand::Number(_) => 32,
        }
    }

    /// Whether an element is other than 0, 1, L and H.
    pub(crate) fn any_meta(self, cells: &Cells) -> bool
        requires { IsIn cells.now self }
        ensures { result ≡ is_meta_in cells.now self }
    {
        match self {
            Operand::Unsigned(place) | Operand::Signed(place) => any_meta(cells, place),
            Operand::Number(_) => false,
        }
    }

    /// Element `k`, counted from the left.
    pub(crate) fn element(self, cells: &Cells, k: u32) -> S9
        requires lies { IsIn cells.now self }
        requires within { k < size_of self }
        ensures { result ≡ get_or (elements_of cells.now self) k result }
    {
        match self {
            Operand::Unsigned(place) | Operand::Signed(place) => bit(cells, place, k),
            Operand::Number(place) => digit_of(scalar(cells, place).cast_unsigned(), 31 - k),
        }
    }

    /// The element that repeats on the left where more elements are asked for.
    pub(crate) fn sign(self, cells: &Cells) -> S9
        requires { IsIn cells.now self }
        ensures sign { result ≡ sign_of cells.now self }
        ensures worth { IsWorth cells.now self }
    {
        match self {
            Operand::Unsigned(_) => S9::Zero,
            Operand::Signed(place) => {
                if place.size == 0 {
                    S9::Zero
                } else {
                    bit(cells, place, 0)
                }
            }
            Operand::Number(place) => digit_of(scalar(cells, place).cast_unsigned(), 31),
        }
    }

    /// Element `k`, counted from the left, where the operand has so many elements.
    pub(crate) fn digit(self, cells: &Cells, length: u32, k: u32) -> S9
        requires lies { IsIn cells.now self }
        requires long { size_of self ≤ length }
        requires within { k < length }
        ensures { result ≡ get_or (digits_of cells.now self length) k result }
    {
        let more = length - self.size();
        if k < more {
            self.sign(cells)
        } else {
            self.element(cells, k - more)
        }
    }
}
