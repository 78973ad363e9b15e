ghost use Rattle.std.specs.Prelude.{◌≡◌, ◌<◌, ◌⊎◌};
ghost use Rattle.vv_bits.specs.Four.{and4_rule, or4_rule, xor4_rule, not4_rule, abs_rule, z_as_x};

use crate::nine::S9;
use crate::table::{Table, look_up};

/// A value of a Verilog bit: 0, 1, x and z.
#[derive(Clone, Copy, Debug, PartialEq, Eq)]
pub enum V4 {
    Zero,
    One,
    X,
    Z,
}

// In a table a cell is the place of its value, and rows and columns are in the order of the
// values: Zero 0, One 1, X 2, Z 3.

const AND: Table<4, 4> = Table {
    cells: [
        [0, 0, 0, 0], // 0 and
        [0, 1, 2, 2], // 1 and
        [0, 2, 2, 2], // x and
        [0, 2, 2, 2], // z and
    ],
};

const OR: Table<4, 4> = Table {
    cells: [
        [0, 1, 2, 2], // 0 or
        [1, 1, 1, 1], // 1 or
        [2, 1, 2, 2], // x or
        [2, 1, 2, 2], // z or
    ],
};

const XOR: Table<4, 4> = Table {
    cells: [
        [0, 1, 2, 2], // 0 xor
        [1, 0, 2, 2], // 1 xor
        [2, 2, 2, 2], // x xor
        [2, 2, 2, 2], // z xor
    ],
};

const NOT: Table<1, 4> = Table {
    cells: [
        [1, 0, 2, 2], // not
    ],
};

impl V4 {
    ghost use Rattle.vv_bits.specs.Four.{four_of};

    /// The value at place `n`.
    pub(crate) fn of_cell(n: u8) -> V4
        requires { n < 4 }
        ensures { result ≡ four_of n }
    {
        match n {
            0 => V4::Zero,
            1 => V4::One,
            2 => V4::X,
            _ => V4::Z,
        }
    }
}

/// What Verilog sees of a nine-valued bit.
pub fn abs4(a: S9) -> V4
    ensures { result ≡ abs_rule a }
{
    match a {
        S9::Zero | S9::L => V4::Zero,
        S9::One | S9::H => V4::One,
        S9::Z => V4::Z,
        S9::U | S9::X | S9::W | S9::Dash => V4::X,
    }
}

// An operator takes an operand z as x (`z_is_unknown`).

pub fn and4(a: V4, b: V4) -> V4
    ensures value { result ≡ and4_rule a b }
    ensures zero_forces { (a ≡ V4.Zero) ⊎ (b ≡ V4.Zero) → result ≡ V4.Zero }
    ensures z_is_unknown { result ≡ and4_rule (z_as_x a) (z_as_x b) }
{
    look_up!(V4, AND, a, b)
}

pub fn or4(a: V4, b: V4) -> V4
    ensures value { result ≡ or4_rule a b }
    ensures one_forces { (a ≡ V4.One) ⊎ (b ≡ V4.One) → result ≡ V4.One }
    ensures z_is_unknown { result ≡ or4_rule (z_as_x a) (z_as_x b) }
{
    look_up!(V4, OR, a, b)
}

pub fn xor4(a: V4, b: V4) -> V4
    ensures value { result ≡ xor4_rule a b }
    ensures z_is_unknown { result ≡ xor4_rule (z_as_x a) (z_as_x b) }
{
    look_up!(V4, XOR, a, b)
}

pub fn not4(a: V4) -> V4
    ensures value { result ≡ not4_rule a }
    ensures z_is_unknown { result ≡ not4_rule (z_as_x a) }
{
    V4::of_cell(NOT.at(0, a as usize))
}
