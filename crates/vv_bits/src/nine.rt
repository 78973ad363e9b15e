ghost use Rattle.std.specs.Prelude.{◌≡◌, ◌<◌};
ghost use Rattle.vv_bits.specs.Nine.{and_rule, or_rule, xor_rule, not_rule, nand_rule, nor_rule, xnor_rule, IsSix};
ghost use Rattle.vv_bits.specs.Four.{abs_rule, and4_rule, or4_rule, xor4_rule, not4_rule};

use crate::table::{Table, look_up};

/// A value of `std_ulogic`, in the order of its declaration: uninitialized, unknown, 0, 1, high
/// impedance, weak unknown, weak 0, weak 1, and don't care.
#[derive(Clone, Copy, Debug, PartialEq, Eq)]
pub enum S9 {
    U,
    X,
    Zero,
    One,
    Z,
    W,
    L,
    H,
    Dash,
}

// In a table a cell is the place of its value, and rows and columns are in the order of the
// values: U 0, X 1, Zero 2, One 3, Z 4, W 5, L 6, H 7, Dash 8.

const AND: Table<9, 9> = Table {
    cells: [
        [0, 0, 2, 0, 0, 0, 2, 0, 0], // U and
        [0, 1, 2, 1, 1, 1, 2, 1, 1], // X and
        [2, 2, 2, 2, 2, 2, 2, 2, 2], // 0 and
        [0, 1, 2, 3, 1, 1, 2, 3, 1], // 1 and
        [0, 1, 2, 1, 1, 1, 2, 1, 1], // Z and
        [0, 1, 2, 1, 1, 1, 2, 1, 1], // W and
        [2, 2, 2, 2, 2, 2, 2, 2, 2], // L and
        [0, 1, 2, 3, 1, 1, 2, 3, 1], // H and
        [0, 1, 2, 1, 1, 1, 2, 1, 1], // - and
    ],
};

const OR: Table<9, 9> = Table {
    cells: [
        [0, 0, 0, 3, 0, 0, 0, 3, 0], // U or
        [0, 1, 1, 3, 1, 1, 1, 3, 1], // X or
        [0, 1, 2, 3, 1, 1, 2, 3, 1], // 0 or
        [3, 3, 3, 3, 3, 3, 3, 3, 3], // 1 or
        [0, 1, 1, 3, 1, 1, 1, 3, 1], // Z or
        [0, 1, 1, 3, 1, 1, 1, 3, 1], // W or
        [0, 1, 2, 3, 1, 1, 2, 3, 1], // L or
        [3, 3, 3, 3, 3, 3, 3, 3, 3], // H or
        [0, 1, 1, 3, 1, 1, 1, 3, 1], // - or
    ],
};

const XOR: Table<9, 9> = Table {
    cells: [
        [0, 0, 0, 0, 0, 0, 0, 0, 0], // U xor
        [0, 1, 1, 1, 1, 1, 1, 1, 1], // X xor
        [0, 1, 2, 3, 1, 1, 2, 3, 1], // 0 xor
        [0, 1, 3, 2, 1, 1, 3, 2, 1], // 1 xor
        [0, 1, 1, 1, 1, 1, 1, 1, 1], // Z xor
        [0, 1, 1, 1, 1, 1, 1, 1, 1], // W xor
        [0, 1, 2, 3, 1, 1, 2, 3, 1], // L xor
        [0, 1, 3, 2, 1, 1, 3, 2, 1], // H xor
        [0, 1, 1, 1, 1, 1, 1, 1, 1], // - xor
    ],
};

const NOT: Table<1, 9> = Table {
    cells: [
        [0, 1, 3, 2, 1, 1, 3, 2, 1], // not
    ],
};

impl S9 {
    ghost use Rattle.vv_bits.specs.Nine.{nine_of};

    /// The value at place `n`.
    pub(crate) fn of_cell(n: u8) -> S9
        requires { n < 9 }
        ensures { result ≡ nine_of n }
    {
        match n {
            0 => S9::U,
            1 => S9::X,
            2 => S9::Zero,
            3 => S9::One,
            4 => S9::Z,
            5 => S9::W,
            6 => S9::L,
            7 => S9::H,
            _ => S9::Dash,
        }
    }
}

// On the six values that are not weak (`IsSix`), each operator below agrees with Verilog's: what
// Verilog sees of the answer is its own answer to what it sees of the operands (`abstraction`),
// and the answer is one of the six again (`closed`).

pub fn and9(a: S9, b: S9) -> S9
    ensures value { result ≡ and_rule a b }
    ensures abstraction { IsSix a → IsSix b → abs_rule result ≡ and4_rule (abs_rule a) (abs_rule b) }
    ensures closed { IsSix a → IsSix b → IsSix result }
{
    look_up!(S9, AND, a, b)
}

pub fn or9(a: S9, b: S9) -> S9
    ensures value { result ≡ or_rule a b }
    ensures abstraction { IsSix a → IsSix b → abs_rule result ≡ or4_rule (abs_rule a) (abs_rule b) }
    ensures closed { IsSix a → IsSix b → IsSix result }
{
    look_up!(S9, OR, a, b)
}

pub fn xor9(a: S9, b: S9) -> S9
    ensures value { result ≡ xor_rule a b }
    ensures abstraction { IsSix a → IsSix b → abs_rule result ≡ xor4_rule (abs_rule a) (abs_rule b) }
    ensures closed { IsSix a → IsSix b → IsSix result }
{
    look_up!(S9, XOR, a, b)
}

pub fn not9(a: S9) -> S9
    ensures value { result ≡ not_rule a }
    ensures abstraction { IsSix a → abs_rule result ≡ not4_rule (abs_rule a) }
    ensures closed { IsSix a → IsSix result }
{
    S9::of_cell(NOT.at(0, a as usize))
}

pub fn nand9(a: S9, b: S9) -> S9
    ensures value { result ≡ nand_rule a b }
    ensures abstraction { IsSix a → IsSix b → abs_rule result ≡ not4_rule (and4_rule (abs_rule a) (abs_rule b)) }
    ensures closed { IsSix a → IsSix b → IsSix result }
{
    not9(look_up!(S9, AND, a, b))
}

pub fn nor9(a: S9, b: S9) -> S9
    ensures value { result ≡ nor_rule a b }
    ensures abstraction { IsSix a → IsSix b → abs_rule result ≡ not4_rule (or4_rule (abs_rule a) (abs_rule b)) }
    ensures closed { IsSix a → IsSix b → IsSix result }
{
    not9(look_up!(S9, OR, a, b))
}

pub fn xnor9(a: S9, b: S9) -> S9
    ensures value { result ≡ xnor_rule a b }
    ensures abstraction { IsSix a → IsSix b → abs_rule result ≡ not4_rule (xor4_rule (abs_rule a) (abs_rule b)) }
    ensures closed { IsSix a → IsSix b → IsSix result }
{
    not9(look_up!(S9, XOR, a, b))
}
