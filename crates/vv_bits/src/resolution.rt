ghost use Rattle.std.specs.Prelude.{◌≡◌, ◌≢◌, [], ◌∷◌, All, length, map};
ghost use Rattle.std.specs.List.{filter};
ghost use Rattle.vv_bits.specs.declared.four.V4.{V4};
ghost use Rattle.vv_bits.specs.Nine.{IsSix, AllSix};
ghost use Rattle.vv_bits.specs.Four.{abs_rule};
ghost use Rattle.vv_bits.specs.Resolution.{resolve_rule, resolve_several, resolve4_rule, drives};

use crate::four::V4;
use crate::nine::S9;
use crate::table::{Table, look_up};

// The cells are as in the tables of the operators.

const NINE: Table<9, 9> = Table {
    cells: [
        [0, 0, 0, 0, 0, 0, 0, 0, 0], // U with
        [0, 1, 1, 1, 1, 1, 1, 1, 1], // X with
        [0, 1, 2, 1, 2, 2, 2, 2, 1], // 0 with
        [0, 1, 1, 3, 3, 3, 3, 3, 1], // 1 with
        [0, 1, 2, 3, 4, 5, 6, 7, 1], // Z with
        [0, 1, 2, 3, 5, 5, 5, 5, 1], // W with
        [0, 1, 2, 3, 6, 5, 6, 5, 1], // L with
        [0, 1, 2, 3, 7, 5, 5, 7, 1], // H with
        [0, 1, 1, 1, 1, 1, 1, 1, 1], // - with
    ],
};

const FOUR: Table<4, 4> = Table {
    cells: [
        [0, 2, 2, 0], // 0 with
        [2, 1, 2, 1], // 1 with
        [2, 2, 2, 2], // x with
        [0, 1, 2, 3], // z with
    ],
};

fn resolve_two9(a: S9, b: S9) -> S9
    ensures { result ≡ resolve_several (a ∷ b ∷ []) }
{
    look_up!(S9, NINE, a, b)
}

fn resolve_all9(list: &[S9]) -> S9
    ensures { result ≡ resolve_several list.now }
{
    let mut all = S9::Z;
    for x in list {
        all = resolve_two9(all, *x);
    }
    all
}

/// The value of a signal whose sources have the values of the list. A single source passes
/// unchanged, a - too.
#[tactic(auto, using(crate::proofs::Sources::several_rule, crate::proofs::Sources::resolve_abs, crate::proofs::Sources::resolve_six))]
pub fn resolve9(list: &[S9]) -> S9
    requires { length list.now ≢ 0 }
    ensures value { result ≡ resolve_rule list.now }
    ensures abstraction { AllSix list.now → abs_rule result ≡ resolve4_rule (map abs_rule list.now) }
    ensures closed { AllSix list.now → IsSix result }
{
    match list {
        [only] => *only,
        _ => resolve_all9(list),
    }
}

fn resolve_two4(a: V4, b: V4) -> V4
    ensures { result ≡ resolve4_rule (a ∷ b ∷ []) }
{
    look_up!(V4, FOUR, a, b)
}

/// The value of a wire whose drivers have the values of the list; z where it has none.
pub fn resolve4(list: &[V4]) -> V4
    ensures value { result ≡ resolve4_rule list.now }
    ensures equal { (v : V4) → length list.now ≢ 0 → All (λ x. x ≡ v) list.now → result ≡ v }
    ensures z_yields { result ≡ resolve4_rule (filter drives list.now) }
{
    let mut all = V4::Z;
    for x in list {
        all = resolve_two4(all, *x);
    }
    all
}
