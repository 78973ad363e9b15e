use crate::{
    Bits4, Bits9, S9, V4, abs4, and4, and9, nand9, nor9, not4, not9, or4, or9, resolve4, resolve9,
    xnor9, xor4, xor9,
};
use S9::{Dash, H, L, One, U, W, X, Z, Zero};
use std::alloc::AllocError;

#[derive(Clone, Copy, Debug)]
enum Call {
    And,
    Or,
    Xor,
    Nand,
    Nor,
    Xnor,
    Resolve,
}

fn answer(call: Call, a: S9, b: S9) -> S9 {
    match call {
        Call::And => and9(a, b),
        Call::Or => or9(a, b),
        Call::Xor => xor9(a, b),
        Call::Nand => nand9(a, b),
        Call::Nor => nor9(a, b),
        Call::Xnor => xnor9(a, b),
        Call::Resolve => resolve9(&[a, b]),
    }
}

// rows of the tables that IEEE 1164-1993 prints
#[test]
fn operators_and_resolution_of_the_package(rt: HostRuntime) {
    let rows = [
        (Call::And, U, Zero, Zero),
        (Call::And, U, One, U),
        (Call::And, H, One, One),
        (Call::And, Z, H, X),
        (Call::Or, Z, One, One),
        (Call::Or, L, Zero, Zero),
        (Call::Or, U, Dash, U),
        (Call::Or, W, L, X),
        (Call::Xor, H, L, One),
        (Call::Xor, H, One, Zero),
        (Call::Xor, One, Dash, X),
        (Call::Nand, L, U, One),
        (Call::Nand, H, H, Zero),
        (Call::Nor, Zero, L, One),
        (Call::Nor, Z, Zero, X),
        (Call::Xnor, H, L, Zero),
        (Call::Xnor, L, L, One),
        (Call::Resolve, Zero, One, X),
        (Call::Resolve, Z, W, W),
        (Call::Resolve, L, H, W),
        (Call::Resolve, U, One, U),
        (Call::Resolve, Dash, Dash, X),
        (Call::Resolve, Zero, H, Zero),
    ];
    for (call, a, b, want) in rows {
        assert_eq!(rt; answer(call, a, b), want, "{call:?} of {a:?} and {b:?}");
    }
    for (a, want) in [(U, U), (Zero, One), (H, Zero), (Dash, X)] {
        assert_eq!(rt; not9(a), want, "not {a:?}");
    }
    for a in [L, Dash, H] {
        assert_eq!(rt; resolve9(&[a]), a, "one source {a:?}");
    }
    assert_eq!(rt; resolve9(&[Z, L, Z, One, W]), One);
}

#[test]
fn four_values(rt: HostRuntime) {
    let values = [V4::Zero, V4::One, V4::X, V4::Z];
    // rows and columns in the order 0, 1, x, z
    let wire = [
        [V4::Zero, V4::X, V4::X, V4::Zero],
        [V4::X, V4::One, V4::X, V4::One],
        [V4::X, V4::X, V4::X, V4::X],
        [V4::Zero, V4::One, V4::X, V4::Z],
    ];
    for (a, row) in values.iter().zip(wire.iter()) {
        for (b, want) in values.iter().zip(row.iter()) {
            assert_eq!(rt; resolve4(&[*a, *b]), *want, "{a:?} with {b:?}");
        }
    }
    assert_eq!(rt; resolve4(&[]), V4::Z);
    assert_eq!(rt; and4(V4::Zero, V4::Z), V4::Zero);
    assert_eq!(rt; or4(V4::X, V4::One), V4::One);
    assert_eq!(rt; xor4(V4::One, V4::Z), V4::X);
    assert_eq!(rt; not4(V4::Z), V4::X);
    assert_eq!(rt; abs4(W), V4::X);
    assert_eq!(rt; abs4(L), V4::Zero);
}

#[test]
fn lists(rt: HostRuntime) -> Result<(), AllocError> {
    let mut nine = Bits9::new(rt.alloc());
    assert!(rt; nine.is_empty());
    nine.push(U)?;
    nine.push(Dash)?;
    assert_eq!(rt; nine.as_slice(), [U, Dash].as_slice());
    assert_eq!(rt; Bits9::from_slice(rt.alloc(), nine.as_slice())?.len(), 2);

    let mut four = Bits4::from_slice(rt.alloc(), &[V4::X, V4::One])?;
    four.push(V4::Z)?;
    assert_eq!(rt; four.as_slice(), [V4::X, V4::One, V4::Z].as_slice());
    assert_eq!(rt; four.len(), 3);
    assert!(rt; !four.is_empty());
    assert!(rt; Bits4::new(rt.alloc()).is_empty());
    Ok(())
}
