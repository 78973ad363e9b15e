ghost use Rattle.std.specs.Prelude.{◌≡◌, ◌≤◌, IfOk, length};
ghost use Rattle.vv_std_cells.specs.Rows.{FitsSizes};

use crate::std_in;
use std::alloc::Global;
use std::test::Fail;
use vv_base::fault::Memory;
use vv_types::{Cells, Place, StdFn};

/// Cells with one operand from cell 0 and the other from cell 8 on.
fn filled(alloc: Global, a: &[i32], b: &[i32]) -> Result<Cells, Memory>
    requires a { length a.now ≤ 8 }
    requires b { length b.now ≤ 8 }
    ensures { IfOk result (λ cells. length cells ≡ 32) }
{
    let mut cells = Cells::new(alloc, 32)?;
    for (i, v) in a.iter().enumerate() {
        cells.set(i as u32, *v);
    }
    for (k, v) in b.iter().enumerate() {
        cells.set(8 + k as u32, *v);
    }
    Ok(cells)
}

/// The digits that an operator puts, with the cell before and the cell behind.
fn given(alloc: Global, f: StdFn, a: &[i32], b: &[i32], size: u32) -> Result<String, Memory>
    requires sizes { FitsSizes f (length a.now) (length b.now) size }
    requires a { length a.now ≤ 8 }
    requires b { length b.now ≤ 8 }
    requires size { size ≤ 8 }
{
    let mut cells = filled(alloc, a, b)?;
    let left = Place {
        first: 0,
        size: a.len() as u32,
    };
    let right = Place {
        first: 8,
        size: b.len() as u32,
    };
    std_in(f, &mut cells, left, right, Place { first: 17, size });
    let mut text = String::new(alloc);
    for k in 0..size + 2 {
        text.push(if cells.get(16 + k) == 0 {
            '.'
        } else {
            char::from(b'0' + (cells.get(16 + k).unsigned_abs() % 10) as u8)
        })?;
    }
    Ok(text)
}

#[test]
fn relations(rt: HostRuntime) -> Result<(), Fail> {
    let alloc = rt.alloc();
    let equal = given(alloc, StdFn::EqualArray, &[2, 3], &[2, 3], 1)?;
    assert_eq!(rt; equal.as_str(), ".1.");
    let longer = given(alloc, StdFn::EqualArray, &[2, 3], &[2, 3, 2], 1)?;
    assert_eq!(rt; longer.as_str(), "...");
    let metavalues = given(alloc, StdFn::NotEqualLogic, &[0], &[1], 1)?;
    assert_eq!(rt; metavalues.as_str(), ".1.");
    let less = given(alloc, StdFn::LessInt, &[-2147483648], &[2147483647], 1)?;
    assert_eq!(rt; less.as_str(), ".1.");
    let at_most = given(alloc, StdFn::LessEqualEnum, &[4], &[4], 1)?;
    assert_eq!(rt; at_most.as_str(), ".1.");
    let greater = given(alloc, StdFn::GreaterBool, &[0], &[1], 1)?;
    assert_eq!(rt; greater.as_str(), "...");
    let at_least = given(alloc, StdFn::GreaterEqualInt, &[-1], &[0], 1)?;
    assert_eq!(rt; at_least.as_str(), "...");
    Ok(())
}

#[test]
fn logic_and_concatenation(rt: HostRuntime) -> Result<(), Fail> {
    let alloc = rt.alloc();
    let both = given(alloc, StdFn::NandBool, &[1], &[1], 1)?;
    assert_eq!(rt; both.as_str(), "...");
    let none = given(alloc, StdFn::NotBool, &[0], &[], 1)?;
    assert_eq!(rt; none.as_str(), ".1.");
    let scalar = given(alloc, StdFn::XorLogic, &[7], &[2], 1)?;
    assert_eq!(rt; scalar.as_str(), ".3.");
    let vector = given(alloc, StdFn::AndVector, &[2, 3, 0, 1], &[0, 3, 4, 7], 4)?;
    assert_eq!(rt; vector.as_str(), ".23.1.");
    let inverse = given(alloc, StdFn::NotVector, &[1, 6, 7], &[], 3)?;
    assert_eq!(rt; inverse.as_str(), ".132.");
    let joined = given(alloc, StdFn::ConcatenateArrays, &[2, 3], &[1], 3)?;
    assert_eq!(rt; joined.as_str(), ".231.");
    let behind = given(alloc, StdFn::ConcatenateElementArray, &[4], &[2, 3], 3)?;
    assert_eq!(rt; behind.as_str(), ".423.");
    Ok(())
}
