ghost use Rattle.std.specs.Prelude.{◌≡◌, ◌<◌, ◌≤◌, ◌*◌, IfOk};
ghost use Rattle.vv_types.specs.Codec.{codec_of, width_of};
ghost use Rattle.vv_types.specs.Subtype.{HasElements, index_count};

use crate::{BaseType, Bounds, Cells, Codec, Subtype, Value, ValueList};
use sqlite_items::Boxed;
use std::alloc::Global;
use std::test::Fail;
use vv_base::fault::Memory;
use vv_bits::S9;

const LETTERS: [char; 9] = ['U', 'X', '0', '1', 'Z', 'W', 'L', 'H', '-'];

fn scalar(base: BaseType, left: i32, right: i32, down: bool, count: u32) -> Subtype
    ensures elements { HasElements result }
    ensures bits { width_of (codec_of result) ≤ 32 }
{
    Subtype::Scalar {
        base,
        left,
        right,
        down,
        count,
    }
}

/// An array of a few elements.
fn array(alloc: Global, bounds: Bounds, elem: Subtype) -> Result<Subtype, Memory>
    requires some { 0 < index_count bounds }
    requires few { index_count bounds ≤ 32 }
    requires elements { HasElements elem }
    ensures elements { IfOk result (λ s. HasElements s) }
    ensures bits { IfOk result (λ s. width_of (codec_of s) ≤ 32 * width_of (codec_of elem)) }
{
    Ok(Subtype::Array {
        base: BaseType::Array(7),
        bounds,
        elem: Boxed::new(alloc, elem)?,
    })
}

/// The width of a subtype's codec, and the bits of a value as text.
fn encoded(alloc: Global, subtype: &Subtype, value: &Value) -> Result<(u32, String), Memory>
    requires elements { HasElements subtype.now }
    requires bits { width_of (codec_of subtype.now) ≤ 65536 }
{
    let codec = Codec::of(alloc, subtype)?;
    let mut bits = Vec::new(alloc);
    codec.bits(value, &mut bits)?;
    let mut text = String::new(alloc);
    for bit in &bits {
        text.push(LETTERS[*bit as usize])?;
    }
    Ok((codec.width(), text))
}

#[test]
fn numbers(rt: HostRuntime) -> Result<(), Fail> {
    let rows = [
        (0, 0, false, 0, 1, "0"),
        (0, 1, false, 1, 1, "1"),
        (3, 10, false, 3, 4, "0011"),
        (10, 3, true, 10, 4, "1010"),
        (0, 8, false, 7, 4, "0111"),
        (
            0,
            2147483647,
            false,
            2147483647,
            31,
            "1111111111111111111111111111111",
        ),
        (-1, -1, false, -1, 1, "1"),
        (-2, 2, false, 2, 3, "010"),
        (7, -8, true, -8, 4, "1000"),
        (-9, 0, false, -9, 5, "10111"),
        (
            -2147483648,
            2147483647,
            false,
            -2147483648,
            32,
            "10000000000000000000000000000000",
        ),
        (
            -2147483648,
            2147483647,
            false,
            -3,
            32,
            "11111111111111111111111111111101",
        ),
        (
            -2147483648,
            2147483647,
            false,
            5,
            32,
            "00000000000000000000000000000101",
        ),
    ];
    for (left, right, down, x, width, text) in rows {
        let subtype = scalar(BaseType::Int, left, right, down, 0);
        let (w, bits) = encoded(rt.alloc(), &subtype, &Value::Int(x))?;
        assert_eq!(rt; w, width, "{x}");
        assert_eq!(rt; bits.as_str(), text, "{x}");
    }
    Ok(())
}

#[test]
fn positions(rt: HostRuntime) -> Result<(), Fail> {
    let rows = [
        (1, 0, 1, "0"),
        (2, 1, 1, "1"),
        (3, 2, 2, "10"),
        (4, 3, 2, "11"),
        (5, 4, 3, "100"),
        (5, 1, 3, "001"),
        (
            4294967295,
            4294967294,
            32,
            "11111111111111111111111111111110",
        ),
    ];
    for (count, position, width, text) in rows {
        let subtype = scalar(BaseType::Enum(3), 0, 0, false, count);
        let (w, bits) = encoded(rt.alloc(), &subtype, &Value::Enum(position))?;
        assert_eq!(rt; w, width, "{position}");
        assert_eq!(rt; bits.as_str(), text, "{position}");
    }
    Ok(())
}

const PAIR: Bounds = Bounds {
    left: -1,
    right: 0,
    down: false,
};

fn vector(alloc: Global, bits: &[S9]) -> Result<Value, Memory> {
    let mut elements = ValueList::new(alloc);
    for bit in bits {
        elements.push(Value::Logic(*bit))?;
    }
    Ok(Value::Array(elements))
}

fn pairs(alloc: Global, list: &[(i32, i32)]) -> Result<Value, Memory> {
    let mut rows = ValueList::new(alloc);
    for (x, y) in list {
        let mut row = ValueList::new(alloc);
        row.push(Value::Int(*x))?;
        row.push(Value::Int(*y))?;
        rows.push(Value::Array(row))?;
    }
    Ok(Value::Array(rows))
}

#[test]
fn vectors(rt: HostRuntime) -> Result<(), Fail> {
    let alloc = rt.alloc();
    let down = Bounds {
        left: 3,
        right: 0,
        down: true,
    };
    assert_eq!(rt; down.index_count(), 4);
    let subtype = array(alloc, down, scalar(BaseType::Logic, 0, 8, false, 0))?;
    let value = vector(alloc, &[S9::U, S9::L, S9::One, S9::Dash])?.copy(alloc)?;
    let (width, bits) = encoded(alloc, &subtype, &value)?;
    assert_eq!(rt; width, 4);
    assert_eq!(rt; bits.as_str(), "UL1-");
    Ok(())
}

#[test]
fn arrays_of_arrays(rt: HostRuntime) -> Result<(), Fail> {
    let alloc = rt.alloc();
    let small = array(alloc, PAIR, scalar(BaseType::Int, -4, 3, false, 0))?;
    let subtype = array(alloc, PAIR, small)?;
    let value = pairs(alloc, &[(-4, 3), (1, -2)])?;
    let (width, bits) = encoded(alloc, &subtype, &value)?;
    assert_eq!(rt; width, 12);
    assert_eq!(rt; bits.as_str(), "100011001110");
    Ok(())
}

#[test]
fn booleans(rt: HostRuntime) -> Result<(), Fail> {
    for (value, text) in [(false, "0"), (true, "1")] {
        let subtype = scalar(BaseType::Bool, 0, 1, false, 0);
        let (width, bits) = encoded(rt.alloc(), &subtype, &Value::Bool(value))?;
        assert_eq!(rt; width, 1);
        assert_eq!(rt; bits.as_str(), text);
    }
    Ok(())
}

#[test]
fn cells_keep_their_numbers(rt: HostRuntime) -> Result<(), Fail> {
    let mut cells = Cells::new(rt.alloc(), 3)?;
    cells.set(1, -7);
    cells.set(2, 8);
    assert_eq!(rt; cells.get(0), 0);
    assert_eq!(rt; cells.get(1), -7);
    assert_eq!(rt; cells.get(2), 8);
    Ok(())
}
