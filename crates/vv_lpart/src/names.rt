//! Names and ranges of written objects.

use std::alloc::Global;
use vv_base::fault::Memory;
use vv_base::text::Text;
use vv_vtree::{VName, VRange, mangle};

/// A name of the writer's.
pub fn name_of(text: Text) -> VName {
    VName { text, at: 0 }
}

/// The range of an object with so many bits.
pub fn range_of(width: u32) -> Option<VRange> {
    if width <= 1 {
        None
    } else {
        Some(VRange {
            high: width.saturating_sub(1),
            at: 0,
        })
    }
}

/// The Verilog name of a path.
pub fn mangled(alloc: Global, path: &[u8]) -> Result<Text, Memory> {
    match str::from_utf8(path) {
        Ok(path) => mangle(alloc, path),
        Err(_) => Text::from_slice(alloc, path),
    }
}

/// The name of the own object with a number, and behind it that of the object whose value it is.
pub fn own_name(alloc: Global, number: u32, hint: &[u8]) -> Result<Text, Memory> {
    let digits = format!(in alloc; "_v{number}")?;
    let mut bytes = Vec::from_slice(alloc, digits.as_str().as_bytes())?;
    if !hint.is_empty() {
        bytes.push(b'_')?;
        bytes.extend_from_slice(hint)?;
    }
    Text::from_slice(alloc, bytes.as_slice())
}

/// The name of the function that puts bits with a number.
pub fn put_name(alloc: Global, number: u32) -> Result<Text, Memory> {
    let name = format!(in alloc; "_vput{number}")?;
    Text::from_slice(alloc, name.as_str().as_bytes())
}

/// The number in the name of an own object that is made by `own_name` with no further text.
pub fn own_number(name: &[u8]) -> Option<usize> {
    let [b'_', b'v', digits @ ..] = name else {
        return None;
    };
    if digits.is_empty() {
        return None;
    }
    let mut number = 0usize;
    for digit in digits {
        if !digit.is_ascii_digit() {
            return None;
        }
        number = number
            .saturating_mul(10)
            .saturating_add(usize::from(digit.saturating_sub(b'0')));
    }
    Some(number)
}
