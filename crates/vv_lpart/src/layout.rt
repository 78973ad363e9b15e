//! How the values of objects lie in bits.

use crate::range::Range;
use std::alloc::Global;
use vv_base::fault::Memory;
use vv_bits::{Bits4, V4, abs4};
use vv_design::{Scalar, Shape};
use vv_types::{BaseType, Subtype, Value};

/// What the scalars of an object are. A number is one of the range.
#[derive(Clone, Copy, Debug, PartialEq, Eq)]
pub struct Layout {
    pub scalar: Scalar,
    pub range: Range,
}

impl Layout {
    /// That of the objects of a subtype.
    pub fn of(subtype: &Subtype) -> Layout {
        match subtype {
            Subtype::Scalar {
                base,
                left,
                right,
                down: _,
                count,
            } => Layout {
                scalar: match base {
                    BaseType::Logic | BaseType::Array(_) => Scalar::Logic,
                    BaseType::Bool => Scalar::Bool,
                    BaseType::Int => Scalar::Int,
                    BaseType::Enum(_) => Scalar::Enum { count: *count },
                },
                range: Range {
                    low: i64::from((*left).min(*right)),
                    high: i64::from((*left).max(*right)),
                },
            },
            Subtype::Array {
                base: _,
                bounds: _,
                elem,
            } => Layout::of(elem.get()),
        }
    }

    /// The bits of a scalar.
    pub fn width(self) -> u32 {
        scalar_width(self.scalar, self.range)
    }
}

/// The bits of a scalar; a number is one of the range.
pub fn scalar_width(scalar: Scalar, range: Range) -> u32 {
    match scalar {
        Scalar::Logic | Scalar::Bool => 1,
        Scalar::Int => range.width(),
        Scalar::Enum { count } => digits(u64::from(count.saturating_sub(1))).max(1),
    }
}

/// How many scalars an object of a subtype has.
pub fn scalars(subtype: &Subtype) -> u32 {
    Shape::of(subtype).size()
}

/// The fewest binary digits that hold `n`.
pub fn digits(n: u64) -> u32 {
    64u32.saturating_sub(n.leading_zeros())
}

/// Appends the bits of a value whose scalars have `width` bits each.
pub fn push_value(value: &Value, width: u32, into: &mut Bits4) -> Result<(), Memory> {
    match value {
        Value::Logic(x) => into.push(abs4(*x))?,
        Value::Bool(x) => push_number(if *x { 1 } else { 0 }, width, into)?,
        Value::Int(n) => push_number(i64::from(*n), width, into)?,
        Value::Enum(position) => push_number(i64::from(*position), width, into)?,
        Value::Array(xs) => {
            for x in xs.as_slice() {
                push_value(x, width, into)?;
            }
        }
    }
    Ok(())
}

/// Appends the last `width` bits of a number in two's complement.
pub fn push_number(n: i64, width: u32, into: &mut Bits4) -> Result<(), Memory> {
    for k in (0..width).rev() {
        let one = (n >> k.min(63)) & 1 == 1;
        into.push(if one { V4::One } else { V4::Zero })?;
    }
    Ok(())
}

/// The bits of a value whose scalars have `width` bits each.
pub fn bits_of(alloc: Global, value: &Value, width: u32) -> Result<Bits4, Memory> {
    let mut bits = Bits4::new(alloc);
    push_value(value, width, &mut bits)?;
    Ok(bits)
}
