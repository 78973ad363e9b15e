//! What kind of value an expression of a design has.

use vv_types::{BaseType, Bounds, Subtype};

/// A scalar. An enumeration type has `count` literals.
#[derive(Clone, Copy, Debug, PartialEq, Eq)]
pub enum Scalar {
    Logic,
    Bool,
    Int,
    Enum { count: u32 },
}

/// A scalar, an array of `len` scalars, or an array of `len` arrays of `width` scalars. The scalars are listed from the left.
#[derive(Clone, Copy, Debug, PartialEq, Eq)]
pub enum Shape {
    Scalar(Scalar),
    Vector { len: u32, of: Scalar },
    Table { len: u32, width: u32, of: Scalar },
}

impl Scalar {
    /// That of a base type. An enumeration type has `count` literals.
    fn of(base: BaseType, count: u32) -> Scalar {
        match base {
            BaseType::Logic | BaseType::Array(_) => Scalar::Logic,
            BaseType::Bool => Scalar::Bool,
            BaseType::Int => Scalar::Int,
            BaseType::Enum(_) => Scalar::Enum { count },
        }
    }
}

/// How many indexes a range has; the most that is told is 2^32 - 1.
pub fn index_count(bounds: Bounds) -> u32 {
    let (low, high) = if bounds.down {
        (bounds.right, bounds.left)
    } else {
        (bounds.left, bounds.right)
    };
    if high < low {
        0
    } else {
        high.abs_diff(low).saturating_add(1)
    }
}

impl Shape {
    /// The shape of the values of a subtype.
    pub fn of(subtype: &Subtype) -> Shape {
        match subtype {
            Subtype::Scalar {
                base,
                left: _,
                right: _,
                down: _,
                count,
            } => Shape::Scalar(Scalar::of(*base, *count)),
            Subtype::Array {
                base: _,
                bounds,
                elem,
            } => Shape::of(elem.get()).array(index_count(*bounds)),
        }
    }

    /// The shape of arrays of `len` values of this shape.
    pub fn array(self, len: u32) -> Shape {
        match self {
            Shape::Scalar(of) => Shape::Vector { len, of },
            _ => Shape::Table {
                len,
                width: self.size(),
                of: self.scalar(),
            },
        }
    }

    /// What the scalars are.
    pub fn scalar(self) -> Scalar {
        match self {
            Shape::Scalar(of)
            | Shape::Vector { len: _, of }
            | Shape::Table {
                len: _,
                width: _,
                of,
            } => of,
        }
    }

    /// How many scalars there are; the most that is told is 2^32 - 1.
    pub fn size(self) -> u32 {
        match self {
            Shape::Scalar(_) => 1,
            Shape::Vector { len, of: _ } => len,
            Shape::Table { len, width, of: _ } => len.saturating_mul(width),
        }
    }
}
