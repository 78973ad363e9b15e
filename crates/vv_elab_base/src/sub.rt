//! Subtypes while a design is made.

use crate::making::Making;
use sqlite_items::Boxed;
use vv_base::fault::Memory;
use vv_design::{Scalar, Shape};
use vv_held::Shape as Extent;
use vv_held::shape::count;
use vv_types::{BaseType, Bounds, Subtype};

/// A subtype: its base type, and the bounds and the range that it has.
#[derive(Clone, Copy, PartialEq, Eq)]
pub struct Sub {
    pub base: BaseType,
    pub extent: Extent,
}

/// All numbers of INTEGER.
pub const ALL: Bounds = Bounds {
    left: i32::MIN,
    right: i32::MAX,
    down: false,
};

/// A range of one value.
pub fn only(n: i32) -> Bounds {
    Bounds {
        left: n,
        right: n,
        down: false,
    }
}

impl Sub {
    /// A scalar with a range.
    pub fn scalar(base: BaseType, range: Bounds) -> Sub {
        Sub {
            base,
            extent: Extent::scalar(base).constrained(range),
        }
    }

    /// How many elements an array has. The most that is told is 2^32 - 1.
    pub fn len(self) -> u32 {
        match self.extent.outer {
            Some(bounds) => short(count(bounds)),
            None => 0,
        }
    }

    /// How many scalars there are.
    pub fn size(self) -> u32 {
        if self.extent.levels == 0 {
            1
        } else if self.extent.levels == 1 {
            self.len()
        } else {
            self.len().saturating_mul(self.element_size())
        }
    }

    /// How many scalars an element of an array has.
    pub fn element_size(self) -> u32 {
        if self.extent.levels < 2 {
            1
        } else {
            match self.extent.inner {
                Some(bounds) => short(count(bounds)),
                None => 0,
            }
        }
    }

    /// Whether it is an array without bounds.
    pub fn is_open(self) -> bool {
        self.extent.levels > 0 && self.extent.outer.is_none()
    }

    /// The same with other bounds of an array.
    pub fn with_outer(self, outer: Option<Bounds>) -> Sub {
        Sub {
            base: self.base,
            extent: Extent {
                levels: self.extent.levels,
                outer,
                inner: self.extent.inner,
                scalar: self.extent.scalar,
                base: self.extent.base,
            },
        }
    }
}

/// A count as 32 bits.
pub fn short(n: u64) -> u32 {
    match u32::try_from(n) {
        Ok(n) => n,
        Err(_) => u32::MAX,
    }
}

/// The range of all values of a scalar type.
pub fn whole_range<'u>(making: &Making<'u>, base: BaseType) -> Bounds {
    let right = match base {
        BaseType::Logic => 8,
        BaseType::Bool => 1,
        BaseType::Enum(decl) => match i32::try_from(making.known(decl).count.saturating_sub(1)) {
            Ok(n) => n,
            Err(_) => i32::MAX,
        },
        BaseType::Int | BaseType::Array(_) => return ALL,
    };
    Bounds {
        left: 0,
        right,
        down: false,
    }
}

/// What the elements of an array have.
pub fn element_of<'u>(making: &Making<'u>, sub: Sub) -> Sub {
    let base = match sub.base {
        BaseType::Array(decl) => making.known(decl).element,
        base => base,
    };
    Sub {
        base,
        extent: sub.extent.element(),
    }
}

fn scalar_of<'u>(making: &Making<'u>, base: BaseType) -> Scalar {
    match base {
        BaseType::Logic | BaseType::Array(_) => Scalar::Logic,
        BaseType::Bool => Scalar::Bool,
        BaseType::Int => Scalar::Int,
        BaseType::Enum(decl) => Scalar::Enum {
            count: making.known(decl).count,
        },
    }
}

/// What a value of a subtype is in a design.
pub fn shape_of<'u>(making: &Making<'u>, sub: Sub) -> Shape {
    let of = scalar_of(making, sub.extent.base);
    match sub.extent.levels {
        0 => Shape::Scalar(of),
        1 => Shape::Vector { len: sub.len(), of },
        _ => Shape::Table {
            len: sub.len(),
            width: sub.element_size(),
            of,
        },
    }
}

fn scalar_subtype<'u>(making: &Making<'u>, sub: Sub) -> Subtype {
    let range = sub.extent.scalar;
    let base = sub.extent.base;
    Subtype::Scalar {
        base,
        left: range.left,
        right: range.right,
        down: range.down,
        count: match base {
            BaseType::Enum(decl) => making.known(decl).count,
            _ => 0,
        },
    }
}

fn bounds_or_none(bounds: Option<Bounds>) -> Bounds {
    match bounds {
        Some(bounds) => bounds,
        None => Bounds {
            left: 1,
            right: 0,
            down: false,
        },
    }
}

/// The subtype as a tree.
pub fn subtype_of<'u>(making: &Making<'u>, sub: Sub) -> Result<Subtype, Memory> {
    let scalar = scalar_subtype(making, sub);
    match sub.extent.levels {
        0 => Ok(scalar),
        1 => Ok(Subtype::Array {
            base: sub.base,
            bounds: bounds_or_none(sub.extent.outer),
            elem: Boxed::new(making.alloc, scalar)?,
        }),
        _ => {
            let element = Subtype::Array {
                base: element_of(making, sub).base,
                bounds: bounds_or_none(sub.extent.inner),
                elem: Boxed::new(making.alloc, scalar)?,
            };
            Ok(Subtype::Array {
                base: sub.base,
                bounds: bounds_or_none(sub.extent.outer),
                elem: Boxed::new(making.alloc, element)?,
            })
        }
    }
}
