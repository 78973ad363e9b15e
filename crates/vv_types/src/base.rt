//! Base types and subtypes.

ghost use Rattle.std.specs.Prelude.{◌≡◌, ◌<◌, ◌^◌};

use sqlite_items::{Boxed, Items};

/// A base type. Enumeration types and array types have the numbers of their declarations.
#[derive(Clone, Copy, Debug, PartialEq, Eq)]
pub enum BaseType {
    Logic,
    Bool,
    Int,
    Enum(u32),
    Array(u32),
}

pub type BaseList = Items<BaseType>;

/// An index range: `left to right`, or `left downto right` where `down` is true.
#[derive(Clone, Copy, Debug, PartialEq, Eq)]
pub struct Bounds {
    pub left: i32,
    pub right: i32,
    pub down: bool,
}

impl Bounds {
    ghost use Rattle.vv_types.specs.Subtype.{index_count};

    /// How many indexes there are.
    pub fn index_count(&self) -> u32
        requires { index_count self.now < 2 ^ 32 }
        ensures { result ≡ index_count self.now }
    {
        let (low, high) = if self.down {
            (self.right, self.left)
        } else {
            (self.left, self.right)
        };
        if high < low {
            0
        } else {
            high.abs_diff(low) + 1
        }
    }
}

/// A subtype. The range of a scalar is that of its positions or numbers, and `count` is the number of literals of an enumeration
/// type, else 0.
#[derive(Drop)]
pub enum Subtype {
    Scalar {
        base: BaseType,
        left: i32,
        right: i32,
        down: bool,
        count: u32,
    },
    Array {
        base: BaseType,
        bounds: Bounds,
        elem: Boxed<Subtype>,
    },
}
