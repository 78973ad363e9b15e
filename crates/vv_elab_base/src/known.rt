//! What elaboration knows of declarations, besides what static evaluation knows.

use crate::sub::{ALL, Sub};
use vv_held::Shape as Extent;
use vv_types::{BaseType, Bounds};

/// What an object is that has no static value.
#[derive(Clone, Copy, PartialEq, Eq)]
pub enum Object {
    Absent,
    Net(u32),
    Variable(u32),
}

/// What is known of a declaration. `sub` is the subtype of an object or of a mark. `element` and `index` are the base type of the
/// elements and the range of the index type of an array type, and `count` is the number of literals of an enumeration type. `turn` is
/// whether it is the parameter of an unrolled loop, and `package` whether a package has it. `constant` is its number in the list of
/// the design, where it has one.
#[derive(Clone, Copy)]
pub struct Known {
    pub object: Object,
    pub sub: Sub,
    pub element: BaseType,
    pub index: Bounds,
    pub count: u32,
    pub resolved: bool,
    pub turn: bool,
    pub package: bool,
    pub constant: Option<u32>,
}

/// What is known of a declaration of which nothing is known.
pub const NOTHING: Known = Known {
    object: Object::Absent,
    sub: Sub {
        base: BaseType::Int,
        extent: Extent {
            levels: 0,
            outer: None,
            inner: None,
            scalar: ALL,
            base: BaseType::Int,
        },
    },
    element: BaseType::Logic,
    index: ALL,
    count: 0,
    resolved: false,
    turn: false,
    package: false,
    constant: None,
};
