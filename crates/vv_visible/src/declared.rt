//! Declarations.

use sqlite_items::Items;
use vv_base::fault::{Name, Span};
use vv_base::text::Text;
use vv_types::{BaseType, What};

/// A declaration. Its `name` is missing where no source has the text, and `built` is the text of the name of a built-in or
/// predefined one. The span is that of its identifier; a predefined operator has that of its type.
#[derive(Drop)]
pub struct Declared {
    pub name: Option<Name>,
    pub built: Option<Text>,
    pub span: Span,
    pub what: What,
}

/// A parameter of a function: its name, where it has one that a source has, whether it has a default, and whether its subtype is
/// scalar or has bounds.
#[derive(Clone, Copy)]
pub struct Formal {
    pub name: Option<Name>,
    pub default: bool,
    pub bounded: bool,
}

pub type FormalList = Items<Formal>;

/// What a declaration is, beside what its name denotes.
#[derive(Clone, Copy, PartialEq, Eq)]
pub enum Sort {
    /// An object, a type, a subtype or a literal.
    Plain,
    /// A function of a source, and whether its body was met.
    Function { body: bool },
    /// An operator that comes with a type, or a declaration of a built-in package.
    Predefined,
    Component,
    /// A label of a statement. That of a loop has the loop's place.
    Label { turns: Option<Span> },
    /// An entity, with its region.
    Entity { region: u32 },
    /// A package, with its region and that of what it exports, once it is known.
    Package { region: u32, exports: Option<u32> },
}

/// A declaration with what visibility asks of it. `position` is the place of a literal among those of its type, from 0 on, and
/// `bounded` tells of a type or a subtype whether it is scalar or has bounds.
#[derive(Drop)]
pub struct Entity {
    pub symbol: u32,
    pub region: u32,
    pub sort: Sort,
    pub formals: FormalList,
    pub declared: Declared,
    pub position: u32,
    pub bounded: bool,
}

/// A base type as a number.
fn code(base: BaseType) -> u64 {
    match base {
        BaseType::Logic => 0,
        BaseType::Bool => 1,
        BaseType::Int => 2,
        BaseType::Enum(decl) => ((decl as u64) << 2) | 3,
        BaseType::Array(decl) => ((decl as u64) << 34) | 3,
    }
}

fn mixed(sum: u64, n: u64) -> u64 {
    (sum.rotate_left(5) ^ n).wrapping_mul(0x517c_c1b7_2722_0a95)
}

/// The parameters and the result of what can be overloaded.
#[derive(Clone, Copy)]
struct Profile<'d> {
    params: &'d [BaseType],
    result: BaseType,
}

impl Entity {
    fn profile(&self) -> Option<Profile<'_>> {
        match &self.declared.what {
            What::Function { params, result } => Some(Profile {
                params: params.as_slice(),
                result: *result,
            }),
            What::Literal(base) => Some(Profile {
                params: &[],
                result: *base,
            }),
            _ => None,
        }
    }

    /// Whether it is a function or an enumeration literal.
    pub fn is_overloadable(&self) -> bool {
        self.profile().is_some()
    }

    /// A number for its name and its profile in the list of a region. Homographs have one number, and hardly any others do.
    pub fn mark_in(&self, region: u32) -> u64 {
        let mut sum = mixed(mixed(0, self.symbol as u64), region as u64);
        if let Some(profile) = self.profile() {
            sum = mixed(sum, code(profile.result));
            for param in profile.params {
                sum = mixed(sum, code(*param));
            }
        }
        sum
    }

    /// Whether it is predefined or built in.
    pub fn is_predefined(&self) -> bool {
        self.sort == Sort::Predefined
    }

    /// Whether the two cannot be visible side by side, their names being one.
    pub fn is_homograph(&self, other: &Entity) -> bool {
        match (self.profile(), other.profile()) {
            (Some(one), Some(two)) => one.result == two.result && one.params == two.params,
            _ => true,
        }
    }
}
