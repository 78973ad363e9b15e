//! What names can denote, and the declarations that are built in.

use crate::base::{BaseList, BaseType};
use sqlite_items::Items;
use vv_base::text::Text;

/// The kinds of objects. `Turn` is a parameter of a loop or of a generate statement.
#[derive(Clone, Copy, Debug, PartialEq, Eq)]
pub enum ObjectKind {
    Constant,
    Generic,
    Signal,
    InPort,
    OutPort,
    InoutPort,
    Variable,
    Parameter,
    Turn,
}

/// What a name denotes, with its base types. `Mark` is a type or a subtype, and `Literal` a literal of an enumeration type.
#[derive(Drop)]
pub enum What {
    Object { kind: ObjectKind, base: BaseType },
    Mark(BaseType),
    Function { params: BaseList, result: BaseType },
    Literal(BaseType),
    Other,
}

/// A declaration of a built-in package. `formals` are the names of the parameters, where the package's table gives them.
#[derive(Drop)]
pub struct BuiltDecl {
    pub package: Text,
    pub name: Text,
    pub formals: TextList,
    pub what: What,
}

pub type TextList = Items<Text>;

pub type DeclList = Items<BuiltDecl>;
