//! The checked units: what all files and the built-in packages declare, with typed expressions.

use crate::expressions::{TRange, TypeMark, Typed, TypedList};
use crate::statements::TStmtList;
use sqlite_items::Items;
use vv_base::fault::{Name, Span};
use vv_types::{BaseType, ObjectKind, TextList};

/// The checked units. Declarations have the numbers below `decls`. `texts` has the text of each name by its number. A package stands behind those that it needs, and the built-in
/// packages stand first. `functions` and `components` have those of all units, wherever they are declared, in the order of the numbers
/// of their declarations.
#[derive(Drop)]
pub struct Units {
    pub decls: u32,
    pub texts: TextList,
    pub packages: TPackageList,
    pub functions: FnBodyList,
    pub components: TComponentList,
    pub entities: TEntityList,
}

/// A package. Its declarations are followed by those of its body.
#[derive(Drop)]
pub struct TPackage {
    pub name: Name,
    pub span: Span,
    pub decls: TDeclList,
}

/// An entity, with its architectures in the order of the files and their texts. The span is that of its identifier.
#[derive(Drop)]
pub struct TEntity {
    pub name: Name,
    pub span: Span,
    pub generics: ObjectsList,
    pub ports: ObjectsList,
    pub archs: TArchList,
}

/// An architecture. The span is that of its identifier.
#[derive(Drop)]
pub struct TArch {
    pub name: Name,
    pub span: Span,
    pub decls: TDeclList,
    pub body: TConcList,
}

/// A declared identifier, with the number of its declaration.
#[derive(Clone, Copy, Debug, PartialEq, Eq)]
pub struct Ident {
    pub decl: u32,
    pub name: Name,
    pub span: Span,
}

/// Objects that are declared together. The span is that of the whole declaration. The subtype and the initial value or default are evaluated for each of them.
#[derive(Drop)]
pub struct Objects {
    pub kind: ObjectKind,
    pub idents: IdentList,
    pub subtype: TSub,
    pub initial: Option<Typed>,
    pub span: Span,
}

/// A subtype as it is written.
#[derive(Drop)]
pub struct TSub {
    pub mark: TypeMark,
    pub constraint: Constraint,
    pub span: Span,
}

/// What is written behind the type mark of a subtype.
#[derive(Drop)]
pub enum Constraint {
    Absent,
    /// The index range of an array.
    Index(TRange),
    /// The range of a scalar.
    Range(TRange),
}

/// A declaration that has something to elaborate.
#[derive(Drop)]
pub enum TDecl {
    Type {
        ident: Ident,
        base: BaseType,
        form: TypeForm,
    },
    /// A subtype. It is `resolved` where its declaration itself makes it so, as that of `std_logic` does.
    Subtype {
        ident: Ident,
        subtype: TSub,
        resolved: bool,
    },
    Objects(Objects),
}

/// What a type is made of.
#[derive(Drop)]
pub enum TypeForm {
    /// One of `boolean`, `integer` and `std_ulogic`.
    Predefined,
    /// An enumeration type of `count` literals.
    Enumeration { count: u32 },
    /// An array type whose objects have bounds of their own.
    Unconstrained { index: TypeMark, element: TSub },
    /// An array type with bounds.
    Constrained { index: TRange, element: TSub },
}

/// A function with its body. The name is an identifier, or a symbol of an operator in quotes, and the span is that of it.
#[derive(Drop)]
pub struct FnBody {
    pub decl: u32,
    pub name: Name,
    pub span: Span,
    pub params: ObjectsList,
    pub result: TypeMark,
    pub decls: TDeclList,
    pub body: TStmtList,
}

/// A component.
#[derive(Drop)]
pub struct TComponent {
    pub decl: u32,
    pub generics: ObjectsList,
    pub ports: ObjectsList,
}

/// How a concurrent statement is named in a path.
#[derive(Clone, Copy, Debug, PartialEq, Eq)]
pub enum Label {
    Written(Name),
    /// The number among the unlabelled concurrent statements of the region, counted from 1.
    Unlabelled(u32),
}

/// A concurrent statement. Its span begins at its first token, and `label_span` is that of the label, or the same.
#[cycle(concurrent)]
#[derive(Drop)]
pub struct TConc {
    pub label: Label,
    pub label_span: Span,
    pub span: Span,
    pub form: ConcForm,
}

/// The form of a concurrent statement.
#[cycle(concurrent)]
#[derive(Drop)]
pub enum ConcForm {
    /// A process, or a concurrent assignment as the process that it stands for. Its sensitivity is then `All`.
    Process {
        sens: TSens,
        decls: TDeclList,
        body: TStmtList,
    },
    /// An instance: the position of its entity in the units, the position of its architecture where one is named, and the declaration
    /// of the component where one is named.
    Instance {
        entity: u32,
        arch: Option<u32>,
        component: Option<u32>,
        generics: AssociationList,
        ports: AssociationList,
    },
    /// Copies for each value of a parameter, which has this declaration.
    For {
        turn: u32,
        range: TRange,
        decls: TDeclList,
        body: TConcList,
    },
    If {
        condition: Typed,
        decls: TDeclList,
        body: TConcList,
    },
}

/// What a process waits for.
#[derive(Drop)]
pub enum TSens {
    /// There is no list.
    Absent,
    /// The written names.
    Listed(TypedList),
    /// Every signal that is named in the process other than as a target.
    All,
}

/// An association: the number of the formal among the identifiers of the list, from 0, and its actual, which is missing for `open`.
#[derive(Drop)]
pub struct Association {
    pub formal: u32,
    pub span: Span,
    pub actual: Option<Typed>,
}

pub type TPackageList = Items<TPackage>;

pub type TEntityList = Items<TEntity>;

pub type TArchList = Items<TArch>;

pub type IdentList = Items<Ident>;

pub type ObjectsList = Items<Objects>;

pub type TDeclList = Items<TDecl>;

pub type FnBodyList = Items<FnBody>;

pub type TComponentList = Items<TComponent>;

pub type TConcList = Items<TConc>;

pub type AssociationList = Items<Association>;
