//! Typed trees and the checked units. There is no behaviour here: these are the types that the check of types hands to elaboration,
//! and what contracts see of them.
#![tactic(auto)]

mod expressions;
pub mod laws;
mod statements;
mod units;

pub use expressions::{
    Callee, Element, ElementList, Form, Link, LinkList, NumberList, Suffix, SuffixList, TRange,
    TRangeList, TypeMark, Typed, TypedList,
};
pub use statements::{Alternative, AlternativeList, Arm, ArmList, StmtForm, TStmt, TStmtList};
pub use units::{
    Association, AssociationList, ConcForm, Constraint, FnBody, FnBodyList, Ident, IdentList,
    Label, Objects, ObjectsList, TArch, TArchList, TComponent, TComponentList, TConc, TConcList,
    TDecl, TDeclList, TEntity, TEntityList, TPackage, TPackageList, TSens, TSub, TypeForm, Units,
};
