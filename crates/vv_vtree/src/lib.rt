//! The Verilog that is written and read: its trees by the productions of the grammar, its reserved words, the names of objects,
//! and why a text is refused.
#![tactic(auto)]

mod expressions;
mod fault;
mod modules;
mod names;
mod operators;
mod statements;

pub use expressions::{VBits, VBitsList, VExpr, VExprList, VName, VPart, VReference, VSelect};
pub use fault::{VCode, VFault};
pub use modules::{
    Module, Modules, VAlways, VConnection, VConnectionList, VDeclaration, VDeclarationList,
    VDirection, VEdge, VEvent, VEventList, VFunction, VInstance, VItem, VItemList, VPort,
    VPortList, VRange, width_of,
};
pub use names::mangle;
pub use operators::{VBinary, VUnary};
pub use statements::{
    VAlternative, VAlternativeList, VArm, VArmList, VBlock, VSign, VStmt, VStmtList,
};
pub use vv_vast::words;
