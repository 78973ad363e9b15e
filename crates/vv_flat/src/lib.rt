//! The flat design that a list of modules stands for: objects, bits, functions and items by their numbers.
#![tactic(auto)]

mod flat;

pub use flat::{
    FAlternative, FAlternativeList, FArm, FArmList, FEvent, FEventList, FExpr, FExprList, FStmt,
    FStmtList, FTarget, Flat, FlatBit, FlatBitList, FlatFunction, FlatFunctionList, FlatItem,
    FlatItemList, FlatObject, FlatObjectList, LabelList, Place, TopKind, WidthList,
};
