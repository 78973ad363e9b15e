//! The elaborated design in a language of its own, and the plan. Elaboration makes it of the checked units; templates, drivers, the
//! writer of Verilog and the engine of VHDL read it.
#![tactic(auto)]

mod design;
mod expressions;
mod plan;
mod run;
mod shape;
mod statements;

pub use design::{
    Design, Function, FunctionList, Inst, InstList, Local, LocalList, Met, MetKind, Mode, Net,
    NetKind, NetList, Origin, Param, ParamList, Port, PortList, Proc, ProcList, ProcVar, Source,
    SourceList, VarList,
};
pub use expressions::{
    Expr, ExprList, Form, Link, LinkList, NumberList, Operator, Part, PartList, Target,
};
pub use plan::{Class, ClassList, Control, ControlList, Kind, KindList, Plan, RankList};
pub use run::{Run, RunList, merged};
pub use shape::{Scalar, Shape, index_count};
pub use statements::{
    Alternative, AlternativeList, Arm, ArmList, Choice, ChoiceList, Stmt, StmtForm, StmtList,
};
