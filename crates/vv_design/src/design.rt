//! The elaborated design.

ghost use Rattle.std.specs.Prelude.{◌≡◌};
ghost use Rattle.vv_design.specs.Design.{actual_of};

use crate::expressions::Expr;
use crate::run::{Run, RunList};
use crate::shape::Shape;
use crate::statements::StmtList;
use sqlite_items::Items;
use vv_base::fault::{Memory, Name, Span, cannot_come};
use vv_base::text::Text;
use vv_types::{Subtype, Value, ValueList};

/// An elaborated design. Nets, processes and instances stand in elaboration order, and their numbers are their positions from 0.
/// `constants` are the named constants of many scalars. A function stands behind those that it calls. `top` has the ports of the top in
/// the order of its entity. Net elements are numbered from 0, and there are `elements` of them.
#[derive(Drop)]
pub struct Design {
    pub insts: InstList,
    pub nets: NetList,
    pub sources: SourceList,
    pub constants: ValueList,
    pub functions: FunctionList,
    pub procs: ProcList,
    pub top: PortList,
    pub elements: u32,
}

impl Design {
    /// The instance with a number of this design.
    pub fn inst(&self, number: u32) -> Result<&Inst, Memory> {
        self.insts.get(number as usize).ok_or(cannot_come())
    }

    /// The net with a number of this design.
    pub fn net(&self, number: u32) -> Result<&Net, Memory> {
        self.nets.get(number as usize).ok_or(cannot_come())
    }

    /// The large constant with a number of this design.
    pub fn constant(&self, number: u32) -> Result<&Value, Memory> {
        self.constants.get(number as usize).ok_or(cannot_come())
    }

    /// The function with a number of this design.
    pub fn function(&self, number: u32) -> Result<&Function, Memory> {
        self.functions.get(number as usize).ok_or(cannot_come())
    }

    /// The process with a number of this design.
    pub fn proc(&self, number: u32) -> Result<&Proc, Memory> {
        self.procs.get(number as usize).ok_or(cannot_come())
    }
}

/// An instance. Instance 0 is the top, whose path is empty and which has no instance round it. `entity_text` is the text of the entity's name.
/// `generics` are the values of its generics in the order of its entity.
/// Instances with the same entity, architecture, values of generics and subtypes of ports have one number `spec`, counted from 0 in
/// the order of the first of them. `procs_before` is how many processes are elaborated before it, which tells its place among the
/// concurrent statements of the instance round it.
#[derive(Drop)]
pub struct Inst {
    pub path: Text,
    pub entity: Name,
    pub entity_text: Text,
    pub arch: Name,
    pub up: Option<u32>,
    pub generics: ValueList,
    pub spec: u32,
    pub procs_before: u32,
}

/// A signal or a port. `inst` is the instance whose entity or architecture declares it. Its elements, from the left, are numbered on
/// from `first`. A port has the elements of its actual. `procs_before` is how many processes are elaborated before its declaration.
#[derive(Drop)]
pub struct Net {
    pub path: Text,
    pub span: Span,
    pub inst: u32,
    pub kind: NetKind,
    pub subtype: Subtype,
    pub shape: Shape,
    pub first: u32,
    pub resolved: bool,
    pub initial: Value,
    pub procs_before: u32,
}

impl Net {
    /// Its elements.
    pub fn run(&self) -> Run {
        Run {
            first: self.first,
            len: self.shape.size(),
        }
    }
}

/// Whether a net is a signal or a port. `actual` is the number of the net that the port is joined with, or with a part of.
#[derive(Clone, Copy, Debug, PartialEq, Eq)]
pub enum NetKind {
    Signal,
    Port { mode: Mode, actual: Option<u32> },
}

impl NetKind {
    /// The net that a port is joined with. A signal has none.
    pub fn actual(self) -> Option<u32>
        ensures { result ≡ actual_of self }
    {
        match self {
            NetKind::Signal => None,
            NetKind::Port { mode: _, actual } => actual,
        }
    }
}

/// The mode of a port.
#[derive(Clone, Copy, Debug, PartialEq, Eq)]
pub enum Mode {
    In,
    Out,
    Inout,
}

/// A source of each element of a run, which is not empty.
#[derive(Drop)]
pub struct Source {
    pub run: Run,
    pub from: Origin,
}

/// Where a source comes from. A driver is of a process, and `net` is the net by whose name the process assigns the elements; no element
/// stands in two runs of one process and net. A constant comes with a port `net`: `values` has a scalar for each element of the run.
#[derive(Drop)]
pub enum Origin {
    Driver { proc: u32, net: u32 },
    Constant { net: u32, values: ValueList },
}

/// A process. `listens` are the elements that it is sensitive to: those of its list, or those of the condition that it waits for. These
/// runs stand in order, and none meets or touches another one. `listed` is whether it has a list, as a concurrent assignment has.
#[derive(Drop)]
pub struct Proc {
    pub path: Text,
    pub span: Span,
    pub inst: u32,
    pub listed: bool,
    pub listens: RunList,
    pub vars: VarList,
    pub body: StmtList,
}

/// A variable of a process. Its span is that of its identifier.
#[derive(Drop)]
pub struct ProcVar {
    pub path: Text,
    pub span: Span,
    pub subtype: Subtype,
    pub shape: Shape,
    pub initial: Value,
}

/// A plain function, elaborated for the subtypes of its parameters and the values of those whose arguments are static. Calls that agree
/// in these share it. Static arguments are no parameters. `name` is that of its declaration.
#[derive(Drop)]
pub struct Function {
    pub name: Text,
    pub span: Span,
    pub params: ParamList,
    pub locals: LocalList,
    pub result: Subtype,
    pub body: StmtList,
}

/// A parameter of a function.
#[derive(Drop)]
pub struct Param {
    pub name: Text,
    pub subtype: Subtype,
}

/// A variable, or a constant whose value is not static, that a function declares. It starts at `initial` in each call.
#[derive(Drop)]
pub struct Local {
    pub name: Text,
    pub span: Span,
    pub subtype: Subtype,
    pub initial: Expr,
}

/// A port of the top.
#[derive(Clone, Copy, Debug, PartialEq, Eq)]
pub struct Port {
    pub net: u32,
    pub input: bool,
}

/// What a run met, and where. Two different metavalues were compared, or a derived control left the levels 0 and 1.
#[derive(Clone, Copy, Debug, PartialEq, Eq)]
pub struct Met {
    pub kind: MetKind,
    pub at: Span,
}

/// The kinds of what a run meets.
#[derive(Clone, Copy, Debug, PartialEq, Eq)]
pub enum MetKind {
    Clash,
    Control,
}

pub type InstList = Items<Inst>;

pub type NetList = Items<Net>;

pub type SourceList = Items<Source>;

pub type FunctionList = Items<Function>;

pub type LocalList = Items<Local>;

pub type ParamList = Items<Param>;

pub type ProcList = Items<Proc>;

pub type PortList = Items<Port>;

pub type VarList = Items<ProcVar>;
