//! How runs end.

use vv_base::fault::{Memory, Span};
use vv_base::sink::PutFault;
use vv_bits::{Bits4, Bits9};
use vv_design::{Met, MetKind};

/// How a run of rows ended.
#[derive(Debug, Drop)]
pub enum Ran {
    /// All rows were run.
    Done {
        rows: u64,
    },
    /// The VHDL run reached a range error at this row.
    Range {
        row: u64,
        at: Span,
    },
    /// The VHDL run met a clash at this row.
    Clash {
        row: u64,
        at: Span,
    },
    /// The VHDL run met a control fault at this row.
    Control {
        row: u64,
        at: Span,
    },
    /// The bits of a line differ at this row.
    Differs {
        row: u64,
        line: u32,
        vhdl: Bits9,
        verilog: Bits4,
    },
    /// The sink failed.
    Failed,
    /// There is no memory left.
    Memory,
}

/// Why a run stops before its last row.
#[derive(Clone, Copy, Debug, PartialEq, Eq)]
pub enum Stop {
    Failed,
    Memory,
    /// A range error.
    Range { row: u64, at: Span },
}

impl From<Memory> for Stop {
    fn from(_memory: Memory) -> Stop {
        Stop::Memory
    }
}

impl From<PutFault> for Stop {
    fn from(fault: PutFault) -> Stop {
        match fault {
            PutFault::Failed => Stop::Failed,
            PutFault::Memory => Stop::Memory,
        }
    }
}

impl Stop {
    /// The answer of the run.
    pub fn ran(self) -> Ran {
        match self {
            Stop::Failed => Ran::Failed,
            Stop::Memory => Ran::Memory,
            Stop::Range { row, at } => Ran::Range { row, at },
        }
    }
}

/// The answer of a run that met something.
pub fn ran_of(met: Met, row: u64) -> Ran {
    match met.kind {
        MetKind::Clash => Ran::Clash { row, at: met.at },
        MetKind::Control => Ran::Control { row, at: met.at },
    }
}
