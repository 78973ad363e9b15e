//! Why a text is refused.

ghost use Rattle.std.specs.Prelude.{◌≡◌};
ghost use Rattle.vv_vtree.specs.declared.fault.VFault.TheVariants.{Memory as OutOfMemory};

use std::alloc::{AllocError, AllocFailed};
use vv_base::fault::Memory;

/// The rules of a text.
#[derive(Clone, Copy, Debug, PartialEq, Eq)]
pub enum VCode {
    V1,
    V2,
    V3,
    V4,
    V5,
    V6,
    V7,
    V8,
}

impl VCode {
    /// The text of the code.
    pub fn text(self) -> &'static str {
        match self {
            VCode::V1 => "V1",
            VCode::V2 => "V2",
            VCode::V3 => "V3",
            VCode::V4 => "V4",
            VCode::V5 => "V5",
            VCode::V6 => "V6",
            VCode::V7 => "V7",
            VCode::V8 => "V8",
        }
    }
}

/// Why a call did not do its work.
#[derive(Clone, Copy, Debug, PartialEq, Eq)]
pub enum VFault {
    /// The text breaks this rule at this offset.
    Refused { code: VCode, at: u64 },
    /// There is no memory left.
    Memory,
}

impl From<Memory> for VFault {
    ghost from_gives = { λ _ e. e ≡ OutOfMemory };

    fn from(_memory: Memory) -> VFault {
        VFault::Memory
    }
}

impl From<AllocError> for VFault {
    ghost from_gives = { λ _ e. e ≡ OutOfMemory };

    fn from(_error: AllocError) -> VFault {
        VFault::Memory
    }
}

impl<T: Drop> From<AllocFailed<T>> for VFault {
    ghost from_gives = { λ _ e. e ≡ OutOfMemory };

    fn from(_failed: AllocFailed<T>) -> VFault {
        VFault::Memory
    }
}
