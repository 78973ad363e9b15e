//! Places in sources, and why a call did not do its work.

ghost use Rattle.std.specs.Prelude.{◌≡◌};
ghost use Rattle.vv_base.specs.declared.fault.Fault.TheVariants.{Memory as OutOfMemory};

pub use crate::rules::Rule;
use std::alloc::{AllocError, AllocFailed};
use thiserror::Error;

/// Some bytes of a file: the file by its number in the order of the command, and the bytes by their offset and count.
#[derive(Clone, Copy, Debug, PartialEq, Eq)]
pub struct Span {
    pub file: u32,
    pub at: u32,
    pub len: u32,
}

/// A name of the sources by its number. Names that differ in letter case alone have one number.
#[derive(Clone, Copy, Debug, PartialEq, Eq)]
pub struct Name(pub u32);

/// A rule, and the place where a source breaks it.
#[derive(Clone, Copy, Debug, PartialEq, Eq)]
pub struct Refusal {
    pub rule: Rule,
    pub span: Span,
}

/// Want of memory.
#[derive(Clone, Copy, Debug, PartialEq, Eq, Error)]
#[error("out of memory")]
pub struct Memory;

/// Why a call did not do its work.
#[derive(Clone, Copy, Debug, PartialEq, Eq)]
pub enum Fault {
    /// A rule is broken.
    Refused(Refusal),
    /// There is no memory left.
    Memory,
}

impl From<AllocError> for Memory {
    fn from(_error: AllocError) -> Memory {
        Memory
    }
}

impl<T: Drop> From<AllocFailed<T>> for Memory {
    fn from(_failed: AllocFailed<T>) -> Memory {
        Memory
    }
}

impl From<Memory> for Fault {
    ghost from_gives = { λ _ e. e ≡ OutOfMemory };

    fn from(_memory: Memory) -> Fault {
        Fault::Memory
    }
}

impl From<AllocError> for Fault {
    ghost from_gives = { λ _ e. e ≡ OutOfMemory };

    fn from(_error: AllocError) -> Fault {
        Fault::Memory
    }
}

impl<T: Drop> From<AllocFailed<T>> for Fault {
    ghost from_gives = { λ _ e. e ≡ OutOfMemory };

    fn from(_failed: AllocFailed<T>) -> Fault {
        Fault::Memory
    }
}

/// The answer of an arm that cannot come. The proof that it cannot come is owed where this is called.
pub fn cannot_come() -> Memory {
    Memory
}
