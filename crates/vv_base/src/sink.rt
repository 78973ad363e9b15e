//! A sink takes bytes.

ghost use Rattle.std.specs.Prelude.{◌≡◌, ◌≤◌, List, ℕ, Option, OnOk, IsErrOf, take};
ghost use Rattle.std.specs.Io.KnownBytes.{Appends, Keeps};
ghost use Rattle.vv_base.specs.Outside.{Rose};

use thiserror::Error;

/// Why a put did not do its work.
#[derive(Clone, Copy, Debug, PartialEq, Eq, Error)]
pub enum PutFault {
    /// The bytes could not be written. Some first part of them has been.
    #[error("the output cannot be written")]
    Failed,
    /// There is no memory left. None of the bytes has been written.
    #[error("out of memory")]
    Memory,
}

/// Takes bytes, one piece after another.
///
/// A sink in memory tells what was put, and a terminal tells nothing. What tells goes on telling after each call.
pub trait Sink {
    /// The bytes put so far, where they are told.
    ghost written: { Self → Option (List ℕ) };

    /// How many puts have failed.
    ghost faults: { Self → ℕ };

    /// Appends the bytes.
    fn put(&mut self, bytes: &[u8]) -> Result<(), PutFault>
        ensures put { OnOk result (Appends (written self.old) (written self.new) bytes.now) }
        ensures part { (k : ℕ) × Appends (written self.old) (written self.new) (take k bytes.now) }
        ensures memory { IsErrOf result PutFault.Memory
            → Keeps (written self.old) (written self.new) }
        ensures later { faults self.old ≤ faults self.new }
        ensures cause { IsErrOf result PutFault.Failed → Rose (faults self.old) (faults self.new) };
}
