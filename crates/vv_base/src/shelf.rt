//! A shelf holds files by their names.

ghost use Rattle.std.specs.Prelude.{◌≡◌, List, ℕ, Option, OnOk, OnErr, IsErrOf};
ghost use Rattle.vv_base.specs.Outside.{Loaded, KeepsAll, KeepsOthers, Holds, NoneFell, Rose};

use thiserror::Error;

/// Why a load did not do its work.
#[derive(Clone, Copy, Debug, PartialEq, Eq, Error)]
pub enum LoadFault {
    /// The file could not be read, or there is none.
    #[error("the file cannot be read")]
    Failed,
    /// There is no memory left.
    #[error("out of memory")]
    Memory,
}

/// Why a save did not do its work.
#[derive(Clone, Copy, Debug, PartialEq, Eq, Error)]
pub enum SaveFault {
    /// The file could not be written. What it holds now is not told.
    #[error("the file cannot be written")]
    Failed,
    /// There is no memory left.
    #[error("out of memory")]
    Memory,
}

/// Files by their names.
///
/// A shelf tells the content of some names, as one in memory does, and of others nothing, as a real folder does.
/// What it tells of a name it goes on telling after each call, but for a save of that name that failed.
pub trait Shelf {
    /// What is told of each name: nothing, that it is absent, or its bytes.
    ghost held: { Self → List ℕ → Option (Option (List ℕ)) };

    /// How many loads of each name have failed.
    ghost failed_loads: { Self → List ℕ → ℕ };

    /// How many saves of each name have failed.
    ghost failed_saves: { Self → List ℕ → ℕ };

    /// Appends the bytes of the name.
    fn load(&mut self, name: &str, into: &mut Vec<u8>) -> Result<(), LoadFault>
        ensures loaded { OnOk result
            (Loaded (held self.old name.now) into.old.items into.new.items) }
        ensures refused { OnErr result (into.new.items ≡ into.old.items) }
        ensures held { KeepsAll (held self.old) (held self.new) }
        ensures loads { NoneFell (failed_loads self.old) (failed_loads self.new) }
        ensures saves { NoneFell (failed_saves self.old) (failed_saves self.new) }
        ensures cause { IsErrOf result LoadFault.Failed
            → Rose (failed_loads self.old name.now) (failed_loads self.new name.now) };

    /// Makes the bytes the name's content.
    fn save(&mut self, name: &str, bytes: &[u8]) -> Result<(), SaveFault>
        ensures saved { OnOk result (Holds name.now bytes.now (held self.old) (held self.new)) }
        ensures others { KeepsOthers name.now (held self.old) (held self.new) }
        ensures memory { IsErrOf result SaveFault.Memory
            → KeepsAll (held self.old) (held self.new) }
        ensures loads { NoneFell (failed_loads self.old) (failed_loads self.new) }
        ensures saves { NoneFell (failed_saves self.old) (failed_saves self.new) }
        ensures cause { IsErrOf result SaveFault.Failed
            → Rose (failed_saves self.old name.now) (failed_saves self.new name.now) };
}
