//! Sets of candidates.

ghost use Rattle.std.specs.Prelude.{◌≡◌, ℕ, List, [], ◌∷◌, ◌++◌, OnOk, OnErr};

use smallvec::SmallVec;
use std::alloc::Global;
use std::marker::Model;
use vv_base::fault::Memory;

/// Declarations that may be meant, the first eight in the value.
#[derive(Drop)]
pub struct Cands {
    set: SmallVec<u32, 8>,
}

impl Model for Cands {
    ghost Value = { List ℕ };

    ghost view = { λ c. c.set.items };
}

impl Cands {
    /// An empty set, which takes no memory.
    pub fn new(alloc: Global) -> Cands
        ensures { result ≡ [] }
    {
        Cands {
            set: SmallVec::new(alloc),
        }
    }

    /// Appends a declaration.
    pub fn add(&mut self, decl: u32) -> Result<(), Memory>
        ensures ok { OnOk result (self.new ≡ self.old ++ decl ∷ []) }
        ensures err { OnErr result (self.new ≡ self.old) }
    {
        match self.set.push(decl) {
            Ok(()) => Ok(()),
            Err(_) => Err(Memory),
        }
    }

    /// The declarations in order.
    pub fn as_slice(&self) -> &[u32]
        ensures { result.now ≡ self.now }
    {
        self.set.as_slice()
    }

    /// Appends a declaration as often as it is meant, twice at most.
    pub fn add_ways(&mut self, decl: u32, ways: u32) -> Result<(), Memory> {
        if ways >= 1 {
            self.add(decl)?;
        }
        if ways >= 2 {
            self.add(decl)?;
        }
        Ok(())
    }

    pub fn is_empty(&self) -> bool {
        self.set.as_slice().is_empty()
    }
}
