//! The names of the sources, by number.

ghost use Rattle.std.specs.Prelude.{◌≡◌, ◌<◌, [], IfOk, OnErr, OnOk, length, slice_get};
ghost use Rattle.std.specs.Option.{option_map};
ghost use Rattle.vv_base.specs.Names.{folded, number_of, with_text};

use crate::fault::{Memory, Name};
use indexmap::IndexSet;
use std::alloc::Global;
use std::marker::Model;
use vv_hash::{Seed, SeededState};

/// The names that were seen so far. A name has the number of its text in the order of first sight, and texts that
/// differ in letter case alone are one (IEEE 1076-1993, clause 13.3). Letters of ASCII are folded to lower case.
#[derive(Drop)]
pub struct Names {
    alloc: Global,
    texts: IndexSet<Vec<u8>, SeededState>,
}

impl Model for Names {
    ghost use Rattle.std.specs.Prelude.{List, ℕ, map};

    ghost Value = { List (List ℕ) };

    ghost view = { λ names. map (λ t. t.items) names.texts.keys };
}

impl Names {
    /// No names. Their hashes draw on no file, so names of files that others wrote want `for_files`.
    pub fn new(alloc: Global) -> Names
        ensures { result ≡ [] }
    {
        Names::for_files(alloc, &[])
    }

    /// No names. The seed of their hashes is drawn from these files, so that no file can have names that are picked to collide.
    pub fn for_files(alloc: Global, files: &[&[u8]]) -> Names
        ensures { result ≡ [] }
    {
        let mut seed = Seed::new();
        for file in files {
            seed.add(file);
        }
        Names {
            alloc,
            texts: IndexSet::with_hasher(alloc, seed.state()),
        }
    }

    /// How many texts are held.
    pub fn len(&self) -> usize
        ensures { result ≡ length self.now }
    {
        self.texts.len()
    }

    /// The number of a text, which is held from now on.
    pub fn intern(&mut self, text: &[u8]) -> Result<Name, Memory>
        requires { length self.old < 4294967295 }
        ensures number { IfOk result (λ n. n.0 ≡ number_of self.old (folded text.now)) }
        ensures texts { OnOk result (self.new ≡ with_text self.old (folded text.now)) }
        ensures err { OnErr result (self.new ≡ self.old) }
    {
        let folded = text.to_ascii_lowercase(self.alloc)?;
        let (number, _) = self.texts.insert_full(folded)?;
        Ok(Name(number as u32))
    }

    /// The text of a name, or None where its number was never given.
    pub fn text(&self, name: Name) -> Option<&[u8]>
        ensures { option_map (λ t. t.now) result ≡ slice_get self.now name.0 }
    {
        match self.texts.get_index(name.0 as usize) {
            Some(text) => Some(text.as_slice()),
            None => None,
        }
    }
}
