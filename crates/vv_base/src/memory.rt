//! A shelf and a sink in memory, whose calls can be made to fail by their numbers.

ghost use Rattle.std.specs.Prelude.{◌≡◌, ◌+◌, ◌≤◌, ◌≢◌, ◌++◌, List, [], ℕ, Some, None, Option, OnOk, OnErr, IfOk, ◌-◌, max, option_map, option_copied, vec_len, vec_capacity, length, IsErrOf, IsTrue, ◌↔◌, ◌⊎◌, take};
ghost use Rattle.std.specs.BTreeMap.{get_by_text};
ghost use Rattle.std.specs.Io.KnownBytes.{Appends, Keeps};
ghost use Rattle.vv_base.specs.Outside.{Loaded, KeepsAll, KeepsOthers, Holds, NoneFell, Rose};

use crate::fault::Memory;
use crate::shelf::{LoadFault, SaveFault, Shelf};
use crate::sink::{PutFault, Sink};
use std::alloc::Global;
use std::collections::BTreeMap;

/// A shelf in memory, which tells all its content.
#[derive(Drop)]
pub struct MemShelf {
    alloc: Global,
    files: BTreeMap<String, Vec<u8>>,
    fails: Vec<u64>,
    calls: u64,
    failed_loads: u64,
    failed_saves: u64,
}

impl Shelf for MemShelf {
    ghost use Rattle.vv_base.specs.InMemory.{content_of, failed_loads_of, failed_saves_of, IsShelfFailing, ShelfCalled, ShelfUnfailed};

    ghost held = { content_of };

    ghost failed_loads = { failed_loads_of };

    ghost failed_saves = { failed_saves_of };

    fn load(&mut self, name: &str, into: &mut Vec<u8>) -> Result<(), LoadFault>
        ensures loaded { OnOk result
            (Loaded (content_of self.old name.now) into.old.items into.new.items) }
        ensures refused { OnErr result (into.new.items ≡ into.old.items) }
        ensures held { KeepsAll (content_of self.old) (content_of self.new) }
        ensures loads { NoneFell (failed_loads_of self.old) (failed_loads_of self.new) }
        ensures saves { NoneFell (failed_saves_of self.old) (failed_saves_of self.new) }
        ensures cause { IsErrOf result LoadFault.Failed
            → Rose (failed_loads_of self.old name.now) (failed_loads_of self.new name.now) }
        ensures called { ShelfCalled self.old self.new }
        ensures numbered { IsShelfFailing self.old → IsErrOf result LoadFault.Failed }
        ensures absent { content_of self.old name.now ≡ Some None
            → IsErrOf result LoadFault.Failed }
        ensures failed { IsErrOf result LoadFault.Failed
            → IsShelfFailing self.old ⊎ (content_of self.old name.now ≡ Some None) }
        ensures unfailed { OnOk result (ShelfUnfailed self.old self.new) }
    {
        if self.next_fails() {
            self.failed_loads = self.failed_loads.saturating_add(1);
            return Err(LoadFault::Failed);
        }
        match self.files.get(name) {
            None => {
                self.failed_loads = self.failed_loads.saturating_add(1);
                Err(LoadFault::Failed)
            }
            Some(bytes) => match into.extend_from_slice(bytes.as_slice()) {
                Ok(()) => Ok(()),
                Err(_) => Err(LoadFault::Memory),
            },
        }
    }

    fn save(&mut self, name: &str, bytes: &[u8]) -> Result<(), SaveFault>
        ensures saved { OnOk result
            (Holds name.now bytes.now (content_of self.old) (content_of self.new)) }
        ensures others { KeepsOthers name.now (content_of self.old) (content_of self.new) }
        ensures memory { IsErrOf result SaveFault.Memory
            → KeepsAll (content_of self.old) (content_of self.new) }
        ensures loads { NoneFell (failed_loads_of self.old) (failed_loads_of self.new) }
        ensures saves { NoneFell (failed_saves_of self.old) (failed_saves_of self.new) }
        ensures cause { IsErrOf result SaveFault.Failed
            → Rose (failed_saves_of self.old name.now) (failed_saves_of self.new name.now) }
        ensures called { ShelfCalled self.old self.new }
        ensures numbered { IsShelfFailing self.old → IsErrOf result SaveFault.Failed }
        ensures failed { IsErrOf result SaveFault.Failed → IsShelfFailing self.old }
        ensures kept { OnErr result (KeepsAll (content_of self.old) (content_of self.new)) }
        ensures unfailed { OnOk result (ShelfUnfailed self.old self.new) }
    {
        if self.next_fails() {
            self.failed_saves = self.failed_saves.saturating_add(1);
            return Err(SaveFault::Failed);
        }
        match self.set(name, bytes) {
            Ok(()) => Ok(()),
            Err(_) => Err(SaveFault::Memory),
        }
    }
}

impl MemShelf {
    ghost use Rattle.vv_base.specs.InMemory.{content_of, failed_loads_of, failed_saves_of, shelf_calls, shelf_fails, IsShelfFailing, ShelfCalled, ShelfUncalled, ShelfUnfailed};

    /// An empty shelf. Calls of load and save are numbered from 0, and those in `fails` fail.
    pub fn new(alloc: Global, fails: &[u64]) -> Result<MemShelf, Memory>
        ensures empty { IfOk result (λ s. (n : List ℕ) → content_of s n ≡ Some None) }
        ensures calls { IfOk result (λ s. shelf_calls s ≡ 0) }
        ensures fails { IfOk result (λ s. shelf_fails s ≡ fails.now) }
    {
        Ok(MemShelf {
            alloc,
            files: BTreeMap::new(alloc),
            fails: Vec::from_slice(alloc, fails)?,
            calls: 0,
            failed_loads: 0,
            failed_saves: 0,
        })
    }

    /// Puts a file, and counts no call.
    pub fn set(&mut self, name: &str, bytes: &[u8]) -> Result<(), Memory>
        ensures saved { OnOk result
            (Holds name.now bytes.now (content_of self.old) (content_of self.new)) }
        ensures others { KeepsOthers name.now (content_of self.old) (content_of self.new) }
        ensures memory { OnErr result (KeepsAll (content_of self.old) (content_of self.new)) }
        ensures unfailed { ShelfUnfailed self.old self.new }
        ensures uncalled { ShelfUncalled self.old self.new }
    {
        let key = String::from_str(self.alloc, name)?;
        let value = Vec::from_slice(self.alloc, bytes)?;
        self.files.insert(key, value)?;
        Ok(())
    }

    /// The bytes of a file.
    pub fn get(&self, name: &str) -> Option<&[u8]>
        ensures { content_of self.now name.now ≡ Some (option_copied result) }
    {
        match self.files.get(name) {
            None => None,
            Some(bytes) => Some(bytes.as_slice()),
        }
    }

    // Whether this call fails. Counts it.
    fn next_fails(&mut self) -> bool
        ensures numbered { IsTrue result ↔ IsShelfFailing self.old }
        ensures called { ShelfCalled self.old self.new }
        ensures files { self.new.files ≡ self.old.files }
        ensures loads { self.new.failed_loads ≡ self.old.failed_loads }
        ensures saves { self.new.failed_saves ≡ self.old.failed_saves }
    {
        let is_numbered = self.fails.contains(&self.calls);
        self.calls = self.calls.saturating_add(1);
        is_numbered
    }
}

/// A sink in memory, which tells all that was put.
#[derive(Drop)]
pub struct MemSink {
    bytes: Vec<u8>,
    fails: Vec<u64>,
    calls: u64,
    faults: u64,
    /// How many more bytes may be put with no want of memory.
    pub spare: usize,
    ghost spare_is_there: { vec_len bytes + spare ≤ vec_capacity bytes },
}

impl Sink for MemSink {
    ghost use Rattle.vv_base.specs.InMemory.{put_so_far, faults_of, IsSinkFailing, SinkCalled};

    ghost written = { put_so_far };

    ghost faults = { faults_of };

    fn put(&mut self, bytes: &[u8]) -> Result<(), PutFault>
        ensures put { OnOk result (Appends (put_so_far self.old) (put_so_far self.new) bytes.now) }
        ensures part { (k : ℕ) × Appends (put_so_far self.old) (put_so_far self.new) (take k bytes.now) }
        ensures memory { IsErrOf result PutFault.Memory
            → Keeps (put_so_far self.old) (put_so_far self.new) }
        ensures later { faults_of self.old ≤ faults_of self.new }
        ensures cause { IsErrOf result PutFault.Failed
            → Rose (faults_of self.old) (faults_of self.new) }
        ensures room { length bytes.now ≤ self.old.spare → result ≢ Err PutFault.Memory }
        ensures spare { OnOk result (self.new.spare ≡ self.old.spare - length bytes.now) }
        ensures spared { OnErr result (self.new.spare ≡ self.old.spare) }
        ensures called { SinkCalled self.old self.new }
        ensures numbered { IsSinkFailing self.old → IsErrOf result PutFault.Failed }
        ensures failed { IsErrOf result PutFault.Failed → IsSinkFailing self.old }
        ensures kept { OnErr result (Keeps (put_so_far self.old) (put_so_far self.new)) }
        ensures unfailed { OnOk result (faults_of self.new ≡ faults_of self.old) }
    {
        let fails = self.fails.contains(&self.calls);
        self.calls = self.calls.saturating_add(1);
        if fails {
            self.faults = self.faults.saturating_add(1);
            return Err(PutFault::Failed);
        }
        let spare = self.spare;
        self.spare = 0;
        match self.bytes.extend_from_slice(bytes) {
            Ok(()) => {
                self.spare = spare.saturating_sub(bytes.len());
                Ok(())
            }
            Err(_) => {
                self.spare = spare;
                Err(PutFault::Memory)
            }
        }
    }
}

impl MemSink {
    ghost use Rattle.vv_base.specs.InMemory.{put_so_far, faults_of, sink_calls, sink_fails, SinkUncalled};

    /// An empty sink. Puts are numbered from 0, and those in `fails` fail.
    pub fn new(alloc: Global, fails: &[u64]) -> Result<MemSink, Memory>
        ensures empty { IfOk result (λ s. put_so_far s ≡ Some []) }
        ensures calls { IfOk result (λ s. sink_calls s ≡ 0) }
        ensures fails { IfOk result (λ s. sink_fails s ≡ fails.now) }
    {
        Ok(MemSink {
            bytes: Vec::new(alloc),
            fails: Vec::from_slice(alloc, fails)?,
            calls: 0,
            faults: 0,
            spare: 0,
        })
    }

    /// Makes `spare` at least n.
    pub fn reserve(&mut self, n: usize) -> Result<(), Memory>
        ensures written { put_so_far self.new ≡ put_so_far self.old }
        ensures faults { faults_of self.new ≡ faults_of self.old }
        ensures spare { OnOk result (self.new.spare ≡ max n self.old.spare) }
        ensures memory { OnErr result (self.new.spare ≡ self.old.spare) }
        ensures uncalled { SinkUncalled self.old self.new }
    {
        let spare = self.spare.max(n);
        self.bytes.reserve(spare)?;
        self.spare = spare;
        Ok(())
    }

    /// All the bytes put.
    pub fn bytes(&self) -> &[u8]
        ensures { put_so_far self.now ≡ Some result.now }
    {
        self.bytes.as_slice()
    }
}
