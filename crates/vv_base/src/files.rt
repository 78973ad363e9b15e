//! The files and the standard output of the system. Of what they hold nothing is told.

ghost use Rattle.std.specs.Prelude.{◌≡◌, ◌≤◌, ◌++◌, List, ℕ, None, OnOk, IfSome, IsTrue, length, take};
ghost use Rattle.std.specs.Io.KnownBytes.{Appends};

use crate::shelf::{LoadFault, SaveFault, Shelf};
use crate::sink::{PutFault, Sink};
use std::fs;
use std::io::{Print, Read, Write};
use std::rt::Files;

// A file that gives more bytes is a fault of the read.
const MOST_BYTES: usize = 1 << 30;

/// The files that the system gives. One count of faults stands for the counts of all names.
#[derive(Drop)]
pub struct FileShelf<R> {
    rt: R,
    faults: u64,
}

impl<R: Files> FileShelf<R> {
    ghost use Rattle.vv_base.specs.OfSystem.{shelf_faults};

    /// A shelf with no faults so far.
    pub fn new(rt: R) -> FileShelf<R>
        ensures { shelf_faults result ≡ 0 }
    {
        FileShelf { rt, faults: 0 }
    }
}

impl<R: Files> Shelf for FileShelf<R> {
    ghost use Rattle.vv_base.specs.OfSystem.{shelf_faults};

    ghost held = { λ shelf name. None };

    ghost failed_loads = { λ shelf name. shelf_faults shelf };

    ghost failed_saves = { λ shelf name. shelf_faults shelf };

    fn load(&mut self, name: &str, into: &mut Vec<u8>) -> Result<(), LoadFault> {
        let start = into.len();
        let loaded = match fs::open(&self.rt, name) {
            Ok(file) => {
                let mut file = file;
                pull(&mut file, MOST_BYTES, into)
            }
            Err(_) => Err(LoadFault::Failed),
        };
        match loaded {
            Ok(()) => Ok(()),
            Err(LoadFault::Failed) => {
                into.truncate(start);
                self.faults = self.faults.saturating_add(1);
                Err(LoadFault::Failed)
            }
            Err(LoadFault::Memory) => {
                into.truncate(start);
                Err(LoadFault::Memory)
            }
        }
    }

    fn save(&mut self, name: &str, bytes: &[u8]) -> Result<(), SaveFault> {
        let saved = match fs::create(&self.rt, name) {
            Ok(file) => {
                let mut file = file;
                push(&mut file, bytes)
            }
            Err(_) => false,
        };
        if saved {
            return Ok(());
        }
        self.faults = self.faults.saturating_add(1);
        Err(SaveFault::Failed)
    }
}

// Reads to the end. What stood before stays. More than `most` bytes are a fault.
fn pull<F: Read>(file: &mut F, most: usize, into: &mut Vec<u8>) -> Result<(), LoadFault>
    ensures kept { take (length into.old.items) into.new.items ≡ into.old.items }
    ensures all { OnOk result
        (IfSome (F.remaining file.old) (λ rest. into.new.items ≡ into.old.items ++ rest)) }
{
    let mut buffer = [0u8; 4096];
    let mut left = most;
    for _ in 0..=most {
        let Ok(count) = file.read(&mut buffer) else {
            return Err(LoadFault::Failed);
        };
        if count == 0 {
            return Ok(());
        }
        if count > left {
            return Err(LoadFault::Failed);
        }
        left -= count;
        if into.extend_from_slice(&buffer[..count]).is_err() {
            return Err(LoadFault::Memory);
        }
    }
    Err(LoadFault::Failed)
}

// Whether all the bytes were written. A write of no byte is a fault.
fn push<F: Write>(file: &mut F, bytes: &[u8]) -> bool
    ensures { IsTrue result → Appends (F.contents file.old) (F.contents file.new) bytes.now }
{
    let mut left = bytes;
    while !left.is_empty() {
        match file.write(left) {
            Ok(0) | Err(_) => return false,
            Ok(count) => left = &left[count..],
        }
    }
    true
}

/// The standard output.
#[derive(Drop)]
pub struct StdoutSink<R> {
    rt: R,
    faults: u64,
}

impl<R: Print> StdoutSink<R> {
    ghost use Rattle.vv_base.specs.OfSystem.{sink_faults};

    /// A sink with no faults so far.
    pub fn new(rt: R) -> StdoutSink<R>
        ensures { sink_faults result ≡ 0 }
    {
        StdoutSink { rt, faults: 0 }
    }
}

impl<R: Print> Sink for StdoutSink<R> {
    ghost use Rattle.vv_base.specs.OfSystem.{sink_faults};

    ghost written = { λ sink. None };

    ghost faults = { sink_faults };

    fn put(&mut self, bytes: &[u8]) -> Result<(), PutFault> {
        let mut left = bytes;
        while !left.is_empty() {
            match self.rt.write_some(left) {
                Ok(0) | Err(_) => {
                    self.faults = self.faults.saturating_add(1);
                    return Err(PutFault::Failed);
                }
                Ok(count) => left = &left[count..],
            }
        }
        Ok(())
    }
}

#[cfg(test)]
mod tests;
