use super::{FileShelf, StdoutSink, pull};
use crate::shelf::{LoadFault, SaveFault, Shelf};
use crate::sink::{PutFault, Sink};
use std::cell::Cell;
use std::fmt::Display;
use std::io::Print;
use std::test::Fail;
use std::{fs, io, process};

#[test]
fn shelf_of_files(rt: HostRuntime) -> Result<(), Fail> {
    let alloc = rt.alloc();
    let id = process::id(rt.process());
    let folder = format!(in alloc; "/tmp/vv_base_{id}")?;
    let absent = format!(in alloc; "{folder}/absent/file")?;
    let file = format!(in alloc; "{folder}/file")?;
    if fs::exists(&rt, folder.as_str())? {
        fs::remove_dir_all(&rt, folder.as_str())?;
    }
    fs::create_dir(&rt, folder.as_str())?;
    let mut shelf = FileShelf::new(&rt);
    let mut into = Vec::from_slice(alloc, b">")?;
    for name in [absent.as_str(), folder.as_str(), ""] {
        let before = shelf.faults;
        assert_eq!(rt;
            shelf.load(name, &mut into),
            Err(LoadFault::Failed),
            "{name}"
        );
        assert!(rt; before < shelf.faults, "{name}");
        assert_eq!(rt; into.as_slice(), b">".as_slice(), "{name}");
    }
    for name in [absent.as_str(), folder.as_str(), "/dev/full"] {
        let before = shelf.faults;
        assert_eq!(rt; shelf.save(name, b"xy"), Err(SaveFault::Failed), "{name}");
        assert!(rt; before < shelf.faults, "{name}");
    }
    for bytes in [&b"a longer text"[..], b"\x00\xFF\n", b""] {
        into.clear();
        assert_eq!(rt; shelf.save(file.as_str(), bytes), Ok(()));
        assert_eq!(rt; shelf.load(file.as_str(), &mut into), Ok(()));
        assert_eq!(rt; into.as_slice(), bytes);
    }
    assert_eq!(rt; shelf.faults, 6);
    fs::remove_dir_all(&rt, folder.as_str())?;
    Ok(())
}

// Takes some bytes at a time, and shows how many it took in all, and the last one. It fails once it has four.
#[derive(Drop)]
struct Slow {
    at_once: usize,
    taken: Cell<u64>,
    last: Cell<u8>,
}

impl Print for Slow {
    fn print<D: Display + Drop>(&self, _value: D) -> io::Result<()> {
        Ok(())
    }

    fn println<D: Display + Drop>(&self, _value: D) -> io::Result<()> {
        Ok(())
    }

    fn write_all(&self, _bytes: &[u8]) -> io::Result<()> {
        Ok(())
    }

    fn write_some(&self, bytes: &[u8]) -> io::Result<usize> {
        if self.taken.get() == 4 {
            return Err(io::ErrorKind::StorageFull.into());
        }
        let count = self.at_once.min(bytes.len());
        if let Some(&byte) = bytes[..count].last() {
            self.last.set(byte);
        }
        self.taken
            .set(self.taken.get().saturating_add(count as u64));
        Ok(count)
    }
}

#[test]
fn standard_output(rt: HostRuntime) {
    for (at_once, bytes, want, taken, last) in [
        (1, &b"abc"[..], Ok(()), 3, b'c'),
        (2, b"abc", Ok(()), 3, b'c'),
        (9, b"abc", Ok(()), 3, b'c'),
        (1, b"", Ok(()), 0, b'-'),
        (0, b"abc", Err(PutFault::Failed), 0, b'-'),
        (2, b"abcde", Err(PutFault::Failed), 4, b'd'),
    ] {
        let slow = Slow {
            at_once,
            taken: Cell::new(0),
            last: Cell::new(b'-'),
        };
        let mut sink = StdoutSink::new(&slow);
        assert_eq!(rt; sink.put(bytes), want);
        assert_eq!(rt; sink.faults, if want.is_ok() { 0 } else { 1 });
        assert_eq!(rt; slow.taken.get(), taken);
        assert_eq!(rt; slow.last.get(), last);
    }
    assert_eq!(rt; StdoutSink::new(&rt).put(b"to the terminal\n"), Ok(()));
}

#[test]
fn too_long_a_file(rt: HostRuntime) -> Result<(), Fail> {
    for (most, want, read) in [
        (3, Ok(()), &b"abc"[..]),
        (2, Err(LoadFault::Failed), b""),
        (0, Err(LoadFault::Failed), b""),
    ] {
        let mut into = Vec::new(rt.alloc());
        let mut file = &b"abc"[..];
        assert_eq!(rt; pull(&mut file, most, &mut into), want, "at most {most}");
        assert_eq!(rt; into.as_slice(), read, "at most {most}");
    }
    Ok(())
}
