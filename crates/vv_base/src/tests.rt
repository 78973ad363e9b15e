use crate::fault::{Fault, Memory, Name, Refusal, Rule, Span, cannot_come};
use crate::memory::{MemShelf, MemSink};
use crate::names::Names;
use crate::shelf::{LoadFault, SaveFault, Shelf};
use crate::sink::{PutFault, Sink};
use crate::text::{ByteList, Text};
use std::alloc::AllocError;
use std::test::Fail;

#[test]
fn shelf_in_memory(rt: HostRuntime) -> Result<(), Fail> {
    let alloc = rt.alloc();
    let mut shelf = MemShelf::new(alloc, &[])?;
    let mut into = Vec::from_slice(alloc, b">")?;
    shelf.set("a", b"one")?;
    assert_eq!(rt; shelf.get("a"), Some(&b"one"[..]));
    assert_eq!(rt; shelf.get("b"), None);
    assert_eq!(rt; shelf.load("b", &mut into), Err(LoadFault::Failed));
    assert_eq!(rt; into.as_slice(), b">".as_slice());
    assert_eq!(rt; shelf.save("b", b"two"), Ok(()));
    assert_eq!(rt; shelf.load("b", &mut into), Ok(()));
    assert_eq!(rt; shelf.load("a", &mut into), Ok(()));
    assert_eq!(rt; into.as_slice(), b">twoone".as_slice());
    assert_eq!(rt; shelf.save("a", b""), Ok(()));
    assert_eq!(rt; shelf.get("a"), Some(&b""[..]));
    Ok(())
}

#[test]
fn shelf_fails_by_number(rt: HostRuntime) -> Result<(), Fail> {
    let alloc = rt.alloc();
    let mut shelf = MemShelf::new(alloc, &[4, 1])?;
    shelf.set("a", b"x")?;
    for number in 0u64..6 {
        let fails = number == 1 || number == 4;
        if number % 2 == 0 {
            let want = if fails {
                Err(LoadFault::Failed)
            } else {
                Ok(())
            };
            let mut into = Vec::new(alloc);
            assert_eq!(rt; shelf.load("a", &mut into), want, "call {number}");
        } else {
            let want = if fails {
                Err(SaveFault::Failed)
            } else {
                Ok(())
            };
            assert_eq!(rt; shelf.save("b", b"y"), want, "call {number}");
        }
    }
    assert_eq!(rt; shelf.get("b"), Some(&b"y"[..]));
    Ok(())
}

#[test]
fn sink_in_memory(rt: HostRuntime) -> Result<(), Fail> {
    let alloc = rt.alloc();
    let mut sink = MemSink::new(alloc, &[1, 3])?;
    assert_eq!(rt; sink.put(b"ab"), Ok(()));
    assert_eq!(rt; sink.put(b"cd"), Err(PutFault::Failed));
    sink.reserve(3)?;
    assert_eq!(rt; sink.spare, 3);
    assert_eq!(rt; sink.put(b"ef"), Ok(()));
    assert_eq!(rt; sink.spare, 1);
    assert_eq!(rt; sink.put(b"g"), Err(PutFault::Failed));
    assert_eq!(rt; sink.put(b"hij"), Ok(()));
    assert_eq!(rt; sink.bytes(), b"abefhij".as_slice());
    Ok(())
}

#[test]
fn lists_of_bytes(rt: HostRuntime) -> Result<(), Fail> {
    let alloc = rt.alloc();
    let mut list = ByteList::new(alloc);
    assert!(rt; list.is_empty());
    list.push(b'a')?;
    list.extend_from_slice(b"bc")?;
    assert_eq!(rt; list.as_slice(), b"abc".as_slice());
    assert_eq!(rt; list.len(), 3);
    assert_eq!(rt;
        ByteList::from_slice(alloc, b"de")?.as_slice(),
        b"de".as_slice()
    );
    assert_eq!(rt; list, ByteList::from_slice(alloc, b"abc")?);
    let text = Text::from_slice(alloc, b"top")?;
    assert_ne!(rt; text, Text::from_slice(alloc, b"to")?);
    assert_eq!(rt; text.as_slice(), b"top".as_slice());
    assert_eq!(rt; text.len(), 3);
    assert!(rt; !text.is_empty());
    Ok(())
}

#[test]
fn faults(rt: HostRuntime) -> Result<(), Fail> {
    let alloc = rt.alloc();
    for (rule, code) in [
        (Rule::L1, "L1"),
        (Rule::Y1, "Y1"),
        (Rule::E10, "E10"),
        (Rule::D7, "D7"),
    ] {
        assert_eq!(rt; rule.code(), code);
    }
    let span = Span {
        file: 1,
        at: 2,
        len: 3,
    };
    let refusal = Refusal {
        rule: Rule::N4,
        span,
    };
    assert_ne!(rt; Fault::Refused(refusal), Fault::Memory);
    assert_eq!(rt; Fault::from(cannot_come()), Fault::Memory);
    assert_eq!(rt; Fault::from(AllocError), Fault::Memory);
    assert_eq!(rt; Memory::from(AllocError), Memory);
    assert_ne!(rt; Name(0), Name(1));
    let failed = format!(in alloc;
        "{}, {}, {}",
        LoadFault::Failed,
        SaveFault::Failed,
        PutFault::Failed
    )?;
    assert_eq!(rt;
        failed.as_str(),
        "the file cannot be read, the file cannot be written, the output cannot be written"
    );
    let memory = format!(in alloc;
        "{}, {}, {}, {}",
        LoadFault::Memory,
        SaveFault::Memory,
        PutFault::Memory,
        Memory
    )?;
    assert_eq!(rt;
        memory.as_str(),
        "out of memory, out of memory, out of memory, out of memory"
    );
    Ok(())
}

#[test]
fn names_by_first_sight(rt: HostRuntime) -> Result<(), Fail> {
    let mut names = Names::for_files(rt.alloc(), &[b"clk d Clk_2"]);
    let rows: [(&[u8], u32); 6] = [
        (b"clk", 0),
        (b"d", 1),
        (b"CLK", 0),
        (b"Clk_2", 2),
        (b"D", 1),
        (b"clk_2", 2),
    ];
    for (text, number) in rows {
        assert!(rt; names.len() < 4_294_967_295);
        assert_eq!(rt; names.intern(text), Ok(Name(number)));
    }
    assert_eq!(rt; names.len(), 3);
    assert_eq!(rt; names.text(Name(0)), Some(&b"clk"[..]));
    assert_eq!(rt; names.text(Name(2)), Some(&b"clk_2"[..]));
    assert_eq!(rt; names.text(Name(3)), None);
    Ok(())
}
