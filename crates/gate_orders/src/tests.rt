//! Single turns and steps.
use super::FILE;
use std::test::Fail;
use vv_bits::{S9, V4};
use vv_gate_read::reader::read;
use vv_gate_run::flat::Flat;
use vv_gate_run::vhdl::{Entry, Turn};
use vv_gate_run::{verilog, vhdl};

/// At power-on each process is ready, and the nets are not updated; a process that has run is not
/// ready.
#[test]
fn a_turn(rt: HostRuntime) -> Result<(), Fail> {
    let alloc = rt.alloc();
    let file = read(alloc, FILE)?;
    let start = vhdl::power_on(alloc, &file)?;
    let turns = [
        (Turn::Resume(0), true),
        (Turn::Resume(2), true),
        (Turn::Resume(3), false),
        (Turn::Update, false),
    ];
    for (turn, can) in turns {
        assert_eq!(rt;
            vhdl::can_turn(alloc, &file, &start, turn)?,
            can,
            "{turn:?}"
        );
    }
    let after = vhdl::take(alloc, &file, &start, Turn::Resume(0))?;
    assert!(rt; !vhdl::can_turn(alloc, &file, &after, Turn::Resume(0))?);
    assert!(rt; vhdl::can_turn(alloc, &file, &after, Turn::Resume(1))?);
    Ok(())
}

/// Each entry changes one object, to what Verilog sees of its value.
#[test]
fn a_row(rt: HostRuntime) -> Result<(), Fail> {
    let alloc = rt.alloc();
    let file = read(alloc, FILE)?;
    let entry = Entry {
        input: 1,
        value: S9::H,
    };
    let changes = verilog::changes(alloc, &file, &[entry])?;
    assert_eq!(rt; changes.len(), 1);
    assert_eq!(rt; changes[0].object, 1);
    assert_eq!(rt; changes[0].value, V4::One);
    Ok(())
}

/// At power-on each item is pending, the one of the output that is never assigned too; an item
/// that has acted is not.
#[test]
fn a_step(rt: HostRuntime) -> Result<(), Fail> {
    let alloc = rt.alloc();
    let file = read(alloc, FILE)?;
    let flat = Flat::of_file(alloc, &file)?;
    let start = verilog::power_on(alloc, &flat)?;
    for (item, can) in [(0, true), (3, true), (4, false)] {
        assert_eq!(rt; verilog::can_step(&flat, &start, item), can, "{item}");
    }
    let after = verilog::step(alloc, &flat, &start, 0)?;
    assert!(rt; !verilog::can_step(&flat, &after, 0));
    assert!(rt; verilog::can_step(&flat, &after, 1));
    Ok(())
}
