//! Runs one small file of gates in two orders on both sides, and prints what its outputs hold in
//! each: the same four times, apart from the titles.
#![tactic(auto)]

#[cfg(test)]
mod tests;

use anyhow::bail;
use std::alloc::{AllocError, Global};
use std::io::Print;
use vv_bits::{S9, V4, abs4};
use vv_gate::tree::GateFile;
use vv_gate_check::first_broken;
use vv_gate_read::reader::read;
use vv_gate_run::flat::Flat;
use vv_gate_run::order::Order;
use vv_gate_run::ports::{Port, ports};
use vv_gate_run::vhdl::Entry;
use vv_gate_run::{verilog, vhdl};

/// The output `w` is never assigned.
const FILE: &[u8] = b"library ieee; use ieee.std_logic_1164.all;
entity gates is port (a, b : in std_logic; y, z, p, w : out std_logic); end;
architecture plain of gates is begin
y <= a and not b;
z <= a xor b;
p <= b;
end;";

const FIRST_ROW: [Entry; 2] = [
    Entry {
        input: 0,
        value: S9::One,
    },
    Entry {
        input: 1,
        value: S9::Zero,
    },
];

const SECOND_ROW: [Entry; 1] = [Entry {
    input: 1,
    value: S9::One,
}];

const THIRD_ROW: [Entry; 2] = [
    Entry {
        input: 0,
        value: S9::Dash,
    },
    Entry {
        input: 1,
        value: S9::Z,
    },
];

fn sign(value: V4) -> char {
    match value {
        V4::Zero => '0',
        V4::One => '1',
        V4::X => 'x',
        V4::Z => 'z',
    }
}

/// A line with the name and the value of each output.
fn outputs(
    alloc: Global,
    title: &str,
    ports: &[Port<'_>],
    values: &[V4],
) -> Result<String, AllocError> {
    let mut line = String::from_str(alloc, title)?;
    for (port, value) in ports.iter().zip(values) {
        if !port.input {
            line.push(' ')?;
            for byte in port.ident.text {
                line.push(char::from(*byte))?;
            }
            line.push('=')?;
            line.push(sign(*value))?;
        }
    }
    Ok(line)
}

/// What Verilog sees of the values.
fn seen(alloc: Global, values: &[S9]) -> Result<Vec<V4>, AllocError> {
    values.iter().map(|value| abs4(*value)).collect(alloc)
}

/// The rows, one after another.
fn rows() -> [&'static [Entry]; 3] {
    [&FIRST_ROW, &SECOND_ROW, &THIRD_ROW]
}

/// Runs the VHDL design: a line after power-on, and one after each row.
fn run_vhdl(
    rt: &impl Print,
    alloc: Global,
    file: &GateFile<'_>,
    order: Order,
) -> anyhow::Result<()> {
    let ports = ports(alloc, file)?;
    let start = vhdl::power_on(alloc, file)?;
    let mut state = vhdl::settle(alloc, file, start, order)?.state;
    let values = seen(alloc, &state.nets.values)?;
    println!(rt; "{}", outputs(alloc, "power-on:", &ports, &values)?)?;
    for row in rows() {
        let start = vhdl::row(alloc, file, &state, row)?;
        state = vhdl::settle(alloc, file, start, order)?.state;
        let values = seen(alloc, &state.nets.values)?;
        println!(rt; "{}", outputs(alloc, "row:", &ports, &values)?)?;
    }
    Ok(())
}

/// Runs the design of the file's Verilog text in the same way.
fn run_verilog(
    rt: &impl Print,
    alloc: Global,
    file: &GateFile<'_>,
    order: Order,
) -> anyhow::Result<()> {
    let ports = ports(alloc, file)?;
    let flat = Flat::of_file(alloc, file)?;
    let start = verilog::power_on(alloc, &flat)?;
    let mut state = verilog::settle(alloc, &flat, start, order)?.state;
    println!(rt; "{}", outputs(alloc, "power-on:", &ports, &state.bits)?)?;
    for row in rows() {
        let changes = verilog::changes(alloc, file, row)?;
        let start = verilog::row(alloc, &flat, &state, &changes)?;
        state = verilog::settle(alloc, &flat, start, order)?.state;
        println!(rt; "{}", outputs(alloc, "row:", &ports, &state.bits)?)?;
    }
    Ok(())
}

fn main(rt: HostRuntime) -> anyhow::Result<()> {
    let alloc = rt.alloc();
    let Ok(file) = read(alloc, FILE) else {
        bail!("no file of gates");
    };
    if first_broken(alloc, &file, b"gates")?.is_some() {
        bail!("a file of gates that breaks a condition");
    }
    println!(rt; "VHDL, the first ready process runs")?;
    run_vhdl(&rt, alloc, &file, Order::First)?;
    println!(rt; "VHDL, the last ready process runs")?;
    run_vhdl(&rt, alloc, &file, Order::Last)?;
    println!(rt; "Verilog, the first pending item acts")?;
    run_verilog(&rt, alloc, &file, Order::First)?;
    println!(rt; "Verilog, the last pending item acts")?;
    run_verilog(&rt, alloc, &file, Order::Last)
}
