//! The source.

use crate::draws::{Draws, Step};
use std::alloc::Global;
use vv_base::fault::Memory;
use vv_base::text::ByteList;

const HEAD: &str = "library ieee; use ieee.std_logic_1164.all; use ieee.numeric_std.all;
entity chain is port (clk, rst : in std_logic; d : in unsigned(7 downto 0); q : out unsigned(7 downto 0)); end;
architecture r of chain is
";

/// The source of a chain of stages.
pub fn source(alloc: Global, stages: u32, seed: u32) -> Result<ByteList, Memory> {
    let mut text = ByteList::new(alloc);
    text.extend_from_slice(HEAD.as_bytes())?;
    for k in 0..stages {
        let i = k.saturating_add(1);
        let line = format!(in alloc; "signal s{i} : unsigned(7 downto 0);\n")?;
        text.extend_from_slice(line.as_bytes())?;
    }
    text.extend_from_slice("begin\n".as_bytes())?;
    let mut draws = Draws::new(seed);
    for k in 0..stages {
        let i = k.saturating_add(1);
        let (step, number) = draws.stage();
        add_process(alloc, i, step, number, &mut text)?;
    }
    let last = format!(in alloc; "q <= s{stages};\nend;\n")?;
    text.extend_from_slice(last.as_bytes())?;
    Ok(text)
}

/// Appends the process of a stage.
fn add_process(
    alloc: Global,
    i: u32,
    step: Step,
    number: u32,
    text: &mut ByteList,
) -> Result<(), Memory> {
    let before = before(alloc, i)?;
    let statement = statement(alloc, i, before.as_str(), step, number)?;
    let line = format!(in alloc;
        "process (clk, rst) begin if rst = '1' then s{i} <= \"00000000\"; elsif rising_edge(clk) then {statement} end if; end process;\n"
    )?;
    text.extend_from_slice(line.as_bytes())
}

/// The signal that a stage reads.
fn before(alloc: Global, i: u32) -> Result<String, Memory> {
    if i <= 1 {
        Ok(String::from_str(alloc, "d")?)
    } else {
        let last = i.saturating_sub(1);
        Ok(format!(in alloc; "s{last}")?)
    }
}

/// The statement of a stage.
fn statement(
    alloc: Global,
    i: u32,
    before: &str,
    step: Step,
    number: u32,
) -> Result<String, Memory> {
    match step {
        Step::Add => Ok(format!(in alloc; "s{i} <= {before} + {number};")?),
        Step::Xor => {
            let digits = digits(alloc, number)?;
            Ok(format!(in alloc; "s{i} <= {before} xor \"{digits}\";")?)
        }
        Step::Rotate => {
            let count = number % 8;
            Ok(format!(in alloc; "s{i} <= rotate_left({before}, {count});")?)
        }
        Step::Toward => Ok(format!(in alloc;
            "if {before} < {number} then s{i} <= {before} + 1; else s{i} <= {before} - 1; end if;"
        )?),
    }
}

/// The lowest eight binary digits of a number.
pub fn digits(alloc: Global, number: u32) -> Result<String, Memory> {
    let mut text = String::new(alloc);
    for k in 0..8u32 {
        let digit = number.wrapping_shr(7u32.saturating_sub(k)) % 2;
        text.push(if digit == 1 { '1' } else { '0' })?;
    }
    Ok(text)
}
