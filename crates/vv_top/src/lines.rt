//! The lines that are printed.

ghost use Rattle.std.specs.Prelude.{◌≡◌, ◌≤◌, IfOk, string_bytes, length};
ghost use Rattle.vv_top.specs.Lines.{name_line, line_at, column_at, place_line, Said};

use std::alloc::{AllocError, Global};
use vv_base::sink::{PutFault, Sink};

/// Words and a name.
pub fn name_line(alloc: Global, words: &str, name: &str) -> Result<String, AllocError>
    ensures { IfOk result (λ line. string_bytes line ≡ name_line words.now name.now) }
{
    format!(in alloc; "{words}{name}\n")
}

/// A name, a place of its file, which may be the end, and a code.
pub fn place_line(
    alloc: Global,
    name: &str,
    file: &[u8],
    at: u32,
    code: &str,
) -> Result<String, AllocError>
    requires { at ≤ length file.now }
    ensures { IfOk result
        (λ line. string_bytes line ≡ place_line name.now file.now at code.now) }
{
    let line = line_at(file, at);
    let column = column_at(file, at);
    format!(in alloc; "{name}:{line}:{column}: {code}\n")
}

/// The line of a place.
pub fn line_at(file: &[u8], at: u32) -> usize
    requires { at ≤ length file.now }
    ensures { result ≡ line_at file.now at }
{
    file[..at as usize].iter().filter(|b| **b == b'\n').count() + 1
}

/// The column of a place.
pub fn column_at(file: &[u8], at: u32) -> usize
    requires { at ≤ length file.now }
    ensures { result ≡ column_at file.now at }
{
    let mut column = 1;
    for byte in &file[..at as usize] {
        column = if *byte == b'\n' { 1 } else { column + 1 };
    }
    column
}

/// Prints a line and answers the status: 4 where the put fails, and 5 where it has no memory.
pub fn say<O: Sink>(out: &mut O, line: &[u8], status: u8) -> u8
    ensures said { Said line.now status result
        (O.written out.old) (O.written out.new) (O.faults out.old) (O.faults out.new) }
    ensures later { O.faults out.old ≤ O.faults out.new }
{
    match out.put(line) {
        Ok(()) => status,
        Err(PutFault::Failed) => 4,
        Err(PutFault::Memory) => 5,
    }
}
