//! What is printed when a translation stops.

ghost use Rattle.std.specs.Prelude.{◌≤◌, IfOk, OnErr, length, string_bytes};
ghost use Rattle.vv_top.specs.Lines.{name_line, memory_line, Announced, Said};
ghost use Rattle.vv_top.specs.Words.{wanted};
ghost use Rattle.vv_top.specs.Stops.{line_of, status_of, IsInside};

use crate::lines::{name_line, place_line, say};
use crate::run::Stop;
use crate::words::Command;
use std::alloc::{AllocError, Global};
use vv_base::sink::Sink;

/// Prints the line of a stop and answers its status.
pub fn tell<O: Sink>(alloc: Global, command: &Command<'_>, stop: Stop, out: &mut O) -> u8
    requires { IsInside (length command.now.files.now) stop }
    ensures told { Announced (line_of (wanted command.now) stop) (status_of stop) result
        (O.written out.old) (O.written out.new) (O.faults out.old) (O.faults out.new) }
    ensures later { O.faults out.old ≤ O.faults out.new }
{
    match stop {
        Stop::ReadFault(number) => {
            tell_name(alloc, "read fault: ", command.files[number], 3, out)
        }
        Stop::OutputFault => tell_name(alloc, "write fault: ", command.output, 4, out),
        Stop::MapFault => tell_name(alloc, "write fault: ", command.map, 4, out),
        Stop::Refused(files, refusal) => {
            let number = refusal.span.file as usize;
            let line = place_line(
                alloc,
                command.files[number],
                files[number].as_slice(),
                refusal.span.at,
                refusal.rule.code(),
            );
            tell_line(line, 1, out)
        }
        Stop::Memory => say(out, b"memory\n", 5),
    }
}

// Says words and a name.
fn tell_name<O: Sink>(alloc: Global, words: &str, name: &str, status: u8, out: &mut O) -> u8
    ensures told { Announced (name_line words.now name.now) status result
        (O.written out.old) (O.written out.new) (O.faults out.old) (O.faults out.new) }
    ensures later { O.faults out.old ≤ O.faults out.new }
{
    tell_line(name_line(alloc, words, name), status, out)
}

// Says a line, or want of memory where it could not be made.
fn tell_line<O: Sink>(line: Result<String, AllocError>, status: u8, out: &mut O) -> u8
    ensures told { IfOk line (λ line. Said (string_bytes line) status result
        (O.written out.old) (O.written out.new) (O.faults out.old) (O.faults out.new)) }
    ensures memory { OnErr line (Said memory_line 5 result
        (O.written out.old) (O.written out.new) (O.faults out.old) (O.faults out.new)) }
    ensures later { O.faults out.old ≤ O.faults out.new }
{
    match line {
        Ok(line) => say(out, line.as_bytes(), status),
        Err(_) => say(out, b"memory\n", 5),
    }
}
