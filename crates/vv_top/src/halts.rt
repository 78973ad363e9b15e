//! Why commands that are no translation end before their last step, and what is printed of it.

ghost use Rattle.std.specs.Prelude.{◌≤◌};

use crate::lines::{column_at, line_at, name_line, say};
use std::alloc::{AllocError, Global};
use vv_base::fault::{Fault, Memory, Refusal, Span, cannot_come};
use vv_base::sink::Sink;
use vv_base::text::ByteList;
use vv_record::RecordFault;
use vv_vtree::VFault;

/// Why a command ends before its last step.
#[derive(Drop)]
pub enum Halt {
    /// This line tells it.
    Told(Reason, ByteList),
    /// The output failed, so nothing more is printed.
    Output,
    /// There is no memory left.
    Memory,
}

/// What a line tells.
#[derive(Clone, Copy, Debug, PartialEq, Eq)]
pub enum Reason {
    /// A rule of sources is broken.
    Rule,
    /// A load failed.
    ReadFault,
    /// A save failed.
    WriteFault,
    /// A record of a stimulus or of a map breaks a rule.
    Record,
    /// The design reached a range error.
    RangeError,
    /// The text has another value than the design.
    Difference,
    /// A text breaks a rule.
    Text,
    /// The design met a clash.
    Clash,
    /// The design met a control fault.
    ControlFault,
}

impl From<Memory> for Halt {
    fn from(_memory: Memory) -> Halt {
        Halt::Memory
    }
}

impl From<AllocError> for Halt {
    fn from(_error: AllocError) -> Halt {
        Halt::Memory
    }
}

impl Reason {
    /// The status.
    pub fn status(self) -> u8
        ensures { result ≤ 11 }
    {
        match self {
            Reason::Rule => 1,
            Reason::ReadFault => 3,
            Reason::WriteFault => 4,
            Reason::Record => 6,
            Reason::RangeError => 7,
            Reason::Difference => 8,
            Reason::Text => 9,
            Reason::Clash => 10,
            Reason::ControlFault => 11,
        }
    }
}

/// The files of a command, by their names and their bytes.
#[derive(Clone, Copy)]
pub struct Sources<'n, 'b> {
    pub names: &'n [&'n str],
    pub files: &'b [&'b [u8]],
}

/// Prints the line of a halt and answers its status.
pub fn tell_halt<O: Sink>(halt: Halt, out: &mut O) -> u8
    ensures range { result ≤ 11 }
    ensures later { O.faults out.old ≤ O.faults out.new }
{
    match halt {
        Halt::Told(reason, line) => say(out, line.as_slice(), reason.status()),
        Halt::Output => 4,
        Halt::Memory => say(out, b"memory\n", 5),
    }
}

/// A halt with a line, or want of memory where the line could not be made.
pub fn halted(reason: Reason, line: Result<String, AllocError>) -> Halt {
    match line {
        Ok(line) => Halt::Told(reason, ByteList::from_vec(line.into_bytes())),
        Err(_) => Halt::Memory,
    }
}

/// A load of this name failed.
pub fn read_fault(alloc: Global, name: &str) -> Halt {
    halted(Reason::ReadFault, name_line(alloc, "read fault: ", name))
}

/// A save of this name failed.
pub fn write_fault(alloc: Global, name: &str) -> Halt {
    halted(Reason::WriteFault, name_line(alloc, "write fault: ", name))
}

/// A stimulus or a map of this name is refused.
pub fn record_halt(alloc: Global, name: &str, fault: RecordFault) -> Halt {
    match fault {
        RecordFault::Refused { code, number } => {
            let code = code.text();
            let line = format!(in alloc; "{name}: record {number}: {code}\n");
            halted(Reason::Record, line)
        }
        RecordFault::Memory => Halt::Memory,
    }
}

/// A text of this name is refused.
pub fn text_halt(alloc: Global, name: &str, fault: VFault) -> Halt {
    match fault {
        VFault::Refused { code, at } => {
            let code = code.text();
            let line = format!(in alloc; "{name}: offset {at}: {code}\n");
            halted(Reason::Text, line)
        }
        VFault::Memory => Halt::Memory,
    }
}

/// The files are refused.
pub fn fault_halt(alloc: Global, sources: &Sources<'_, '_>, fault: Fault) -> Halt {
    match fault {
        Fault::Refused(refusal) => refusal_halt(alloc, sources, refusal),
        Fault::Memory => Halt::Memory,
    }
}

fn refusal_halt(alloc: Global, sources: &Sources<'_, '_>, refusal: Refusal) -> Halt {
    match place_text(alloc, sources, refusal.span) {
        Ok(place) => {
            let code = refusal.rule.code();
            let line = format!(in alloc; "{place}: {code}\n");
            halted(Reason::Rule, line)
        }
        Err(Memory) => Halt::Memory,
    }
}

/// A run met something at this row and this place.
pub fn run_halt(
    alloc: Global,
    sources: &Sources<'_, '_>,
    reason: Reason,
    what: &str,
    row: u64,
    at: Span,
) -> Halt {
    match place_text(alloc, sources, at) {
        Ok(place) => {
            let line = format!(in alloc; "row {row}: {what} at {place}\n");
            halted(reason, line)
        }
        Err(Memory) => Halt::Memory,
    }
}

/// The name of the file of a place, and the line and the column of the place.
fn place_text(alloc: Global, sources: &Sources<'_, '_>, span: Span) -> Result<String, Memory> {
    let number = span.file as usize;
    let Some(name) = sources.names.get(number) else {
        return Err(cannot_come());
    };
    match sources.files.get(number) {
        Some(file) if span.at as usize <= file.len() => {
            let line = line_at(file, span.at);
            let column = column_at(file, span.at);
            Ok(format!(in alloc; "{name}:{line}:{column}")?)
        }
        _ => Err(cannot_come()),
    }
}
