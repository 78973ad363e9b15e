//! Prints the syntax tree of a file of VHDL: `vhdl_tree FILE`. With `--check` before FILE it prints nothing of a sound file.
//!
//! It ends with status 0 where the file is VHDL by its lexical elements and its grammar, with 1 where it breaks a rule, whose place and
//! code are printed, with 2 where the words are others, with 3 where the file could not be loaded, with 4 where the output could not be
//! written, and with 5 where there is no memory.
#![tactic(auto)]

mod print;

use crate::print::lines;
use bumpalo::Bump;
use std::alloc::Global;
use std::env;
use std::io::Print;
use std::process::ExitCode;
use vv_base::fault::{Fault, Refusal};
use vv_base::files::FileShelf;
use vv_base::names::Names;
use vv_base::shelf::{LoadFault, Shelf};
use vv_grammar::edition::Edition;
use vv_pstmt::parse::parse;
use vv_reading::reading::read_file;
use vv_vlex::tokens::lex;

/// What the words ask for.
#[derive(Debug, Drop)]
struct Command {
    name: String,
    prints: bool,
}

fn main(rt: HostRuntime) -> ExitCode {
    let alloc = rt.alloc();
    let Some(command) = from_words(&rt) else {
        return ExitCode::from(2);
    };
    let mut shelf = FileShelf::new(&rt);
    let mut bytes = Vec::new(alloc);
    match shelf.load(command.name.as_str(), &mut bytes) {
        Ok(()) => ExitCode::from(status(&rt, alloc, bytes.as_slice(), command.prints)),
        Err(LoadFault::Failed) => ExitCode::from(3),
        Err(LoadFault::Memory) => ExitCode::from(5),
    }
}

/// The command of the words behind the program's name, if they are one.
fn from_words(rt: &HostRuntime) -> Option<Command> {
    let Ok(words) = env::args(rt) else {
        return None;
    };
    let mut prints = true;
    let mut name = None;
    for word in words.skip(1) {
        if name.is_some() {
            return None;
        }
        if word.as_str() == "--check" && prints {
            prints = false;
        } else {
            name = Some(word);
        }
    }
    match name {
        Some(name) => Some(Command { name, prints }),
        None => None,
    }
}

/// The status for these bytes. The tree is printed, or what is broken.
fn status(rt: &HostRuntime, alloc: Global, bytes: &[u8], prints: bool) -> u8 {
    let text = match read(alloc, bytes, prints) {
        Ok(text) => text,
        Err(Fault::Refused(refusal)) => return told(rt, bytes, refusal),
        Err(Fault::Memory) => return 5,
    };
    match print!(rt; "{text}") {
        Ok(()) => 0,
        Err(_) => 4,
    }
}

/// Prints the place and the code of a refusal.
fn told(rt: &HostRuntime, bytes: &[u8], refusal: Refusal) -> u8 {
    let (line, column) = place(bytes, refusal.span.at);
    let code = refusal.rule.code();
    match println!(rt; "{line}:{column}: {code}") {
        Ok(()) => 1,
        Err(_) => 4,
    }
}

/// The lines of the tree, where it is printed, or the rule of elements or grammar that the bytes break first.
fn read(alloc: Global, bytes: &[u8], prints: bool) -> Result<String, Fault> {
    let mut names = Names::for_files(alloc, &[bytes]);
    let tokens = lex(alloc, 0, bytes, &mut names)?;
    let arena = Bump::new(alloc);
    if prints {
        let tree = read_file(alloc, &arena, Edition::Vhdl93, tokens.as_slice())?;
        return Ok(lines(alloc, tree, bytes)?);
    }
    parse(alloc, &arena, tokens.as_slice(), Edition::Vhdl93)?;
    Ok(String::new(alloc))
}

/// The line and the column of an offset, both from 1 on.
fn place(bytes: &[u8], at: u32) -> (u64, u64) {
    let mut line = 1u64;
    let mut column = 1u64;
    for (offset, byte) in bytes.iter().enumerate() {
        if offset >= at as usize {
            break;
        }
        column = column.saturating_add(1);
        if *byte == b'\n' {
            line = line.saturating_add(1);
            column = 1;
        }
    }
    (line, column)
}
