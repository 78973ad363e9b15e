//! Translates files of VHDL to Verilog: `v2v translate TOP OUT MAP FILE`, with further FILEs or none.
#![tactic(auto)]

use std::alloc::{AllocError, Global};
use std::env;
use std::io::ErrorKind;
use std::process::ExitCode;
use vv_base::files::{FileShelf, StdoutSink};
use vv_top::top::v2v;

// Where there is no memory for the words, nothing is done.
fn main(rt: HostRuntime) -> ExitCode {
    ExitCode::from(run(&rt, rt.alloc()).unwrap_or(5))
}

fn run(rt: &HostRuntime, alloc: Global) -> Result<u8, AllocError> {
    let given = arguments(rt, alloc)?;
    let words: Vec<&str> = given.iter().map(|word| word.as_str()).collect(alloc)?;
    let mut shelf = FileShelf::new(rt);
    let mut out = StdoutSink::new(rt);
    Ok(v2v(alloc, words.as_slice(), &mut shelf, &mut out))
}

// The words after the program's name; none where one of them is no text.
fn arguments(rt: &HostRuntime, alloc: Global) -> Result<Vec<String>, AllocError> {
    match env::args(rt) {
        Ok(given) => given.skip(1).collect(alloc),
        Err(error) if error.kind() == ErrorKind::OutOfMemory => Err(AllocError),
        Err(_) => Ok(Vec::new(alloc)),
    }
}
