//! Prints what operators and functions of `numeric_std` give. Each line of the input has a name and two operands, and is printed with
//! its result. Where the program is given a number of elements, it reads nothing and prints the results of all operators and
//! functions for all vectors of up to so many elements and for the numbers from -9 to 9, a line for each left operand.
#![tactic(auto)]

mod table;
mod text;

use std::alloc::Global;
use std::env;
use std::io::{Input, Print};
use table::{print_row, vectors};
use text::{ALL, named, operand, show_outcome};
use vv_num::num_value;

/// Prints a case with its result.
fn print_case(rt: &impl Print, alloc: Global, case: &str) -> anyhow::Result<()> {
    let words: Vec<&str> = case.split_whitespace().collect(alloc)?;
    let [name, left, right] = words.as_slice() else {
        return Ok(());
    };
    let Some(f) = named(alloc, name)? else {
        return Ok(());
    };
    let mut args = Vec::new(alloc);
    if let Some(value) = operand(alloc, left)? {
        args.push(value)?;
    }
    if let Some(value) = operand(alloc, right)? {
        args.push(value)?;
    }
    let mut result = String::new(alloc);
    show_outcome(alloc, &num_value(alloc, f, &args)?, &mut result)?;
    println!(rt; "{case}{result}")?;
    Ok(())
}

fn main(rt: HostRuntime) -> anyhow::Result<()> {
    let alloc = rt.alloc();
    let longest = match env::args(&rt)?.skip(1).next() {
        Some(word) => word.as_str().parse::<u32>().unwrap_or(1),
        None => 0,
    };
    if longest == 0 {
        for line in rt.lines(alloc) {
            print_case(&rt, alloc, line?.as_str())?;
        }
        return Ok(());
    }
    let vectors = vectors(alloc, longest)?;
    for f in ALL {
        print_row(&rt, alloc, f, &vectors)?;
    }
    Ok(())
}
