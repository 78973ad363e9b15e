//! The value of an expression.

use crate::machine::Machine;
use std::alloc::Global;
use vv_base::fault::Fault;
use vv_code::{code_of, code_of_links};
use vv_held::{Env, Held, Shape};
use vv_typed::Typed;

/// The value of an expression by constants alone. `steps` is what is left: a call and a turn of a loop take one each. Memory is also
/// wanting where an expression is not well typed, or where more than 2 to the 64 instructions would be run. An aggregate takes the
/// bounds that are wanted.
pub fn fold<'t>(
    alloc: Global,
    e: &'t Typed,
    wanted: Option<Shape>,
    env: &'t Env<'t>,
    steps: &mut u32,
) -> Result<Held, Fault> {
    let code = code_of(alloc, e, wanted, env)?;
    let mut machine = Machine::new(alloc, env, code, e.span, *steps)?;
    let outcome = machine.run();
    *steps = machine.steps;
    outcome
}

/// The value of the first operand of an expression with its first `count` links.
pub fn fold_links<'t>(
    alloc: Global,
    e: &'t Typed,
    count: usize,
    env: &'t Env<'t>,
    steps: &mut u32,
) -> Result<Held, Fault> {
    let code = code_of_links(alloc, e, count, env)?;
    let mut machine = Machine::new(alloc, env, code, e.span, *steps)?;
    let outcome = machine.run();
    *steps = machine.steps;
    outcome
}
