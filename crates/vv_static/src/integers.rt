//! Arithmetic on integers.

use crate::machine::Machine;
use vv_base::fault::{Fault, Rule, Span};
use vv_code::Arity;
use vv_held::held::{Held, misfit, refused};
use vv_held::integers::{of_one, of_two};
use vv_types::{Op, Value};

/// The value of a predefined operator with an integer result, whose operands stand on the stack.
pub fn whole<'t>(
    machine: &mut Machine<'t>,
    op: Op,
    arity: Arity,
    span: Span,
) -> Result<Held, Fault> {
    let right = number(machine)?;
    let value = match arity {
        Arity::One => of_one(op, right),
        Arity::Two => {
            let left = number(machine)?;
            of_two(op, left, right)
        }
    };
    match value {
        Some(n) => Ok(Held::scalar(Value::Int(n))),
        None => Err(refused(Rule::E2, span)),
    }
}

fn number<'t>(machine: &mut Machine<'t>) -> Result<i32, Fault> {
    let held = machine.pop()?;
    match held.value {
        Value::Int(n) => Ok(n),
        _ => Err(misfit()),
    }
}
