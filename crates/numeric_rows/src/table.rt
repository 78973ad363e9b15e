//! All operands of a row.

use crate::text::{NINE, show, show_outcome, vector};
use std::alloc::{AllocError, Global};
use std::io::Print;
use vv_base::fault::Memory;
use vv_bits::S9;
use vv_num::num_value;
use vv_num_arithmetic::VectorKind;
use vv_num_cells::{Operands, Row, row_of};
use vv_types::{NumFn, Value};

/// The operands that stand on one side. `Alike` are the vectors with as many elements as the one on the left.
#[derive(Clone, Copy, PartialEq, Eq)]
enum Side {
    Vectors,
    Alike,
    Naturals,
    Integers,
    Sizes,
    Nothing,
}

/// The numbers that an operator takes beside vectors of a kind.
fn numbers(kind: VectorKind) -> Side {
    match kind {
        VectorKind::Unsigned => Side::Naturals,
        VectorKind::Signed => Side::Integers,
    }
}

fn sides(f: NumFn) -> (Side, Side) {
    match row_of(f) {
        Row::Arithmetic(_, kind, operands) | Row::Compare(_, kind, operands) => match operands {
            Operands::Vectors => (Side::Vectors, Side::Vectors),
            Operands::VectorAndNumber => (Side::Vectors, numbers(kind)),
            Operands::NumberAndVector => (numbers(kind), Side::Vectors),
        },
        Row::Logic(_) => (Side::Vectors, Side::Alike),
        Row::Absolute | Row::Negate | Row::Not | Row::ToInteger(_) => {
            (Side::Vectors, Side::Nothing)
        }
        Row::Resize(_) => (Side::Vectors, Side::Sizes),
        Row::ToVector if f == NumFn::ToUnsigned => (Side::Naturals, Side::Sizes),
        Row::ToVector => (Side::Integers, Side::Sizes),
        _ => (Side::Vectors, Side::Naturals),
    }
}

/// All vectors of up to so many elements, the shortest first.
pub fn vectors(alloc: Global, longest: u32) -> Result<Vec<Vec<S9>>, AllocError> {
    let mut done: Vec<Vec<S9>> = Vec::new(alloc);
    let mut last: Vec<Vec<S9>> = Vec::new(alloc);
    last.push(Vec::new(alloc))?;
    for _ in 0..longest {
        let mut next: Vec<Vec<S9>> = Vec::new(alloc);
        for front in &last {
            for x in NINE {
                let mut longer = front.clone()?;
                longer.push(x)?;
                next.push(longer)?;
            }
        }
        for vector in &last {
            if !vector.is_empty() {
                done.push(vector.clone()?)?;
            }
        }
        last = next;
    }
    for vector in &last {
        done.push(vector.clone()?)?;
    }
    Ok(done)
}

/// The operands of one side.
fn operands(alloc: Global, side: Side, vectors: &[Vec<S9>]) -> Result<Vec<Value>, Memory> {
    let mut list: Vec<Value> = Vec::new(alloc);
    let (low, high) = match side {
        Side::Vectors | Side::Alike => {
            for elements in vectors {
                list.push(vector(alloc, elements)?)?;
            }
            return Ok(list);
        }
        Side::Nothing => return Ok(list),
        Side::Naturals => (0, 9),
        Side::Integers => (-9, 9),
        Side::Sizes => (1, 9),
    };
    for n in low..=high {
        list.push(Value::Int(n))?;
    }
    Ok(list)
}

/// The number of elements, 0 for a number.
fn length(value: &Value) -> usize {
    match value {
        Value::Array(xs) => xs.as_slice().len(),
        _ => 0,
    }
}

/// What an operator gives for a left operand and each right one.
fn line(
    alloc: Global,
    f: NumFn,
    left: &Value,
    right: Side,
    rights: &[Value],
) -> Result<String, Memory> {
    let mut line = format!(in alloc; "{f:?} ")?;
    show(alloc, left, &mut line)?;
    line.push(':')?;
    if right == Side::Nothing {
        let outcome = num_value(alloc, f, &[left.copy(alloc)?])?;
        show_outcome(alloc, &outcome, &mut line)?;
    }
    for value in rights {
        if right != Side::Alike || length(value) == length(left) {
            let outcome = num_value(alloc, f, &[left.copy(alloc)?, value.copy(alloc)?])?;
            show_outcome(alloc, &outcome, &mut line)?;
        }
    }
    Ok(line)
}

/// Prints a line for each left operand.
pub fn print_row(
    rt: &impl Print,
    alloc: Global,
    f: NumFn,
    vectors: &[Vec<S9>],
) -> anyhow::Result<()> {
    let (left, right) = sides(f);
    let rights = operands(alloc, right, vectors)?;
    for value in &operands(alloc, left, vectors)? {
        println!(rt; "{}", line(alloc, f, value, right, &rights)?)?;
    }
    Ok(())
}
