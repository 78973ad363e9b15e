//! The code of statements.

use crate::build::{Build, Operand, known_of};
use crate::expressions::expression;
use crate::names::{Part, located, taken, whole};
use vv_base::fault::{Memory, cannot_come};
use vv_design::{Alternative, Arm, Choice, Expr, Part as TargetPart, Stmt, StmtForm, Target};
use vv_engine::Instr;
use vv_store::apart;
use vv_types::Place;

/// The code of some statements. The temporary cells of each are given back.
#[cycle(statements)]
pub fn statements<'d>(list: &'d [Stmt], to: &mut Build<'d>) -> Result<(), Memory> {
    for stmt in list {
        let mark = to.mark();
        statement(stmt, to)?;
        to.release(mark);
    }
    Ok(())
}

#[cycle(statements)]
fn statement<'d>(stmt: &'d Stmt, to: &mut Build<'d>) -> Result<(), Memory> {
    match &stmt.form {
        StmtForm::Signal { target, value } => drive(target, value, to),
        StmtForm::Variable { target, value } => assign(target, value, to),
        StmtForm::If { arms, otherwise } => {
            let ends = conditions(arms.as_slice(), to)?;
            statements(otherwise.as_slice(), to)?;
            close(to, ends.as_slice())
        }
        StmtForm::Case {
            selector,
            alternatives,
        } => {
            let selector = expression(selector, to)?;
            let ends = cases(alternatives.as_slice(), selector, to)?;
            close(to, ends.as_slice())
        }
        StmtForm::Return(value) => returned(value, to),
        StmtForm::WaitUntil(condition) => wait(condition, to),
    }
}

/// The cells that a target has of an object whose cells begin at `first`.
fn target_part<'d>(target: &'d Target, first: u32, to: &mut Build<'d>) -> Result<Part, Memory> {
    let mut part = whole(Place {
        first,
        size: target.shape.size(),
    });
    for step in target.parts.as_slice() {
        part = match step {
            TargetPart::Elements { first, shape } => taken(part, *first, shape.size())?,
            TargetPart::Element {
                index,
                bounds,
                shape,
            } => {
                let found = expression(index, to)?;
                located(to, part, found, *bounds, shape.size(), index.span)?
            }
        };
    }
    Ok(part)
}

/// An assignment to a net, which changes a driver of the process.
fn drive<'d>(target: &'d Target, value: &'d Expr, to: &mut Build<'d>) -> Result<(), Memory> {
    let image = to.image(target.object)?;
    let elem = to.design.net(target.object)?.first;
    let part = target_part(target, image, to)?;
    let found = expression(value, to)?;
    let behind = part.place.first.saturating_sub(image);
    to.push(Instr::Drive {
        from: found.place,
        first: part.place.first,
        offset: part.offset.unwrap_or(to.zero),
        elem: elem.saturating_add(behind),
    })
}

/// An assignment to a variable. A value that lies in the variable is taken out of it before.
fn assign<'d>(target: &'d Target, value: &'d Expr, to: &mut Build<'d>) -> Result<(), Memory> {
    let object = to.var(target.object)?;
    let part = target_part(target, object.first, to)?;
    let found = expression(value, to)?;
    let mut from = found.place;
    if !apart(from, object) {
        let copy = to.temporary(from.size)?;
        to.push(Instr::Copy { from, to: copy })?;
        from = copy;
    }
    match part.offset {
        None => to.push(Instr::Copy {
            from,
            to: part.place,
        }),
        Some(offset) => to.push(Instr::Put {
            from,
            first: part.place.first,
            offset,
        }),
    }
}

/// Puts the value where the call finds it, and leaves the function.
fn returned<'d>(value: &'d Expr, to: &mut Build<'d>) -> Result<(), Memory> {
    let Some(result) = to.result else {
        return Err(cannot_come());
    };
    let found = expression(value, to)?;
    to.push(Instr::Copy {
        from: found.place,
        to: result,
    })?;
    to.push(Instr::Return)
}

/// Ends the run of the process where the condition does not hold.
fn wait<'d>(condition: &'d Expr, to: &mut Build<'d>) -> Result<(), Memory> {
    let found = expression(condition, to)?;
    let behind = to.here()?.saturating_add(2);
    to.push(Instr::When {
        cell: found.place.first,
        to: behind,
    })?;
    to.push(Instr::Halt)
}

/// Lets jumps lead here.
fn close<'d>(to: &mut Build<'d>, jumps: &[u32]) -> Result<(), Memory> {
    let here = to.here()?;
    for jump in jumps {
        to.put(*jump, Instr::Jump(here));
    }
    Ok(())
}

/// A jump whose end is not known yet.
fn hole<'d>(to: &mut Build<'d>) -> Result<u32, Memory> {
    let jump = to.here()?;
    to.push(Instr::Jump(0))?;
    Ok(jump)
}

/// The arms of an `if`. The jumps at their ends are answered.
#[cycle(statements)]
fn conditions<'d>(arms: &'d [Arm], to: &mut Build<'d>) -> Result<Vec<u32>, Memory> {
    let mut ends = Vec::new(to.alloc);
    for arm in arms {
        let cell = expression(&arm.condition, to)?.place.first;
        let over = hole(to)?;
        statements(arm.body.as_slice(), to)?;
        ends.push(hole(to)?)?;
        let here = to.here()?;
        to.put(over, Instr::Unless { cell, to: here });
    }
    Ok(ends)
}

/// The alternatives of a `case`. The jumps at their ends are answered.
#[cycle(statements)]
fn cases<'d>(
    alternatives: &'d [Alternative],
    selector: Operand,
    to: &mut Build<'d>,
) -> Result<Vec<u32>, Memory> {
    let mut ends = Vec::new(to.alloc);
    for alternative in alternatives {
        let hits = tests(to, alternative.choices.as_slice(), selector)?;
        let over = hole(to)?;
        let body = to.here()?;
        for hit in hits.as_slice() {
            lead(to, *hit, body);
        }
        statements(alternative.body.as_slice(), to)?;
        ends.push(hole(to)?)?;
        let here = to.here()?;
        to.put(over, Instr::Jump(here));
    }
    Ok(ends)
}

/// Lets the jump of a test lead to a body.
fn lead<'d>(to: &mut Build<'d>, hit: u32, body: u32) {
    let jump = match to.instrs.get(hit as usize).copied() {
        Some(Instr::WhenSame { a, b, to: _ }) => Instr::WhenSame { a, b, to: body },
        Some(
            Instr::WhenWithin {
                cell,
                low,
                high,
                to: _,
            },
        ) => Instr::WhenWithin {
            cell,
            low,
            high,
            to: body,
        },
        _ => Instr::Jump(body),
    };
    to.put(hit, jump);
}

/// The tests of choices. Their places are answered.
fn tests<'d>(
    to: &mut Build<'d>,
    choices: &'d [Choice],
    selector: Operand,
) -> Result<Vec<u32>, Memory> {
    let mut hits = Vec::new(to.alloc);
    for choice in choices {
        let test = test(to, choice, selector)?;
        hits.push(to.here()?)?;
        to.push(test)?;
    }
    Ok(hits)
}

/// The test of a choice.
fn test<'d>(to: &mut Build<'d>, choice: &'d Choice, selector: Operand) -> Result<Instr, Memory> {
    let cell = selector.place.first;
    match choice {
        Choice::Value(value) => match known_of(value) {
            Some(n) => Ok(Instr::WhenWithin {
                cell,
                low: n,
                high: n,
                to: 0,
            }),
            None => Ok(Instr::WhenSame {
                a: selector.place,
                b: to.lay(value)?,
                to: 0,
            }),
        },
        Choice::Between { low, high } => Ok(Instr::WhenWithin {
            cell,
            low: *low,
            high: *high,
            to: 0,
        }),
        Choice::Others => Ok(Instr::Jump(0)),
    }
}
