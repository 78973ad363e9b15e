//! Which elements a process reads.

use sqlite_items::at;
use vv_base::fault::Memory;
use vv_design::{Expr, Form, Part, Run, Stmt, StmtForm};
use vv_elab_base::making::Making;

/// Adds elements of a net, as places in it.
pub fn hear<'u>(
    making: &Making<'u>,
    net: u32,
    first: u32,
    len: u32,
    into: &mut Vec<Run>,
) -> Result<(), Memory> {
    let run = making.net(net)?.run().part(first, len);
    into.push(run)?;
    Ok(())
}

/// Adds the elements that an expression reads.
#[cycle(reads)]
pub fn of_expression<'u>(making: &Making<'u>, e: &Expr, into: &mut Vec<Run>) -> Result<(), Memory> {
    match &e.form {
        Form::Net(net) => hear(making, *net, 0, e.shape.size(), into),
        Form::Elements { of, first } => match &of.get().form {
            Form::Net(net) => hear(making, *net, *first, e.shape.size(), into),
            _ => of_expression(making, of.get(), into),
        },
        Form::Element {
            of,
            index,
            bounds: _,
        } => {
            of_expression(making, of.get(), into)?;
            of_expression(making, index.get(), into)
        }
        Form::Position(of)
        | Form::AtPosition {
            of,
            low: _,
            high: _,
        }
        | Form::Check {
            operand: of,
            low: _,
            high: _,
        }
        | Form::Edge { rising: _, of }
        | Form::Event(of) => of_expression(making, of.get(), into),
        Form::Aggregate { parts, elements: _ } => of_expressions(making, parts.as_slice(), into),
        Form::Concatenation(parts) => of_expressions(making, parts.as_slice(), into),
        Form::Apply {
            operator: _,
            operands,
        } => of_expressions(making, operands.as_slice(), into),
        Form::Chain { first, links } => {
            of_expression(making, first.get(), into)?;
            for link in links.as_slice() {
                of_expression(making, &link.right, into)?;
            }
            Ok(())
        }
        Form::Call {
            function: _,
            formals: _,
            arguments,
        } => of_expressions(making, arguments.as_slice(), into),
        Form::Value(_) | Form::Constant(_) | Form::Variable(_) => Ok(()),
    }
}

#[cycle(reads)]
fn of_expressions<'u>(
    making: &Making<'u>,
    list: &[Expr],
    into: &mut Vec<Run>,
) -> Result<(), Memory> {
    for e in list {
        of_expression(making, e, into)?;
    }
    Ok(())
}

/// Adds the elements that statements read.
#[cycle(read_statements)]
pub fn of_statements<'u>(
    making: &Making<'u>,
    list: &[Stmt],
    into: &mut Vec<Run>,
) -> Result<(), Memory> {
    for s in list {
        of_statement(making, s, into)?;
    }
    Ok(())
}

#[cycle(read_statements)]
fn of_statement<'u>(making: &Making<'u>, s: &Stmt, into: &mut Vec<Run>) -> Result<(), Memory> {
    match &s.form {
        StmtForm::Signal { target, value } | StmtForm::Variable { target, value } => {
            for part in target.parts.as_slice() {
                if let Part::Element {
                    index,
                    bounds: _,
                    shape: _,
                } = part
                {
                    of_expression(making, index, into)?;
                }
            }
            of_expression(making, value, into)
        }
        StmtForm::If { arms, otherwise } => {
            for arm in arms.as_slice() {
                of_expression(making, &arm.condition, into)?;
                of_statements(making, arm.body.as_slice(), into)?;
            }
            of_statements(making, otherwise.as_slice(), into)
        }
        StmtForm::Case {
            selector,
            alternatives,
        } => {
            of_expression(making, selector, into)?;
            for alternative in alternatives.as_slice() {
                of_statements(making, alternative.body.as_slice(), into)?;
            }
            Ok(())
        }
        StmtForm::Return(e) | StmtForm::WaitUntil(e) => of_expression(making, e, into),
    }
}

/// The condition that a process waits for first.
pub fn of_wait<'u>(making: &Making<'u>, list: &[Stmt], into: &mut Vec<Run>) -> Result<(), Memory> {
    match at(list, 0) {
        Some(
            Stmt {
                form: StmtForm::WaitUntil(e),
                span: _,
            },
        ) => of_expression(making, e, into),
        _ => Ok(()),
    }
}
