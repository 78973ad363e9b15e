//! What expressions and statements read, and which expressions are static.

use crate::names::{Object, part_of};
use vv_base::fault::{Memory, Span};
use vv_design::{Alternative, Arm, Expr, Form, Link, Net, Part, Run, Stmt, StmtForm, Target};

/// A name that is read, and the elements that the read may reach.
#[derive(Clone, Copy, Debug, PartialEq, Eq)]
pub struct Read {
    pub object: Object,
    pub run: Run,
    pub span: Span,
    pub how: Use,
}

/// What is read of a name: its value, or whether it has an edge or an event. The span is then that of the edge call or the attribute.
#[derive(Clone, Copy, Debug, PartialEq, Eq)]
pub enum Use {
    Value,
    Edge(Span),
}

/// Adds what an expression reads.
#[cycle(reads)]
pub fn add_reads(nets: &[Net], e: &Expr, into: &mut Vec<Read>) -> Result<(), Memory> {
    match &e.form {
        Form::Value(_) | Form::Constant(_) => Ok(()),
        Form::Net(_) | Form::Variable(_) => add_name(nets, e, Use::Value, into),
        Form::Elements { of, first: _ } => {
            add_name(nets, e, Use::Value, into)?;
            add_prefix(nets, of.get(), into)
        }
        Form::Element {
            of,
            index,
            bounds: _,
        } => {
            add_name(nets, e, Use::Value, into)?;
            add_prefix(nets, of.get(), into)?;
            add_reads(nets, index.get(), into)
        }
        Form::Aggregate { parts, elements: _ } => add_all(nets, parts.as_slice(), into),
        Form::Concatenation(operands) => add_all(nets, operands.as_slice(), into),
        Form::Apply {
            operator: _,
            operands,
        } => add_all(nets, operands.as_slice(), into),
        Form::Chain { first, links } => {
            add_reads(nets, first.get(), into)?;
            add_links(nets, links.as_slice(), into)
        }
        Form::Position(of)
        | Form::AtPosition {
            of,
            low: _,
            high: _,
        }
        | Form::Check {
            operand: of,
            low: _,
            high: _,
        } => add_reads(nets, of.get(), into),
        Form::Edge { rising: _, of } | Form::Event(of) => {
            add_name(nets, of.get(), Use::Edge(e.span), into)?;
            add_prefix(nets, of.get(), into)
        }
        Form::Call {
            function: _,
            formals: _,
            arguments,
        } => add_all(nets, arguments.as_slice(), into),
    }
}

/// Adds a name of a net or a variable, or of a part of one, and nothing for another expression.
fn add_name(nets: &[Net], e: &Expr, how: Use, into: &mut Vec<Read>) -> Result<(), Memory> {
    if let Some(place) = part_of(nets, e) {
        into.push(Read {
            object: place.object,
            run: place.run,
            span: e.span,
            how,
        })?;
    }
    Ok(())
}

/// Adds what the indexes of a prefix read, or what the whole prefix reads that is no name.
#[cycle(reads)]
fn add_prefix(nets: &[Net], e: &Expr, into: &mut Vec<Read>) -> Result<(), Memory> {
    match &e.form {
        Form::Net(_) | Form::Variable(_) => Ok(()),
        Form::Elements { of, first: _ } => add_prefix(nets, of.get(), into),
        Form::Element {
            of,
            index,
            bounds: _,
        } => {
            add_prefix(nets, of.get(), into)?;
            add_reads(nets, index.get(), into)
        }
        _ => add_reads(nets, e, into),
    }
}

#[cycle(reads)]
fn add_all(nets: &[Net], es: &[Expr], into: &mut Vec<Read>) -> Result<(), Memory> {
    for e in es {
        add_reads(nets, e, into)?;
    }
    Ok(())
}

#[cycle(reads)]
fn add_links(nets: &[Net], links: &[Link], into: &mut Vec<Read>) -> Result<(), Memory> {
    for link in links {
        add_reads(nets, &link.right, into)?;
    }
    Ok(())
}

/// Adds what the indexes of a target read.
pub fn add_target_reads(nets: &[Net], target: &Target, into: &mut Vec<Read>) -> Result<(), Memory> {
    for part in target.parts.as_slice() {
        if let Part::Element {
            index,
            bounds: _,
            shape: _,
        } = part
        {
            add_reads(nets, index, into)?;
        }
    }
    Ok(())
}

/// Adds what statements read: in assignments, indexes of targets, conditions and selectors.
#[cycle(statements)]
pub fn add_statement_reads(
    nets: &[Net],
    stmts: &[Stmt],
    into: &mut Vec<Read>,
) -> Result<(), Memory> {
    for stmt in stmts {
        match &stmt.form {
            StmtForm::Signal { target, value } | StmtForm::Variable { target, value } => {
                add_target_reads(nets, target, into)?;
                add_reads(nets, value, into)?;
            }
            StmtForm::If { arms, otherwise } => {
                add_arm_reads(nets, arms.as_slice(), into)?;
                add_statement_reads(nets, otherwise.as_slice(), into)?;
            }
            StmtForm::Case {
                selector,
                alternatives,
            } => {
                add_reads(nets, selector, into)?;
                add_alternative_reads(nets, alternatives.as_slice(), into)?;
            }
            StmtForm::Return(e) | StmtForm::WaitUntil(e) => add_reads(nets, e, into)?,
        }
    }
    Ok(())
}

#[cycle(statements)]
fn add_arm_reads(nets: &[Net], arms: &[Arm], into: &mut Vec<Read>) -> Result<(), Memory> {
    for arm in arms {
        add_reads(nets, &arm.condition, into)?;
        add_statement_reads(nets, arm.body.as_slice(), into)?;
    }
    Ok(())
}

#[cycle(statements)]
fn add_alternative_reads(
    nets: &[Net],
    alternatives: &[Alternative],
    into: &mut Vec<Read>,
) -> Result<(), Memory> {
    for alternative in alternatives {
        add_statement_reads(nets, alternative.body.as_slice(), into)?;
    }
    Ok(())
}

/// Whether an expression is made of constants alone.
#[cycle(statics)]
pub fn is_static(e: &Expr) -> bool {
    match &e.form {
        Form::Value(_) | Form::Constant(_) => true,
        Form::Net(_) | Form::Variable(_) | Form::Edge { rising: _, of: _ } | Form::Event(_) =>
            false,
        Form::Elements { of, first: _ } => is_static(of.get()),
        Form::Element {
            of,
            index,
            bounds: _,
        } => is_static(of.get()) && is_static(index.get()),
        Form::Aggregate { parts, elements: _ } => are_static(parts.as_slice()),
        Form::Concatenation(operands) => are_static(operands.as_slice()),
        Form::Apply {
            operator: _,
            operands,
        } => are_static(operands.as_slice()),
        Form::Chain { first, links } => {
            is_static(first.get()) && are_static_links(links.as_slice())
        }
        Form::Position(of)
        | Form::AtPosition {
            of,
            low: _,
            high: _,
        }
        | Form::Check {
            operand: of,
            low: _,
            high: _,
        } => is_static(of.get()),
        Form::Call {
            function: _,
            formals: _,
            arguments,
        } => are_static(arguments.as_slice()),
    }
}

#[cycle(statics)]
fn are_static(es: &[Expr]) -> bool {
    for e in es {
        if !is_static(e) {
            return false;
        }
    }
    true
}

#[cycle(statics)]
fn are_static_links(links: &[Link]) -> bool {
    for link in links {
        if !is_static(&link.right) {
            return false;
        }
    }
    true
}
