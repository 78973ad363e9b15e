//! The code of statements.

use crate::code::{Instr, MarkAt};
use crate::expressions::{choice, expression, places};
use crate::slots::{Coding, Open};
use vv_base::fault::{Memory, Span};
use vv_held::held::narrow;
use vv_typed::{Alternative, Arm, Form, StmtForm, Suffix, TRange, TStmt, Typed};
use vv_types::BaseType;

/// What a return is checked against.
#[derive(Clone, Copy)]
pub struct Back {
    pub mark: MarkAt,
}

/// The code of some statements.
#[cycle(statements)]
pub fn statements<'t>(list: &'t [TStmt], back: Back, to: &mut Coding<'t>) -> Result<(), Memory> {
    for stmt in list {
        statement(stmt, back, to)?;
    }
    Ok(())
}

#[cycle(statements)]
fn statement<'t>(stmt: &'t TStmt, back: Back, to: &mut Coding<'t>) -> Result<(), Memory> {
    match &stmt.form {
        StmtForm::VariableAssignment { target, value } => assignment(target, value, to),
        StmtForm::If { arms, otherwise } => {
            let mut ends = Vec::new(to.alloc);
            conditions(arms.as_slice(), back, &mut ends, to)?;
            if let Some(list) = otherwise {
                statements(list.as_slice(), back, to)?;
            }
            close(ends.as_slice(), to);
            Ok(())
        }
        StmtForm::Case {
            selector,
            alternatives,
        } => {
            expression(selector, false, to)?;
            cases(alternatives.as_slice(), stmt.span, back, to)
        }
        StmtForm::For { turn, range, body } => {
            choice(range, to)?;
            turns(body.as_slice(), *turn, base_of(range), stmt.span, back, to)
        }
        StmtForm::While { condition, body } => {
            let next = to.here();
            open(next, to)?;
            expression(condition, false, to)?;
            leave_unless(to)?;
            to.push(Instr::Turn(stmt.span))?;
            statements(body.as_slice(), back, to)?;
            to.push(Instr::Jump(next))?;
            shut(to);
            Ok(())
        }
        StmtForm::Exit { outer, condition } => {
            expression(condition, false, to)?;
            let over = to.here();
            to.push(Instr::Unless(0))?;
            exit(*outer, to)?;
            let here = to.here();
            to.put(over, Instr::Unless(here));
            Ok(())
        }
        StmtForm::Next { outer, condition } => {
            expression(condition, false, to)?;
            let over = to.here();
            to.push(Instr::Unless(0))?;
            again(*outer, to)?;
            let here = to.here();
            to.put(over, Instr::Unless(here));
            Ok(())
        }
        StmtForm::Return(value) => {
            to.push(Instr::WantMark(back.mark))?;
            expression(value, true, to)?;
            to.push(Instr::EndWant)?;
            to.push(Instr::Return {
                mark: back.mark,
                span: value.span,
            })
        }
        StmtForm::Null => Ok(()),
        StmtForm::SignalAssignment {
            target: _,
            value: _,
        }
        | StmtForm::WaitUntil(_) => to.push(Instr::NotStatic),
    }
}

/// The parts of a target: its slot, and its suffixes.
fn target_of<'t>(target: &'t Typed, to: &Coding<'t>) -> Option<(u32, &'t [Suffix])> {
    match &target.form {
        Form::Object(decl) => Some((to.slot(*decl)?, &[])),
        Form::Part { prefix, suffixes } => match &prefix.get().form {
            Form::Object(decl) => Some((to.slot(*decl)?, suffixes.as_slice())),
            _ => None,
        },
        _ => None,
    }
}

fn assignment<'t>(target: &'t Typed, value: &'t Typed, to: &mut Coding<'t>) -> Result<(), Memory> {
    let Some((slot, suffixes)) = target_of(target, to) else {
        return to.push(Instr::NotStatic);
    };
    let count = narrow(suffixes.len())?;
    places(suffixes, to)?;
    to.push(Instr::WantSlot {
        slot,
        suffixes: count,
    })?;
    expression(value, true, to)?;
    to.push(Instr::EndWant)?;
    to.push(Instr::Store {
        slot,
        suffixes: count,
        span: value.span,
    })
}

/// Jumps that now lead here.
fn close<'t>(holes: &[usize], to: &mut Coding<'t>) {
    let here = to.here();
    for hole in holes {
        to.put(*hole, Instr::Jump(here));
    }
}

#[cycle(statements)]
fn conditions<'t>(
    arms: &'t [Arm],
    back: Back,
    ends: &mut Vec<usize>,
    to: &mut Coding<'t>,
) -> Result<(), Memory> {
    for arm in arms {
        expression(&arm.condition, false, to)?;
        let over = to.here();
        to.push(Instr::Unless(0))?;
        statements(arm.body.as_slice(), back, to)?;
        ends.push(to.here())?;
        to.push(Instr::Jump(0))?;
        let here = to.here();
        to.put(over, Instr::Unless(here));
    }
    Ok(())
}

/// The choices of the alternatives, which lead to their statements behind them.
#[cycle(statements)]
fn cases<'t>(
    alternatives: &'t [Alternative],
    span: Span,
    back: Back,
    to: &mut Coding<'t>,
) -> Result<(), Memory> {
    let mut holes = Vec::new(to.alloc);
    for alternative in alternatives {
        for range in alternative.choices.as_slice() {
            choice(range, to)?;
        }
        holes.push(to.here())?;
        to.push(Instr::Jump(0))?;
    }
    to.push(Instr::NoChoice(span))?;
    let mut ends = Vec::new(to.alloc);
    for (k, alternative) in alternatives.iter().enumerate() {
        let here = to.here();
        let choices = narrow(alternative.choices.len())?;
        if let Some(hole) = holes.get(k) {
            to.put(*hole, Instr::Choose { choices, to: here });
        }
        statements(alternative.body.as_slice(), back, to)?;
        ends.push(to.here())?;
        to.push(Instr::Jump(0))?;
    }
    close(ends.as_slice(), to);
    Ok(())
}

/// The turns of a loop whose range stands on the stack.
#[cycle(statements)]
fn turns<'t>(
    body: &'t [TStmt],
    turn: u32,
    base: BaseType,
    span: Span,
    back: Back,
    to: &mut Coding<'t>,
) -> Result<(), Memory> {
    let hidden = to.add(u32::MAX)?;
    let slot = to.add(turn)?;
    to.push(Instr::StartLoop { slot, hidden, base })?;
    let next = to.here();
    open(next, to)?;
    let hole = to.here();
    to.push(Instr::Jump(0))?;
    statements(body, back, to)?;
    to.push(Instr::Jump(next))?;
    let behind = to.here();
    to.put(
        hole,
        Instr::NextTurn {
            slot,
            hidden,
            to: behind,
            span,
        },
    );
    shut(to);
    Ok(())
}

fn open<'t>(next: usize, to: &mut Coding<'t>) -> Result<(), Memory> {
    let holes = Vec::new(to.alloc);
    to.loops.push(Open { next, holes })?;
    Ok(())
}

/// Ends the innermost loop here.
fn shut<'t>(to: &mut Coding<'t>) {
    if let Some(open) = to.loops.pop() {
        close(open.holes.as_slice(), to);
    }
}

/// Leaves the innermost loop where the condition on the stack is false.
fn leave_unless<'t>(to: &mut Coding<'t>) -> Result<(), Memory> {
    let here = to.here();
    to.push(Instr::Unless(here.saturating_add(2)))?;
    to.push(Instr::Jump(here.saturating_add(3)))?;
    exit(0, to)
}

/// The place of a loop among those that are open, where some within it are left too.
fn loop_at<'t>(outer: u32, to: &Coding<'t>) -> Option<usize> {
    to.loops.len().checked_sub(1)?.checked_sub(outer as usize)
}

fn exit<'t>(outer: u32, to: &mut Coding<'t>) -> Result<(), Memory> {
    let here = to.here();
    if let Some(k) = loop_at(outer, to) {
        if let Some(open) = to.loops.get_mut(k) {
            open.holes.push(here)?;
        }
    }
    to.push(Instr::Jump(0))
}

fn again<'t>(outer: u32, to: &mut Coding<'t>) -> Result<(), Memory> {
    let mut next = 0;
    if let Some(k) = loop_at(outer, to) {
        if let Some(open) = to.loops.get(k) {
            next = open.next;
        }
    }
    to.push(Instr::Jump(next))
}

/// The base type of the values of a range.
fn base_of(range: &TRange) -> BaseType {
    match range {
        TRange::Whole(e) => e.base,
        TRange::Between {
            left,
            right: _,
            down: _,
        } => left.base,
        TRange::Within { mark: _, range } => base_of(range.get()),
        TRange::Others(_) => BaseType::Int,
    }
}
