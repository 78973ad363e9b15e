//! Statements. Loops are unrolled, and dead arms are left out.

use crate::cases::Seen;
use crate::targets::{Aim, target};
use sqlite_items::Items;
use std::alloc::Global;
use vv_base::fault::{Fault, Memory, Span};
use vv_design::{
    Alternative, AlternativeList, Arm, ArmList, ChoiceList, Run, Stmt, StmtForm as Designed,
    StmtList,
};
use vv_elab_base::making::{Made, Making};
use vv_elab_base::objects::{fit, matched};
use vv_elab_base::sub::Sub;
use vv_elab_expr::expressions::expression;
use vv_elab_plain::fixed::is_fixed;
use vv_elab_types::ranges::{Placed, range};
use vv_held::Held;
use vv_held::held::{from_ordinal, misfit};
use vv_held::shape::{count, value_at};
use vv_typed::{Alternative as TypedAlternative, Arm as TypedArm, StmtForm, TStmt, Typed};
use vv_types::Value;

/// A list of statements.
#[cycle(statements)]
pub fn statements<'u>(
    making: &mut Making<'u>,
    list: &'u [TStmt],
    into: &mut StmtList,
) -> Result<(), Fault> {
    for s in list {
        statement(making, s, into)?;
    }
    Ok(())
}

/// A statement.
#[cycle(statements)]
fn statement<'u>(making: &mut Making<'u>, s: &'u TStmt, into: &mut StmtList) -> Result<(), Fault> {
    let outer = making.place;
    if making.frame.is_none() {
        making.place = s.span;
    }
    making.node()?;
    match &s.form {
        StmtForm::If { arms, otherwise } => {
            let mut made = Conditional::new(making.alloc);
            conditions(making, arms.as_slice(), &mut made)?;
            if let Some(list) = otherwise {
                if !made.always {
                    statements(making, list.as_slice(), &mut made.last)?;
                }
            }
            made.put(s.span, into)?;
        }
        StmtForm::Case {
            selector,
            alternatives: list,
        } => {
            let of = expression(making, selector, None)?;
            let choices = choices_of(making, selector, &of, list.as_slice(), s.span)?;
            let mut made = Items::new(making.alloc);
            alternatives(making, list.as_slice(), choices, &mut made)?;
            into.push(Stmt {
                form: Designed::Case {
                    selector: of.expr,
                    alternatives: made,
                },
                span: s.span,
            })?;
        }
        StmtForm::For {
            turn,
            range: r,
            body,
        } => {
            let placed = range(making, r)?;
            if !body.is_empty() {
                unrolled(making, body.as_slice(), *turn, placed, s.span, into)?;
            }
        }
        _ => simple(making, s, into)?,
    }
    making.place = outer;
    Ok(())
}

/// A statement without statements in it.
fn simple<'u>(making: &mut Making<'u>, s: &'u TStmt, into: &mut StmtList) -> Result<(), Fault> {
    match &s.form {
        StmtForm::SignalAssignment { target, value }
        | StmtForm::VariableAssignment { target, value } => {
            assignment(making, s.span, target, value, into)
        }
        StmtForm::Return(value) => returned(making, s.span, value, into),
        StmtForm::WaitUntil(condition) => {
            let condition = expression(making, condition, None)?;
            into.push(Stmt {
                form: Designed::WaitUntil(condition.expr),
                span: s.span,
            })?;
            Ok(())
        }
        StmtForm::Null => Ok(()),
        _ => Err(misfit()),
    }
}

/// An assignment. The indexes of the target come first.
fn assignment<'u>(
    making: &mut Making<'u>,
    span: Span,
    to: &'u Typed,
    value: &'u Typed,
    into: &mut StmtList,
) -> Result<(), Fault> {
    let Aim {
        target,
        sub,
        is_net,
        first,
        len,
    } = target(making, to)?;
    let of = expression(making, value, Some(sub.extent))?;
    let of = fit(making, of, sub.extent, value.span)?;
    let form = if is_net {
        if making.frame.is_none() && len > 0 {
            making.drive(target.object, Run { first, len })?;
        }
        Designed::Signal {
            target,
            value: of.expr,
        }
    } else {
        Designed::Variable {
            target,
            value: of.expr,
        }
    };
    into.push(Stmt { form, span })?;
    Ok(())
}

/// An `if` with its live arms, the statements behind them, and whether one of the arms is always taken. Where the first live arm is
/// always taken, its statements stand in the place of the `if`.
#[derive(Drop)]
struct Conditional {
    live: ArmList,
    last: StmtList,
    always: bool,
}

impl Conditional {
    fn new(alloc: Global) -> Conditional {
        Conditional {
            live: Items::new(alloc),
            last: Items::new(alloc),
            always: false,
        }
    }

    fn put(self, span: Span, into: &mut StmtList) -> Result<(), Memory> {
        let Conditional {
            live,
            last,
            always: _,
        } = self;
        if live.is_empty() {
            into.append(last)?;
        } else {
            into.push(Stmt {
                form: Designed::If {
                    arms: live,
                    otherwise: last,
                },
                span,
            })?;
        }
        Ok(())
    }
}

/// The live arms of an `if`.
#[cycle(statements)]
fn conditions<'u>(
    making: &mut Making<'u>,
    arms: &'u [TypedArm],
    into: &mut Conditional,
) -> Result<(), Fault> {
    for arm in arms {
        if into.always {
            break;
        }
        if is_fixed(making, &arm.condition, true) {
            making.node()?;
            let held = making.fold(&arm.condition, None)?;
            if let Value::Bool(true) = held.value {
                into.always = true;
                statements(making, arm.body.as_slice(), &mut into.last)?;
            }
        } else {
            let condition = expression(making, &arm.condition, None)?;
            let mut body = Items::new(making.alloc);
            statements(making, arm.body.as_slice(), &mut body)?;
            into.live.push(Arm {
                condition: condition.expr,
                body,
            })?;
        }
    }
    Ok(())
}

/// The choices of the alternatives, the last one first. All are looked at before the statements.
fn choices_of<'u>(
    making: &mut Making<'u>,
    selector: &Typed,
    of: &Made,
    list: &[TypedAlternative],
    span: Span,
) -> Result<Vec<ChoiceList>, Fault> {
    let mut seen = Seen::new(making, selector, of)?;
    let mut choices = Vec::new(making.alloc);
    for alternative in list {
        choices.push(seen.add(making, alternative.choices.as_slice())?)?;
    }
    seen.finish(span)?;
    choices.reverse();
    Ok(choices)
}

/// The alternatives of a case. The choices stand from the last one.
#[cycle(statements)]
fn alternatives<'u>(
    making: &mut Making<'u>,
    list: &'u [TypedAlternative],
    choices: Vec<ChoiceList>,
    into: &mut AlternativeList,
) -> Result<(), Fault> {
    let mut rest = choices;
    for alternative in list {
        let Some(choices) = rest.pop() else {
            return Err(misfit());
        };
        let mut body = Items::new(making.alloc);
        statements(making, alternative.body.as_slice(), &mut body)?;
        into.push(Alternative { choices, body })?;
    }
    Ok(())
}

/// The copies of the body of a loop.
#[cycle(statements)]
fn unrolled<'u>(
    making: &mut Making<'u>,
    body: &'u [TStmt],
    turn: u32,
    placed: Placed,
    span: Span,
    into: &mut StmtList,
) -> Result<(), Fault> {
    let sub = Sub::scalar(placed.base, placed.bounds);
    for k in 0..count(placed.bounds) {
        let Some(n) = value_at(placed.bounds, k) else {
            return Err(misfit());
        };
        let Some(value) = from_ordinal(placed.base, n) else {
            return Err(misfit());
        };
        making.note_constant(turn, sub, Held::scalar(value), true)?;
        let before = making.nodes;
        statements(making, body, into)?;
        if making.nodes == before {
            making.spend(span)?;
        }
    }
    Ok(())
}

/// A return. The lengths of all that one call may return are the same.
fn returned<'u>(
    making: &mut Making<'u>,
    span: Span,
    value: &'u Typed,
    into: &mut StmtList,
) -> Result<(), Fault> {
    let (result, before) = match &making.frame {
        Some(frame) => (frame.result, frame.returned),
        None => return Err(misfit()),
    };
    let of = expression(making, value, Some(result.extent))?;
    let of = fit(making, of, result.extent, value.span)?;
    if let Some(before) = before {
        matched(of.sub, before.extent, value.span)?;
    } else if let Some(frame) = making.frame.as_mut() {
        frame.returned = Some(of.sub);
    }
    into.push(Stmt {
        form: Designed::Return(of.expr),
        span,
    })?;
    Ok(())
}
