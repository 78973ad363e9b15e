//! Clocks, controls and enables: their names, and the conditions in which they stand.

use sqlite_items::{Boxed, Items};
use vv_base::fault::Memory;
use vv_design::{Arm, Control, Expr, Form, Link, Operator};
use vv_lexpr::value;
use vv_lpart::{Part, Run, name_of};
use vv_lrows::{Held, Pool};
use vv_lstate::{Lowering, Mode, OwnKind};
use vv_lstmt::{test, turned};
use vv_types::StdFn;
use vv_vtree::{VBinary, VEdge, VEvent, VEventList, VExpr, VExprList, VUnary};

/// The first name of a net in a condition.
#[cycle(names)]
pub fn net_in(e: &Expr) -> Option<&Expr> {
    match &e.form {
        Form::Net(_) | Form::Elements { of: _, first: _ } => Some(e),
        Form::Edge { rising: _, of } => net_in(of.get()),
        Form::Event(of) => net_in(of.get()),
        Form::Apply {
            operator: _,
            operands,
        } => net_in_some(operands.as_slice()),
        Form::Chain { first, links: _ } => net_in(first.get()),
        _ => None,
    }
}

#[cycle(names)]
fn net_in_some(operands: &[Expr]) -> Option<&Expr> {
    for operand in operands {
        if let Some(found) = net_in(operand) {
            return Some(found);
        }
    }
    None
}

/// Whether an event stands in a condition.
fn has_event(e: &Expr) -> bool {
    matches!(e.form, Form::Event(_) | Form::Edge { .. })
}

/// The conjuncts of a condition behind the edge, as they stand behind `if`, where there is one.
pub fn behind_edge(
    low: &mut Lowering<'_>,
    condition: &Expr,
) -> Result<Option<Boxed<VExpr>>, Memory> {
    let mut all = Vec::new(low.alloc);
    push_conjuncts(condition, &mut all)?;
    let mut pool = Pool::new(low.alloc);
    let mut rest: Option<Held> = None;
    let mut left = count_of_edge(all.as_slice());
    for conjunct in all.as_slice() {
        if left > 0 {
            left = left.saturating_sub(1);
        } else {
            let part = held_value(low, conjunct, &mut pool)?;
            rest = match rest {
                Some(before) => Some(pool.binary(low, before, VBinary::And, part)?),
                None => Some(part),
            };
        }
    }
    match rest {
        Some(rest) => Ok(Some(boxed_test(low, rest, &mut pool)?)),
        None => Ok(None),
    }
}

/// How many of the conjuncts of a condition are the edge.
fn count_of_edge(all: &[&Expr]) -> usize {
    let Some(first) = all.first() else {
        return 0;
    };
    if matches!(first.form, Form::Edge { .. }) {
        return 1;
    }
    match all.get(1) {
        Some(second) if has_event(first) || has_event(second) => 2,
        _ => 0,
    }
}

fn held_value(low: &mut Lowering<'_>, e: &Expr, pool: &mut Pool) -> Result<Held, Memory> {
    let part = value(e, low)?;
    pool.hold(part)
}

fn boxed_test(low: &Lowering<'_>, part: Held, pool: &mut Pool) -> Result<Boxed<VExpr>, Memory> {
    let part = pool.taken(part)?;
    Ok(Boxed::new(low.alloc, test(part))?)
}

/// Appends the conjuncts of a condition.
#[cycle(conjuncts)]
fn push_conjuncts<'e>(e: &'e Expr, all: &mut Vec<&'e Expr>) -> Result<(), Memory> {
    match &e.form {
        Form::Chain { first, links } if all_and(links.as_slice()) => {
            push_conjuncts(first.get(), all)?;
            push_link_conjuncts(links.as_slice(), all)
        }
        _ => Ok(all.push(e)?),
    }
}

#[cycle(conjuncts)]
fn push_link_conjuncts<'e>(links: &'e [Link], all: &mut Vec<&'e Expr>) -> Result<(), Memory> {
    for link in links {
        push_conjuncts(&link.right, all)?;
    }
    Ok(())
}

fn all_and(links: &[Link]) -> bool {
    links.iter().all(|link| matches!(link.operator, Operator::Standard(StdFn::AndBool)))
}

/// The name of one bit that is an event: that of an object, or of an own wire that has its value.
pub fn event_name(low: &mut Lowering<'_>, e: &Expr) -> Result<Run, Memory> {
    let part = value(e, low)?;
    let run = low.named(part, b"")?;
    if run.whole {
        return Ok(run);
    }
    let part = run.read();
    let number = low.push_own(1, b"", OwnKind::Wire(part.expr))?;
    low.own_run(number)
}

/// A bit, turned over where it acts at 0.
pub fn active(low: &mut Lowering<'_>, run: &Run, level: bool) -> Result<Part, Memory> {
    let part = run.copy(low.alloc)?.read();
    if level {
        Ok(part)
    } else {
        low.unary(VUnary::Not, part)
    }
}

pub fn event(edge: VEdge, run: Run) -> VEvent {
    VEvent {
        edge,
        name: name_of(run.name),
        at: 0,
    }
}

/// The conditions of the control arms, each as it stands behind `if`, the last one first; their events are appended. A control that
/// becomes the first active one by the release of an earlier one is an event too, so it gets a wire that is 1 exactly while it is the
/// first active one.
pub fn controls(
    low: &mut Lowering<'_>,
    arms: &[Arm],
    controls: &[Control],
    events: &mut VEventList,
) -> Result<VExprList, Memory> {
    let mut tests = Items::new(low.alloc);
    let mut free: Option<Run> = None;
    for (arm, control) in arms.iter().zip(controls.iter()) {
        if let Some(net) = net_in(&arm.condition) {
            let run = wire_of(low, net)?;
            let rests = match free {
                None => first_control(low, run, control.level, events, &mut tests)?,
                Some(before) => {
                    later_control(low, before, run, control.level, events, &mut tests)?
                }
            };
            free = Some(rests);
        }
    }
    turned(low.alloc, tests)
}

/// The name of a control, of which no register may be made.
fn wire_of(low: &mut Lowering<'_>, net: &Expr) -> Result<Run, Memory> {
    let mode = low.mode;
    low.mode = Mode::Wires;
    let run = event_name(low, net);
    low.mode = mode;
    run
}

/// Appends the condition of the first control, and answers a wire that is 1 while it is not active.
fn first_control(
    low: &mut Lowering<'_>,
    run: Run,
    level: bool,
    events: &mut VEventList,
    tests: &mut VExprList,
) -> Result<Run, Memory> {
    let mut pool = Pool::new(low.alloc);
    let acts = held_active(low, &run, level, &mut pool)?;
    let rests = held_active(low, &run, !level, &mut pool)?;
    let free = wire(low, rests, &mut pool)?;
    let edge = if level { VEdge::Rising } else { VEdge::Falling };
    events.push(event(edge, run))?;
    push_test(acts, &mut pool, tests)?;
    low.own_run(free)
}

/// Appends the condition of a control behind others, of which none is active where `before` is 1, and answers a wire that is 1 while it
/// is not active either.
fn later_control(
    low: &mut Lowering<'_>,
    before: Run,
    run: Run,
    level: bool,
    events: &mut VEventList,
    tests: &mut VExprList,
) -> Result<Run, Memory> {
    let mut pool = Pool::new(low.alloc);
    let acts = held_active(low, &run, level, &mut pool)?;
    let rests = held_active(low, &run, !level, &mut pool)?;
    let none = held_active(low, &before, true, &mut pool)?;
    let first = pool.binary(low, none, VBinary::And, acts)?;
    let own = wire(low, first, &mut pool)?;
    events.push(event(VEdge::Rising, low.own_run(own)?))?;
    let none = pool.hold(before.read())?;
    let still = pool.binary(low, none, VBinary::And, rests)?;
    let free = wire(low, still, &mut pool)?;
    let test = pool.own(low, own)?;
    push_test(test, &mut pool, tests)?;
    low.own_run(free)
}

fn held_active(
    low: &mut Lowering<'_>,
    run: &Run,
    level: bool,
    pool: &mut Pool,
) -> Result<Held, Memory> {
    let part = active(low, run, level)?;
    pool.hold(part)
}

/// An own wire of one bit.
fn wire(low: &mut Lowering<'_>, part: Held, pool: &mut Pool) -> Result<u32, Memory> {
    let part = pool.taken(part)?;
    low.push_own(1, b"", OwnKind::Wire(part.expr))
}

fn push_test(part: Held, pool: &mut Pool, tests: &mut VExprList) -> Result<(), Memory> {
    let part = pool.taken(part)?;
    Ok(tests.push(part.expr)?)
}
