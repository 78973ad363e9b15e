//! Clocked processes.

use crate::controls::{behind_edge, controls, event, event_name, net_in};
use crate::drivers::{Driven, Drivers, spans_of};
use crate::process::variable_name;
use crate::registers::{Register, hint_of, known_bits, registers};
use crate::twice::assigned_by;
use sqlite_items::Items;
use std::mem;
use vv_base::fault::{Memory, cannot_come};
use vv_design::{Arm, Control, Expr, Proc, Stmt, StmtForm};
use vv_lpart::{Run, bits_of, name_of, range_of};
use vv_lstate::{Lowering, OwnKind};
use vv_lstmt::{Keeper, Signal, SignalList};
use vv_vtree::{
    VAlways, VArm, VArmList, VBlock, VDeclaration, VEdge, VEventList, VItem, VItemList, VSign,
    VStmt, VStmtList,
};

/// The registers of a process, and the spans of scalars that they have.
#[derive(Drop)]
struct Registers<'s, 'r> {
    spans: &'s [Driven],
    list: &'r [Register],
}

/// Writes a Clocked process.
pub fn clocked(
    low: &mut Lowering<'_>,
    drivers: &Drivers,
    driven: &[Driven],
    proc: &Proc,
    rising: bool,
    control: &[Control],
    items: &mut VItemList,
) -> Result<(), Memory> {
    variables(low, proc, items)?;
    let spans = spans_of(low.alloc, driven)?;
    let list = registers(low, drivers, spans.as_slice(), driven, items)?;
    let registers = Registers {
        spans: spans.as_slice(),
        list: list.as_slice(),
    };
    let mut events = Items::new(low.alloc);
    let stmts = match waits(proc.body.as_slice()) {
        Some((condition, rest)) => {
            push_clock(low, condition, rising, &mut events)?;
            edge_arm(low, &registers, None, rest)?
        }
        None => listed(low, &registers, proc, rising, control, &mut events)?,
    };
    items.push(VItem::Always(VAlways {
        events,
        block: VBlock { stmts, at: 0 },
        at: 0,
    }))?;
    Ok(())
}

/// The condition of the first statement, where that is a wait, and the statements behind it.
fn waits(stmts: &[Stmt]) -> Option<(&Expr, &[Stmt])> {
    match stmts {
        [first, rest @ ..] => match &first.form {
            StmtForm::WaitUntil(condition) => Some((condition, rest)),
            _ => None,
        },
        [] => None,
    }
}

/// The arms of the process's `if`.
pub fn arms_of(stmts: &[Stmt]) -> &[Arm] {
    match stmts {
        [stmt] => match &stmt.form {
            StmtForm::If { arms, otherwise: _ } => arms.as_slice(),
            _ => &[],
        },
        _ => &[],
    }
}

fn push_clock(
    low: &mut Lowering<'_>,
    condition: &Expr,
    rising: bool,
    events: &mut VEventList,
) -> Result<(), Memory> {
    if let Some(net) = net_in(condition) {
        let run = event_name(low, net)?;
        let edge = if rising {
            VEdge::Rising
        } else {
            VEdge::Falling
        };
        events.push(event(edge, run))?;
    }
    Ok(())
}

/// The statements of a process with a list.
fn listed(
    low: &mut Lowering<'_>,
    registers: &Registers<'_, '_>,
    proc: &Proc,
    rising: bool,
    control: &[Control],
    events: &mut VEventList,
) -> Result<VStmtList, Memory> {
    let arms = arms_of(proc.body.as_slice());
    let Some((last, before)) = arms.split_last() else {
        return Ok(Items::new(low.alloc));
    };
    push_clock(low, &last.condition, rising, events)?;
    let mut tests = controls(low, before, control, events)?;
    let edge = edge_arm(low, registers, Some(&last.condition), last.body.as_slice())?;
    let mut kept: VArmList = Items::new(low.alloc);
    for arm in before {
        let stmts = arm_stmts(low, registers, arm.body.as_slice())?;
        if let Some(condition) = tests.pop() {
            kept.push(VArm {
                condition,
                block: VBlock { stmts, at: 0 },
                at: 0,
            })?;
        }
    }
    if kept.is_empty() {
        return Ok(edge);
    }
    with_edge(low, kept, edge)
}

/// The arms of the controls, and behind them that of the edge. Where it is an `if` alone, its arms go on with theirs.
fn with_edge(low: &Lowering<'_>, arms: VArmList, edge: VStmtList) -> Result<VStmtList, Memory> {
    if is_if_alone(&edge) {
        return joined_if(low, arms, edge);
    }
    let mut stmts = Items::new(low.alloc);
    stmts.push(VStmt::If {
        arms,
        otherwise: Some(VBlock { stmts: edge, at: 0 }),
        at: 0,
    })?;
    Ok(stmts)
}

fn is_if_alone(stmts: &VStmtList) -> bool {
    stmts.len() == 1 && matches!(stmts.get(0), Some(VStmt::If { .. }))
}

/// An `if` with arms before those of another one.
fn joined_if(
    low: &Lowering<'_>,
    mut arms: VArmList,
    mut edge: VStmtList,
) -> Result<VStmtList, Memory> {
    let Some(
        VStmt::If {
            arms: more,
            otherwise,
            at: _,
        },
    ) = edge.pop()
    else {
        return Err(cannot_come());
    };
    arms.append(more)?;
    let mut stmts = Items::new(low.alloc);
    stmts.push(VStmt::If {
        arms,
        otherwise,
        at: 0,
    })?;
    Ok(stmts)
}

/// The statements of the arm of the edge: those behind further conjuncts stand in an `if`.
fn edge_arm(
    low: &mut Lowering<'_>,
    registers: &Registers<'_, '_>,
    condition: Option<&Expr>,
    body: &[Stmt],
) -> Result<VStmtList, Memory> {
    let fresh = Items::new(low.alloc);
    let before = mem::replace(&mut low.stmts, fresh);
    let enable = match condition {
        Some(condition) => behind_edge(low, condition)?,
        None => None,
    };
    let stmts = arm_stmts(low, registers, body)?;
    match enable {
        Some(enable) => {
            let mut arms = Items::new(low.alloc);
            arms.push(VArm {
                condition: enable.into_inner(),
                block: VBlock { stmts, at: 0 },
                at: 0,
            })?;
            low.stmts.push(VStmt::If {
                arms,
                otherwise: None,
                at: 0,
            })?;
        }
        None => low.stmts.append(stmts)?,
    }
    Ok(mem::replace(&mut low.stmts, before))
}

/// The statements of an arm. A register of which a path assigns a bit twice is copied first, and updated in the end.
fn arm_stmts(
    low: &mut Lowering<'_>,
    registers: &Registers<'_, '_>,
    body: &[Stmt],
) -> Result<VStmtList, Memory> {
    let fresh = Items::new(low.alloc);
    let before = mem::replace(&mut low.stmts, fresh);
    let facts = assigned_by(low.alloc, registers.spans, body)?;
    let mut signals: SignalList = Items::new(low.alloc);
    let mut updates = Items::new(low.alloc);
    for (register, fact) in registers.list.iter().zip(facts.as_slice()) {
        let signal = if fact.twice {
            shadowed(low, register, fact.begins_whole, &mut updates)?
        } else {
            Signal {
                net: register.net,
                register: register.run.copy(low.alloc)?,
                low: register.low,
                direct: true,
            }
        };
        signals.push(signal)?;
    }
    let mut keeper = Keeper {
        low,
        signals,
        result: None,
        result_layout: None,
    };
    keeper.stmts(body)?;
    let Keeper { low, .. } = keeper;
    low.stmts.append(updates)?;
    Ok(mem::replace(&mut low.stmts, before))
}

/// The own register in place of a register of which a path assigns a bit twice. It is a copy at first, unless the first assignment is to
/// all of it, and the register is updated from it in the end.
fn shadowed(
    low: &mut Lowering<'_>,
    register: &Register,
    begins_whole: bool,
    updates: &mut VStmtList,
) -> Result<Signal, Memory> {
    let hint = hint_of(low, register.net)?;
    let own = low.push_own(register.run.bits, hint.as_slice(), OwnKind::Reg(None))?;
    let shadow = low.own_run(own)?;
    if !begins_whole {
        let now = register.run.copy(low.alloc)?;
        let target = shadow.copy(low.alloc)?;
        low.assign(target.reference(), VSign::Blocking, now.read())?;
    }
    push_update(low, register, &shadow, updates)?;
    Ok(Signal {
        net: register.net,
        register: shadow,
        low: register.low,
        direct: false,
    })
}

/// Appends the update of a register from its copy.
fn push_update(
    low: &Lowering<'_>,
    register: &Register,
    shadow: &Run,
    updates: &mut VStmtList,
) -> Result<(), Memory> {
    let target = register.run.copy(low.alloc)?;
    let now = shadow.copy(low.alloc)?;
    Ok(updates.push(VStmt::Assignment {
        target: target.reference(),
        sign: VSign::Nonblocking,
        value: now.read().expr,
        at: 0,
    })?)
}

/// The registers of the variables.
fn variables(low: &Lowering<'_>, proc: &Proc, items: &mut VItemList) -> Result<(), Memory> {
    let instance = low.design.inst(proc.inst)?.path.as_slice();
    for (object, var) in low.objects.as_slice().iter().zip(proc.vars.as_slice()) {
        let initial = bits_of(low.alloc, &var.initial, object.layout.width())?;
        items.push(VItem::Reg {
            declaration: VDeclaration {
                range: range_of(object.width()),
                name: name_of(variable_name(low.alloc, instance, var.path.as_slice())?),
                at: 0,
            },
            initial: known_bits(initial),
        })?;
    }
    Ok(())
}
