//! Latches.

use crate::clocked::arms_of;
use crate::controls::{active, net_in};
use crate::drivers::{Driven, Drivers, spans_of};
use crate::registers::{Register, registers};
use crate::single::Single;
use sqlite_items::Items;
use vv_base::fault::{Memory, cannot_come};
use vv_design::{Arm, Control, Stmt};
use vv_lexpr::value;
use vv_lpart::{Joined, Part, Run};
use vv_lstate::{Lowering, PieceList, PresentList, copied_present, push_pieces};
use vv_vtree::{VAlways, VArm, VArmList, VBlock, VItem, VItemList, VSign, VStmt, VStmtList};

/// Writes a Latch process: for each register an always construct on plain events, with one update in each arm. The events are those of
/// what it reads; they are written when that is settled.
pub fn latch(
    low: &mut Lowering<'_>,
    drivers: &Drivers,
    driven: &[Driven],
    body: &[Stmt],
    level: bool,
    controls: &[Control],
    items: &mut VItemList,
) -> Result<(), Memory> {
    let spans = spans_of(low.alloc, driven)?;
    let registers = registers(low, drivers, spans.as_slice(), driven, items)?;
    let arms = arms_of(body);
    let tests = tests(low, arms, controls, level)?;
    let mut single = Single::new(low, driven)?;
    let mut values: Items<PresentList> = Items::new(single.low.alloc);
    for arm in arms {
        single.begin()?;
        single.stmts(arm.body.as_slice())?;
        let copy = copied_present(single.low.alloc, single.low.present.as_slice())?;
        values.push(copy)?;
    }
    for register in registers.as_slice() {
        let always = always(&mut single, register, tests.as_slice(), values.as_slice())?;
        items.push(VItem::Always(always))?;
    }
    Ok(())
}

/// A bit and the level at which it acts.
#[derive(Drop)]
struct Test {
    run: Run,
    level: bool,
}

/// The bits that the arms look at, each with the level at which it acts.
fn tests(
    low: &mut Lowering<'_>,
    arms: &[Arm],
    controls: &[Control],
    level: bool,
) -> Result<Items<Test>, Memory> {
    let mut tests = Items::new(low.alloc);
    for (at, arm) in arms.iter().enumerate() {
        let level = match controls.get(at) {
            Some(control) => control.level,
            None => level,
        };
        if let Some(net) = net_in(&arm.condition) {
            let part = value(net, low)?;
            let run = low.named(part, b"")?;
            tests.push(Test { run, level })?;
        }
    }
    Ok(tests)
}

/// The always construct of a register.
fn always(
    single: &mut Single<'_, '_>,
    register: &Register,
    tests: &[Test],
    values: &[PresentList],
) -> Result<VAlways, Memory> {
    let alloc = single.low.alloc;
    let mut arms: VArmList = Items::new(alloc);
    for (test, present) in tests.iter().zip(values.iter()) {
        let stmts = update(single, register, present.as_slice())?;
        push_arm(single.low, test, stmts, &mut arms)?;
    }
    let mut stmts = Items::new(alloc);
    stmts.push(VStmt::If {
        arms,
        otherwise: None,
        at: 0,
    })?;
    Ok(VAlways {
        events: Items::new(alloc),
        block: VBlock { stmts, at: 0 },
        at: 0,
    })
}

/// The update of a register where an arm ends with these present values.
fn update(
    single: &Single<'_, '_>,
    register: &Register,
    present: &[PieceList],
) -> Result<VStmtList, Memory> {
    let mut stmts = Items::new(single.low.alloc);
    let target = register.run.copy(single.low.alloc)?;
    let value = value_of(single, register, present)?;
    stmts.push(VStmt::Assignment {
        target: target.reference(),
        sign: VSign::Nonblocking,
        value: value.expr,
        at: 0,
    })?;
    Ok(stmts)
}

/// Appends an arm.
fn push_arm(
    low: &mut Lowering<'_>,
    test: &Test,
    stmts: VStmtList,
    arms: &mut VArmList,
) -> Result<(), Memory> {
    let condition = active(low, &test.run, test.level)?;
    Ok(arms.push(VArm {
        condition: condition.expr,
        block: VBlock { stmts, at: 0 },
        at: 0,
    })?)
}

/// The value of a register where an arm ends with these present values.
fn value_of(
    single: &Single<'_, '_>,
    register: &Register,
    present: &[PieceList],
) -> Result<Part, Memory> {
    let mut joined = Joined::new(single.low.alloc);
    let mut pieces = Items::new(single.low.alloc);
    let object = single.object_of(register.net)?;
    let width = single.low.object(object)?.width();
    let bits = register.run.bits;
    let all = present.get(object as usize).ok_or(cannot_come())?;
    push_pieces(all.as_slice(), width, register.low, bits, &mut pieces)?;
    let mut end = register.low.saturating_add(bits);
    for piece in pieces.as_slice() {
        let begin = end.saturating_sub(piece.bits);
        joined.push(single.value_of(register.net, begin, *piece)?)?;
        end = begin;
    }
    Ok(joined.part())
}
