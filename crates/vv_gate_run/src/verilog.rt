//! The Verilog side: each item is a continuous assignment, and each input starts at x.
ghost use Rattle.std.specs.Prelude.{◌≡◌, ◌↔◌, ℕ, ◌||◌, [], ◌∷◌, ◌++◌, map, IfOk, IfErr, OnOk, IsTrue, MatchOption, false, slice_set, slice_get, slice_index_or};
ghost use Rattle.vv_bits.specs.Four.{is4};
ghost use Rattle.vv_bits.specs.declared.four.V4.{V4};
ghost use Rattle.vv_events.specs.Equations as equations;
ghost use Rattle.vv_events.specs.Items.{has};
ghost use Rattle.vv_events.specs.Rows as rows;
ghost use Rattle.vv_events.specs.Steps as steps;
ghost use Rattle.vv_events.specs.Steps.{Act};
ghost use Rattle.vv_gate.specs.View.{file_of};
ghost use Rattle.vv_gate_agree.specs.Agreement.{seen_input, row4};
ghost use Rattle.vv_gate_run.specs.Circuit.{design_of};
ghost use Rattle.vv_gate_text.specs.Made.{direction_of};
ghost use Rattle.vv_gate_verilog.specs.Events as events;
ghost use Rattle.vv_vast.specs.Tree as vast;
ghost use Rattle.vv_gate_run.specs.Flat.{expr_of, flat_of};
ghost use Rattle.vv_gate_run.specs.Verilog.{state_of, change_of, is_woken, with_driver, rested, AllNext, HasFlags, HasSteps};
ghost use Rattle.vv_gate.specs.Tree as tree;
ghost use Rattle.vv_gate_vhdl.specs.Design.{IsSoundGate};
ghost use Rattle.vv_gate_run.specs.Numbered.{numbered_file};
ghost use Rattle.vv_gate_run.specs.declared.order.RunFault.TheVariants.{Endless, Memory};
ghost use Rattle.vv_gate_run.specs.Vhdl.{entry_of};

use crate::flat::{Expr, Flat};
use crate::order::{Order, RunFault, choose};
use crate::vhdl::Entry;
use crate::vhdl::circuit::Circuit;
use std::alloc::{AllocError, Global};
use vv_bits::{V4, abs4, and4, not4, or4, resolve4, xor4};
use vv_gate::tree::{GateFile, Operator};

/// The bits in the order of the objects; of each item its driver, and whether it is pending. No
/// update waits, since each item is a continuous assignment.
#[derive(Debug, Drop)]
pub struct State {
    pub bits: Vec<V4>,
    pub drivers: Vec<V4>,
    pub active: Vec<bool>,
}

/// An object takes a value.
#[derive(Clone, Copy, Debug, PartialEq, Eq)]
pub struct Change {
    pub object: usize,
    pub value: V4,
}

/// A state in which no item is pending, and the numbers of the items that have led to it.
#[derive(Debug, Drop)]
pub struct Settled {
    pub state: State,
    pub items: Vec<usize>,
}

/// The value of an object.
fn bit_at(bits: &[V4], object: usize) -> V4
    ensures { result ≡ equations.at bits.now object }
{
    bits.get(object).copied().unwrap_or(V4::Z)
}

/// The value of an expression.
fn value(expr: &Expr, bits: &[V4]) -> V4
    ensures { result ≡ events.bit_value (expr_of expr.now) bits.now }
{
    match expr {
        Expr::Literal(literal) => *literal,
        Expr::Read(object) => bit_at(bits, *object),
        Expr::Not(operand) => not4(value(operand, bits)),
        Expr::Both(Operator::And, left, right) => and4(value(left, bits), value(right, bits)),
        Expr::Both(Operator::Or, left, right) => or4(value(left, bits), value(right, bits)),
        Expr::Both(Operator::Xor, left, right) => xor4(value(left, bits), value(right, bits)),
    }
}

/// Whether an expression reads the object.
fn reads(expr: &Expr, object: usize) -> bool
    ensures { result ≡ has (vast.reads (expr_of expr.now)) object }
{
    match expr {
        Expr::Literal(_) => false,
        Expr::Read(read) => *read == object,
        Expr::Not(operand) => reads(operand, object),
        Expr::Both(_, left, right) => reads(left, object) || reads(right, object),
    }
}

/// Whether some item drives the object.
fn is_driven(flat: &Flat, object: usize) -> bool
    ensures { result ≡ equations.is_wire (events.events_of (flat_of flat.now)) object }
{
    for item in &flat.items {
        if item.target == object {
            return true;
        }
    }
    false
}

/// An input starts at x, a driven output too, and any other output at z.
fn start_bit(flat: &Flat, number: usize, input: bool) -> V4
    ensures { result ≡ rows.start_bit (events.events_of (flat_of flat.now)) number (events.kind_of (direction_of input)) }
{
    if input || is_driven(flat, number) {
        V4::X
    } else {
        V4::Z
    }
}

fn start_bits(alloc: Global, flat: &Flat) -> Result<Vec<V4>, AllocError>
    ensures { IfOk result (λ v. v.items ≡ rows.start_bits (events.events_of (flat_of flat.now)) 0 (events.declared_of (flat_of flat.now))) }
{
    let mut bits = Vec::new(alloc);
    for (number, object) in flat.objects.iter().enumerate() {
        bits.push(start_bit(flat, number, object.input))?;
    }
    Ok(bits)
}

/// The state at power-on: every item is pending.
pub fn power_on(alloc: Global, flat: &Flat) -> Result<State, AllocError>
    ensures { IfOk result (λ s. state_of s ≡ events.start_of (flat_of flat.now)) }
{
    let bits = start_bits(alloc, flat)?;
    let drivers = vec![in alloc; V4::X; flat.items.len()]?;
    let active = vec![in alloc; true; flat.items.len()]?;
    Ok(State {
        bits,
        drivers,
        active,
    })
}

fn copy(alloc: Global, state: &State) -> Result<State, AllocError>
    ensures { IfOk result (λ s. state_of s ≡ state_of state.now) }
{
    Ok(State {
        bits: Vec::from_slice(alloc, &state.bits)?,
        drivers: Vec::from_slice(alloc, &state.drivers)?,
        active: Vec::from_slice(alloc, &state.active)?,
    })
}

/// Whether the item with this number reads the object.
fn is_woken(flat: &Flat, item: usize, object: usize) -> bool
    ensures { result ≡ is_woken (slice_get (flat_of flat.now).items item) object }
{
    match flat.items.get(item) {
        Some(item) => reads(&item.value, object),
        None => false,
    }
}

/// The flag of an item after the object has changed.
fn woken_flag(flat: &Flat, item: usize, flag: bool, object: usize) -> bool
    ensures { result ≡ (flag || is_woken (slice_get (flat_of flat.now).items item) object) }
{
    flag || is_woken(flat, item, object)
}

/// The flags after the object has changed: the items that read it are pending.
fn woken(
    alloc: Global,
    flat: &Flat,
    active: &[bool],
    object: usize,
) -> Result<Vec<bool>, AllocError>
    ensures { IfOk result (λ v. (old new : V4) → v.items ≡ steps.woken (events.events_of (flat_of flat.now)) object old new active.now) }
{
    let mut flags = Vec::new(alloc);
    for (item, flag) in active.iter().enumerate() {
        flags.push(woken_flag(flat, item, *flag, object))?;
    }
    Ok(flags)
}

/// A copy of the bits, in which the object has this value.
fn with_bit(alloc: Global, bits: &[V4], object: usize, value: V4) -> Result<Vec<V4>, AllocError>
    ensures { IfOk result (λ v. v.items ≡ slice_set bits.now object value) }
{
    let mut all = Vec::from_slice(alloc, bits)?;
    if let Some(old) = all.get_mut(object) {
        *old = value;
    }
    Ok(all)
}

fn is_same(left: V4, right: V4) -> bool
    ensures { result ≡ is4 left right }
{
    left as u8 == right as u8
}

/// The state in which the object has another value.
fn changed(
    alloc: Global,
    flat: &Flat,
    state: &State,
    object: usize,
    value: V4,
) -> Result<State, AllocError>
    ensures { IfOk result (λ s. state_of s ≡ steps.changed (events.events_of (flat_of flat.now)) (state_of state.now) (object, value)) }
{
    Ok(State {
        bits: with_bit(alloc, &state.bits, object, value)?,
        drivers: Vec::from_slice(alloc, &state.drivers)?,
        active: woken(alloc, flat, &state.active, object)?,
    })
}

/// The state in which the object has this value; the same value again is no change.
fn write(
    alloc: Global,
    flat: &Flat,
    state: &State,
    object: usize,
    value: V4,
) -> Result<State, AllocError>
    ensures { IfOk result (λ s. state_of s ≡ steps.write (events.events_of (flat_of flat.now)) (state_of state.now) (object, value)) }
{
    if is_same(bit_at(&state.bits, object), value) {
        return copy(alloc, state);
    }
    changed(alloc, flat, state, object, value)
}

/// The state in which a row has changed its inputs, one after another.
pub fn row(
    alloc: Global,
    flat: &Flat,
    state: &State,
    changes: &[Change],
) -> Result<State, AllocError>
    ensures { IfOk result (λ s. state_of s ≡ events.row_of (flat_of flat.now) (state_of state.now) (map change_of changes.now)) }
{
    let mut written = copy(alloc, state)?;
    for change in changes {
        written = write(alloc, flat, &written, change.object, change.value)?;
    }
    Ok(written)
}

/// Appends what an entry changes.
fn push_change(
    changes: &mut Vec<Change>,
    circuit: &Circuit<'_, '_>,
    entry: Entry,
) -> Result<(), AllocError>
    ensures { OnOk result (map change_of changes.new.items ≡ map change_of changes.old.items ++ seen_input (slice_get (design_of circuit.now).inputs entry.input) (entry.value ∷ [])) }
{
    if let Some(object) = circuit.net_of_input(entry.input) {
        changes.push(Change {
            object,
            value: abs4(entry.value),
        })?;
    }
    Ok(())
}

/// The Verilog row of a VHDL row: the objects of the inputs, with what Verilog sees of the values.
pub fn changes(
    alloc: Global,
    file: &GateFile<'_>,
    entries: &[Entry],
) -> Result<Vec<Change>, AllocError>
    ensures { IfOk result (λ v. map change_of v.items ≡ row4 (file_of file.now) (map entry_of entries.now)) }
{
    let circuit = Circuit::new(alloc, file)?;
    let mut changes = Vec::new(alloc);
    for entry in entries {
        push_change(&mut changes, &circuit, *entry)?;
    }
    Ok(changes)
}

/// Whether the flag at this place is there and set.
fn is_set(flags: &[bool], place: usize) -> bool
    ensures { result ≡ slice_index_or flags.now place false }
{
    flags.get(place).copied().unwrap_or(false)
}

/// Whether the item with this number may act.
pub fn can_step(flat: &Flat, state: &State, item: usize) -> bool
    ensures { IsTrue result ↔ steps.CanStep (events.events_of (flat_of flat.now)) (state_of state.now) (Act item) }
{
    if item >= flat.items.len() {
        return false;
    }
    is_set(&state.active, item)
}

/// The drivers of the object in all items.
fn drivers(alloc: Global, flat: &Flat, values: &[V4], object: usize) -> Result<Vec<V4>, AllocError>
    ensures { IfOk result (λ v. v.items ≡ steps.drivers_of (events.events_of (flat_of flat.now)) (map (λ d. d ∷ []) values.now) object) }
{
    let mut drivers = Vec::new(alloc);
    for (item, value) in flat.items.iter().zip(values) {
        if item.target == object {
            drivers.push(*value)?;
        }
    }
    Ok(drivers)
}

/// The state in which an item has this value as its driver.
fn with_driver(alloc: Global, state: &State, item: usize, value: V4) -> Result<State, AllocError>
    ensures { IfOk result (λ s. state_of s ≡ with_driver (state_of state.now) item value) }
{
    Ok(State {
        bits: Vec::from_slice(alloc, &state.bits)?,
        drivers: with_bit(alloc, &state.drivers, item, value)?,
        active: Vec::from_slice(alloc, &state.active)?,
    })
}

/// The state in which an item is pending no more.
fn rested(state: State, item: usize) -> State
    ensures { state_of result ≡ rested (state_of state) item }
{
    let mut rested = state;
    if let Some(flag) = rested.active.get_mut(item) {
        *flag = false;
    }
    rested
}

/// The item with this number evaluates its expression, and its target takes what its drivers
/// give together.
pub fn step(alloc: Global, flat: &Flat, state: &State, item: usize) -> Result<State, AllocError>
    ensures { IfOk result (λ s. state_of s ≡ steps.step (events.events_of (flat_of flat.now)) (state_of state.now) (Act item)) }
{
    let Some(acting) = flat.items.get(item) else {
        let same = copy(alloc, state)?;
        return Ok(same);
    };
    let driver = value(&acting.value, &state.bits);
    let evaluated = with_driver(alloc, state, item, driver)?;
    let sources = drivers(alloc, flat, &evaluated.drivers, acting.target)?;
    let written = write(alloc, flat, &evaluated, acting.target, resolve4(&sources))?;
    Ok(rested(written, item))
}

/// Looks at this many states at most, and takes a step from each in which an item is pending.
fn run(
    alloc: Global,
    flat: &Flat,
    start: State,
    order: Order,
    most: usize,
) -> Result<Settled, RunFault>
    ensures can { IfOk result (λ r. events.CanTake (flat_of flat.now) (state_of start) (map Act r.items.items)) }
    ensures after { IfOk result (λ r. events.after (flat_of flat.now) (state_of start) (map Act r.items.items) ≡ state_of r.state) }
    ensures quiet { IfOk result (λ r. steps.Quiet (state_of r.state)) }
    ensures ordered { IfOk result (λ r. AllNext order (events.events_of (flat_of flat.now)) (state_of start) (map Act r.items.items)) }
    ensures endless { IfErr result (λ e. e ≡ Endless → HasFlags (flat_of flat.now) (state_of start) → HasSteps (events.events_of (flat_of flat.now)) (state_of start) most) }
{
    let mut state = start;
    let mut items = Vec::new(alloc);
    'steps: for _taken in 0..most {
        let Some(item) = choose(&state.active, order) else {
            return Ok(Settled { state, items });
        };
        if item >= flat.items.len() {
            return Err(RunFault::Endless);
        }
        state = step(alloc, flat, &state, item)?;
        items.push(item)?;
    }
    Err(RunFault::Endless)
}

/// Lets items that are pending act until none is: of those that are, the first or the last one.
/// There are enough steps for each state of the design of a sound file.
pub fn settle(alloc: Global, flat: &Flat, start: State, order: Order) -> Result<Settled, RunFault>
    ensures can { IfOk result (λ r. events.CanTake (flat_of flat.now) (state_of start) (map Act r.items.items)) }
    ensures after { IfOk result (λ r. events.after (flat_of flat.now) (state_of start) (map Act r.items.items) ≡ state_of r.state) }
    ensures quiet { IfOk result (λ r. steps.Quiet (state_of r.state)) }
    ensures ordered { IfOk result (λ r. AllNext order (events.events_of (flat_of flat.now)) (state_of start) (map Act r.items.items)) }
    ensures ends { IfErr result (λ e. (f : tree.GateFile) → IsSoundGate f → flat_of flat.now ≡ numbered_file f → HasFlags (flat_of flat.now) (state_of start) → e ≡ Memory) }
{
    let most = flat.items.len().saturating_add(1).saturating_mul(3);
    run(alloc, flat, start, order, most)
}
