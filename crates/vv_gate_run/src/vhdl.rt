//! The VHDL side: the ports are the nets, and each assignment is a process.
ghost use Rattle.std.specs.Prelude.{◌≡◌, ◌↔◌, map, Some, IfOk, IsTrue, IfErr, IfSome, MatchOption, slice_set};
ghost use Rattle.vv_cycle.specs.Rows as rows;
ghost use Rattle.vv_cycle.specs.Turns as turns;
ghost use Rattle.vv_gate.specs.View.{file_of};
ghost use Rattle.vv_gate_run.specs.declared.order.RunFault.TheVariants.{Endless, Memory};
ghost use Rattle.vv_gate_vhdl.specs.Design.{gate_design, IsSoundGate};
ghost use Rattle.vv_gate_run.specs.Circuit.{design_of};
ghost use Rattle.vv_gate_run.specs.Vhdl.{part_of, state_of, turn_of, entry_of, HasTurns, IsNext, AllNext};

pub(crate) mod circuit;
mod signals;
mod values;

use crate::order::{Order, RunFault, choose};
use crate::vhdl::circuit::Circuit;
use crate::vhdl::signals::{any_true, changes, no_events};
use crate::vhdl::values::assigned_value;
use std::alloc::{AllocError, Global};
use vv_bits::S9;
use vv_gate::tree::GateFile;

/// The nets of a state.
#[derive(Debug, Drop)]
pub struct Nets {
    pub values: Vec<S9>,
    /// The values before the last change.
    pub before: Vec<S9>,
    /// Of each net, whether it had an event in the last change.
    pub events: Vec<bool>,
}

/// What the process of an assignment owns.
#[derive(Clone, Copy, Debug, PartialEq, Eq)]
pub struct Part {
    /// It is to run.
    pub ready: bool,
    /// The value that it drives its target with.
    pub driver: S9,
}

/// The nets in the order of the ports, and the parts in the order of the assignments.
#[derive(Debug, Drop)]
pub struct State {
    pub nets: Nets,
    pub parts: Vec<Part>,
}

#[derive(Clone, Copy, Debug, PartialEq, Eq)]
pub enum Turn {
    /// The process with this number runs.
    Resume(usize),
    /// The nets take the values of their sources.
    Update,
}

/// A new value for an input; inputs are numbered in the order of the in ports.
#[derive(Clone, Copy, Debug, PartialEq, Eq)]
pub struct Entry {
    pub input: usize,
    pub value: S9,
}

/// A settled state, and the turns that have led to it.
#[derive(Debug, Drop)]
pub struct Settled {
    pub state: State,
    pub turns: Vec<Turn>,
}

/// The nets take these values at once.
fn moved(
    alloc: Global,
    circuit: &Circuit<'_, '_>,
    state: &State,
    values: Vec<S9>,
) -> Result<State, AllocError>
    ensures { IfOk result (λ s. state_of s ≡ turns.moved (design_of circuit.now) (state_of state.now) values.items) }
{
    let events = changes(alloc, &state.nets.values, &values)?;
    let parts = circuit.readied(alloc, &state.parts, &events)?;
    let nets = Nets {
        values,
        before: Vec::from_slice(alloc, &state.nets.values)?,
        events,
    };
    Ok(State { nets, parts })
}

/// The values that the nets get from their sources.
fn new_values(
    alloc: Global,
    circuit: &Circuit<'_, '_>,
    state: &State,
) -> Result<Vec<S9>, AllocError>
    ensures { IfOk result (λ v. v.items ≡ turns.new_values (design_of circuit.now) (state_of state.now)) }
{
    circuit.resolutions(alloc, &state.parts, &state.nets.values)
}

/// Whether some net differs from what it gets from its sources.
fn differs(alloc: Global, circuit: &Circuit<'_, '_>, state: &State) -> Result<bool, AllocError>
    ensures { IfOk result (λ b. b ≡ turns.differs (design_of circuit.now) (state_of state.now)) }
{
    let values = new_values(alloc, circuit, state)?;
    let changes = changes(alloc, &state.nets.values, &values)?;
    Ok(any_true(&changes))
}

/// A copy of the parts, in which the part with this number is another one.
fn with_part(
    alloc: Global,
    parts: &[Part],
    place: usize,
    part: Part,
) -> Result<Vec<Part>, AllocError>
    ensures { IfOk result (λ v. v.items ≡ slice_set parts.now place part) }
{
    let mut all = Vec::from_slice(alloc, parts)?;
    if let Some(old) = all.get_mut(place) {
        *old = part;
    }
    Ok(all)
}

/// A copy of a state with other parts.
fn with_parts(alloc: Global, state: &State, parts: Vec<Part>) -> Result<State, AllocError>
    ensures { IfOk result (λ s. state_of s ≡ record { nets = (state_of state.now).nets; parts = map part_of parts.items }) }
{
    let nets = Nets {
        values: Vec::from_slice(alloc, &state.nets.values)?,
        before: Vec::from_slice(alloc, &state.nets.before)?,
        events: Vec::from_slice(alloc, &state.nets.events)?,
    };
    Ok(State { nets, parts })
}

/// The parts after a process has run: it is ready no more.
fn resumed_parts(
    alloc: Global,
    circuit: &Circuit<'_, '_>,
    state: &State,
    process: usize,
) -> Result<Vec<Part>, AllocError>
    ensures { IfOk result (λ v. turns.resume (design_of circuit.now) (state_of state.now) process ≡ Some (record { nets = (state_of state.now).nets; parts = map part_of v.items })) }
{
    let Some(assignment) = circuit.assignments.get(process) else {
        return Vec::from_slice(alloc, &state.parts);
    };
    let driver = assigned_value(&circuit.ports, assignment, &state.nets.values);
    let part = Part {
        ready: false,
        driver,
    };
    let parts = with_part(alloc, &state.parts, process, part)?;
    Ok(parts)
}

/// A process runs.
fn resume(
    alloc: Global,
    circuit: &Circuit<'_, '_>,
    state: &State,
    process: usize,
) -> Result<State, AllocError>
    ensures { IfOk result (λ s. turns.resume (design_of circuit.now) (state_of state.now) process ≡ Some (state_of s)) }
{
    let parts = resumed_parts(alloc, circuit, state, process)?;
    with_parts(alloc, state, parts)
}

/// Whether some process is to run.
fn any_ready(parts: &[Part]) -> bool
    ensures { result ≡ turns.any_ready (map part_of parts.now) }
{
    for part in parts {
        if part.ready {
            return true;
        }
    }
    false
}

/// Of each part, whether its process is to run.
fn ready_flags(alloc: Global, parts: &[Part]) -> Result<Vec<bool>, AllocError>
    ensures { IfOk result (λ v. v.items ≡ map (λ p. p.ready) parts.now) }
{
    parts.iter().map(|part| part.ready).collect(alloc)
}

/// A turn that is possible, or none where the state is settled.
fn next_turn(
    alloc: Global,
    circuit: &Circuit<'_, '_>,
    state: &State,
    order: Order,
) -> Result<Option<Turn>, AllocError>
    ensures can { IfOk result (λ next. MatchOption next (turns.IsSettled (design_of circuit.now) (state_of state.now)) (λ t. turns.CanTurn (design_of circuit.now) (state_of state.now) (turn_of t))) }
    ensures chosen { IfOk result (λ next. IfSome next (λ t. IsNext order (state_of state.now) (turn_of t))) }
{
    let ready = ready_flags(alloc, &state.parts)?;
    if let Some(process) = choose(&ready, order) {
        return Ok(Some(Turn::Resume(process)));
    }
    if differs(alloc, circuit, state)? {
        return Ok(Some(Turn::Update));
    }
    Ok(None)
}

/// The state after a turn.
fn after_turn(
    alloc: Global,
    circuit: &Circuit<'_, '_>,
    state: &State,
    turn: Turn,
) -> Result<State, AllocError>
    ensures { IfOk result (λ s. turns.turn (design_of circuit.now) (state_of state.now) (turn_of turn) ≡ Some (state_of s)) }
{
    match turn {
        Turn::Resume(process) => resume(alloc, circuit, state, process),
        Turn::Update => {
            let values = new_values(alloc, circuit, state)?;
            moved(alloc, circuit, state, values)
        }
    }
}

/// The state at power-on.
pub fn power_on(alloc: Global, file: &GateFile<'_>) -> Result<State, AllocError>
    ensures { IfOk result (λ s. state_of s ≡ rows.power_on (gate_design (file_of file.now))) }
{
    let circuit = Circuit::new(alloc, file)?;
    let parts = circuit.first_parts(alloc)?;
    let initial = circuit.initial(alloc)?;
    let values = circuit.resolutions(alloc, &parts, &initial)?;
    let nets = Nets {
        before: Vec::from_slice(alloc, &values)?,
        events: no_events(alloc, &values)?,
        values,
    };
    Ok(State { nets, parts })
}

/// The state in which a row has changed its inputs.
pub fn row(
    alloc: Global,
    file: &GateFile<'_>,
    state: &State,
    entries: &[Entry],
) -> Result<State, AllocError>
    ensures { IfOk result (λ s. state_of s ≡ rows.row (gate_design (file_of file.now)) (state_of state.now) (map entry_of entries.now)) }
{
    let circuit = Circuit::new(alloc, file)?;
    let values = circuit.entered(alloc, &state.nets.values, entries)?;
    moved(alloc, &circuit, state, values)
}

/// Whether a turn is possible.
pub fn can_turn(
    alloc: Global,
    file: &GateFile<'_>,
    state: &State,
    turn: Turn,
) -> Result<bool, AllocError>
    ensures { IfOk result (λ b. IsTrue b ↔ turns.CanTurn (gate_design (file_of file.now)) (state_of state.now) (turn_of turn)) }
{
    match turn {
        Turn::Resume(process) => Ok(state.parts.get(process).is_some_and(|part| part.ready)),
        Turn::Update => {
            if any_ready(&state.parts) {
                return Ok(false);
            }
            let circuit = Circuit::new(alloc, file)?;
            differs(alloc, &circuit, state)
        }
    }
}

/// The state after a turn. A process of a file of gates meets no range error.
pub fn take(
    alloc: Global,
    file: &GateFile<'_>,
    state: &State,
    turn: Turn,
) -> Result<State, AllocError>
    ensures { IfOk result (λ s. turns.turn (gate_design (file_of file.now)) (state_of state.now) (turn_of turn) ≡ Some (state_of s)) }
{
    let circuit = Circuit::new(alloc, file)?;
    after_turn(alloc, &circuit, state, turn)
}

/// Looks at this many states at most, and takes a turn from each that is not settled.
fn run(
    alloc: Global,
    circuit: &Circuit<'_, '_>,
    start: State,
    order: Order,
    most: usize,
) -> Result<Settled, RunFault>
    ensures can { IfOk result (λ r. turns.CanTurns (design_of circuit.now) (Some (state_of start)) (map turn_of r.turns.items)) }
    ensures after { IfOk result (λ r. turns.after_turns (design_of circuit.now) (Some (state_of start)) (map turn_of r.turns.items) ≡ Some (state_of r.state)) }
    ensures settled { IfOk result (λ r. turns.IsSettled (design_of circuit.now) (state_of r.state)) }
    ensures ordered { IfOk result (λ r. AllNext order (design_of circuit.now) (Some (state_of start)) (map turn_of r.turns.items)) }
    ensures endless { IfErr result (λ e. e ≡ Endless → HasTurns (design_of circuit.now) (state_of start) most) }
{
    let mut state = start;
    let mut turns = Vec::new(alloc);
    'turns: for _taken in 0..most {
        let Some(turn) = next_turn(alloc, circuit, &state, order)? else {
            return Ok(Settled { state, turns });
        };
        state = after_turn(alloc, circuit, &state, turn)?;
        turns.push(turn)?;
    }
    Err(RunFault::Endless)
}

/// Takes turns until the state is settled: of the processes that are ready, the first or the last
/// one runs, and the nets are updated where none is. There are enough turns for each state that
/// comes up when a sound file is run over lawful rows.
pub fn settle(
    alloc: Global,
    file: &GateFile<'_>,
    start: State,
    order: Order,
) -> Result<Settled, RunFault>
    ensures can { IfOk result (λ r. turns.CanTurns (gate_design (file_of file.now)) (Some (state_of start)) (map turn_of r.turns.items)) }
    ensures after { IfOk result (λ r. turns.after_turns (gate_design (file_of file.now)) (Some (state_of start)) (map turn_of r.turns.items) ≡ Some (state_of r.state)) }
    ensures settled { IfOk result (λ r. turns.IsSettled (gate_design (file_of file.now)) (state_of r.state)) }
    ensures ordered { IfOk result (λ r. AllNext order (gate_design (file_of file.now)) (Some (state_of start)) (map turn_of r.turns.items)) }
    ensures ends { IfErr result (λ e. IsSoundGate (file_of file.now) → rows.InRun (gate_design (file_of file.now)) (state_of start) → e ≡ Memory) }
{
    let circuit = Circuit::new(alloc, file)?;
    let most = file.assignments.len().saturating_add(1).saturating_mul(3);
    run(alloc, &circuit, start, order, most.saturating_add(1))
}
