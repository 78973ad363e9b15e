//! The machine that goes by the table.

ghost use Rattle.std.specs.Prelude.{◌≡◌, ◌++◌, ◌∷◌, ◌+◌, ◌<◌, ◌≤◌, [], length, None, IfOk, IfErr, OnOk};
ghost use Rattle.vv_machine.specs.Jumps.{turn_of};
ghost use Rattle.vv_machine.specs.Machine as spec;
ghost use Rattle.vv_grammar.specs.Table as table;

use crate::jumps::Jumps;
use crate::stack::{Pending, Stack};
use std::alloc::{AllocError, AllocFailed, Global};
use vv_base::fault::Memory;
use vv_grammar::edition::Edition;
use vv_grammar::event::Event;
use vv_grammar::form::Form;
use vv_grammar::place::Place;
use vv_grammar::rows::{alternatives, level, otherwise};
use vv_grammar::step::{Alternative, Level, Step, Take};
use vv_grammar::terminal::{Terminal, is_same};

/// Why the machine stopped before all was read.
#[derive(Clone, Copy, Debug, PartialEq, Eq)]
pub enum Stop {
    /// An allocation failed.
    Memory,
    /// No text of the grammar goes on with the token of this number.
    Misplaced(usize),
    /// An expression or a statement that starts at the token of this number is too deep.
    Deep(usize),
}

impl From<Memory> for Stop {
    ghost use Rattle.vv_machine.specs.declared.machine.Stop.TheVariants as stop;

    ghost from_gives = { λ _ e. e ≡ stop.Memory };

    fn from(_memory: Memory) -> Stop {
        Stop::Memory
    }
}

impl<T: Drop> From<AllocFailed<T>> for Stop {
    ghost use Rattle.vv_machine.specs.declared.machine.Stop.TheVariants as stop;

    ghost from_gives = { λ _ e. e ≡ stop.Memory };

    fn from(_failed: AllocFailed<T>) -> Stop {
        Stop::Memory
    }
}

/// How deep expressions and statements may nest.
pub const LEVELS: u32 = 128;

/// A state of the machine.
#[derive(Debug, Drop)]
pub struct State {
    /// What is still to come.
    pub stack: Stack,
    /// The number of the next token.
    pub at: usize,
    /// The first token at which something too deep starts, of what the next token tells.
    pub mark: Option<usize>,
    /// What has happened.
    pub events: Vec<Event>,
}

/// What was read.
#[derive(Debug, Drop)]
pub struct Reading {
    /// What happened, in its order.
    pub events: Vec<Event>,
    /// The number of the token behind it.
    pub at: usize,
}

/// The terminal of the token with this number, if there is one.
fn next_terminal(tokens: &[Terminal], at: usize) -> Option<Terminal>
    ensures { result ≡ spec.next_terminal tokens.now at }
{
    match tokens.get(at) {
        Some(terminal) => Some(*terminal),
        None => None,
    }
}

/// The number of the alternative by which a place goes on at the next token, from 1 on, or 0. Where it is not 0, there is a next token.
fn chosen(jumps: &Jumps, place: Place, tokens: &[Terminal], at: usize) -> usize
    ensures turn { turn_of (table.alternatives jumps.now.edition place) result ≡ spec.chosen jumps.now.edition place (spec.next_terminal tokens.now at) }
    ensures within { 0 < result → at < length tokens.now }
    ensures below { result ≤ length (table.alternatives jumps.now.edition place) }
{
    match tokens.get(at) {
        Some(terminal) => jumps.at(place, *terminal),
        None => 0,
    }
}

/// The alternative of a place with this number.
fn alternative(edition: Edition, place: Place, number: usize) -> &'static Alternative
    requires some { 0 < number }
    requires below { number ≤ length (table.alternatives edition place) }
    ensures { Some (spec.turn result.now.1 result.now.2.now) ≡ turn_of (table.alternatives edition place) number }
{
    &alternatives(edition, place)[number - 1]
}

/// One more round a step. What is too deep is not told apart from what is deeper still, so no more are counted.
fn one_more(count: u32) -> u32
    ensures { result ≡ spec.one_more count }
{
    if LEVELS < count {
        return count;
    }
    count + 1
}

/// The same step with one more expression round it.
fn more_expressions(pending: Pending) -> Pending
    ensures { result ≡ spec.with_expressions pending (spec.one_more pending.expressions) }
{
    Pending {
        step: pending.step,
        expressions: one_more(pending.expressions),
        statements: pending.statements,
        began: pending.began,
    }
}

/// The same step with one more statement round it.
fn more_statements(pending: Pending) -> Pending
    ensures { result ≡ spec.with_statements pending (spec.one_more pending.statements) }
{
    Pending {
        step: pending.step,
        expressions: pending.expressions,
        statements: one_more(pending.statements),
        began: pending.began,
    }
}

/// What is round the steps inside what starts at a place.
fn inside(level: Level, pending: Pending) -> Pending
    ensures { result ≡ spec.inside level pending }
{
    match level {
        Level::Same => pending,
        Level::Expression => more_expressions(pending),
        Level::ExpressionBehind => more_expressions(pending),
        Level::Statement => more_statements(pending),
        Level::StatementBehind => more_statements(pending),
    }
}

/// Whether what starts at a place is one level too deep.
fn is_too_deep(level: Level, pending: Pending) -> bool
    ensures { result ≡ spec.is_too_deep level pending }
{
    match level {
        Level::Same => false,
        Level::Expression => pending.expressions == LEVELS,
        Level::ExpressionBehind => pending.expressions == LEVELS,
        Level::Statement => pending.statements == LEVELS,
        Level::StatementBehind => pending.statements == LEVELS,
    }
}

/// The number of the token at which it starts.
fn starting(level: Level, pending: Pending, at: usize) -> usize
    ensures { result ≡ spec.starting level pending at }
{
    match level {
        Level::Same => at,
        Level::Expression => at,
        Level::ExpressionBehind => pending.began,
        Level::Statement => at,
        Level::StatementBehind => pending.began,
    }
}

/// The earlier one of a mark and a token.
fn earlier(mark: Option<usize>, token: usize) -> usize
    ensures { result ≡ spec.earlier mark token }
{
    match mark {
        Some(marked) => {
            if marked < token {
                return marked;
            }
            token
        }
        None => token,
    }
}

/// The mark behind the start of a place.
fn marked(level: Level, pending: Pending, at: usize, mark: Option<usize>) -> Option<usize>
    ensures { result ≡ spec.marked level pending at mark }
{
    if is_too_deep(level, pending) {
        return Some(earlier(mark, starting(level, pending, at)));
    }
    mark
}

/// Takes the next token.
fn pass(state: &mut State, tokens: &[Terminal], event: Event) -> Result<(), Stop>
    requires { state.old.at < length tokens.now }
    ensures stack { state.new.stack ≡ state.old.stack }
    ensures mark { state.new.mark ≡ state.old.mark }
    ensures at { OnOk result (state.new.at ≡ state.old.at + 1) }
    ensures events { OnOk result (state.new.events.items ≡ state.old.events.items ++ event ∷ []) }
    ensures err { IfErr result (λ s. s ≡ Stop.Memory) }
{
    state.events.push(event)?;
    state.at += 1;
    Ok(())
}

/// Takes the next token or not, and its steps are to come.
fn take(
    state: &mut State,
    tokens: &[Terminal],
    take: Take,
    steps: &[Step],
    around: Pending,
) -> Result<(), Stop>
    requires { state.old.at < length tokens.now }
    ensures ok { OnOk result (spec.Advanced state.old state.new (spec.taking take state.old.at steps.now around state.old.stack state.old.mark)) }
    ensures err { IfErr result (λ s. s ≡ Stop.Memory) }
{
    let inner = Pending {
        step: around.step,
        expressions: around.expressions,
        statements: around.statements,
        began: state.at,
    };
    match take {
        Take::Keep => {
            pass(state, tokens, Event::Keep)?;
            Ok(state.stack.push_steps(steps, inner)?)
        }
        Take::Skip => {
            pass(state, tokens, Event::Skip)?;
            Ok(state.stack.push_steps(steps, inner)?)
        }
        Take::Look => Ok(state.stack.push_steps(steps, around)?),
    }
}

/// Goes on at a place by an alternative.
fn turn_at(
    state: &mut State,
    tokens: &[Terminal],
    place: Place,
    turn: &Alternative,
    pending: Pending,
) -> Result<(), Stop>
    requires { state.old.at < length tokens.now }
    ensures ok { OnOk result (spec.Advanced state.old state.new (spec.turning place (spec.turn turn.now.1 turn.now.2.now) pending state.old.at state.old.stack state.old.mark)) }
    ensures err { IfErr result (λ s. s ≡ Stop.Memory) }
{
    let level = level(place);
    state.mark = marked(level, pending, state.at, state.mark);
    take(state, tokens, turn.1, turn.2, inside(level, pending))
}

/// Takes the next token, which has to be this one.
fn token(state: &mut State, tokens: &[Terminal], event: Event, wanted: Terminal) -> Result<(), Stop>
    ensures ok { OnOk result (spec.Advanced state.old state.new (spec.token event wanted (spec.next_terminal tokens.now state.old.at) state.old.at state.old.stack state.old.mark)) }
    ensures err { IfErr result (λ s. spec.IsFailure s state.old.at (spec.token event wanted (spec.next_terminal tokens.now state.old.at) state.old.at state.old.stack state.old.mark)) }
{
    match next_terminal(tokens, state.at) {
        Some(found) => {
            if is_same(wanted, found) {
                return pass(state, tokens, event);
            }
            Err(Stop::Misplaced(state.at))
        }
        None => Err(Stop::Misplaced(state.at)),
    }
}

/// What a place admits at the next token.
fn call(
    jumps: &Jumps,
    tokens: &[Terminal],
    state: &mut State,
    place: Place,
    pending: Pending,
) -> Result<(), Stop>
    ensures ok { OnOk result (spec.Advanced state.old state.new (spec.called (spec.chosen jumps.now.edition place (spec.next_terminal tokens.now state.old.at)) (table.otherwise place) place pending state.old.at state.old.stack state.old.mark)) }
    ensures err { IfErr result (λ s. spec.IsFailure s state.old.at (spec.called (spec.chosen jumps.now.edition place (spec.next_terminal tokens.now state.old.at)) (table.otherwise place) place pending state.old.at state.old.stack state.old.mark)) }
{
    match chosen(jumps, place, tokens, state.at) {
        0 => match otherwise(place) {
            Some(steps) => Ok(state.stack.push_steps(steps, pending)?),
            None => Err(Stop::Misplaced(state.at)),
        },
        number => {
            let turn = alternative(jumps.edition, place, number);
            turn_at(state, tokens, place, turn, pending)
        }
    }
}

/// Whether the token that chooses an alternative is taken.
fn takes(take: Take) -> bool
    ensures { result ≡ spec.takes take }
{
    match take {
        Take::Keep => true,
        Take::Skip => true,
        Take::Look => false,
    }
}

/// What a place admits at the next token once more, or nothing.
fn repeat(
    jumps: &Jumps,
    tokens: &[Terminal],
    state: &mut State,
    place: Place,
    pending: Pending,
) -> Result<(), Stop>
    ensures ok { OnOk result (spec.Advanced state.old state.new (spec.repeated (spec.as_part (spec.chosen jumps.now.edition place (spec.next_terminal tokens.now state.old.at))) place pending state.old.at state.old.stack state.old.mark)) }
    ensures err { IfErr result (λ s. spec.IsFailure s state.old.at (spec.repeated (spec.as_part (spec.chosen jumps.now.edition place (spec.next_terminal tokens.now state.old.at))) place pending state.old.at state.old.stack state.old.mark)) }
{
    match chosen(jumps, place, tokens, state.at) {
        0 => Ok(()),
        number => {
            let turn = alternative(jumps.edition, place, number);
            if !takes(turn.1) {
                return Ok(());
            }
            state.stack.push(pending)?;
            state.stack.push(Pending {
                step: Step::Make(Form::Add),
                expressions: pending.expressions,
                statements: pending.statements,
                began: pending.began,
            })?;
            turn_at(state, tokens, place, turn, pending)
        }
    }
}

/// One step of what is to come.
fn advance(
    jumps: &Jumps,
    tokens: &[Terminal],
    state: &mut State,
    pending: Pending,
) -> Result<(), Stop>
    ensures ok { OnOk result (spec.Advanced state.old state.new (spec.advance jumps.now.edition tokens.now (pending ∷ state.old.stack) state.old.at state.old.mark)) }
    ensures err { IfErr result (λ s. spec.IsFailure s state.old.at (spec.advance jumps.now.edition tokens.now (pending ∷ state.old.stack) state.old.at state.old.mark)) }
{
    match pending.step {
        Step::Call(place) => call(jumps, tokens, state, place, pending),
        Step::Many(place) => repeat(jumps, tokens, state, place, pending),
        Step::Skip(wanted) => token(state, tokens, Event::Skip, wanted),
        Step::Keep(wanted) => token(state, tokens, Event::Keep, wanted),
        Step::Make(form) => Ok(state.events.push(Event::Make(form))?),
    }
}

/// The machine stops where a token is taken with which something is too deep.
fn settle(mark: Option<usize>, before: usize, at: usize) -> Result<(), Stop>
    ensures ok { OnOk result (spec.IsUnsettled mark before at) }
    ensures err { IfErr result (λ s. spec.IsSettled s mark before at) }
{
    match mark {
        Some(start) => {
            if at == before {
                return Ok(());
            }
            Err(Stop::Deep(start))
        }
        None => Ok(()),
    }
}

/// One move.
fn make_move(
    jumps: &Jumps,
    tokens: &[Terminal],
    state: &mut State,
    pending: Pending,
) -> Result<(), Stop>
    ensures ok { OnOk result (spec.Moved state.old state.new (spec.move jumps.now.edition tokens.now (pending ∷ state.old.stack) state.old.at state.old.mark)) }
    ensures err { IfErr result (λ s. spec.IsStop s state.old.at (spec.move jumps.now.edition tokens.now (pending ∷ state.old.stack) state.old.at state.old.mark)) }
{
    let before = state.at;
    advance(jumps, tokens, state, pending)?;
    settle(state.mark, before, state.at)
}

/// A state before these steps, with nothing round them.
fn begin(alloc: Global, steps: &[Step], at: usize) -> Result<State, Stop>
    ensures ok { IfOk result (λ s. (s.stack ≡ spec.starting_with steps.now at) × (s.at ≡ at) × (s.mark ≡ None) × (s.events.items ≡ [])) }
    ensures err { IfErr result (λ s. s ≡ Stop.Memory) }
{
    let mut stack = Stack::new(alloc);
    let around = Pending {
        step: Step::Make(Form::Empty),
        expressions: 0,
        statements: 0,
        began: at,
    };
    stack.push_steps(steps, around)?;
    Ok(State {
        stack,
        at,
        mark: None,
        events: Vec::new(alloc),
    })
}

/// Goes through these steps from a token on, with nothing round them. Of the tokens the terminals are handed in.
pub fn run(
    alloc: Global,
    edition: Edition,
    steps: &[Step],
    tokens: &[Terminal],
    at: usize,
) -> Result<Reading, Stop>
    ensures read { IfOk result (λ r. spec.Leads edition tokens.now (spec.starting_with steps.now at) at r.events.items [] r.at None) }
    ensures outcome { IfOk result (λ r. spec.outcome edition tokens.now (spec.starting_with steps.now at) at ≡ spec.reads r.events.items r.at) }
    ensures stopped { IfErr result (λ s. spec.IsOutcome s (spec.outcome edition tokens.now (spec.starting_with steps.now at) at)) }
    ensures halts { IfErr result (λ s. spec.Stops edition tokens.now (spec.starting_with steps.now at) at s) }
{
    let jumps = Jumps::new(alloc, edition)?;
    let mut state = begin(alloc, steps, at)?;
    'moves: while let Some(pending) = state.stack.pop() {
        make_move(&jumps, tokens, &mut state, pending)?;
    }
    match state.mark {
        Some(start) => Err(Stop::Deep(start)),
        None => Ok(Reading {
            events: state.events,
            at: state.at,
        }),
    }
}
