//! The grammar as a machine: what one token makes of a place.

ghost use Rattle.std.specs.Prelude.{◌≡◌, ℕ, [], ◌∷◌, length, option_map, MatchResult, IfErr};
ghost use Rattle.vv_gate.specs.View.{ident_of, group_of, file_of, term_of, assignment_of};
ghost use Rattle.vv_gate_lex.specs.Symbols.{token_of, is_mark};
ghost use Rattle.vv_gate_read.specs.Machine as machine;
ghost use Rattle.vv_gate_read.specs.Places.{Takes, context_of, read_ports, chain_of, place_of, state_of};
ghost use Rattle.vv_gate_read.specs.Ends.{Ends};
ghost use Rattle.vv_gate_read.specs.Reading.{IsAnswer, IsWithin};
ghost use Rattle.vv_gate_lex.specs.Lexical.{tokens_of};
ghost use Rattle.vv_gate_lex.specs.Lexical.{tokens};

use crate::places::{Chain, Context, Place, Ports, State, Stop};
use std::alloc::Global;
use std::mem;
use vv_gate::token::{Mark, Symbol, Token};
use vv_gate::tree::{Assignment, GateFile, Group, Ident, Operand, Operator, Term};
use vv_gate_lex::lexer::next;

const START: [Mark; 6] = [
    Mark::Library,
    Mark::Ieee,
    Mark::Semicolon,
    Mark::Use,
    Mark::Ieee,
    Mark::Dot,
];

const NOTHING: [Mark; 0] = [];

const PACKAGE_END: [Mark; 3] = [Mark::Dot, Mark::All, Mark::Semicolon];

const USE: [Mark; 2] = [Mark::Ieee, Mark::Dot];

const LAST_PACKAGE_END: [Mark; 4] = [Mark::Dot, Mark::All, Mark::Semicolon, Mark::Entity];

const PORT_CLAUSE: [Mark; 3] = [Mark::Is, Mark::Port, Mark::Open];

const TYPE: [Mark; 1] = [Mark::StdLogic];

const ENTITY_END: [Mark; 4] = [
    Mark::Semicolon,
    Mark::End,
    Mark::Semicolon,
    Mark::Architecture,
];

const OF: [Mark; 1] = [Mark::Of];

const BODY: [Mark; 2] = [Mark::Is, Mark::Begin];

const ARROW: [Mark; 1] = [Mark::Arrow];

const LAST: [Mark; 1] = [Mark::Semicolon];

/// A chain has at most this many terms before its last one.
const MOST_TERMS_BEFORE: usize = 63;

fn wait<'a>(expected: &'a [Mark], place: Place<'a>) -> Result<State<'a>, Stop>
    ensures { Takes (machine.wait expected.entry.now (place_of place.entry)) result }
{
    Ok(State { expected, place })
}

/// Whether the token is this word or sign.
fn is(token: Token<'_>, mark: Mark) -> bool
    ensures { result ≡ is_mark mark (token_of token.entry).symbol }
{
    match token.symbol {
        Symbol::Name(_) => false,
        Symbol::Mark(found) => found as u8 == mark as u8,
        Symbol::Other(_) => false,
    }
}

fn at_logic<'a>(token: Token<'a>) -> Result<State<'a>, Stop>
    ensures { Takes (machine.choose machine.at_logic (token_of token.entry).symbol) result }
{
    match token.symbol {
        Symbol::Name(text) => {
            if text != b"std_logic_1164".as_slice() {
                return Err(Stop::Misplaced);
            }
            let logic = Ident { text, at: token.at };
            wait(&PACKAGE_END, Place::AfterLogic(logic))
        }
        Symbol::Mark(_) => Err(Stop::Misplaced),
        Symbol::Other(_) => Err(Stop::Misplaced),
    }
}

fn after_logic<'a>(logic: Ident<'a>, token: Token<'a>) -> Result<State<'a>, Stop>
    ensures { Takes (machine.choose (machine.after_logic (ident_of logic.entry)) (token_of token.entry).symbol) result }
{
    if is(token, Mark::Use) {
        return wait(&USE, Place::Numeric(logic));
    }
    if is(token, Mark::Entity) {
        let context = Context {
            logic,
            numeric: None,
        };
        return wait(&NOTHING, Place::Entity(context));
    }
    Err(Stop::Misplaced)
}

fn at_numeric<'a>(logic: Ident<'a>, token: Token<'a>) -> Result<State<'a>, Stop>
    ensures { Takes (machine.choose (machine.at_numeric (ident_of logic.entry)) (token_of token.entry).symbol) result }
{
    match token.symbol {
        Symbol::Name(text) => {
            if text != b"numeric_std".as_slice() {
                return Err(Stop::Misplaced);
            }
            let numeric = Some(Ident { text, at: token.at });
            wait(&LAST_PACKAGE_END, Place::Entity(Context { logic, numeric }))
        }
        Symbol::Mark(_) => Err(Stop::Misplaced),
        Symbol::Other(_) => Err(Stop::Misplaced),
    }
}

fn at_entity<'a>(alloc: Global, context: Context<'a>, token: Token<'a>) -> Result<State<'a>, Stop>
    ensures { Takes (machine.choose (machine.at_entity (context_of context.entry)) (token_of token.entry).symbol) result }
{
    match token.symbol {
        Symbol::Name(text) => {
            let ports = Ports {
                context,
                entity: Ident { text, at: token.at },
                groups: Vec::new(alloc),
                idents: Vec::new(alloc),
            };
            match Box::new(alloc, ports) {
                Ok(ports) => wait(&PORT_CLAUSE, Place::Port(ports)),
                Err(_) => Err(Stop::Memory),
            }
        }
        Symbol::Mark(_) => Err(Stop::Misplaced),
        Symbol::Other(_) => Err(Stop::Misplaced),
    }
}

fn at_port<'a>(ports: Box<Ports<'a>>, token: Token<'a>) -> Result<State<'a>, Stop>
    ensures { Takes (machine.choose (machine.at_port (read_ports ports.entry)) (token_of token.entry).symbol) result }
{
    match token.symbol {
        Symbol::Name(text) => {
            let ident = Ident { text, at: token.at };
            wait(&NOTHING, Place::AfterPort(ports, ident))
        }
        Symbol::Mark(_) => Err(Stop::Misplaced),
        Symbol::Other(_) => Err(Stop::Misplaced),
    }
}

/// The ports with one more name in their last group.
fn with_ident<'a>(ports: Box<Ports<'a>>, ident: Ident<'a>) -> Result<Box<Ports<'a>>, Stop>
    ensures { MatchResult result (λ p. read_ports p ≡ machine.with_ident (read_ports ports.entry) (ident_of ident.entry)) (λ e. e ≡ Stop.Memory) }
{
    let mut ports = ports;
    match ports.idents.push(ident) {
        Ok(()) => Ok(ports),
        Err(_) => Err(Stop::Memory),
    }
}

fn after_port<'a>(
    ports: Box<Ports<'a>>,
    ident: Ident<'a>,
    token: Token<'a>,
) -> Result<State<'a>, Stop>
    ensures { Takes (machine.choose (machine.after_port (read_ports ports.entry) (ident_of ident.entry)) (token_of token.entry).symbol) result }
{
    if is(token, Mark::Comma) {
        return match with_ident(ports, ident) {
            Ok(ports) => wait(&NOTHING, Place::Port(ports)),
            Err(_) => Err(Stop::Memory),
        };
    }
    if is(token, Mark::Colon) {
        return wait(&NOTHING, Place::Mode(ports, ident));
    }
    Err(Stop::Misplaced)
}

/// The last group with its last name and its direction.
fn close_group<'a>(
    alloc: Global,
    ports: Box<Ports<'a>>,
    ident: Ident<'a>,
    input: bool,
) -> Result<(Box<Ports<'a>>, Group<'a>), Stop>
    ensures { MatchResult result (λ r. (read_ports r.0 ≡ machine.no_idents (read_ports ports.entry)) × (group_of r.1 ≡ machine.group_with (read_ports ports.entry) (ident_of ident.entry) input)) (λ e. e ≡ Stop.Memory) }
{
    let mut ports = ports;
    if ports.idents.push(ident).is_err() {
        return Err(Stop::Memory);
    }
    let idents = mem::replace(&mut ports.idents, Vec::new(alloc));
    Ok((ports, Group { idents, input }))
}

fn with_mode<'a>(
    alloc: Global,
    ports: Box<Ports<'a>>,
    ident: Ident<'a>,
    input: bool,
) -> Result<State<'a>, Stop>
    ensures { Takes (machine.after_mode (read_ports ports.entry) (ident_of ident.entry) input) result }
{
    match close_group(alloc, ports, ident, input) {
        Ok((ports, group)) => wait(&TYPE, Place::AfterGroup(ports, group)),
        Err(_) => Err(Stop::Memory),
    }
}

fn at_mode<'a>(
    alloc: Global,
    ports: Box<Ports<'a>>,
    ident: Ident<'a>,
    token: Token<'a>,
) -> Result<State<'a>, Stop>
    ensures { Takes (machine.choose (machine.at_mode (read_ports ports.entry) (ident_of ident.entry)) (token_of token.entry).symbol) result }
{
    if is(token, Mark::In) {
        return with_mode(alloc, ports, ident, true);
    }
    if is(token, Mark::Out) {
        return with_mode(alloc, ports, ident, false);
    }
    Err(Stop::Misplaced)
}

/// The ports with one more group.
fn with_group<'a>(ports: Box<Ports<'a>>, group: Group<'a>) -> Result<Box<Ports<'a>>, Stop>
    ensures { MatchResult result (λ p. read_ports p ≡ machine.with_group (read_ports ports.entry) (group_of group.entry)) (λ e. e ≡ Stop.Memory) }
{
    let mut ports = ports;
    match ports.groups.push(group) {
        Ok(()) => Ok(ports),
        Err(_) => Err(Stop::Memory),
    }
}

fn after_group<'a>(
    ports: Box<Ports<'a>>,
    group: Group<'a>,
    token: Token<'a>,
) -> Result<State<'a>, Stop>
    ensures { Takes (machine.choose (machine.after_group (read_ports ports.entry) (group_of group.entry)) (token_of token.entry).symbol) result }
{
    if is(token, Mark::Semicolon) {
        return match with_group(ports, group) {
            Ok(ports) => wait(&NOTHING, Place::Port(ports)),
            Err(_) => Err(Stop::Memory),
        };
    }
    if is(token, Mark::Close) {
        return match with_group(ports, group) {
            Ok(ports) => wait(&ENTITY_END, Place::Architecture(ports)),
            Err(_) => Err(Stop::Memory),
        };
    }
    Err(Stop::Misplaced)
}

fn at_architecture<'a>(ports: Box<Ports<'a>>, token: Token<'a>) -> Result<State<'a>, Stop>
    ensures { Takes (machine.choose (machine.at_architecture (read_ports ports.entry)) (token_of token.entry).symbol) result }
{
    match token.symbol {
        Symbol::Name(text) => {
            let ident = Ident { text, at: token.at };
            wait(&OF, Place::Of(ports, ident))
        }
        Symbol::Mark(_) => Err(Stop::Misplaced),
        Symbol::Other(_) => Err(Stop::Misplaced),
    }
}

fn at_of<'a>(
    alloc: Global,
    ports: Box<Ports<'a>>,
    architecture: Ident<'a>,
    token: Token<'a>,
) -> Result<State<'a>, Stop>
    ensures { Takes (machine.choose (machine.at_of (read_ports ports.entry) (ident_of architecture.entry)) (token_of token.entry).symbol) result }
{
    match token.symbol {
        Symbol::Name(text) => {
            let ports = Box::into_inner(ports);
            let file = GateFile {
                logic: ports.context.logic,
                numeric: ports.context.numeric,
                entity: ports.entity,
                groups: ports.groups,
                architecture,
                of: Ident { text, at: token.at },
                assignments: Vec::new(alloc),
            };
            match Box::new(alloc, file) {
                Ok(file) => wait(&BODY, Place::Statement(file)),
                Err(_) => Err(Stop::Memory),
            }
        }
        Symbol::Mark(_) => Err(Stop::Misplaced),
        Symbol::Other(_) => Err(Stop::Misplaced),
    }
}

fn at_statement<'a>(
    alloc: Global,
    file: Box<GateFile<'a>>,
    token: Token<'a>,
) -> Result<State<'a>, Stop>
    ensures { Takes (machine.choose (machine.at_statement (file_of file.entry.value)) (token_of token.entry).symbol) result }
{
    if is(token, Mark::End) {
        return wait(&LAST, Place::Finish(file));
    }
    match token.symbol {
        Symbol::Name(text) => {
            // A Vec makes room for four terms at its first push, and the most memory goes to chains of one.
            let Ok(terms) = Vec::with_capacity(alloc, 1) else {
                return Err(Stop::Memory);
            };
            let chain = Chain {
                file,
                target: Ident { text, at: token.at },
                operator: None,
                terms,
            };
            wait(&ARROW, Place::Term(chain))
        }
        Symbol::Mark(_) => Err(Stop::Misplaced),
        Symbol::Other(_) => Err(Stop::Misplaced),
    }
}

fn operand_from<'a>(chain: Chain<'a>, negated: bool, token: Token<'a>) -> Result<State<'a>, Stop>
    ensures { Takes (machine.operand_from (chain_of chain.entry) negated (token_of token.entry).symbol) result }
{
    if is(token, Mark::Zero) {
        return wait(
            &NOTHING,
            Place::AfterTerm(
                chain,
                Term {
                    negated,
                    operand: Operand::Low,
                },
            ),
        );
    }
    if is(token, Mark::One) {
        return wait(
            &NOTHING,
            Place::AfterTerm(
                chain,
                Term {
                    negated,
                    operand: Operand::High,
                },
            ),
        );
    }
    match token.symbol {
        Symbol::Name(text) => {
            let operand = Operand::Port(Ident { text, at: token.at });
            wait(&NOTHING, Place::AfterTerm(chain, Term { negated, operand }))
        }
        Symbol::Mark(_) => Err(Stop::Misplaced),
        Symbol::Other(_) => Err(Stop::Misplaced),
    }
}

fn at_term<'a>(chain: Chain<'a>, token: Token<'a>) -> Result<State<'a>, Stop>
    ensures { Takes (machine.choose (machine.at_term (chain_of chain.entry)) (token_of token.entry).symbol) result }
{
    if is(token, Mark::Not) {
        return wait(&NOTHING, Place::Operand(chain));
    }
    operand_from(chain, false, token)
}

/// The operator that the token is.
fn operator(token: Token<'_>) -> Option<Operator>
    ensures { result ≡ machine.operator_of (token_of token.entry).symbol }
{
    if is(token, Mark::And) {
        return Some(Operator::And);
    }
    if is(token, Mark::Or) {
        return Some(Operator::Or);
    }
    if is(token, Mark::Xor) {
        return Some(Operator::Xor);
    }
    None
}

fn same_operator(left: Operator, right: Operator) -> bool
    ensures { result ≡ machine.same_operator left right }
{
    match left {
        Operator::And => match right {
            Operator::And => true,
            Operator::Or => false,
            Operator::Xor => false,
        },
        Operator::Or => match right {
            Operator::And => false,
            Operator::Or => true,
            Operator::Xor => false,
        },
        Operator::Xor => match right {
            Operator::And => false,
            Operator::Or => false,
            Operator::Xor => true,
        },
    }
}

/// Whether a chain with this operator goes on with that one.
fn may_follow(known: Option<Operator>, next: Operator) -> bool
    ensures { result ≡ machine.may_follow known next }
{
    match known {
        None => true,
        Some(known) => same_operator(known, next),
    }
}

/// The chain goes on behind an operator.
fn with_term<'a>(chain: Chain<'a>, next: Operator, term: Term<'a>) -> Result<State<'a>, Stop>
    ensures { Takes (machine.wait [] (machine.at_term (machine.with_term (chain_of chain.entry) next (term_of term.entry)))) result }
{
    let Chain {
        file,
        target,
        operator: _,
        terms,
    } = chain;
    let mut terms = terms;
    if terms.push(term).is_err() {
        return Err(Stop::Memory);
    }
    let chain = Chain {
        file,
        target,
        operator: Some(next),
        terms,
    };
    wait(&NOTHING, Place::Term(chain))
}

/// The operator of a chain: `And` where it has one term alone.
fn operator_or_and(known: Option<Operator>) -> Operator
    ensures { result ≡ machine.operator_or_and known }
{
    match known {
        None => Operator::And,
        Some(operator) => operator,
    }
}

/// The assignment of a chain that ends with this term, and the file before it.
fn close_chain<'a>(
    chain: Chain<'a>,
    term: Term<'a>,
) -> Result<(Box<GateFile<'a>>, Assignment<'a>), Stop>
    ensures { MatchResult result (λ r. (file_of r.0.value ≡ (chain_of chain.entry).file) × (assignment_of r.1 ≡ machine.assignment_with (chain_of chain.entry) (term_of term.entry))) (λ e. e ≡ Stop.Memory) }
{
    let Chain {
        file,
        target,
        operator,
        terms,
    } = chain;
    let mut terms = terms;
    match terms.push(term) {
        Ok(()) => Ok((
            file,
            Assignment {
                target,
                operator: operator_or_and(operator),
                terms,
            },
        )),
        Err(_) => Err(Stop::Memory),
    }
}

/// The file with one more assignment.
fn add_assignment<'a>(
    file: Box<GateFile<'a>>,
    assignment: Assignment<'a>,
) -> Result<Box<GateFile<'a>>, Stop>
    ensures { MatchResult result (λ f. file_of f.value ≡ machine.with_assignment (file_of file.entry.value) (assignment_of assignment.entry)) (λ e. e ≡ Stop.Memory) }
{
    let mut file = file;
    match file.assignments.push(assignment) {
        Ok(()) => Ok(file),
        Err(_) => Err(Stop::Memory),
    }
}

/// The statement ends.
fn with_assignment<'a>(chain: Chain<'a>, term: Term<'a>) -> Result<State<'a>, Stop>
    ensures { Takes (machine.wait [] (machine.at_statement (machine.with_assignment (chain_of chain.entry).file (machine.assignment_with (chain_of chain.entry) (term_of term.entry))))) result }
{
    match close_chain(chain, term) {
        Ok((file, assignment)) => match add_assignment(file, assignment) {
            Ok(file) => wait(&NOTHING, Place::Statement(file)),
            Err(_) => Err(Stop::Memory),
        },
        Err(_) => Err(Stop::Memory),
    }
}

fn after_term<'a>(chain: Chain<'a>, term: Term<'a>, token: Token<'a>) -> Result<State<'a>, Stop>
    ensures { Takes (machine.choose (machine.after_term (chain_of chain.entry) (term_of term.entry)) (token_of token.entry).symbol) result }
{
    if is(token, Mark::Semicolon) {
        return with_assignment(chain, term);
    }
    match operator(token) {
        None => Err(Stop::Misplaced),
        Some(next) => {
            if may_follow(chain.operator, next) && chain.terms.len() < MOST_TERMS_BEFORE {
                return with_term(chain, next, term);
            }
            Err(Stop::Misplaced)
        }
    }
}

/// What a token makes of a place with nothing expected before it.
fn choose<'a>(alloc: Global, place: Place<'a>, token: Token<'a>) -> Result<State<'a>, Stop>
    ensures { Takes (machine.choose (place_of place.entry) (token_of token.entry).symbol) result }
{
    match place {
        Place::Logic => at_logic(token),
        Place::AfterLogic(logic) => after_logic(logic, token),
        Place::Numeric(logic) => at_numeric(logic, token),
        Place::Entity(context) => at_entity(alloc, context, token),
        Place::Port(ports) => at_port(ports, token),
        Place::AfterPort(ports, ident) => after_port(ports, ident, token),
        Place::Mode(ports, ident) => at_mode(alloc, ports, ident, token),
        Place::AfterGroup(ports, group) => after_group(ports, group, token),
        Place::Architecture(ports) => at_architecture(ports, token),
        Place::Of(ports, architecture) => at_of(alloc, ports, architecture, token),
        Place::Statement(file) => at_statement(alloc, file, token),
        Place::Term(chain) => at_term(chain, token),
        Place::Operand(chain) => operand_from(chain, true, token),
        Place::AfterTerm(chain, term) => after_term(chain, term, token),
        Place::Finish(_) => Err(Stop::Misplaced),
    }
}

/// What a token makes of a state.
pub fn take<'a>(alloc: Global, state: State<'a>, token: Token<'a>) -> Result<State<'a>, Stop>
    ensures { Takes (machine.step (state_of state.entry) (token_of token.entry).symbol) result }
{
    let State { expected, place } = state;
    match expected {
        [] => choose(alloc, place, token),
        [first, more @ ..] => {
            if is(token, *first) {
                return wait(more, place);
            }
            Err(Stop::Misplaced)
        }
    }
}

/// The tree, where the file may end here.
fn finish<'a>(state: State<'a>) -> Option<GateFile<'a>>
    ensures { machine.ending (state_of state.entry) ≡ option_map file_of result }
{
    let State { expected, place } = state;
    match expected {
        [_, ..] => None,
        [] => match place {
            Place::Finish(file) => Some(Box::into_inner(file)),
            Place::Logic
            | Place::AfterLogic(_)
            | Place::Numeric(_)
            | Place::Entity(_)
            | Place::Port(_)
            | Place::AfterPort(_, _)
            | Place::Mode(_, _)
            | Place::AfterGroup(_, _)
            | Place::Architecture(_)
            | Place::Of(_, _)
            | Place::Statement(_)
            | Place::Term(_)
            | Place::Operand(_)
            | Place::AfterTerm(_, _) => None,
        },
    }
}

/// Why a file was not read.
#[derive(Clone, Copy, Debug, PartialEq, Eq)]
pub enum ReadFault {
    /// No text of the grammar goes on with the token at this offset.
    Misplaced(usize),
    /// An allocation failed.
    Memory,
}

/// The machine's way over the tokens.
fn drive<'a>(alloc: Global, bytes: &'a [u8]) -> Result<GateFile<'a>, ReadFault>
    ensures { Ends (machine.drive machine.start (tokens (length bytes.now) bytes.now)) result }
{
    let mut state = State {
        expected: &START,
        place: Place::Logic,
    };
    let mut rest = bytes;
    'tokens: while let Some((token, more)) = next(bytes.len(), rest) {
        state = match take(alloc, state, token) {
            Ok(state) => state,
            Err(Stop::Misplaced) => return Err(ReadFault::Misplaced(token.at)),
            Err(Stop::Memory) => return Err(ReadFault::Memory),
        };
        rest = more;
    }
    match finish(state) {
        Some(file) => Ok(file),
        None => Err(ReadFault::Misplaced(bytes.len())),
    }
}

/// The tree of a file whose letters are folded to lower case, or the first token that no text of the grammar goes on with.
pub fn read<'a>(alloc: Global, bytes: &'a [u8]) -> Result<GateFile<'a>, ReadFault>
    ensures ends { Ends (machine.drive machine.start (tokens_of bytes.now)) result }
    ensures answer { IsAnswer (tokens_of bytes.now) result }
    ensures within { IfErr result (IsWithin (length bytes.now)) }
{
    match drive(alloc, bytes) {
        Ok(file) => Ok(file),
        Err(ReadFault::Misplaced(at)) => Err(ReadFault::Misplaced(at)),
        Err(ReadFault::Memory) => Err(ReadFault::Memory),
    }
}
