//! What is read of tokens from one of them on.

ghost use Rattle.std.specs.Prelude.{◌≡◌, ◌≤◌, length, IfOk, IfErr};
ghost use Rattle.vv_grammar_laws.specs.Starts.{Start, file, steps_for};
ghost use Rattle.vv_nodes.specs.Nodes.{node_tree};
ghost use Rattle.vv_reading.specs.Readings.{IsReadAs, IsNotRead, IsFaultOf, span_at};

use bumpalo::Bump;
use std::alloc::Global;
use vv_base::fault::{Fault, Refusal, Rule, Span};
use vv_grammar::edition::Edition;
use vv_grammar::starts::FILE;
use vv_grammar::step::Step;
use vv_grammar::terminal::terminals;
use vv_machine::machine::{Stop, run};
use vv_nodes::node::Node;
use vv_nodes::replay::tree;
use vv_vlex::token::Token;

/// Before the first token.
const NOWHERE: Span = Span {
    file: 0,
    at: 0,
    len: 0,
};

/// The place of the token of this number, or of the last one where there are fewer.
fn place(tokens: &[Token], number: usize) -> Span
    ensures { result ≡ span_at tokens.now number }
{
    match tokens.get(number.min(tokens.len().saturating_sub(1))) {
        Some(token) => token.span,
        None => NOWHERE,
    }
}

/// Why tokens are not read, where the machine stopped.
fn fault_of(stop: Stop, tokens: &[Token]) -> Fault
    ensures { IsFaultOf stop tokens.now result }
{
    match stop {
        Stop::Memory => Fault::Memory,
        Stop::Misplaced(number) => Fault::Refused(Refusal {
            rule: Rule::Y1,
            span: place(tokens, number),
        }),
        Stop::Deep(number) => Fault::Refused(Refusal {
            rule: Rule::Y2,
            span: place(tokens, number),
        }),
    }
}

/// Reads what begins with these steps from the token of this number on, as long as it goes, in one edition of the language. The answer is its tree, whose
/// nodes lie in the arena, and the number of the token behind it.
pub fn read<'a>(
    alloc: Global,
    arena: &'a Bump<Global>,
    edition: Edition,
    steps: &[Step],
    tokens: &'a [Token],
    at: usize,
) -> Result<(Node<'a>, usize), Fault>
    requires { at ≤ length tokens.now }
    ensures read { IfOk result (λ r. (s : Start) → steps.now ≡ steps_for s → IsReadAs edition s tokens.now at r.1 (node_tree r.0)) }
    ensures refused { IfErr result (λ fault. (s : Start) → steps.now ≡ steps_for s → IsNotRead edition s tokens.now at fault) }
{
    let kinds = terminals(alloc, tokens)?;
    match run(alloc, edition, steps, kinds.as_slice(), at) {
        Ok(reading) => {
            let node = tree(
                alloc,
                arena,
                reading.events.as_slice(),
                &tokens[at..],
                NOWHERE,
            )?;
            Ok((node, reading.at))
        }
        Err(stop) => Err(fault_of(stop, tokens)),
    }
}

/// Reads all tokens as a file, in one edition of the language. The answer is the list of its units.
pub fn read_file<'a>(
    alloc: Global,
    arena: &'a Bump<Global>,
    edition: Edition,
    tokens: &'a [Token],
) -> Result<Node<'a>, Fault>
    ensures read { IfOk result (λ node. IsReadAs edition file tokens.now 0 (length tokens.now) (node_tree node)) }
    ensures refused { IfErr result (λ fault. IsNotRead edition file tokens.now 0 fault) }
{
    match read(alloc, arena, edition, &FILE, tokens, 0) {
        Err(fault) => Err(fault),
        Ok((node, next)) => {
            if next < tokens.len() {
                let span = place(tokens, next);
                return Err(Fault::Refused(Refusal {
                    rule: Rule::Y1,
                    span,
                }));
            }
            Ok(node)
        }
    }
}
