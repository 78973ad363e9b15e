//! Reading an expression, a name or an aggregate.

ghost use Rattle.std.specs.Prelude.{◌≡◌, ◌<◌, length, IfOk, IfErr};
ghost use Rattle.vv_grammar_laws.specs.Starts.{expression, name as a_name, aggregate as an_aggregate, steps_for, Start};
ghost use Rattle.vv_reading.specs.Readings.{IsReadAs, IsNotRead};
ghost use Rattle.vv_tree.specs.View.{expr_tree};

use crate::expression;
use bumpalo::Bump;
use std::alloc::Global;
use vv_base::fault::Fault;
use vv_grammar::edition::Edition;
use vv_grammar::starts::{AGGREGATE, EXPRESSION, NAME};
use vv_grammar::step::Step;
use vv_reading::reading::read;
use vv_tree::expression::Expr;
use vv_vlex::token::Token;

/// Reads one expression that begins with these steps.
fn one<'a>(
    alloc: Global,
    arena: &'a Bump<Global>,
    tokens: &[Token],
    at: usize,
    edition: Edition,
    steps: &[Step],
) -> Result<(Expr<'a>, usize), Fault>
    requires { at < length tokens.now }
    ensures read { IfOk result (λ r. (s : Start) → steps.now ≡ steps_for s → IsReadAs edition s tokens.now at r.1 (expr_tree r.0)) }
    ensures refused { IfErr result (λ fault. (s : Start) → steps.now ≡ steps_for s → IsNotRead edition s tokens.now at fault) }
{
    let nodes = Bump::new(alloc);
    let (node, next) = read(alloc, &nodes, edition, steps, tokens, at)?;
    Ok((expression::expr(arena, node)?, next))
}

/// Reads the longest expression from the token of this number on, in one edition of the language. The answer is its tree in the arena and the number of the token
/// behind it. After a refusal the arena may have grown.
pub fn expr<'a>(
    alloc: Global,
    arena: &'a Bump<Global>,
    tokens: &[Token],
    at: usize,
    edition: Edition,
) -> Result<(Expr<'a>, usize), Fault>
    requires { at < length tokens.now }
    ensures read { IfOk result (λ r. IsReadAs edition expression tokens.now at r.1 (expr_tree r.0)) }
    ensures refused { IfErr result (λ fault. IsNotRead edition expression tokens.now at fault) }
{
    one(alloc, arena, tokens, at, edition, &EXPRESSION)
}

/// Reads the longest name from the token of this number on, as `expr` reads an expression.
pub fn name<'a>(
    alloc: Global,
    arena: &'a Bump<Global>,
    tokens: &[Token],
    at: usize,
    edition: Edition,
) -> Result<(Expr<'a>, usize), Fault>
    requires { at < length tokens.now }
    ensures read { IfOk result (λ r. IsReadAs edition a_name tokens.now at r.1 (expr_tree r.0)) }
    ensures refused { IfErr result (λ fault. IsNotRead edition a_name tokens.now at fault) }
{
    one(alloc, arena, tokens, at, edition, &NAME)
}

/// Reads an aggregate from the token of this number on, as `expr` reads an expression.
pub fn aggregate<'a>(
    alloc: Global,
    arena: &'a Bump<Global>,
    tokens: &[Token],
    at: usize,
    edition: Edition,
) -> Result<(Expr<'a>, usize), Fault>
    requires { at < length tokens.now }
    ensures read { IfOk result (λ r. IsReadAs edition an_aggregate tokens.now at r.1 (expr_tree r.0)) }
    ensures refused { IfErr result (λ fault. IsNotRead edition an_aggregate tokens.now at fault) }
{
    one(alloc, arena, tokens, at, edition, &AGGREGATE)
}
