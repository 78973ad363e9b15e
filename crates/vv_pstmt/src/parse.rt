//! Reading a file.

ghost use Rattle.std.specs.Prelude.{length, IfOk, IfErr};
ghost use Rattle.vv_grammar_laws.specs.Starts.{file};
ghost use Rattle.vv_reading.specs.Readings.{IsReadAs, IsNotRead};
ghost use Rattle.vv_tree.specs.View.{trees_of, unit_tree};

use crate::unit::units;
use bumpalo::Bump;
use std::alloc::Global;
use vv_base::fault::Fault;
use vv_grammar::edition::Edition;
use vv_reading::reading::read_file;
use vv_tree::unit::Unit;
use vv_vlex::token::Token;

/// Reads all tokens of a file in one edition of the language. The answer is its units in the arena. After a refusal the arena may have grown.
pub fn parse<'a>(
    alloc: Global,
    arena: &'a Bump<Global>,
    tokens: &[Token],
    edition: Edition,
) -> Result<&'a [Unit<'a>], Fault>
    ensures read { IfOk result (λ all. IsReadAs edition file tokens.now 0 (length tokens.now) (trees_of unit_tree all.now)) }
    ensures refused { IfErr result (λ fault. IsNotRead edition file tokens.now 0 fault) }
{
    let nodes = Bump::new(alloc);
    let node = read_file(alloc, &nodes, edition, tokens)?;
    Ok(units(arena, node)?)
}
