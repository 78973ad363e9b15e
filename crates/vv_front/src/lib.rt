//! The front: from the bytes of files to the elaborated design of a top and its plan, or to the rule that is broken first.
//!
//! The phases, of which the first with a broken rule reports: limits and lexical elements of all files, syntax of all files, names and
//! types of all units, and then, of what the top reaches, elaboration, templates, and drivers.
#![tactic(auto)]

use bumpalo::Bump;
use std::alloc::Global;
use vv_base::fault::{Fault, Name};
use vv_base::names::Names;
use vv_check::check;
use vv_design::{Design, Plan};
use vv_drive::wire;
use vv_elab::elaborate;
use vv_grammar::edition::Edition;
use vv_pstmt::parse::parse;
use vv_templ::classify;
use vv_tree::unit::Unit;
use vv_typed::Units;
use vv_vlex::token::TokenList;
use vv_vlex::tokens::lex;

/// How many texts a table of names may hold before a file is read. A file adds at most as many as it has bytes.
const MOST_NAMES: usize = 4_261_412_864;

/// The elaborated design of a top, and its plan.
#[derive(Drop)]
pub struct Front {
    pub design: Design,
    pub plan: Plan,
}

/// The tokens of the file of this number, whose names go into the table of all files.
fn tokens_of(
    alloc: Global,
    number: usize,
    file: &[u8],
    names: &mut Names,
) -> Result<TokenList, Fault> {
    if names.len() > MOST_NAMES {
        return Err(Fault::Memory);
    }
    match u32::try_from(number) {
        Ok(number) => lex(alloc, number, file, names),
        Err(_) => Err(Fault::Memory),
    }
}

/// The tokens of all files, in order.
fn all_tokens(alloc: Global, files: &[&[u8]], names: &mut Names) -> Result<Vec<TokenList>, Fault> {
    let mut lists = Vec::new(alloc);
    for (number, file) in files.iter().enumerate() {
        lists.push(tokens_of(alloc, number, file, names)?)?;
    }
    Ok(lists)
}

/// The trees of all files, in order.
fn trees_of<'a>(
    alloc: Global,
    arena: &'a Bump,
    tokens: &[TokenList],
    edition: Edition,
) -> Result<Vec<&'a [Unit<'a>]>, Fault> {
    let mut files = Vec::new(alloc);
    for list in tokens {
        files.push(parse(alloc, arena, list.as_slice(), edition)?)?;
    }
    Ok(files)
}

/// The checked units of the tokens of all files, whose trees lie in the arena.
fn units_in<'a>(
    alloc: Global,
    arena: &'a Bump,
    tokens: &[TokenList],
    names: &Names,
    edition: Edition,
) -> Result<Units, Fault> {
    let files = trees_of(alloc, arena, tokens, edition)?;
    check(alloc, files.as_slice(), names)
}

/// The checked units of the tokens of all files.
fn units_of(
    alloc: Global,
    tokens: &[TokenList],
    names: &Names,
    edition: Edition,
) -> Result<Units, Fault> {
    let arena = Bump::new(alloc);
    units_in(alloc, &arena, tokens, names, edition)
}

/// The number of the top's name.
fn top_of(names: &mut Names, top: &str) -> Result<Name, Fault> {
    if names.len() > MOST_NAMES {
        return Err(Fault::Memory);
    }
    Ok(names.intern(top.as_bytes())?)
}

/// The checked units of all files, and the name of the top.
#[derive(Drop)]
struct Checked {
    units: Units,
    top: Name,
}

/// Reads and checks all files.
fn read_and_check(
    alloc: Global,
    files: &[&[u8]],
    top: &str,
    edition: Edition,
) -> Result<Checked, Fault> {
    let mut names = Names::for_files(alloc, files);
    let tokens = all_tokens(alloc, files, &mut names)?;
    let top = top_of(&mut names, top)?;
    let units = units_of(alloc, tokens.as_slice(), &names, edition)?;
    Ok(Checked { units, top })
}

/// The plan of a design.
fn planned(alloc: Global, design: Design) -> Result<Front, Fault> {
    let plan = plan_of(alloc, &design)?;
    Ok(Front { design, plan })
}

fn plan_of(alloc: Global, design: &Design) -> Result<Plan, Fault> {
    let kinds = classify(alloc, design)?;
    wire(alloc, design, kinds.as_slice())
}

/// The design of a top and its plan. The letter case of `top` is folded.
///
/// It refuses by each of the 48 rules, by the first phase with a broken rule and there at the least place.
pub fn design_of(
    alloc: Global,
    files: &[&[u8]],
    top: &str,
    edition: Edition,
) -> Result<Front, Fault> {
    let Checked { units, top } = read_and_check(alloc, files, top, edition)?;
    let design = elaborate(alloc, &units, top)?;
    planned(alloc, design)
}
