//! Elaboration of a top.

use crate::concurrent::opened;
use crate::instances::{Site, last_number};
use std::alloc::Global;
use vv_base::fault::{Fault, Name, Rule, Span};
use vv_design::Design;
use vv_elab_base::making::{Making, next_number};
use vv_elab_plain::plain::judge_functions;
use vv_elab_stmt::declarations::declarations;
use vv_held::Entry;
use vv_held::held::refused;
use vv_typed::Units;

/// The place of what no source has.
const NOWHERE: Span = Span {
    file: 0,
    at: 0,
    len: 0,
};

/// How deeply concurrent statements may lie in one another: 65 instances, each with generate statements as deep as a tree is.
const MOST_ROOM: u32 = 16384;

/// The design of a top: the first refusal in the order of elaboration, or all that the top reaches.
pub fn elaborate(alloc: Global, units: &Units, top: Name) -> Result<Design, Fault> {
    let mut found = None;
    for (k, entity) in units.entities.as_slice().iter().enumerate() {
        if entity.name == top && found.is_none() {
            found = Some((next_number(k)?, entity));
        }
    }
    let Some((number, entity)) = found else {
        return Err(refused(Rule::E10, NOWHERE));
    };
    let Some(arch) = entity.archs.as_slice().last() else {
        return Err(refused(Rule::E10, NOWHERE));
    };
    let mut making = Making::new(alloc, units);
    packages(&mut making)?;
    let site = Site {
        number,
        entity,
        arch,
        arch_number: last_number(entity),
        component: None,
        generics: &[],
        ports: &[],
        up: None,
    };
    opened(&mut making, &site, MOST_ROOM)?;
    Ok(making.design)
}

/// What the packages declare.
fn packages<'u>(making: &mut Making<'u>) -> Result<(), Fault> {
    for (k, body) in making.units.functions.as_slice().iter().enumerate() {
        let known = making.known(body.decl);
        let place = next_number(k)?;
        making.note(body.decl, known, Entry::Function(place))?;
    }
    for package in making.units.packages.as_slice() {
        declarations(making, package.decls.as_slice())?;
    }
    Ok(judge_functions(making)?)
}
