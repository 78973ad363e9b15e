//! Aggregates: runs of elements that have one part.

use sqlite_items::Items;
use std::alloc::Global;
use vv_base::fault::Memory;
use vv_bits::Bits4;
use vv_lpart::{Joined, Part};
use vv_lrows::{Held, Pool};
use vv_lstate::Lowering;

/// Elements side by side that have one part: its number, how many they are, and whether the part stands in other runs too.
#[derive(Clone, Copy)]
pub struct ElementRun {
    pub part: u32,
    pub count: u32,
    pub again: bool,
}

/// The runs of an aggregate with so many parts, from the left.
pub fn runs_of(alloc: Global, parts: usize, elements: &[u32]) -> Result<Items<ElementRun>, Memory> {
    let mut runs = Items::new(alloc);
    let mut counts: Vec<u32> = vec![in alloc; 0; parts]?;
    let mut last: Option<ElementRun> = None;
    for element in elements {
        last = match last {
            Some(run) if run.part == *element => Some(ElementRun {
                count: run.count.saturating_add(1),
                ..run
            }),
            Some(run) => {
                push_run(run, &mut counts, &mut runs)?;
                Some(first_of(*element))
            }
            None => Some(first_of(*element)),
        };
    }
    if let Some(run) = last {
        push_run(run, &mut counts, &mut runs)?;
    }
    let mut marked = Items::new(alloc);
    for run in runs.as_slice() {
        let count = counts.get(run.part as usize).copied().unwrap_or(0);
        marked.push(ElementRun {
            again: count > 1,
            ..*run
        })?;
    }
    Ok(marked)
}

/// A run of one element.
fn first_of(part: u32) -> ElementRun {
    ElementRun {
        part,
        count: 1,
        again: false,
    }
}

/// Appends a run, and counts it at its part.
fn push_run(
    run: ElementRun,
    counts: &mut Vec<u32>,
    runs: &mut Items<ElementRun>,
) -> Result<(), Memory> {
    if let Some(count) = counts.get_mut(run.part as usize) {
        *count = count.saturating_add(1);
    }
    Ok(runs.push(run)?)
}

/// The parts of an aggregate that have a name, by their numbers.
pub type NamedParts = Vec<Option<Held>>;

/// No names of so many parts.
pub fn no_names(alloc: Global, parts: usize) -> Result<NamedParts, Memory> {
    Ok(vec![in alloc; None; parts]?)
}

/// A part that has a name.
pub fn named_part(
    state: &mut Lowering<'_>,
    pool: &mut Pool,
    names: &NamedParts,
    part: u32,
) -> Result<Option<Held>, Memory> {
    match names.get(part as usize) {
        Some(Some(named)) => Ok(Some(pool.slice(state, *named, 0, named.width)?)),
        _ => Ok(None),
    }
}

/// A part as an operand. One that is needed again gets a name.
pub fn kept_part(
    state: &mut Lowering<'_>,
    pool: &mut Pool,
    names: &mut NamedParts,
    run: ElementRun,
    part: Held,
) -> Result<Held, Memory> {
    let part = pool.operand(state, part)?;
    if part.known || !run.again {
        return Ok(part);
    }
    let name = pool.named(state, part)?;
    if let Some(slot) = names.get_mut(run.part as usize) {
        *slot = Some(name);
    }
    pool.slice(state, name, 0, name.width)
}

/// A part as often as `count`.
pub fn repeated(alloc: Global, count: u32, part: Part) -> Result<Part, Memory> {
    let mut joined = Joined::new(alloc);
    if let Some(bits) = repeated_bits(alloc, count, &part)? {
        joined.push(Part::bits(bits))?;
        return Ok(joined.part());
    }
    let part = Part::repeated(alloc, count, part)?;
    joined.push(part)?;
    Ok(joined.part())
}

/// Written bits as often as `count`.
fn repeated_bits(alloc: Global, count: u32, part: &Part) -> Result<Option<Bits4>, Memory> {
    let Some(bits) = part.known() else {
        return Ok(None);
    };
    let mut all = Bits4::new(alloc);
    for _ in 0..count {
        for bit in bits.as_slice() {
            all.push(*bit)?;
        }
    }
    Ok(Some(all))
}
