//! What commands load: sources, texts, maps and stimuli.

ghost use Rattle.vv_base.specs.Outside.{NoneFell};

use crate::halts::{Halt, Sources, fault_halt, read_fault, record_halt, text_halt};
use crate::loads::{LoadStop, load_all, load_one};
use std::alloc::Global;
use vv_base::shelf::{LoadFault, Shelf};
use vv_commands::rows_of;
use vv_flat::Flat;
use vv_front::{Front, design_of};
use vv_grammar::edition::Edition;
use vv_map::{Line, LineList, own_lines};
use vv_readback::{Bound, flat_of, read_bound};
use vv_stim::RowList;

/// A design with its plan, and the lines of its map.
#[derive(Drop)]
pub struct Elaborated {
    pub front: Front,
    pub lines: LineList,
}

/// The bytes of the files of these names, which are loaded in order.
pub fn load_sources<D: Shelf>(
    alloc: Global,
    names: &[&str],
    shelf: &mut D,
) -> Result<Vec<Vec<u8>>, Halt>
    ensures loads { NoneFell (D.failed_loads shelf.old) (D.failed_loads shelf.new) }
    ensures saves { NoneFell (D.failed_saves shelf.old) (D.failed_saves shelf.new) }
{
    match load_all(alloc, names, shelf) {
        Ok(files) => Ok(files),
        Err(LoadStop::Failed(number)) => Err(read_fault(alloc, name_at(names, number))),
        Err(LoadStop::Memory) => Err(Halt::Memory),
    }
}

/// The name of this number.
fn name_at<'n>(names: &'n [&'n str], number: usize) -> &'n str {
    match names.get(number) {
        Some(name) => *name,
        None => "",
    }
}

/// The bytes of a file.
fn load<D: Shelf>(alloc: Global, name: &str, shelf: &mut D) -> Result<Vec<u8>, Halt>
    ensures loads { NoneFell (D.failed_loads shelf.old) (D.failed_loads shelf.new) }
    ensures saves { NoneFell (D.failed_saves shelf.old) (D.failed_saves shelf.new) }
{
    match load_one(alloc, name, shelf) {
        Ok(file) => Ok(file),
        Err(LoadFault::Failed) => Err(read_fault(alloc, name)),
        Err(LoadFault::Memory) => Err(Halt::Memory),
    }
}

/// The flat design of the text of this name.
pub fn load_flat<D: Shelf>(
    alloc: Global,
    name: &str,
    top: &str,
    shelf: &mut D,
) -> Result<Flat, Halt>
    ensures loads { NoneFell (D.failed_loads shelf.old) (D.failed_loads shelf.new) }
    ensures saves { NoneFell (D.failed_saves shelf.old) (D.failed_saves shelf.new) }
{
    let bytes = load(alloc, name, shelf)?;
    match flat_of(alloc, bytes.as_slice(), top) {
        Ok(flat) => Ok(flat),
        Err(fault) => Err(text_halt(alloc, name, fault)),
    }
}

/// The lines of the map of this name, and their objects in a text. `own` are the lines that they have to be.
pub fn load_bound<D: Shelf>(
    alloc: Global,
    name: &str,
    flat: &Flat,
    own: Option<&[Line]>,
    shelf: &mut D,
) -> Result<Bound, Halt>
    ensures loads { NoneFell (D.failed_loads shelf.old) (D.failed_loads shelf.new) }
    ensures saves { NoneFell (D.failed_saves shelf.old) (D.failed_saves shelf.new) }
{
    let bytes = load(alloc, name, shelf)?;
    match read_bound(alloc, bytes.as_slice(), flat, own) {
        Ok(bound) => Ok(bound),
        Err(fault) => Err(record_halt(alloc, name, fault)),
    }
}

/// The rows of the stimulus of this name, for the inputs among the lines.
pub fn load_rows<D: Shelf>(
    alloc: Global,
    name: &str,
    lines: &[Line],
    shelf: &mut D,
) -> Result<RowList, Halt>
    ensures loads { NoneFell (D.failed_loads shelf.old) (D.failed_loads shelf.new) }
    ensures saves { NoneFell (D.failed_saves shelf.old) (D.failed_saves shelf.new) }
{
    let bytes = load(alloc, name, shelf)?;
    match rows_of(alloc, bytes.as_slice(), lines) {
        Ok(rows) => Ok(rows),
        Err(fault) => Err(record_halt(alloc, name, fault)),
    }
}

/// The design of the top with its plan, and the lines of its map.
pub fn elaborate_top(
    alloc: Global,
    sources: &Sources<'_, '_>,
    top: &str,
) -> Result<Elaborated, Halt> {
    match design_of(alloc, sources.files, top, Edition::Vhdl93) {
        Ok(front) => with_lines(alloc, front),
        Err(fault) => Err(fault_halt(alloc, sources, fault)),
    }
}

/// A design with the lines of its map.
fn with_lines(alloc: Global, front: Front) -> Result<Elaborated, Halt> {
    let lines = own_lines(alloc, &front.design, &front.plan)?;
    Ok(Elaborated { front, lines })
}
