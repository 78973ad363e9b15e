//! Designs that are made: their source, stimulus, text and map are saved, and the last value of their output is told.

ghost use Rattle.vv_base.specs.Outside.{NoneFell};

use crate::halts::{Halt, Sources, record_halt, write_fault};
use crate::inputs::{Elaborated, elaborate_top};
use crate::orders::Generation;
use crate::replays::range_halt;
use std::alloc::Global;
use vv_base::fault::{Memory, cannot_come};
use vv_base::shelf::{SaveFault, Shelf};
use vv_commands::{Last, last_bits, rows_of};
use vv_gen::{Made, make};
use vv_stim::Row;
use vv_trans::out::Out;
use vv_trans::whole::out_of;

/// The entity of the designs that are made.
const TOP: &str = "chain";

/// What a made source came to: its text and map, and the line that is printed.
#[derive(Drop)]
struct Product {
    out: Out,
    line: String,
}

/// Makes a source and a stimulus, translates the one, runs it under the other, and saves all. The line that tells the last value of its
/// output is answered.
pub fn generate<D: Shelf>(
    alloc: Global,
    order: &Generation<'_>,
    shelf: &mut D,
) -> Result<String, Halt>
    ensures loads { NoneFell (D.failed_loads shelf.old) (D.failed_loads shelf.new) }
    ensures saves { NoneFell (D.failed_saves shelf.old) (D.failed_saves shelf.new) }
{
    let made = make(alloc, order.stages, order.seed)?;
    generate_made(alloc, order, &made, shelf)
}

fn generate_made<D: Shelf>(
    alloc: Global,
    order: &Generation<'_>,
    made: &Made,
    shelf: &mut D,
) -> Result<String, Halt>
    ensures loads { NoneFell (D.failed_loads shelf.old) (D.failed_loads shelf.new) }
    ensures saves { NoneFell (D.failed_saves shelf.old) (D.failed_saves shelf.new) }
{
    let Product { out, line } = make_product(alloc, order, made)?;
    save_all(alloc, order, made, &out, shelf)?;
    Ok(line)
}

/// What the made source comes to.
fn make_product(alloc: Global, order: &Generation<'_>, made: &Made) -> Result<Product, Halt> {
    let names = [order.source];
    let files = [made.source.as_slice()];
    let sources = Sources {
        names: &names,
        files: &files,
    };
    let known = elaborate_top(alloc, &sources, TOP)?;
    product_of(alloc, order, made, &sources, &known)
}

fn product_of(
    alloc: Global,
    order: &Generation<'_>,
    made: &Made,
    sources: &Sources<'_, '_>,
    known: &Elaborated,
) -> Result<Product, Halt> {
    let line = line_of(alloc, order, made, sources, known)?;
    let out = out_of(alloc, &known.front, TOP)?;
    Ok(Product { out, line })
}

/// The line that is printed, once the rows of the stimulus are run.
fn line_of(
    alloc: Global,
    order: &Generation<'_>,
    made: &Made,
    sources: &Sources<'_, '_>,
    known: &Elaborated,
) -> Result<String, Halt> {
    match rows_of(alloc, made.stim.as_slice(), known.lines.as_slice()) {
        Ok(rows) => run_line(alloc, order, sources, known, rows.as_slice()),
        Err(fault) => Err(record_halt(alloc, order.stimulus, fault)),
    }
}

fn run_line(
    alloc: Global,
    order: &Generation<'_>,
    sources: &Sources<'_, '_>,
    known: &Elaborated,
    rows: &[Row],
) -> Result<String, Halt> {
    let lines = known.lines.as_slice();
    match last_bits(alloc, &known.front.design, &known.front.plan, lines, rows)? {
        Last::Range { row, at } => Err(range_halt(alloc, sources, row, at)),
        Last::Digits(digits) => { Ok(product_line(alloc, order, rows.len(), digits.as_slice())?) }
    }
}

/// The line of a product.
fn product_line(
    alloc: Global,
    order: &Generation<'_>,
    count: usize,
    digits: &[u8],
) -> Result<String, Memory> {
    let Ok(digits) = str::from_utf8(digits) else {
        return Err(cannot_come());
    };
    let stages = order.stages;
    let seed = order.seed;
    Ok(format!(in alloc; "gen {stages} {seed}: {count} rows, q {digits}\n")?)
}

/// Saves source, stimulus, text and map, in this order.
fn save_all<D: Shelf>(
    alloc: Global,
    order: &Generation<'_>,
    made: &Made,
    out: &Out,
    shelf: &mut D,
) -> Result<(), Halt>
    ensures loads { NoneFell (D.failed_loads shelf.old) (D.failed_loads shelf.new) }
    ensures saves { NoneFell (D.failed_saves shelf.old) (D.failed_saves shelf.new) }
{
    save(alloc, order.source, made.source.as_slice(), shelf)?;
    save(alloc, order.stimulus, made.stim.as_slice(), shelf)?;
    save(alloc, order.output, out.text.as_slice(), shelf)?;
    save(alloc, order.map, out.map.as_slice(), shelf)
}

fn save<D: Shelf>(alloc: Global, name: &str, bytes: &[u8], shelf: &mut D) -> Result<(), Halt>
    ensures loads { NoneFell (D.failed_loads shelf.old) (D.failed_loads shelf.new) }
    ensures saves { NoneFell (D.failed_saves shelf.old) (D.failed_saves shelf.new) }
{
    match shelf.save(name, bytes) {
        Ok(()) => Ok(()),
        Err(SaveFault::Failed) => Err(write_fault(alloc, name)),
        Err(SaveFault::Memory) => Err(Halt::Memory),
    }
}
