//! The way of files that are no file of gates.

use crate::out::Out;
use std::alloc::Global;
use vv_base::fault::{Fault, Memory};
use vv_base::text::ByteList;
use vv_front::{Front, design_of};
use vv_grammar::edition::Edition;
use vv_hier::modules;
use vv_map::{own_lines, write_map};
use vv_print::print;
use vv_readback::certify;

/// Text and map of the files, or what is broken first: the phases over all their units, and the writer.
pub fn written(alloc: Global, files: &[&[u8]], top: &str, edition: Edition) -> Result<Out, Fault> {
    let front = design_of(alloc, files, top, edition)?;
    Ok(out_of(alloc, &front, top)?)
}

/// Text and map of a design, whose top has this name. Both are read back before they are answered.
pub fn out_of(alloc: Global, front: &Front, top: &str) -> Result<Out, Memory> {
    let text = text_of(alloc, front)?;
    let lines = own_lines(alloc, &front.design, &front.plan)?;
    let map = write_map(alloc, &front.design, &front.plan)?;
    certify(
        alloc,
        text.as_slice(),
        map.as_slice(),
        top,
        lines.as_slice(),
    )?;
    Ok(Out { text, map })
}

/// The text of a design.
fn text_of(alloc: Global, front: &Front) -> Result<ByteList, Memory> {
    let tree = modules(alloc, &front.design, &front.plan)?;
    print(alloc, &tree)
}
