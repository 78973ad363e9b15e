//! What is written is read back before it leaves.

use crate::bound::read_bound;
use crate::text::flat_of;
use std::alloc::Global;
use vv_base::fault::{Memory, cannot_come};
use vv_flat::Flat;
use vv_map::Line;
use vv_record::RecordFault;
use vv_vtree::VFault;

/// Reads a text and its map back: the text is in the written subset and has a flat design, the map has these lines, and each line has its
/// object. A writer that keeps its word is never refused, so there is no rule to tell.
pub fn certify(
    alloc: Global,
    text: &[u8],
    map: &[u8],
    top: &str,
    lines: &[Line],
) -> Result<(), Memory> {
    match flat_of(alloc, text, top) {
        Ok(flat) => certify_map(alloc, map, &flat, lines),
        Err(VFault::Refused { .. }) => Err(cannot_come()),
        Err(VFault::Memory) => Err(Memory),
    }
}

/// The map has these lines, each with its object.
fn certify_map(alloc: Global, map: &[u8], flat: &Flat, lines: &[Line]) -> Result<(), Memory> {
    match read_bound(alloc, map, flat, Some(lines)) {
        Ok(bound) if bound.lines.len() == lines.len() => Ok(()),
        Err(RecordFault::Memory) => Err(Memory),
        _ => Err(cannot_come()),
    }
}
