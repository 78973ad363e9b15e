//! Reads a map.

use std::alloc::Global;
use vv_flat::Flat;
use vv_map::{Binding, Line, LineList, bind, read_map};
use vv_record::RecordFault;

/// The lines of a map, and their objects in a text.
#[derive(Drop)]
pub struct Bound {
    pub lines: LineList,
    pub binding: Binding,
}

/// The lines of a map with their objects in a text, or the rule that a record breaks. `own` are the lines that they have to be.
pub fn read_bound(
    alloc: Global,
    bytes: &[u8],
    flat: &Flat,
    own: Option<&[Line]>,
) -> Result<Bound, RecordFault> {
    let lines = read_map(alloc, bytes)?;
    let binding = bind(alloc, lines.as_slice(), flat, own)?;
    Ok(Bound { lines, binding })
}
