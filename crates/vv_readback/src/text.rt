//! Reads a text.

use std::alloc::Global;
use vv_base::fault::{Memory, cannot_come};
use vv_base::text::Text;
use vv_flat::Flat;
use vv_vread::read;
use vv_vsize::flat;
use vv_vtree::{VFault, mangle};

/// The flat design of a text, or the rule that the text breaks. Its top is the module of the entity `top`, whose letter case is folded.
pub fn flat_of(alloc: Global, bytes: &[u8], top: &str) -> Result<Flat, VFault> {
    let name = module_name(alloc, top)?;
    flat_under(alloc, bytes, name.as_slice())
}

/// The name of the module of an entity.
fn module_name(alloc: Global, top: &str) -> Result<Text, Memory> {
    let folded = top.as_bytes().to_ascii_lowercase(alloc)?;
    match str::from_utf8(folded.as_slice()) {
        Ok(folded) => mangle(alloc, folded),
        Err(_) => Err(cannot_come()),
    }
}

/// The flat design of the module of this name.
fn flat_under(alloc: Global, bytes: &[u8], name: &[u8]) -> Result<Flat, VFault> {
    let Ok(name) = str::from_utf8(name) else {
        return Err(VFault::from(cannot_come()));
    };
    let modules = read(alloc, bytes)?;
    flat(alloc, &modules, name)
}
