//! All modules.

use crate::index::Index;
use crate::module::module;
use sqlite_items::Items;
use std::alloc::Global;
use vv_base::fault::Memory;
use vv_design::{Design, Plan};
use vv_vtree::Modules;

/// The modules of a design: one for each specialisation, the top first.
pub fn modules(alloc: Global, design: &Design, plan: &Plan) -> Result<Modules, Memory> {
    let index = Index::of(alloc, design, plan)?;
    let mut modules = Items::new(alloc);
    for (number, inst) in design.insts.as_slice().iter().enumerate() {
        if inst.spec as usize == modules.len() {
            let number = number.min(0xffff_ffff) as u32;
            modules.push(module(alloc, design, plan, &index, number)?)?;
        }
    }
    Ok(modules)
}
