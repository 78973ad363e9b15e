//! The call `flat`.

use crate::cycles::on_cycle;
use crate::expand::{Parts, expand};
use crate::functions::functions;
use sqlite_items::Items;
use std::alloc::Global;
use vv_base::fault::Memory;
use vv_flat::Flat;
use vv_vcheck::check;
use vv_vscope::faults::Faults;
use vv_vscope::loads::loads;
use vv_vscope::scope::{Design, ModuleScope};
use vv_vtree::{Module, Modules, VCode, VDirection, VFault};

/// The flat design of the module of this name. The rules are tried in the order V7, V3, V4, V8, V5, V6, and of the places where one is
/// broken the least offset is told.
pub fn flat(alloc: Global, m: &Modules, top: &str) -> Result<Flat, VFault> {
    let mut faults = Faults::new();
    let design = Design::new(alloc, m.as_slice(), &mut faults)?;
    let Some(module) = design.module(top.as_bytes()) else {
        return refused(VCode::V7, 0);
    };
    if has_inout(module.module) {
        return refused(VCode::V7, 0);
    }
    check(alloc, &design, faults)?.refusal()?;
    let parts = parts_of(alloc, &design, module)?;
    if let Some(at) = on_cycle(alloc, parts.bits.len(), parts.items.as_slice())? {
        return refused(VCode::V6, at);
    }
    finished(alloc, &design, parts)
}

/// The parts of the flat design of this top.
fn parts_of<'t>(
    alloc: Global,
    design: &Design<'t>,
    top: &ModuleScope<'t>,
) -> Result<Parts, Memory> {
    let loads = loads(alloc, design)?;
    expand(alloc, design, loads.as_slice(), top)
}

/// The flat design of its parts.
fn finished(alloc: Global, design: &Design<'_>, parts: Parts) -> Result<Flat, VFault> {
    let functions = functions(alloc, design)?;
    let Parts {
        objects,
        bits,
        items,
    } = parts;
    Ok(Flat {
        objects: Items::from_vec(objects),
        bits: Items::from_vec(bits),
        functions,
        items: Items::from_vec(items),
    })
}

fn refused(code: VCode, at: u64) -> Result<Flat, VFault> {
    Err(VFault::Refused { code, at })
}

fn has_inout(module: &Module) -> bool {
    module
        .ports
        .as_slice()
        .iter()
        .any(|port| port.direction == VDirection::Inout)
}
