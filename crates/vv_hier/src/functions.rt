//! The functions of a module, each behind those that it calls.

use crate::index::Index;
use sqlite_items::Items;
use std::alloc::Global;
use vv_base::fault::Memory;
use vv_design::Design;
use vv_inline::{Module, finish_function};
use vv_lfun::{LoweredFunction, lower_fun};
use vv_vtree::{VFunction, VItem, VItemList};

/// Writes the functions that are called, and those that they call. A function has a greater number than those that it calls.
pub fn functions(
    alloc: Global,
    design: &Design,
    index: &Index,
    called: &[u32],
    module: &mut Module,
    into: &mut VItemList,
) -> Result<(), Memory> {
    let count = design.functions.len();
    let mut wanted: Vec<bool> = vec![in alloc; false; count]?;
    want(&mut wanted, called);
    let mut reversed = Items::new(alloc);
    for number in (0..count).rev() {
        if wanted.get(number).copied().unwrap_or(false) {
            let number = number.min(0xffff_ffff) as u32;
            push_function(
                alloc,
                design,
                index,
                number,
                module,
                &mut wanted,
                &mut reversed,
            )?;
        }
    }
    for _ in 0..reversed.len() {
        if let Some(function) = reversed.pop() {
            into.push(VItem::Function(function))?;
        }
    }
    Ok(())
}

/// Writes a function, and notes those that it calls.
fn push_function(
    alloc: Global,
    design: &Design,
    index: &Index,
    number: u32,
    module: &mut Module,
    wanted: &mut Vec<bool>,
    into: &mut Items<VFunction>,
) -> Result<(), Memory> {
    let LoweredFunction {
        function,
        called,
        owns,
    } = lower_fun(alloc, design, &index.names, number)?;
    want(wanted, called.as_slice());
    let function = finish_function(alloc, function, &owns, module)?;
    Ok(into.push(function)?)
}

/// Notes the functions that are called.
fn want(wanted: &mut Vec<bool>, called: &[u32]) {
    for number in called {
        if let Some(flag) = wanted.get_mut(*number as usize) {
            *flag = true;
        }
    }
}
