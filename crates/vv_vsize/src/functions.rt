//! The functions of all modules.

use crate::lower::Lowering;
use sqlite_items::Items;
use std::alloc::Global;
use vv_base::fault::Memory;
use vv_flat::{FlatFunction, FlatFunctionList, Place, WidthList};
use vv_vscope::scope::{Design, FunctionScope, ModuleScope, Scope};

/// The functions in the order of the text.
pub fn functions(alloc: Global, design: &Design<'_>) -> Result<FlatFunctionList, Memory> {
    let mut functions = Items::new(alloc);
    for module in &design.modules {
        for function in &module.functions {
            functions.push(lowered(alloc, module, function)?)?;
        }
    }
    Ok(functions)
}

fn lowered(
    alloc: Global,
    module: &ModuleScope<'_>,
    function: &FunctionScope<'_>,
) -> Result<FlatFunction, Memory> {
    let (places, frame) = frame_of(alloc, function)?;
    let lowering = Lowering {
        alloc,
        scope: Scope {
            module,
            function: Some(function),
        },
        places: places.as_slice(),
    };
    Ok(FlatFunction {
        result: places.first().map_or(0, |place| place.width),
        inputs: input_widths(alloc, function)?,
        frame,
        body: lowering.stmts(function.function.body.as_slice())?,
    })
}

/// The places of a function's objects one behind the other, and how many bits they have together.
fn frame_of(alloc: Global, function: &FunctionScope<'_>) -> Result<(Vec<Place>, u32), Memory> {
    let mut places = Vec::new(alloc);
    let mut first: u32 = 0;
    for own in &function.own {
        let width = width_of(own.width);
        places.push(Place { first, width })?;
        first = first.saturating_add(width);
    }
    Ok((places, first))
}

fn input_widths(alloc: Global, function: &FunctionScope<'_>) -> Result<WidthList, Memory> {
    let mut widths = Items::new(alloc);
    for own in &function.own {
        if own.input {
            widths.push(width_of(own.width))?;
        }
    }
    Ok(widths)
}

/// A width that is within the limit of vectors.
fn width_of(width: u64) -> u32 {
    u32::try_from(width).unwrap_or(u32::MAX)
}
