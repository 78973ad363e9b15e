//! A function.

use sqlite_items::Items;
use std::alloc::Global;
use vv_base::fault::Memory;
use vv_base::text::Text;
use vv_design::{Design, Function};
use vv_lexpr::{function_name, value_at};
use vv_lpart::{Layout, Run, mangled, name_of, own_name, range_of, scalars};
use vv_lstate::{Lowering, Mode, NameList, Object, OwnList};
use vv_lstmt::Keeper;
use vv_types::Subtype;
use vv_vtree::{VDeclaration, VDeclarationList, VFunction, VSign};

/// A written function, the functions that it calls, and its own registers, which have the names of their numbers from 0.
#[derive(Drop)]
pub struct LoweredFunction {
    pub function: VFunction,
    pub called: Items<u32>,
    pub owns: OwnList,
}

/// Writes the function with a number.
pub fn lower_fun(
    alloc: Global,
    design: &Design,
    names: &NameList,
    number: u32,
) -> Result<LoweredFunction, Memory> {
    let function = design.function(number)?;
    let mut low = Lowering::new(alloc, design, names, Mode::Function, Items::new(alloc));
    let inputs = inputs(&mut low, function)?;
    let mut regs = locals(&mut low, function)?;
    write_body(&mut low, number, function)?;
    let Lowering {
        stmts,
        owns,
        called,
        ..
    } = low;
    push_owns(alloc, &owns, &mut regs)?;
    Ok(LoweredFunction {
        function: VFunction {
            range: range_of(width_of(&function.result)),
            name: name_of(function_name(alloc, number, function)?),
            inputs,
            regs,
            body: stmts,
            at: 0,
        },
        called,
        owns,
    })
}

/// The declarations of the parameters, which become objects.
fn inputs(low: &mut Lowering<'_>, function: &Function) -> Result<VDeclarationList, Memory> {
    let mut inputs = Items::new(low.alloc);
    for param in function.params.as_slice() {
        push_object(low, param.name.as_slice(), &param.subtype)?;
        inputs.push(declared(low.alloc, param.name.as_slice(), &param.subtype)?)?;
    }
    Ok(inputs)
}

/// The declarations of the locals, which become objects.
fn locals(low: &mut Lowering<'_>, function: &Function) -> Result<VDeclarationList, Memory> {
    let mut regs = Items::new(low.alloc);
    for local in function.locals.as_slice() {
        push_object(low, local.name.as_slice(), &local.subtype)?;
        regs.push(declared(low.alloc, local.name.as_slice(), &local.subtype)?)?;
    }
    Ok(regs)
}

/// Appends the declarations of own registers.
fn push_owns(alloc: Global, owns: &OwnList, regs: &mut VDeclarationList) -> Result<(), Memory> {
    for (number, own) in owns.as_slice().iter().enumerate() {
        let name = own_name(alloc, number.min(0xffff_ffff) as u32, b"")?;
        regs.push(VDeclaration {
            range: range_of(own.width),
            name: name_of(name),
            at: 0,
        })?;
    }
    Ok(())
}

/// The initial values of the locals, and the statements.
fn write_body(low: &mut Lowering<'_>, number: u32, function: &Function) -> Result<(), Memory> {
    for local in function.locals.as_slice() {
        let layout = Layout::of(&local.subtype);
        let value = value_at(&local.initial, layout.width(), low)?;
        let name = mangled(low.alloc, local.name.as_slice())?;
        let run = Run::whole(name, value.width);
        low.assign(run.reference(), VSign::Blocking, value)?;
    }
    let result = function_name(low.alloc, number, function)?;
    let signals = Items::new(low.alloc);
    let mut keeper = Keeper {
        low,
        signals,
        result: Some(result),
        result_layout: Some(Layout::of(&function.result)),
    };
    keeper.stmts(function.body.as_slice())
}

fn push_object(low: &mut Lowering<'_>, name: &[u8], subtype: &Subtype) -> Result<(), Memory> {
    let text = mangled(low.alloc, name)?;
    low.objects.push(Object {
        layout: Layout::of(subtype),
        size: scalars(subtype),
        name: Some(text),
        hint: Text::from_slice(low.alloc, name)?,
    })?;
    low.present.push(Items::new(low.alloc))?;
    Ok(())
}

fn declared(alloc: Global, name: &[u8], subtype: &Subtype) -> Result<VDeclaration, Memory> {
    Ok(VDeclaration {
        range: range_of(width_of(subtype)),
        name: name_of(mangled(alloc, name)?),
        at: 0,
    })
}

/// How many bits an object of a subtype has.
fn width_of(subtype: &Subtype) -> u32 {
    Layout::of(subtype).width().saturating_mul(scalars(subtype))
}
