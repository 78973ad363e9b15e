//! A process of any kind.

use crate::clocked::clocked;
use crate::comb::comb;
use crate::drivers::{Driven, Drivers};
use crate::latch::latch;
use sqlite_items::Items;
use std::alloc::Global;
use vv_base::fault::{Memory, cannot_come};
use vv_base::text::Text;
use vv_design::{Design, Kind, Plan, Proc};
use vv_lpart::{Layout, mangled};
use vv_lstate::{Lowering, Mode, NameList, Object, OwnList, PutList};
use vv_vtree::VItemList;

/// What a process becomes: own objects, and the items that use them; the functions that it calls, and those that put bits.
#[derive(Drop)]
pub struct Lowered {
    pub owns: OwnList,
    pub items: VItemList,
    pub called: Items<u32>,
    pub puts: PutList,
}

/// Writes a process. `puts` are the functions that put bits that its module has already.
pub fn lower_proc(
    alloc: Global,
    design: &Design,
    plan: &Plan,
    names: &NameList,
    drivers: &Drivers,
    proc: u32,
    puts: PutList,
) -> Result<Lowered, Memory> {
    let body = design.proc(proc)?;
    let kind = plan.kinds.get(proc as usize).ok_or(cannot_come())?;
    let mode = match kind {
        Kind::Clocked { .. } => Mode::Process,
        Kind::Comb | Kind::Latch { .. } => Mode::Wires,
    };
    let mut low = Lowering::new(alloc, design, names, mode, puts);
    push_variables(&mut low, body)?;
    let mut items = Items::new(alloc);
    write(
        &mut low,
        drivers,
        drivers.of_proc(proc),
        body,
        kind,
        &mut items,
    )?;
    let Lowering {
        owns,
        called,
        puts,
        ..
    } = low;
    Ok(Lowered {
        owns,
        items,
        called,
        puts,
    })
}

/// Writes the items of a process of a kind.
fn write(
    low: &mut Lowering<'_>,
    drivers: &Drivers,
    driven: &[Driven],
    proc: &Proc,
    kind: &Kind,
    items: &mut VItemList,
) -> Result<(), Memory> {
    match kind {
        Kind::Comb => comb(low, driven, proc.body.as_slice(), items),
        Kind::Clocked {
            clock: _,
            rising,
            controls,
        } => clocked(
            low,
            drivers,
            driven,
            proc,
            *rising,
            controls.as_slice(),
            items,
        ),
        Kind::Latch {
            enable: _,
            level,
            controls,
        } => latch(
            low,
            drivers,
            driven,
            proc.body.as_slice(),
            *level,
            controls.as_slice(),
            items,
        ),
    }
}

/// The variables of a process. Where they are registers they have names.
fn push_variables(low: &mut Lowering<'_>, proc: &Proc) -> Result<(), Memory> {
    let design = low.design;
    let instance = design.inst(proc.inst)?.path.as_slice();
    for var in proc.vars.as_slice() {
        let name = match low.mode {
            Mode::Process => Some(variable_name(low.alloc, instance, var.path.as_slice())?),
            Mode::Wires | Mode::Function => None,
        };
        low.objects.push(Object {
            layout: Layout::of(&var.subtype),
            size: var.shape.size(),
            name,
            hint: Text::from_slice(low.alloc, last_part(var.path.as_slice()))?,
        })?;
        low.present.push(Items::new(low.alloc))?;
    }
    Ok(())
}

/// The name of a variable within its module, of the path of its instance and its own.
pub fn variable_name(alloc: Global, instance: &[u8], path: &[u8]) -> Result<Text, Memory> {
    mangled(alloc, within(instance, path))
}

/// The rest of a path behind that of an instance.
pub fn within<'p>(instance: &[u8], path: &'p [u8]) -> &'p [u8] {
    if instance.is_empty() {
        return path;
    }
    match path.get(instance.len().saturating_add(1)..) {
        Some(rest) => rest,
        None => path,
    }
}

/// The last name of a path.
pub fn last_part(path: &[u8]) -> &[u8] {
    let mut from = 0usize;
    for (at, byte) in path.iter().enumerate() {
        if *byte == b'.' {
            from = at.saturating_add(1);
        }
    }
    match path.get(from..) {
        Some(rest) => rest,
        None => path,
    }
}
