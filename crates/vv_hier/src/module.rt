//! A module.

use crate::constants::unsourced;
use crate::functions::functions;
use crate::index::{Index, list};
use crate::instances::instances_before;
use crate::puts::put_function;
use sqlite_items::Items;
use std::alloc::Global;
use std::mem;
use vv_base::fault::{Memory, cannot_come};
use vv_base::text::Text;
use vv_bits::V4;
use vv_design::{Design, Inst, Mode, Net, NetKind, Plan};
use vv_inline::finish;
use vv_lpart::{Layout, bits_of, name_of, range_of};
use vv_lproc::{Lowered, lower_proc};
use vv_lstate::{Put, PutList};
use vv_vtree::{
    Module, VBits, VDeclaration, VDirection, VItem, VItemList, VName, VPort, VPortList,
};

/// What is written so far of the concurrent statements of a module.
#[derive(Drop)]
struct Body {
    module: vv_inline::Module,
    items: VItemList,
    called: Items<u32>,
    puts: PutList,
}

/// Writes the module of an instance's specialisation.
pub fn module(
    alloc: Global,
    design: &Design,
    plan: &Plan,
    index: &Index,
    number: u32,
) -> Result<Module, Memory> {
    let mut ports = Items::new(alloc);
    let mut items = Items::new(alloc);
    for net in list(&index.nets, number) {
        declare(alloc, design, index, *net, &mut ports, &mut items)?;
    }
    let Body {
        mut module,
        items: written,
        called,
        puts,
    } = written_body(alloc, design, plan, index, number)?;
    functions(
        alloc,
        design,
        index,
        called.as_slice(),
        &mut module,
        &mut items,
    )?;
    push_puts(alloc, puts.as_slice(), &mut items)?;
    unsourced(alloc, design, index, number, &mut items)?;
    items.append(written)?;
    Ok(Module {
        name: module_name(alloc, index, design.inst(number)?)?,
        ports,
        items,
        at: 0,
    })
}

/// Appends the functions that put bits.
fn push_puts(alloc: Global, puts: &[Put], items: &mut VItemList) -> Result<(), Memory> {
    let mut number = 0u32;
    for put in puts {
        items.push(VItem::Function(put_function(alloc, number, *put)?))?;
        number = number.saturating_add(1);
    }
    Ok(())
}

/// The processes and instances, in the order of the text.
fn written_body(
    alloc: Global,
    design: &Design,
    plan: &Plan,
    index: &Index,
    number: u32,
) -> Result<Body, Memory> {
    let mut body = Body {
        module: vv_inline::Module::new(alloc),
        items: Items::new(alloc),
        called: Items::new(alloc),
        puts: Items::new(alloc),
    };
    let mut at = 0usize;
    for proc in list(&index.procs, number) {
        at = instances_before(
            alloc,
            design,
            index,
            number,
            *proc,
            at,
            &mut body.module,
            &mut body.items,
        )?;
        push_process(alloc, design, plan, index, *proc, &mut body)?;
    }
    instances_before(
        alloc,
        design,
        index,
        number,
        0xffff_ffff,
        at,
        &mut body.module,
        &mut body.items,
    )?;
    Ok(body)
}

/// Writes a process.
fn push_process(
    alloc: Global,
    design: &Design,
    plan: &Plan,
    index: &Index,
    proc: u32,
    body: &mut Body,
) -> Result<(), Memory> {
    let puts = mem::replace(&mut body.puts, Items::new(alloc));
    let Lowered {
        owns,
        items,
        called,
        puts,
    } = lower_proc(
        alloc,
        design,
        plan,
        &index.names,
        &index.drivers,
        proc,
        puts,
    )?;
    body.puts = puts;
    body.called.append(called)?;
    finish(alloc, &owns, items, &mut body.module, &mut body.items)
}

/// The name of the module of an instance.
pub fn module_name(alloc: Global, index: &Index, inst: &Inst) -> Result<VName, Memory> {
    let name = index.modules.get(inst.spec as usize).ok_or(cannot_come())?;
    Ok(name_of(Text::from_slice(alloc, name.as_slice())?))
}

/// The port or the declaration of a net.
fn declare(
    alloc: Global,
    design: &Design,
    index: &Index,
    number: u32,
    ports: &mut VPortList,
    items: &mut VItemList,
) -> Result<(), Memory> {
    let net = design.net(number)?;
    let name = net_name(alloc, index, number)?;
    let range = range_of(width_of(net));
    match net.kind {
        NetKind::Port { mode, actual: _ } => ports.push(VPort {
            direction: direction(mode),
            range,
            name,
            at: 0,
        })?,
        NetKind::Signal => {
            let declaration = VDeclaration { range, name, at: 0 };
            let is_reg = index.regs.get(number as usize).copied().unwrap_or(false);
            declare_signal(alloc, net, declaration, is_reg, items)?;
        }
    }
    Ok(())
}

/// The declaration of a signal.
fn declare_signal(
    alloc: Global,
    net: &Net,
    declaration: VDeclaration,
    is_reg: bool,
    items: &mut VItemList,
) -> Result<(), Memory> {
    if !is_reg {
        return Ok(items.push(VItem::Wire(declaration))?);
    }
    let initial = start_of(alloc, net)?;
    Ok(items.push(VItem::Reg {
        declaration,
        initial,
    })?)
}

/// The name of a net within its module.
pub fn net_name(alloc: Global, index: &Index, net: u32) -> Result<VName, Memory> {
    let name = index.names.get(net as usize).ok_or(cannot_come())?;
    Ok(name_of(Text::from_slice(alloc, name.as_slice())?))
}

/// How many bits a net has.
pub fn width_of(net: &Net) -> u32 {
    Layout::of(&net.subtype)
        .width()
        .saturating_mul(net.shape.size())
}

fn direction(mode: Mode) -> VDirection {
    match mode {
        Mode::In => VDirection::Input,
        Mode::Out => VDirection::Output,
        Mode::Inout => VDirection::Inout,
    }
}

/// The bits of a register at the start, unless all are unknown.
fn start_of(alloc: Global, net: &Net) -> Result<Option<VBits>, Memory> {
    let bits = bits_of(alloc, &net.initial, Layout::of(&net.subtype).width())?;
    if bits.as_slice().iter().all(|bit| matches!(bit, V4::X)) {
        Ok(None)
    } else {
        Ok(Some(VBits { bits, at: 0 }))
    }
}
