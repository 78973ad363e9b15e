//! The instances that stand in a module.

use crate::constants::constant_of;
use crate::index::{Index, list};
use crate::module::{module_name, net_name, width_of};
use sqlite_items::Items;
use std::alloc::Global;
use vv_base::fault::Memory;
use vv_base::text::Text;
use vv_design::{Design, Mode, Net, NetKind};
use vv_inline::Module;
use vv_lpart::{Layout, Part, Run, mangled, name_of, range_of};
use vv_lproc::{last_part, within};
use vv_vtree::{VConnection, VDeclaration, VInstance, VItem, VItemList, VPart, VSelect};

/// Writes the instances of a module that stand before the process with a number, from that at `at` on, and tells how many are written.
pub fn instances_before(
    alloc: Global,
    design: &Design,
    index: &Index,
    number: u32,
    proc: u32,
    at: usize,
    module: &mut Module,
    items: &mut VItemList,
) -> Result<usize, Memory> {
    let mut next = at;
    for child in rest_of(list(&index.insts, number), at) {
        if design.inst(*child)?.procs_before > proc {
            return Ok(next);
        }
        let instance = instance(alloc, design, index, number, *child, module, items)?;
        items.push(VItem::Instance(instance))?;
        next = next.saturating_add(1);
    }
    Ok(next)
}

/// A list from the one at `at` on.
fn rest_of(numbers: &[u32], at: usize) -> &[u32] {
    match numbers.get(at..) {
        Some(rest) => rest,
        None => &[],
    }
}

/// An instance. Its constants get wires before it.
fn instance(
    alloc: Global,
    design: &Design,
    index: &Index,
    number: u32,
    child: u32,
    module: &mut Module,
    items: &mut VItemList,
) -> Result<VInstance, Memory> {
    let outer = design.inst(number)?.path.as_slice();
    let found = design.inst(child)?;
    let mut connections = Items::new(alloc);
    for port in list(&index.nets, child) {
        if let Some(connection) = connection(alloc, design, index, *port, module, items)? {
            connections.push(connection)?;
        }
    }
    Ok(VInstance {
        module: module_name(alloc, index, found)?,
        name: name_of(mangled(alloc, within(outer, found.path.as_slice()))?),
        connections,
    })
}

/// How a port is connected. A constant gets a wire. A signal of the instance is not connected.
fn connection(
    alloc: Global,
    design: &Design,
    index: &Index,
    number: u32,
    module: &mut Module,
    items: &mut VItemList,
) -> Result<Option<VConnection>, Memory> {
    let port = design.net(number)?;
    let actual = match port.kind {
        NetKind::Signal => return Ok(None),
        NetKind::Port {
            mode: _,
            actual: Some(actual),
        } => Some(joined_with(alloc, design, index, port, actual)?),
        NetKind::Port {
            mode: Mode::In,
            actual: None,
        } => Some(constant(alloc, design, index, number, module, items)?),
        NetKind::Port {
            mode: _,
            actual: None,
        } => None,
    };
    Ok(Some(VConnection {
        formal: net_name(alloc, index, number)?,
        actual,
        at: 0,
    }))
}

/// The part of the actual.
fn joined_with(
    alloc: Global,
    design: &Design,
    index: &Index,
    port: &Net,
    actual: u32,
) -> Result<VSelect, Memory> {
    let net = design.net(actual)?;
    let width = Layout::of(&net.subtype).width();
    let size = net.shape.size();
    let count = port.shape.size();
    let first = port.first.saturating_sub(net.first);
    let behind = size.saturating_sub(first).saturating_sub(count);
    let run = Run::whole(
        net_name(alloc, index, actual)?.text,
        size.saturating_mul(width),
    );
    Ok(
        run.part(behind.saturating_mul(width), count.saturating_mul(width))
            .select(),
    )
}

/// The wire of a constant that is connected with a port.
fn constant(
    alloc: Global,
    design: &Design,
    index: &Index,
    number: u32,
    module: &mut Module,
    items: &mut VItemList,
) -> Result<VSelect, Memory> {
    let port = design.net(number)?;
    let name = module.next_name(alloc, last_part(port.path.as_slice()))?;
    let bits = constant_of(alloc, design, index, number)?;
    let declared = Text::from_slice(alloc, name.as_slice())?;
    items.push(VItem::Wire(VDeclaration {
        range: range_of(width_of(port)),
        name: name_of(declared),
        at: 0,
    }))?;
    let target = Text::from_slice(alloc, name.as_slice())?;
    items.push(VItem::Assign {
        target: whole(target),
        value: Part::bits(bits).expr,
        at: 0,
    })?;
    Ok(whole(name))
}

/// All of an object.
fn whole(name: Text) -> VSelect {
    VSelect {
        name: name_of(name),
        part: VPart::Whole,
    }
}
