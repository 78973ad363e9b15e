//! Elements without a source, and constants that are connected with ports.

use crate::index::{Index, list};
use std::alloc::Global;
use vv_base::fault::{Memory, cannot_come};
use vv_base::text::Text;
use vv_bits::{Bits4, V4};
use vv_design::{Design, Mode, Net, NetKind, Origin, Source};
use vv_lpart::{Layout, Part, Run, bits_of};
use vv_vtree::{VItem, VItemList};

/// For each net of an instance whether each scalar has a source there.
type Marks = Vec<Vec<bool>>;

/// Assigns the elements of signals and out ports of an instance that have no source in it their initial values.
pub fn unsourced(
    alloc: Global,
    design: &Design,
    index: &Index,
    inst: u32,
    into: &mut VItemList,
) -> Result<(), Memory> {
    let nets = list(&index.nets, inst);
    let marks = marked(alloc, design, index, inst)?;
    for (number, marks) in nets.iter().zip(marks.as_slice()) {
        let net = design.net(*number)?;
        if !driven_outside(net) {
            let name = index.names.get(*number as usize).ok_or(cannot_come())?;
            assign_rest(alloc, name, net, marks.as_slice(), into)?;
        }
    }
    Ok(())
}

/// Whether a net is driven by what stands round the instance.
fn driven_outside(net: &Net) -> bool {
    matches!(
        net.kind,
        NetKind::Port {
            mode: Mode::In,
            actual: _
        }
    )
}

/// What has a source in an instance.
fn marked(alloc: Global, design: &Design, index: &Index, inst: u32) -> Result<Marks, Memory> {
    let nets = list(&index.nets, inst);
    let mut marks: Marks = Vec::new(alloc);
    for number in nets {
        let size = design.net(*number)?.shape.size();
        marks.push(vec![in alloc; false; size as usize]?)?;
    }
    for proc in list(&index.procs, inst) {
        for driven in index.drivers.of_proc(*proc) {
            mark(nets, driven.net, driven.first, driven.count, &mut marks);
        }
    }
    for child in list(&index.insts, inst) {
        mark_ports(design, nets, list(&index.nets, *child), &mut marks)?;
    }
    Ok(marks)
}

/// Marks the scalars that out ports of an instance drive.
fn mark_ports(
    design: &Design,
    nets: &[u32],
    ports: &[u32],
    marks: &mut Marks,
) -> Result<(), Memory> {
    for port in ports {
        let port = design.net(*port)?;
        if let NetKind::Port {
            mode: Mode::Out | Mode::Inout,
            actual: Some(actual),
        } = port.kind
        {
            let first = port.first.saturating_sub(design.net(actual)?.first);
            mark(nets, actual, first, port.shape.size(), marks);
        }
    }
    Ok(())
}

/// Marks scalars of a net.
fn mark(nets: &[u32], net: u32, first: u32, count: u32, marks: &mut Marks) {
    if let Ok(at) = nets.binary_search(&net) {
        if let Some(flags) = marks.get_mut(at) {
            for k in 0..count {
                if let Some(flag) = flags.get_mut(first.saturating_add(k) as usize) {
                    *flag = true;
                }
            }
        }
    }
}

/// Assigns the scalars of a net that have no source, run by run.
fn assign_rest(
    alloc: Global,
    name: &Text,
    net: &Net,
    sourced: &[bool],
    into: &mut VItemList,
) -> Result<(), Memory> {
    let mut begin: Option<usize> = None;
    for (at, flag) in sourced.iter().enumerate() {
        match (begin, *flag) {
            (Some(first), true) => {
                assign(alloc, name, net, first, at, into)?;
                begin = None;
            }
            (None, false) => begin = Some(at),
            _ => {}
        }
    }
    match begin {
        Some(first) => assign(alloc, name, net, first, sourced.len(), into),
        None => Ok(()),
    }
}

/// Assigns the scalars from `begin` to the one before `end`.
fn assign(
    alloc: Global,
    name: &Text,
    net: &Net,
    begin: usize,
    end: usize,
    into: &mut VItemList,
) -> Result<(), Memory> {
    let width = Layout::of(&net.subtype).width();
    let size = net.shape.size();
    let count = end.saturating_sub(begin).min(0xffff_ffff) as u32;
    let behind = (size as usize).saturating_sub(end).min(0xffff_ffff) as u32;
    let low = behind.saturating_mul(width);
    let bits = count.saturating_mul(width);
    let kept = initial_bits(alloc, net, low, bits)?;
    let name = Text::from_slice(alloc, name.as_slice())?;
    let run = Run::whole(name, size.saturating_mul(width));
    Ok(into.push(VItem::Assign {
        target: run.part(low, bits).select(),
        value: Part::bits(kept).expr,
        at: 0,
    })?)
}

/// The bits of a net's initial value from `low` on.
fn initial_bits(alloc: Global, net: &Net, low: u32, bits: u32) -> Result<Bits4, Memory> {
    let width = Layout::of(&net.subtype).width();
    let all = bits_of(alloc, &net.initial, width)?;
    let last = all.len().saturating_sub(low as usize);
    let first = last.saturating_sub(bits as usize);
    let mut kept = Bits4::new(alloc);
    for bit in all.as_slice().iter().take(last).skip(first) {
        kept.push(*bit)?;
    }
    Ok(kept)
}

/// The bits of the constants that are connected with an in port, and those of its initial value where none is.
pub fn constant_of(
    alloc: Global,
    design: &Design,
    index: &Index,
    number: u32,
) -> Result<Bits4, Memory> {
    let port = design.net(number)?;
    let width = Layout::of(&port.subtype).width();
    let initial = bits_of(alloc, &port.initial, width)?;
    let mut bits = Vec::from_slice(alloc, initial.as_slice())?;
    for source in list(&index.constants, number) {
        if let Some(source) = design.sources.get(*source as usize) {
            put_constant(alloc, source, port.first, width, &mut bits)?;
        }
    }
    Ok(Bits4::from_slice(alloc, bits.as_slice())?)
}

/// Puts the bits of a constant source of a port whose first element is `first`.
fn put_constant(
    alloc: Global,
    source: &Source,
    first: u32,
    width: u32,
    bits: &mut Vec<V4>,
) -> Result<(), Memory> {
    if let Origin::Constant { net: _, values } = &source.from {
        let mut at = source.run.first.saturating_sub(first).saturating_mul(width) as usize;
        for value in values.as_slice() {
            let part = bits_of(alloc, value, width)?;
            for bit in part.as_slice() {
                if let Some(slot) = bits.get_mut(at) {
                    *slot = *bit;
                }
                at = at.saturating_add(1);
            }
        }
    }
    Ok(())
}
