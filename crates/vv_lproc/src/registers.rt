//! Registers of processes, and the bits of nets at the start.

use crate::drivers::{Driven, Drivers};
use crate::process::last_part;
use sqlite_items::Items;
use vv_base::fault::{Memory, cannot_come};
use vv_base::text::Text;
use vv_bits::{Bits4, V4};
use vv_lpart::{Run, bits_of};
use vv_lstate::{Lowering, OwnKind};
use vv_vtree::{VBits, VItem, VItemList};

/// A register: its net, the first of the net's bits that it has, and its run. `own` is whether it is an own register, from which the net
/// is assigned.
#[derive(Drop)]
pub struct Register {
    pub net: u32,
    pub low: u32,
    pub run: Run,
    pub own: bool,
}

pub type RegisterList = Items<Register>;

/// The registers of a process by the spans that it drives. One that is no whole signal by itself is an own register, from which the net
/// is assigned.
pub fn registers(
    low: &mut Lowering<'_>,
    drivers: &Drivers,
    spans: &[Driven],
    driven: &[Driven],
    items: &mut VItemList,
) -> Result<RegisterList, Memory> {
    let mut registers: RegisterList = Items::new(low.alloc);
    for span in spans {
        if drivers.is_sole(span.net) {
            registers.push(Register {
                net: span.net,
                low: 0,
                run: low.net_run(span.net)?,
                own: false,
            })?;
        } else {
            registers.push(own_register(low, *span)?)?;
        }
    }
    for run in driven {
        let register = register_of(registers.as_slice(), run.net)?;
        if register.own {
            assign_from(low, register, *run, items)?;
        }
    }
    Ok(registers)
}

/// The register of a net; they stand in order of their nets.
pub fn register_of(registers: &[Register], net: u32) -> Result<&Register, Memory> {
    match registers.binary_search_by_key(&net, |register| register.net) {
        Ok(at) => registers.get(at).ok_or(cannot_come()),
        Err(_) => Err(cannot_come()),
    }
}

/// An own register for some scalars of a net.
fn own_register(low: &mut Lowering<'_>, span: Driven) -> Result<Register, Memory> {
    let hint = hint_of(low, span.net)?;
    let (from, bits) = bits_of_driven(low, span)?;
    let initial = initial_bits(low, span.net, from, bits)?;
    let own = low.push_own(bits, hint.as_slice(), OwnKind::Reg(initial))?;
    Ok(Register {
        net: span.net,
        low: from,
        run: low.own_run(own)?,
        own: true,
    })
}

/// Assigns scalars of a net from a register.
fn assign_from(
    low: &Lowering<'_>,
    register: &Register,
    driven: Driven,
    items: &mut VItemList,
) -> Result<(), Memory> {
    let (from, bits) = bits_of_driven(low, driven)?;
    let target = low.net_run(driven.net)?.part(from, bits).select();
    let value = register
        .run
        .copy(low.alloc)?
        .part(from.saturating_sub(register.low), bits)
        .read();
    items.push(VItem::Assign {
        target,
        value: value.expr,
        at: 0,
    })?;
    Ok(())
}

/// The last name of a net.
pub fn hint_of(low: &Lowering<'_>, net: u32) -> Result<Text, Memory> {
    Text::from_slice(low.alloc, last_part(low.design.net(net)?.path.as_slice()))
}

/// The bits of some scalars of a net: from which on, and how many.
pub fn bits_of_driven(low: &Lowering<'_>, driven: Driven) -> Result<(u32, u32), Memory> {
    let width = low.net_layout(driven.net)?.width();
    let behind = low
        .design
        .net(driven.net)?
        .shape
        .size()
        .saturating_sub(driven.end());
    Ok((
        behind.saturating_mul(width),
        driven.count.saturating_mul(width),
    ))
}

/// Written bits as the value of a register at the start, unless all are unknown.
pub fn known_bits(bits: Bits4) -> Option<VBits> {
    if bits.as_slice().iter().all(|bit| matches!(bit, V4::X)) {
        None
    } else {
        Some(VBits { bits, at: 0 })
    }
}

/// The bits of a net at the start, unless all are unknown.
fn initial_bits(
    low: &Lowering<'_>,
    net: u32,
    from: u32,
    bits: u32,
) -> Result<Option<VBits>, Memory> {
    Ok(known_bits(start_of(low, net, from, bits)?))
}

/// The bits of a net's initial value.
pub fn start_of(low: &Lowering<'_>, net: u32, from: u32, bits: u32) -> Result<Bits4, Memory> {
    let mut kept = Bits4::new(low.alloc);
    let width = low.net_layout(net)?.width();
    let all = bits_of(low.alloc, &low.design.net(net)?.initial, width)?;
    let end = all.len().saturating_sub(from as usize);
    let begin = end.saturating_sub(bits as usize);
    for bit in all.as_slice().iter().take(end).skip(begin) {
        kept.push(*bit)?;
    }
    Ok(kept)
}
