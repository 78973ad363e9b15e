//! The items of a process as they are in the end.

use crate::count::{Counts, Reads};
use crate::events::events;
use crate::rebuild::{Instead, Rebuild, put, rebuilt};
use crate::size::{depth_of, size_of};
use crate::statements::{block_of, stmts_of};
use crate::tables::{TableList, known_table, note_table};
use sqlite_items::Items;
use std::alloc::Global;
use vv_base::fault::{Memory, cannot_come};
use vv_base::text::Text;
use vv_bits::Bits4;
use vv_lpart::{Run, name_of, own_name, range_of};
use vv_lstate::{Own, OwnKind, OwnList};
use vv_vtree::{
    VAlways, VBits, VDeclaration, VDeclarationList, VEvent, VEventList, VExpr, VExprList,
    VFunction, VItem, VItemList, VPart, VReference, VSelect,
};

/// As many parts as an expression has that is put in place of a read.
const SMALL: u32 = 48;

/// As deep as an expression is that is put in place of a read.
const SHALLOW: u32 = 400;

/// What a module has so far: the number of its next own object, and its tables.
#[derive(Drop)]
pub struct Module {
    pub next: u32,
    pub tables: TableList,
}

impl Module {
    /// Nothing yet.
    pub fn new(alloc: Global) -> Module {
        Module {
            next: 0,
            tables: Items::new(alloc),
        }
    }

    /// The name of the next own object.
    pub fn next_name(&mut self, alloc: Global, hint: &[u8]) -> Result<Text, Memory> {
        let name = own_name(alloc, self.next, hint)?;
        self.next = self.next.saturating_add(1);
        Ok(name)
    }
}

/// Puts own wires in place, and writes the items of a process with the declarations of the own objects that are left.
pub fn finish(
    alloc: Global,
    owns: &OwnList,
    items: VItemList,
    module: &mut Module,
    into: &mut VItemList,
) -> Result<(), Memory> {
    let counts = counted(alloc, owns.as_slice(), items.as_slice())?;
    let mut rebuild = Rebuild {
        alloc,
        instead: Vec::new(alloc),
    };
    for (number, own) in owns.as_slice().iter().enumerate() {
        let instead = settled(&mut rebuild, own, counts.of(number), module, into)?;
        rebuild.instead.push(instead)?;
    }
    write_items(&mut rebuild, items, into)
}

/// The reads of own objects by what is written in the end.
fn counted(alloc: Global, owns: &[Own], items: &[VItem]) -> Result<Counts, Memory> {
    let mut counts = Counts::new(alloc, owns.len())?;
    for item in items {
        counts.item(item);
    }
    for (number, own) in owns.iter().enumerate().rev() {
        if counts.of(number).count > 0 {
            if let OwnKind::Wire(value) = &own.kind {
                counts.expr(value);
            }
        }
    }
    Ok(counts)
}

/// What stands in place of an own object. One that keeps a name is declared, and a wire assigned.
fn settled(
    rebuild: &mut Rebuild,
    own: &Own,
    reads: Reads,
    module: &mut Module,
    into: &mut VItemList,
) -> Result<Instead, Memory> {
    if reads.count == 0 {
        return Ok(Instead::Nothing);
    }
    match &own.kind {
        OwnKind::Wire(value) => {
            let mut list = Items::new(rebuild.alloc);
            put(value, rebuild, &mut list)?;
            settled_wire(rebuild.alloc, own, &mut list, reads, module, into)
        }
        OwnKind::Reg(initial) => {
            let name = module.next_name(rebuild.alloc, own.hint.as_slice())?;
            into.push(VItem::Reg {
                declaration: declared(rebuild.alloc, &name, own.width)?,
                initial: copied_bits(rebuild.alloc, initial)?,
            })?;
            Ok(Instead::Name(name))
        }
    }
}

/// What stands in place of a wire with the value that stands alone in a list.
fn settled_wire(
    alloc: Global,
    own: &Own,
    list: &mut VExprList,
    reads: Reads,
    module: &mut Module,
    into: &mut VItemList,
) -> Result<Instead, Memory> {
    if is_placed(list, reads) {
        return placed(list, own.width);
    }
    if let Some(name) = known_table(alloc, &module.tables, list)? {
        return Ok(Instead::Name(name));
    }
    let name = module.next_name(alloc, own.hint.as_slice())?;
    note_table(alloc, &mut module.tables, &name, list)?;
    into.push(VItem::Wire(declared(alloc, &name, own.width)?))?;
    assign(alloc, &name, list, into)?;
    Ok(Instead::Name(name))
}

/// Assigns the last of a list to a wire.
fn assign(
    alloc: Global,
    name: &Text,
    list: &mut VExprList,
    into: &mut VItemList,
) -> Result<(), Memory> {
    let target = VSelect {
        name: name_of(Text::from_slice(alloc, name.as_slice())?),
        part: VPart::Whole,
    };
    match list.pop() {
        Some(value) => Ok(into.push(VItem::Assign {
            target,
            value,
            at: 0,
        })?),
        None => Err(cannot_come()),
    }
}

/// Whether the last of a list stands in place of the wire that has it.
fn is_placed(list: &VExprList, reads: Reads) -> bool {
    match list.as_slice().last() {
        Some(VExpr::Bits(_)) => !reads.name,
        Some(VExpr::Reference(VReference::Select(select))) => {
            !reads.name || matches!(select.part, VPart::Whole)
        }
        Some(other) => {
            reads.count == 1
                && !reads.name
                && !reads.part
                && size_of(other, SMALL) <= SMALL
                && depth_of(other) <= SHALLOW
        }
        None => false,
    }
}

/// What stands in place of a wire whose value is the last of a list.
fn placed(list: &mut VExprList, width: u32) -> Result<Instead, Memory> {
    match list.pop() {
        Some(VExpr::Bits(bits)) => Ok(Instead::Bits(bits.bits)),
        Some(VExpr::Reference(VReference::Select(select))) => {
            let VSelect { name, part } = select;
            Ok(Instead::Alias(alias(Run::whole(name.text, width), part)))
        }
        Some(other) => Ok(Instead::Value(other)),
        None => Err(cannot_come()),
    }
}

/// The run that a select of an object of unknown size reads.
fn alias(run: Run, part: VPart) -> Run {
    match part {
        VPart::Whole => run,
        VPart::Bit(low) => Run {
            name: run.name,
            low,
            bits: 1,
            whole: false,
        },
        VPart::Slice { high, low } => Run {
            name: run.name,
            low,
            bits: high.saturating_sub(low).saturating_add(1),
            whole: false,
        },
    }
}

/// The declaration of an own object.
fn declared(alloc: Global, name: &Text, width: u32) -> Result<VDeclaration, Memory> {
    Ok(VDeclaration {
        range: range_of(width),
        name: name_of(Text::from_slice(alloc, name.as_slice())?),
        at: 0,
    })
}

fn copied_bits(alloc: Global, bits: &Option<VBits>) -> Result<Option<VBits>, Memory> {
    match bits {
        Some(bits) => Ok(Some(VBits {
            bits: Bits4::from_slice(alloc, bits.bits.as_slice())?,
            at: 0,
        })),
        None => Ok(None),
    }
}

/// Writes the items.
fn write_items(
    rebuild: &mut Rebuild,
    items: VItemList,
    into: &mut VItemList,
) -> Result<(), Memory> {
    let mut turned = turned(rebuild.alloc, items)?;
    for _ in 0..turned.len() {
        if let Some(item) = turned.pop() {
            put_item(rebuild, item, into)?;
        }
    }
    Ok(())
}

/// A list from its last one.
fn turned(alloc: Global, items: VItemList) -> Result<VItemList, Memory> {
    let mut left = items;
    let mut turned = Items::new(alloc);
    for _ in 0..left.len() {
        if let Some(item) = left.pop() {
            turned.push(item)?;
        }
    }
    Ok(turned)
}

fn put_item(rebuild: &mut Rebuild, item: VItem, into: &mut VItemList) -> Result<(), Memory> {
    match item {
        VItem::Assign {
            target,
            value,
            at: _,
        } => put_assign(rebuild, &target, &value, into),
        VItem::Always(always) => put_always(rebuild, &always, into),
        other => Ok(into.push(other)?),
    }
}

fn put_assign(
    rebuild: &mut Rebuild,
    target: &VSelect,
    value: &VExpr,
    into: &mut VItemList,
) -> Result<(), Memory> {
    let target = rebuild.select(target)?;
    let value = rebuilt(value, rebuild)?;
    Ok(into.push(VItem::Assign {
        target,
        value,
        at: 0,
    })?)
}

/// An always construct. Where no events are known yet, they are those of what it reads.
fn put_always(rebuild: &mut Rebuild, always: &VAlways, into: &mut VItemList) -> Result<(), Memory> {
    let block = block_of(&always.block, rebuild)?;
    let events = if always.events.is_empty() {
        events(rebuild.alloc, &block)?
    } else {
        events_of(rebuild, &always.events)?
    };
    Ok(into.push(VItem::Always(VAlways {
        events,
        block,
        at: 0,
    }))?)
}

fn events_of(rebuild: &Rebuild, events: &VEventList) -> Result<VEventList, Memory> {
    let mut done = Items::new(rebuild.alloc);
    for event in events.as_slice() {
        done.push(VEvent {
            edge: event.edge,
            name: rebuild.name(&event.name)?,
            at: 0,
        })?;
    }
    Ok(done)
}

/// A function with its own registers numbered on from those of the module.
pub fn finish_function(
    alloc: Global,
    function: VFunction,
    owns: &OwnList,
    module: &mut Module,
) -> Result<VFunction, Memory> {
    let mut rebuild = Rebuild {
        alloc,
        instead: Vec::new(alloc),
    };
    for own in owns.as_slice() {
        let name = module.next_name(alloc, own.hint.as_slice())?;
        rebuild.instead.push(Instead::Name(name))?;
    }
    let regs = renamed(&rebuild, &function.regs)?;
    let body = stmts_of(function.body.as_slice(), &mut rebuild)?;
    Ok(VFunction {
        range: function.range,
        name: function.name,
        inputs: function.inputs,
        regs,
        body,
        at: 0,
    })
}

fn renamed(rebuild: &Rebuild, regs: &VDeclarationList) -> Result<VDeclarationList, Memory> {
    let mut done = Items::new(rebuild.alloc);
    for declaration in regs.as_slice() {
        done.push(VDeclaration {
            range: declaration.range,
            name: rebuild.name(&declaration.name)?,
            at: 0,
        })?;
    }
    Ok(done)
}
