//! Rebuilding expressions with own wires put in place of their reads.

use crate::simple::{put_conditional, put_unary};
use sqlite_items::{Boxed, Items};
use std::alloc::Global;
use std::mem;
use vv_base::fault::{Memory, cannot_come};
use vv_base::text::Text;
use vv_bits::Bits4;
use vv_lpart::{Joined, Part, Run, name_of, own_number};
use vv_vtree::{VBinary, VBits, VExpr, VExprList, VName, VPart, VReference, VSelect};

/// What stands in place of the reads of an own object.
#[derive(Drop)]
pub enum Instead {
    /// This value, at its one read.
    Value(VExpr),
    /// These bits.
    Bits(Bits4),
    /// These bits of another object.
    Alias(Run),
    /// The object under this name.
    Name(Text),
    /// Nothing is known of it, or its value is used.
    Nothing,
}

/// What stands in place of each own object.
#[derive(Drop)]
pub struct Rebuild {
    pub alloc: Global,
    pub instead: Vec<Instead>,
}

impl Rebuild {
    /// What stands in place of an own object under a name.
    fn at(&self, name: &VName) -> Option<&Instead> {
        self.instead.get(own_number(name.text.as_slice())?)
    }

    /// The name as it is in the end.
    pub fn name(&self, name: &VName) -> Result<VName, Memory> {
        let text = match self.at(name) {
            Some(Instead::Name(text)) => text,
            Some(Instead::Alias(run)) => &run.name,
            _ => &name.text,
        };
        Ok(name_of(Text::from_slice(self.alloc, text.as_slice())?))
    }

    /// A select that stays one.
    pub fn select(&self, select: &VSelect) -> Result<VSelect, Memory> {
        if let Some(Instead::Alias(run)) = self.at(&select.name) {
            return Ok(part_of(run.copy(self.alloc)?, select.part).select());
        }
        Ok(VSelect {
            name: self.name(&select.name)?,
            part: select.part,
        })
    }

    /// The value that stands in place of the one read of an own wire.
    fn taken(&mut self, name: &VName) -> Option<VExpr> {
        let slot = self.instead.get_mut(own_number(name.text.as_slice())?)?;
        if !matches!(slot, Instead::Value(_)) {
            return None;
        }
        match mem::replace(slot, Instead::Nothing) {
            Instead::Value(value) => Some(value),
            _ => None,
        }
    }
}

/// The last of a list.
fn taken(list: &mut VExprList) -> Result<VExpr, Memory> {
    match list.pop() {
        Some(e) => Ok(e),
        None => Err(cannot_come()),
    }
}

/// The last of a list, boxed.
pub fn taken_box(alloc: Global, list: &mut VExprList) -> Result<Boxed<VExpr>, Memory> {
    Ok(Boxed::new(alloc, taken(list)?)?)
}

/// What an expression becomes.
pub fn rebuilt(e: &VExpr, rebuild: &mut Rebuild) -> Result<VExpr, Memory> {
    let mut list = Items::new(rebuild.alloc);
    put(e, rebuild, &mut list)?;
    taken(&mut list)
}

/// What a target becomes.
pub fn target(reference: &VReference, rebuild: &mut Rebuild) -> Result<VReference, Memory> {
    match reference {
        VReference::Select(select) => Ok(VReference::Select(rebuild.select(select)?)),
        VReference::Indexed { name, index, count } => {
            let mut list = Items::new(rebuild.alloc);
            put(index.get(), rebuild, &mut list)?;
            indexed(rebuild, name, *count, &mut list)
        }
    }
}

/// Bits from an index on, which stands last.
fn indexed(
    rebuild: &Rebuild,
    name: &VName,
    count: u32,
    list: &mut VExprList,
) -> Result<VReference, Memory> {
    let name = rebuild.name(name)?;
    let index = taken_box(rebuild.alloc, list)?;
    Ok(VReference::Indexed { name, index, count })
}

/// Appends what an expression becomes.
#[cycle(rebuild)]
pub fn put(e: &VExpr, rebuild: &mut Rebuild, into: &mut VExprList) -> Result<(), Memory> {
    match e {
        VExpr::Reference(VReference::Select(select)) => put_read(select, rebuild, into),
        VExpr::Reference(VReference::Indexed { name, index, count }) => {
            put(index.get(), rebuild, into)?;
            put_indexed(rebuild, name, *count, into)
        }
        VExpr::Bits(bits) => put_bits(rebuild.alloc, bits, into),
        VExpr::Concatenation { parts, at: _ } => {
            let base = into.len();
            put_all(parts.as_slice(), rebuild, into)?;
            put_joined(rebuild.alloc, base, into)
        }
        VExpr::Repetition { count, part, at: _ } => {
            put(part.get(), rebuild, into)?;
            put_repeated(rebuild.alloc, *count, into)
        }
        VExpr::Call { name, args } => {
            let base = into.len();
            put_all(args.as_slice(), rebuild, into)?;
            put_call(rebuild.alloc, name, base, into)
        }
        VExpr::Unary { op, operand, at: _ } => {
            put(operand.get(), rebuild, into)?;
            put_unary(rebuild.alloc, *op, into)
        }
        VExpr::Binary {
            left,
            op,
            right,
            at: _,
        } => {
            put(left.get(), rebuild, into)?;
            put(right.get(), rebuild, into)?;
            put_binary(rebuild.alloc, *op, into)
        }
        VExpr::Conditional {
            condition,
            yes,
            no,
            at: _,
        } => {
            put(condition.get(), rebuild, into)?;
            put(yes.get(), rebuild, into)?;
            put(no.get(), rebuild, into)?;
            put_conditional(rebuild.alloc, into)
        }
    }
}

#[cycle(rebuild)]
fn put_all(exprs: &[VExpr], rebuild: &mut Rebuild, into: &mut VExprList) -> Result<(), Memory> {
    for e in exprs {
        put(e, rebuild, into)?;
    }
    Ok(())
}

/// Appends what stands in place of a read.
fn put_read(select: &VSelect, rebuild: &mut Rebuild, into: &mut VExprList) -> Result<(), Memory> {
    if let Some(value) = rebuild.taken(&select.name) {
        return Ok(into.push(value)?);
    }
    match rebuild.at(&select.name) {
        Some(Instead::Bits(bits)) => put_bits_part(rebuild.alloc, bits, select.part, into),
        _ => put_select(rebuild, select, into),
    }
}

fn put_select(rebuild: &Rebuild, select: &VSelect, into: &mut VExprList) -> Result<(), Memory> {
    let select = rebuild.select(select)?;
    Ok(into.push(VExpr::Reference(VReference::Select(select)))?)
}

fn put_indexed(
    rebuild: &Rebuild,
    name: &VName,
    count: u32,
    into: &mut VExprList,
) -> Result<(), Memory> {
    let reference = indexed(rebuild, name, count, into)?;
    Ok(into.push(VExpr::Reference(reference))?)
}

fn put_repeated(alloc: Global, count: u32, into: &mut VExprList) -> Result<(), Memory> {
    let part = taken_box(alloc, into)?;
    Ok(into.push(VExpr::Repetition { count, part, at: 0 })?)
}

fn put_binary(alloc: Global, op: VBinary, into: &mut VExprList) -> Result<(), Memory> {
    let right = taken_box(alloc, into)?;
    let left = taken_box(alloc, into)?;
    Ok(into.push(VExpr::Binary {
        left,
        op,
        right,
        at: 0,
    })?)
}

/// A call, whose arguments are those behind the first `base` of the list.
fn put_call(alloc: Global, name: &VName, base: usize, into: &mut VExprList) -> Result<(), Memory> {
    let mut turned = taken_from(alloc, base, into)?;
    let args = taken_from(alloc, 0, &mut turned)?;
    let name = copied_name(alloc, name)?;
    Ok(into.push(VExpr::Call { name, args })?)
}

/// A concatenation of those behind the first `base` of the list; those that stand in it are taken up.
fn put_joined(alloc: Global, base: usize, into: &mut VExprList) -> Result<(), Memory> {
    let mut turned = taken_from(alloc, base, into)?;
    let mut joined = Joined::new(alloc);
    for _ in 0..turned.len() {
        join_last(&mut turned, &mut joined)?;
    }
    Ok(into.push(joined.part().expr)?)
}

/// Puts the last of a list to the right.
fn join_last(list: &mut VExprList, joined: &mut Joined) -> Result<(), Memory> {
    match list.pop() {
        Some(expr) => joined.push(Part {
            expr,
            width: 1,
            depth: 1,
        }),
        None => Ok(()),
    }
}

/// Takes those behind the first `base` of a list, the last one first.
fn taken_from(alloc: Global, base: usize, list: &mut VExprList) -> Result<VExprList, Memory> {
    let mut turned = Items::new(alloc);
    for _ in base..list.len() {
        move_last(list, &mut turned)?;
    }
    Ok(turned)
}

fn move_last(list: &mut VExprList, into: &mut VExprList) -> Result<(), Memory> {
    match list.pop() {
        Some(e) => Ok(into.push(e)?),
        None => Ok(()),
    }
}

fn copied_name(alloc: Global, name: &VName) -> Result<VName, Memory> {
    Ok(name_of(Text::from_slice(alloc, name.text.as_slice())?))
}

fn put_bits(alloc: Global, bits: &VBits, into: &mut VExprList) -> Result<(), Memory> {
    let bits = Bits4::from_slice(alloc, bits.bits.as_slice())?;
    Ok(into.push(VExpr::Bits(VBits { bits, at: 0 }))?)
}

/// A part of a run.
fn part_of(run: Run, part: VPart) -> Run {
    match part {
        VPart::Whole => run,
        VPart::Bit(low) => run.part(low, 1),
        VPart::Slice { high, low } => run.part(low, high.saturating_sub(low).saturating_add(1)),
    }
}

/// Appends a part of written bits.
fn put_bits_part(
    alloc: Global,
    bits: &Bits4,
    part: VPart,
    into: &mut VExprList,
) -> Result<(), Memory> {
    let (low, count) = match part {
        VPart::Whole => (0, bits.len()),
        VPart::Bit(low) => (low as usize, 1),
        VPart::Slice { high, low } => (
            low as usize,
            high.saturating_sub(low).saturating_add(1) as usize,
        ),
    };
    let end = bits.len().saturating_sub(low);
    let begin = end.saturating_sub(count);
    let mut kept = Bits4::new(alloc);
    for bit in bits.as_slice().iter().take(end).skip(begin) {
        kept.push(*bit)?;
    }
    Ok(into.push(VExpr::Bits(VBits { bits: kept, at: 0 }))?)
}
