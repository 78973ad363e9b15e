//! The functions that put bits at an index.

use sqlite_items::{Boxed, Items};
use std::alloc::Global;
use vv_base::fault::Memory;
use vv_base::text::Text;
use vv_bits::{Bits4, V4};
use vv_lpart::{Joined, Part, Run, put_name, range_of};
use vv_lstate::Put;
use vv_vtree::{
    VDeclaration, VDeclarationList, VFunction, VName, VReference, VSign, VStmt, VStmtList,
};

/// The function with a number.
pub fn put_function(alloc: Global, number: u32, put: Put) -> Result<VFunction, Memory> {
    let name = put_name(alloc, number)?;
    let inputs = inputs(alloc, put)?;
    let regs = regs(alloc, put)?;
    let body = body(alloc, &name, put)?;
    Ok(VFunction {
        range: range_of(put.bits),
        name: VName { text: name, at: 0 },
        inputs,
        regs,
        body,
        at: 0,
    })
}

/// Whether the bits that are given are the whole object.
fn is_whole(put: Put) -> bool {
    put.low == 0 && put.bits == put.total
}

fn inputs(alloc: Global, put: Put) -> Result<VDeclarationList, Memory> {
    let mut inputs = Items::new(alloc);
    inputs.push(declared(alloc, b"old", put.bits)?)?;
    inputs.push(declared(alloc, b"index", put.index)?)?;
    inputs.push(declared(alloc, b"value", put.count)?)?;
    Ok(inputs)
}

fn regs(alloc: Global, put: Put) -> Result<VDeclarationList, Memory> {
    let mut regs = Items::new(alloc);
    if !is_whole(put) {
        regs.push(declared(alloc, b"all", put.total)?)?;
    }
    Ok(regs)
}

/// The statements: the whole object is made of what is given, the bits are put, and what was given is answered.
fn body(alloc: Global, name: &Text, put: Put) -> Result<VStmtList, Memory> {
    let mut body = Items::new(alloc);
    if is_whole(put) {
        push_old(alloc, name.as_slice(), put, &mut body)?;
        push_change(alloc, name.as_slice(), put, &mut body)?;
        return Ok(body);
    }
    push_old(alloc, b"all", put, &mut body)?;
    push_change(alloc, b"all", put, &mut body)?;
    push_answer(alloc, name.as_slice(), put, &mut body)?;
    Ok(body)
}

/// The whole object of what is given, and zeros round it.
fn push_old(alloc: Global, changed: &[u8], put: Put, body: &mut VStmtList) -> Result<(), Memory> {
    let before = put.total.saturating_sub(put.low).saturating_sub(put.bits);
    let target = run(alloc, changed, put.total)?;
    let old = run(alloc, b"old", put.bits)?;
    let mut joined = Joined::new(alloc);
    push_zeros(alloc, before, &mut joined)?;
    joined.push(old.read())?;
    push_zeros(alloc, put.low, &mut joined)?;
    Ok(body.push(assignment(target.reference(), joined.part()))?)
}

/// The value at the index.
fn push_change(
    alloc: Global,
    changed: &[u8],
    put: Put,
    body: &mut VStmtList,
) -> Result<(), Memory> {
    let text = Text::from_slice(alloc, changed)?;
    let value = run(alloc, b"value", put.count)?;
    let index = run(alloc, b"index", put.index)?;
    let index = Boxed::new(alloc, index.read().expr)?;
    let target = VReference::Indexed {
        name: VName { text, at: 0 },
        index,
        count: put.count,
    };
    Ok(body.push(assignment(target, value.read()))?)
}

/// The answer, a part of the whole object.
fn push_answer(alloc: Global, name: &[u8], put: Put, body: &mut VStmtList) -> Result<(), Memory> {
    let target = run(alloc, name, put.bits)?;
    let all = run(alloc, b"all", put.total)?;
    let value = all.part(put.low, put.bits).read();
    Ok(body.push(assignment(target.reference(), value))?)
}

fn run(alloc: Global, name: &[u8], bits: u32) -> Result<Run, Memory> {
    Ok(Run::whole(Text::from_slice(alloc, name)?, bits))
}

fn push_zeros(alloc: Global, count: u32, joined: &mut Joined) -> Result<(), Memory> {
    let mut bits = Bits4::new(alloc);
    for _ in 0..count {
        bits.push(V4::Zero)?;
    }
    joined.push(Part::bits(bits))
}

fn assignment(target: VReference, value: Part) -> VStmt {
    VStmt::Assignment {
        target,
        sign: VSign::Blocking,
        value: value.expr,
        at: 0,
    }
}

fn declared(alloc: Global, name: &[u8], bits: u32) -> Result<VDeclaration, Memory> {
    Ok(VDeclaration {
        range: range_of(bits),
        name: VName {
            text: Text::from_slice(alloc, name)?,
            at: 0,
        },
        at: 0,
    })
}
