//! Rebuilding statements.

use crate::rebuild::{Rebuild, rebuilt, target};
use sqlite_items::Items;
use std::alloc::Global;
use vv_base::fault::Memory;
use vv_bits::Bits4;
use vv_vtree::{
    VAlternative, VAlternativeList, VArm, VArmList, VBits, VBitsList, VBlock, VExpr, VReference,
    VSign, VStmt, VStmtList,
};

/// What statements become.
#[cycle(statements)]
pub fn stmts_of(stmts: &[VStmt], rebuild: &mut Rebuild) -> Result<VStmtList, Memory> {
    let mut done = Items::new(rebuild.alloc);
    for stmt in stmts {
        put_stmt(stmt, rebuild, &mut done)?;
    }
    Ok(done)
}

/// What a block becomes.
#[cycle(statements)]
pub fn block_of(block: &VBlock, rebuild: &mut Rebuild) -> Result<VBlock, Memory> {
    let stmts = stmts_of(block.stmts.as_slice(), rebuild)?;
    Ok(VBlock { stmts, at: 0 })
}

#[cycle(statements)]
fn put_stmt(stmt: &VStmt, rebuild: &mut Rebuild, into: &mut VStmtList) -> Result<(), Memory> {
    match stmt {
        VStmt::Assignment {
            target,
            sign,
            value,
            at: _,
        } => put_assignment(target, *sign, value, rebuild, into),
        VStmt::If {
            arms,
            otherwise,
            at: _,
        } => {
            let arms = arms_of(arms.as_slice(), rebuild)?;
            let otherwise = match otherwise {
                Some(block) => Some(block_of(block, rebuild)?),
                None => None,
            };
            Ok(into.push(VStmt::If {
                arms,
                otherwise,
                at: 0,
            })?)
        }
        VStmt::Case {
            selector,
            alternatives,
            default,
            at: _,
        } => {
            let alternatives = alternatives_of(alternatives.as_slice(), rebuild)?;
            let default = match default {
                Some(block) => Some(block_of(block, rebuild)?),
                None => None,
            };
            put_case(selector, alternatives, default, rebuild, into)
        }
    }
}

fn put_assignment(
    reference: &VReference,
    sign: VSign,
    value: &VExpr,
    rebuild: &mut Rebuild,
    into: &mut VStmtList,
) -> Result<(), Memory> {
    let target = target(reference, rebuild)?;
    let value = rebuilt(value, rebuild)?;
    Ok(into.push(VStmt::Assignment {
        target,
        sign,
        value,
        at: 0,
    })?)
}

fn put_case(
    selector: &VExpr,
    alternatives: VAlternativeList,
    default: Option<VBlock>,
    rebuild: &mut Rebuild,
    into: &mut VStmtList,
) -> Result<(), Memory> {
    let selector = rebuilt(selector, rebuild)?;
    Ok(into.push(VStmt::Case {
        selector,
        alternatives,
        default,
        at: 0,
    })?)
}

#[cycle(statements)]
fn arms_of(arms: &[VArm], rebuild: &mut Rebuild) -> Result<VArmList, Memory> {
    let mut done = Items::new(rebuild.alloc);
    for arm in arms {
        let block = block_of(&arm.block, rebuild)?;
        put_arm(&arm.condition, block, rebuild, &mut done)?;
    }
    Ok(done)
}

fn put_arm(
    condition: &VExpr,
    block: VBlock,
    rebuild: &mut Rebuild,
    into: &mut VArmList,
) -> Result<(), Memory> {
    let condition = rebuilt(condition, rebuild)?;
    Ok(into.push(VArm {
        condition,
        block,
        at: 0,
    })?)
}

#[cycle(statements)]
fn alternatives_of(
    alternatives: &[VAlternative],
    rebuild: &mut Rebuild,
) -> Result<VAlternativeList, Memory> {
    let mut done = Items::new(rebuild.alloc);
    for alternative in alternatives {
        let block = block_of(&alternative.block, rebuild)?;
        let labels = labels_of(rebuild.alloc, &alternative.labels)?;
        done.push(VAlternative {
            labels,
            block,
            at: 0,
        })?;
    }
    Ok(done)
}

fn labels_of(alloc: Global, labels: &VBitsList) -> Result<VBitsList, Memory> {
    let mut copies = Items::new(alloc);
    for label in labels.as_slice() {
        copies.push(VBits {
            bits: Bits4::from_slice(alloc, label.bits.as_slice())?,
            at: 0,
        })?;
    }
    Ok(copies)
}
