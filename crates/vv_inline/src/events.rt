//! The events of a latch: all objects that its block reads.

use sqlite_items::Items;
use std::alloc::Global;
use vv_base::fault::Memory;
use vv_base::text::Text;
use vv_vtree::{VBlock, VEdge, VEvent, VEventList, VExpr, VName, VReference, VStmt};

/// The events of a block, each object once, in the order of the text.
pub fn events(alloc: Global, block: &VBlock) -> Result<VEventList, Memory> {
    let mut events = Items::new(alloc);
    of_block(alloc, block, &mut events)?;
    Ok(events)
}

#[cycle(stmts)]
fn of_block(alloc: Global, block: &VBlock, events: &mut VEventList) -> Result<(), Memory> {
    for stmt in block.stmts.as_slice() {
        of_stmt(alloc, stmt, events)?;
    }
    Ok(())
}

#[cycle(stmts)]
fn of_stmt(alloc: Global, stmt: &VStmt, events: &mut VEventList) -> Result<(), Memory> {
    match stmt {
        VStmt::Assignment {
            target: _,
            sign: _,
            value,
            at: _,
        } => of_expr(alloc, value, events),
        VStmt::If {
            arms,
            otherwise,
            at: _,
        } => {
            for arm in arms.as_slice() {
                of_expr(alloc, &arm.condition, events)?;
                of_block(alloc, &arm.block, events)?;
            }
            match otherwise {
                Some(block) => of_block(alloc, block, events),
                None => Ok(()),
            }
        }
        VStmt::Case {
            selector,
            alternatives,
            default,
            at: _,
        } => {
            of_expr(alloc, selector, events)?;
            for alternative in alternatives.as_slice() {
                of_block(alloc, &alternative.block, events)?;
            }
            match default {
                Some(block) => of_block(alloc, block, events),
                None => Ok(()),
            }
        }
    }
}

fn push(alloc: Global, name: &VName, events: &mut VEventList) -> Result<(), Memory> {
    let known = events
        .as_slice()
        .iter()
        .any(|event| event.name.text.as_slice() == name.text.as_slice());
    if !known {
        events.push(VEvent {
            edge: VEdge::Any,
            name: VName {
                text: Text::from_slice(alloc, name.text.as_slice())?,
                at: 0,
            },
            at: 0,
        })?;
    }
    Ok(())
}

#[cycle(exprs)]
fn of_expr(alloc: Global, e: &VExpr, events: &mut VEventList) -> Result<(), Memory> {
    match e {
        VExpr::Reference(VReference::Select(select)) => push(alloc, &select.name, events),
        VExpr::Reference(
            VReference::Indexed {
                name,
                index,
                count: _,
            },
        ) => {
            push(alloc, name, events)?;
            of_expr(alloc, index.get(), events)
        }
        VExpr::Bits(_) => Ok(()),
        VExpr::Concatenation { parts, at: _ } => of_exprs(alloc, parts.as_slice(), events),
        VExpr::Repetition {
            count: _,
            part,
            at: _,
        } => of_expr(alloc, part.get(), events),
        VExpr::Call { name: _, args } => of_exprs(alloc, args.as_slice(), events),
        VExpr::Unary {
            op: _,
            operand,
            at: _,
        } => of_expr(alloc, operand.get(), events),
        VExpr::Binary {
            left,
            op: _,
            right,
            at: _,
        } => {
            of_expr(alloc, left.get(), events)?;
            of_expr(alloc, right.get(), events)
        }
        VExpr::Conditional {
            condition,
            yes,
            no,
            at: _,
        } => {
            of_expr(alloc, condition.get(), events)?;
            of_expr(alloc, yes.get(), events)?;
            of_expr(alloc, no.get(), events)
        }
    }
}

#[cycle(exprs)]
fn of_exprs(alloc: Global, exprs: &[VExpr], events: &mut VEventList) -> Result<(), Memory> {
    for e in exprs {
        of_expr(alloc, e, events)?;
    }
    Ok(())
}
