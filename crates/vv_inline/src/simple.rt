//! Operators whose result can be written in a simpler way.

use crate::rebuild::taken_box;
use std::alloc::Global;
use vv_base::fault::{Memory, cannot_come};
use vv_bits::V4;
use vv_vtree::{VBinary, VExpr, VExprList, VUnary};

/// Puts an operator before the last of a list. A comparison of bits is turned over by itself.
pub fn put_unary(alloc: Global, op: VUnary, list: &mut VExprList) -> Result<(), Memory> {
    match last_turned_over(op, list) {
        Some(opposite) => turn_over(opposite, list),
        None => {
            let operand = taken_box(alloc, list)?;
            Ok(list.push(VExpr::Unary { op, operand, at: 0 })?)
        }
    }
}

/// The comparison that an operator makes of the last of a list.
fn last_turned_over(op: VUnary, list: &VExprList) -> Option<VBinary> {
    match list.as_slice().last() {
        Some(operand) => turned_over(op, operand),
        None => None,
    }
}

/// Gives the last of a list, a binary operation, another operator.
fn turn_over(op: VBinary, list: &mut VExprList) -> Result<(), Memory> {
    match list.pop() {
        Some(e) => Ok(list.push(with_operator(e, op))?),
        None => Err(cannot_come()),
    }
}

/// The comparison that `~` makes of a comparison of bits.
fn turned_over(op: VUnary, operand: &VExpr) -> Option<VBinary> {
    match (op, operand) {
        (
            VUnary::Not,
            VExpr::Binary {
                left: _,
                op: VBinary::Same,
                right: _,
                at: _,
            },
        ) => Some(VBinary::NotSame),
        (
            VUnary::Not,
            VExpr::Binary {
                left: _,
                op: VBinary::NotSame,
                right: _,
                at: _,
            },
        ) => Some(VBinary::Same),
        _ => None,
    }
}

/// A binary operation with another operator.
fn with_operator(e: VExpr, op: VBinary) -> VExpr {
    match e {
        VExpr::Binary {
            left,
            op: _,
            right,
            at,
        } => VExpr::Binary {
            left,
            op,
            right,
            at,
        },
        other => other,
    }
}

/// Makes a choice of the last three of a list. One of 1 and 0 by a comparison is the comparison.
pub fn put_conditional(alloc: Global, list: &mut VExprList) -> Result<(), Memory> {
    match test_alone(list) {
        Some(as_it_is) => {
            drop_last(list);
            drop_last(list);
            if as_it_is {
                Ok(())
            } else {
                put_unary(alloc, VUnary::Not, list)
            }
        }
        None => put_choice(alloc, list),
    }
}

fn put_choice(alloc: Global, list: &mut VExprList) -> Result<(), Memory> {
    let no = taken_box(alloc, list)?;
    let yes = taken_box(alloc, list)?;
    let condition = taken_box(alloc, list)?;
    Ok(list.push(VExpr::Conditional {
        condition,
        yes,
        no,
        at: 0,
    })?)
}

fn drop_last(list: &mut VExprList) {
    let _ = list.pop();
}

/// Where the last three of a list are a comparison, 1 and 0, true, and where they are a comparison, 0 and 1, false.
fn test_alone(list: &VExprList) -> Option<bool> {
    let count = list.len();
    let condition = list.get(count.saturating_sub(3))?;
    let yes = list.get(count.saturating_sub(2))?;
    let no = list.get(count.saturating_sub(1))?;
    if !is_test(condition) {
        return None;
    }
    match (single(yes), single(no)) {
        (Some(V4::One), Some(V4::Zero)) => Some(true),
        (Some(V4::Zero), Some(V4::One)) => Some(false),
        _ => None,
    }
}

/// Whether an expression is an operator's result, which is never z.
fn is_test(e: &VExpr) -> bool {
    matches!(e, VExpr::Binary { .. } | VExpr::Unary { .. })
}

/// The bit that is written alone.
fn single(e: &VExpr) -> Option<V4> {
    match e {
        VExpr::Bits(bits) => match bits.bits.as_slice() {
            [bit] => Some(*bit),
            _ => None,
        },
        _ => None,
    }
}
