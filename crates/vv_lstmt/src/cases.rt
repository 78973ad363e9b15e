//! Conditions, labels, and what `if` and `case` are made of.

use sqlite_items::{Boxed, Items};
use std::alloc::Global;
use vv_base::fault::{Memory, cannot_come};
use vv_bits::{Bits4, V4};
use vv_design::{Alternative, Arm, Choice, Expr};
use vv_lexpr::{Selector, chosen, labels, selector_of, value};
use vv_lpart::{Part, Run};
use vv_lstate::Lowering;
use vv_vtree::{
    VAlternative, VAlternativeList, VArm, VArmList, VBinary, VBitsList, VBlock, VExpr, VExprList,
    VStmt, VUnary,
};

/// The conditions of arms as they stand behind `if`, from the last one.
pub fn conditions_of(low: &mut Lowering<'_>, arms: &[Arm]) -> Result<VExprList, Memory> {
    let mut conditions = Items::new(low.alloc);
    for arm in arms {
        push_condition(low, arm, &mut conditions)?;
    }
    turned(low.alloc, conditions)
}

/// Appends the condition of an arm.
fn push_condition(
    low: &mut Lowering<'_>,
    arm: &Arm,
    conditions: &mut VExprList,
) -> Result<(), Memory> {
    let condition = value(&arm.condition, low)?;
    Ok(conditions.push(test(condition))?)
}

/// A list from its last one.
pub fn turned(alloc: Global, list: VExprList) -> Result<VExprList, Memory> {
    let mut left = list;
    let mut turned = Items::new(alloc);
    for _ in 0..left.len() {
        move_last(&mut left, &mut turned)?;
    }
    Ok(turned)
}

fn move_last(list: &mut VExprList, into: &mut VExprList) -> Result<(), Memory> {
    match list.pop() {
        Some(last) => Ok(into.push(last)?),
        None => Ok(()),
    }
}

/// Appends an arm with the condition that stands last.
pub fn push_way(
    conditions: &mut VExprList,
    block: VBlock,
    arms: &mut VArmList,
) -> Result<(), Memory> {
    match conditions.pop() {
        Some(condition) => {
            arms.push(VArm {
                condition,
                block,
                at: 0,
            })?;
            Ok(())
        }
        None => Err(cannot_come()),
    }
}

/// Writes an `if`.
pub fn push_if(
    low: &mut Lowering<'_>,
    arms: VArmList,
    otherwise: Option<VBlock>,
) -> Result<(), Memory> {
    if arms.is_empty() {
        return match otherwise {
            Some(block) => Ok(low.stmts.append(block.stmts)?),
            None => Ok(()),
        };
    }
    low.stmts.push(VStmt::If {
        arms,
        otherwise,
        at: 0,
    })?;
    Ok(())
}

/// The labels of the alternatives, from the last one, where these are few and all 0s and 1s.
pub fn labels_of(
    low: &Lowering<'_>,
    selector: &Expr,
    alternatives: &[Alternative],
) -> Result<Option<Items<VBitsList>>, Memory> {
    let known = selector_of(selector, low);
    let mut lists = Items::new(low.alloc);
    for alternative in alternatives.iter().rev() {
        match labels(low, known, alternative.choices.as_slice())? {
            Some(list) => {
                if !all_known(&list) {
                    return Ok(None);
                }
                lists.push(list)?;
            }
            None => return Ok(None),
        }
    }
    Ok(Some(lists))
}

/// A `case` that is being written: its selector, the labels of the alternatives that are left, from the last one, and what is written.
/// Where it is to be closed, the last alternative stands for all others.
#[derive(Drop)]
pub struct CaseMade {
    selector: Boxed<VExpr>,
    labels: Items<VBitsList>,
    close: bool,
    kept: VAlternativeList,
    default: Option<VBlock>,
}

/// Begins a `case`. Where not each pattern of bits has a label, the last alternative stands for the others. It does in functions, whose
/// result then rests on no former content.
pub fn begin_case(
    low: &mut Lowering<'_>,
    selector: &Expr,
    labels: Items<VBitsList>,
    in_function: bool,
) -> Result<CaseMade, Memory> {
    let mut count = 0usize;
    for list in labels.as_slice() {
        count = count.saturating_add(list.len());
    }
    let (selector, width) = boxed_value(low, selector)?;
    let all = width < 32 && count as u64 == 1u64 << width.min(32);
    Ok(CaseMade {
        selector,
        labels,
        close: in_function || !all,
        kept: Items::new(low.alloc),
        default: None,
    })
}

/// An expression by itself, and how many bits it has.
fn boxed_value(low: &mut Lowering<'_>, e: &Expr) -> Result<(Boxed<VExpr>, u32), Memory> {
    let part = value(e, low)?;
    let width = part.width;
    Ok((Boxed::new(low.alloc, part.expr)?, width))
}

impl CaseMade {
    /// Appends an alternative.
    pub fn push(&mut self, choices: &[Choice], block: VBlock) -> Result<(), Memory> {
        let labels = self.labels.pop().ok_or(cannot_come())?;
        let is_last = self.labels.is_empty();
        if is_rest(choices) || self.close && is_last {
            self.default = Some(block);
        } else if !labels.is_empty() {
            self.kept.push(VAlternative {
                labels,
                block,
                at: 0,
            })?;
        }
        Ok(())
    }
}

/// Writes a `case`.
pub fn push_case(low: &mut Lowering<'_>, case: CaseMade) -> Result<(), Memory> {
    let CaseMade {
        selector,
        labels: _,
        close: _,
        kept,
        default,
    } = case;
    if kept.is_empty() {
        return match default {
            Some(block) => Ok(low.stmts.append(block.stmts)?),
            None => Ok(()),
        };
    }
    low.stmts.push(VStmt::Case {
        selector: selector.into_inner(),
        alternatives: kept,
        default,
        at: 0,
    })?;
    Ok(())
}

/// The arms of a `case` that is written as an `if`, and how many are left. In a function the last one stands for all others.
#[derive(Drop)]
pub struct CaseArms {
    pub arms: VArmList,
    pub otherwise: Option<VBlock>,
    left: usize,
    in_function: bool,
}

impl CaseArms {
    /// No arms of so many.
    pub fn new(alloc: Global, count: usize, in_function: bool) -> CaseArms {
        CaseArms {
            arms: Items::new(alloc),
            otherwise: None,
            left: count,
            in_function,
        }
    }

    /// Appends the arm of an alternative by the bits of the selector.
    pub fn push(
        &mut self,
        low: &mut Lowering<'_>,
        run: &Run,
        known: Selector,
        choices: &[Choice],
        block: VBlock,
    ) -> Result<(), Memory> {
        self.left = self.left.saturating_sub(1);
        let condition = chosen(low, run, known, choices)?;
        if is_rest(choices) || self.in_function && self.left == 0 {
            self.otherwise = Some(block);
            return Ok(());
        }
        Ok(
            self.arms.push(VArm {
                condition: test(condition),
                block,
                at: 0,
            })?,
        )
    }
}

/// A condition as it stands behind `if`, where only 1 counts: a comparison of one bit with 1 is left out, and with 0 turned over.
pub fn test(condition: Part) -> VExpr {
    match condition.expr {
        VExpr::Binary {
            left,
            op: VBinary::Same,
            right,
            at: _,
        } => match single(right.get()) {
            Some(V4::One) => left.into_inner(),
            Some(V4::Zero) => VExpr::Unary {
                op: VUnary::Not,
                operand: left,
                at: 0,
            },
            _ => VExpr::Binary {
                left,
                op: VBinary::Same,
                right,
                at: 0,
            },
        },
        other => other,
    }
}

/// The bit that is written alone.
fn single(e: &VExpr) -> Option<V4> {
    match e {
        VExpr::Bits(bits) => match bits.bits.as_slice() {
            [bit] => Some(*bit),
            _ => None,
        },
        _ => None,
    }
}

/// Whether the choices are `others`.
fn is_rest(choices: &[Choice]) -> bool {
    matches!(choices, [Choice::Others])
}

/// Whether labels are 0s and 1s.
fn all_known(labels: &VBitsList) -> bool {
    labels.as_slice().iter().all(|label| is_known(&label.bits))
}

fn is_known(bits: &Bits4) -> bool {
    bits.as_slice()
        .iter()
        .all(|bit| matches!(bit, V4::Zero | V4::One))
}
