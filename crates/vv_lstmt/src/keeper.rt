//! Statement by statement.

use crate::cases::{CaseArms, begin_case, conditions_of, labels_of, push_case, push_if, push_way};
use sqlite_items::Items;
use std::mem;
use vv_base::fault::Memory;
use vv_base::text::Text;
use vv_design::{Alternative, Arm, Expr, Stmt, StmtForm};
use vv_lexpr::{selector_of, value};
use vv_lpart::{Layout, Run};
use vv_lstate::Lowering;
use vv_vtree::{VArm, VArmList, VBitsList, VBlock};

/// A register of a signal: it has the bits of the net from `low` on. `direct` is whether a run changes each bit at most once, so that
/// it is changed by updates.
#[derive(Drop)]
pub struct Signal {
    pub net: u32,
    pub register: Run,
    pub low: u32,
    pub direct: bool,
}

pub type SignalList = Items<Signal>;

/// What keeps the statements of a process or of a function. `signals` stand in order of their nets. A function has a result.
#[derive(Drop)]
pub struct Keeper<'l, 'd> {
    pub low: &'l mut Lowering<'d>,
    pub signals: SignalList,
    pub result: Option<Text>,
    pub result_layout: Option<Layout>,
}

impl Keeper<'_, '_> {
    /// Writes statements.
    #[cycle(keeping)]
    pub fn stmts(&mut self, stmts: &[Stmt]) -> Result<(), Memory> {
        for stmt in stmts {
            self.stmt(stmt)?;
        }
        Ok(())
    }

    /// Statements as a block.
    #[cycle(keeping)]
    fn block(&mut self, stmts: &[Stmt]) -> Result<VBlock, Memory> {
        let fresh = Items::new(self.low.alloc);
        let before = mem::replace(&mut self.low.stmts, fresh);
        let done = self.stmts(stmts);
        let stmts = mem::replace(&mut self.low.stmts, before);
        done?;
        Ok(VBlock { stmts, at: 0 })
    }

    #[cycle(keeping)]
    fn stmt(&mut self, stmt: &Stmt) -> Result<(), Memory> {
        match &stmt.form {
            StmtForm::Signal { target, value } => self.signal(target, value),
            StmtForm::Variable { target, value } => self.variable(target, value),
            StmtForm::If { arms, otherwise } => {
                let kept = self.arms(arms.as_slice())?;
                if otherwise.is_empty() {
                    return push_if(self.low, kept, None);
                }
                let block = self.block(otherwise.as_slice())?;
                push_if(self.low, kept, Some(block))
            }
            StmtForm::Case {
                selector,
                alternatives,
            } => match labels_of(self.low, selector, alternatives.as_slice())? {
                Some(labels) => self.labelled(alternatives.as_slice(), selector, labels),
                None => self.chain(alternatives.as_slice(), selector),
            },
            StmtForm::Return(value) => self.returned(value),
            StmtForm::WaitUntil(_) => Ok(()),
        }
    }

    /// The arms of an `if`. All conditions are written before it.
    #[cycle(keeping)]
    fn arms(&mut self, arms: &[Arm]) -> Result<VArmList, Memory> {
        let mut conditions = conditions_of(self.low, arms)?;
        let mut kept = Items::new(self.low.alloc);
        for arm in arms {
            let block = self.block(arm.body.as_slice())?;
            push_way(&mut conditions, block, &mut kept)?;
        }
        Ok(kept)
    }

    /// A `case` with labels.
    #[cycle(keeping)]
    fn labelled(
        &mut self,
        alternatives: &[Alternative],
        selector: &Expr,
        labels: Items<VBitsList>,
    ) -> Result<(), Memory> {
        let mut case = begin_case(self.low, selector, labels, self.result.is_some())?;
        for alternative in alternatives {
            let block = self.block(alternative.body.as_slice())?;
            case.push(alternative.choices.as_slice(), block)?;
        }
        push_case(self.low, case)
    }

    /// A `case` as an `if`.
    #[cycle(keeping)]
    fn chain(&mut self, alternatives: &[Alternative], selector: &Expr) -> Result<(), Memory> {
        let known = selector_of(selector, self.low);
        let run = run_of_value(self.low, selector)?;
        let mut way = CaseArms::new(self.low.alloc, alternatives.len(), self.result.is_some());
        for alternative in alternatives {
            let block = self.block(alternative.body.as_slice())?;
            way.push(self.low, &run, known, alternative.choices.as_slice(), block)?;
        }
        let CaseArms {
            arms,
            otherwise,
            ..
        } = way;
        push_if(self.low, arms, otherwise)
    }
}

/// The bits of an expression, which get a name.
fn run_of_value(low: &mut Lowering<'_>, e: &Expr) -> Result<Run, Memory> {
    let part = value(e, low)?;
    low.named(part, b"")
}
