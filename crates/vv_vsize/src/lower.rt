//! Expressions and statements over bits in place of names. No rule on names and sizes is broken here.

use sqlite_items::{Boxed, Items};
use std::alloc::Global;
use vv_base::fault::Memory;
use vv_bits::Bits4;
use vv_flat::{
    FAlternative, FAlternativeList, FArm, FArmList, FExpr, FExprList, FStmt, FStmtList, FTarget,
    LabelList, Place,
};
use vv_vscope::scope::Scope;
use vv_vtree::{
    VAlternative, VArm, VBits, VBlock, VExpr, VName, VPart, VReference, VSelect, VStmt,
};

/// Where the objects of a module or a function have their bits.
#[derive(Clone, Copy)]
pub struct Lowering<'s, 't> {
    pub alloc: Global,
    pub scope: Scope<'s, 't>,
    /// The places of the objects by their numbers: in a function those of its own objects.
    pub places: &'s [Place],
}

/// A part of a place.
fn part_of(place: Place, part: VPart) -> Place {
    match part {
        VPart::Whole => place,
        VPart::Bit(bit) => Place {
            first: place.first.saturating_add(bit),
            width: 1,
        },
        VPart::Slice { high, low } => Place {
            first: place.first.saturating_add(low),
            width: high.saturating_sub(low).saturating_add(1),
        },
    }
}

impl<'s, 't> Lowering<'s, 't> {
    /// The place of the object of this name.
    pub fn place(&self, name: &VName) -> Place {
        let number = self.scope.number(name.text.as_slice());
        match self.places.get(number as usize) {
            Some(place) => *place,
            None => Place { first: 0, width: 0 },
        }
    }

    /// The place of a select.
    pub fn select(&self, select: &VSelect) -> Place {
        part_of(self.place(&select.name), select.part)
    }

    #[cycle(lowering)]
    pub fn expr(&self, expr: &VExpr) -> Result<FExpr, Memory> {
        match expr {
            VExpr::Reference(VReference::Select(select)) => Ok(FExpr::Read(self.select(select))),
            VExpr::Reference(VReference::Indexed { name, index, count }) => Ok(FExpr::Indexed {
                of: self.place(name),
                index: self.boxed(index.get())?,
                count: *count,
            }),
            VExpr::Bits(bits) => Ok(FExpr::Bits(self.bits(&bits.bits)?)),
            VExpr::Concatenation { parts, at: _ } => {
                Ok(FExpr::Concatenation(self.exprs(parts.as_slice())?))
            }
            VExpr::Repetition { count, part, at: _ } => Ok(FExpr::Repetition {
                count: *count,
                part: self.boxed(part.get())?,
            }),
            VExpr::Call { name, args } => Ok(FExpr::Call {
                function: self.function(name),
                args: self.exprs(args.as_slice())?,
            }),
            VExpr::Unary { op, operand, at: _ } => Ok(FExpr::Unary {
                op: *op,
                operand: self.boxed(operand.get())?,
            }),
            VExpr::Binary {
                left,
                op,
                right,
                at: _,
            } => Ok(FExpr::Binary {
                left: self.boxed(left.get())?,
                op: *op,
                right: self.boxed(right.get())?,
            }),
            VExpr::Conditional {
                condition,
                yes,
                no,
                at: _,
            } => Ok(FExpr::Conditional {
                condition: self.boxed(condition.get())?,
                yes: self.boxed(yes.get())?,
                no: self.boxed(no.get())?,
            }),
        }
    }

    #[cycle(lowering)]
    fn boxed(&self, expr: &VExpr) -> Result<Boxed<FExpr>, Memory> {
        let expr = self.expr(expr)?;
        Ok(Boxed::new(self.alloc, expr)?)
    }

    #[cycle(lowering)]
    fn exprs(&self, exprs: &[VExpr]) -> Result<FExprList, Memory> {
        let mut lowered = Items::new(self.alloc);
        for expr in exprs {
            lowered.push(self.expr(expr)?)?;
        }
        Ok(lowered)
    }

    /// The number of the function of this name.
    fn function(&self, name: &VName) -> u32 {
        match self.scope.function(name.text.as_slice()) {
            Some(function) => function.number,
            None => 0,
        }
    }

    fn bits(&self, bits: &Bits4) -> Result<Bits4, Memory> {
        Ok(Bits4::from_slice(self.alloc, bits.as_slice())?)
    }

    fn target(&self, target: &VReference) -> Result<FTarget, Memory> {
        match target {
            VReference::Select(select) => Ok(FTarget::Fixed(self.select(select))),
            VReference::Indexed { name, index, count } => Ok(FTarget::Indexed {
                of: self.place(name),
                index: self.expr(index.get())?,
                count: *count,
            }),
        }
    }

    #[cycle(statements)]
    pub fn stmts(&self, stmts: &[VStmt]) -> Result<FStmtList, Memory> {
        let mut lowered = Items::new(self.alloc);
        for stmt in stmts {
            lowered.push(self.stmt(stmt)?)?;
        }
        Ok(lowered)
    }

    #[cycle(statements)]
    fn stmt(&self, stmt: &VStmt) -> Result<FStmt, Memory> {
        match stmt {
            VStmt::Assignment {
                target,
                sign,
                value,
                at: _,
            } => Ok(FStmt::Assignment {
                target: self.target(target)?,
                sign: *sign,
                value: self.expr(value)?,
            }),
            VStmt::If {
                arms,
                otherwise,
                at: _,
            } => {
                let arms = self.arms(arms.as_slice())?;
                let otherwise = match otherwise {
                    Some(block) => self.block(block)?,
                    None => Items::new(self.alloc),
                };
                Ok(FStmt::If { arms, otherwise })
            }
            VStmt::Case {
                selector,
                alternatives,
                default,
                at: _,
            } => {
                let selector = self.expr(selector)?;
                let alternatives = self.alternatives(alternatives.as_slice())?;
                let default = match default {
                    Some(block) => self.block(block)?,
                    None => Items::new(self.alloc),
                };
                Ok(FStmt::Case {
                    selector,
                    alternatives,
                    default,
                })
            }
        }
    }

    #[cycle(statements)]
    fn block(&self, block: &VBlock) -> Result<FStmtList, Memory> {
        self.stmts(block.stmts.as_slice())
    }

    #[cycle(statements)]
    fn arms(&self, arms: &[VArm]) -> Result<FArmList, Memory> {
        let mut lowered = Items::new(self.alloc);
        for arm in arms {
            lowered.push(FArm {
                condition: self.expr(&arm.condition)?,
                body: self.block(&arm.block)?,
            })?;
        }
        Ok(lowered)
    }

    #[cycle(statements)]
    fn alternatives(&self, alternatives: &[VAlternative]) -> Result<FAlternativeList, Memory> {
        let mut lowered = Items::new(self.alloc);
        for alternative in alternatives {
            lowered.push(FAlternative {
                labels: self.labels(alternative.labels.as_slice())?,
                body: self.block(&alternative.block)?,
            })?;
        }
        Ok(lowered)
    }

    fn labels(&self, labels: &[VBits]) -> Result<LabelList, Memory> {
        let mut lowered = Items::new(self.alloc);
        for label in labels {
            lowered.push(self.bits(&label.bits)?)?;
        }
        Ok(lowered)
    }
}
