//! The code of statements.

use crate::build::Builder;
use vv_base::fault::Memory;
use vv_engine4::code::{How, Instr};
use vv_flat::{FAlternative, FArm, FExpr, FStmt, FTarget};
use vv_vtree::VSign;

impl Builder {
    #[cycle(statements)]
    pub fn statements(&mut self, stmts: &[FStmt]) -> Result<(), Memory> {
        for stmt in stmts {
            self.statement(stmt)?;
        }
        Ok(())
    }

    #[cycle(statements)]
    fn statement(&mut self, stmt: &FStmt) -> Result<(), Memory> {
        match stmt {
            FStmt::Assignment {
                target,
                sign,
                value,
            } => self.assignment(target, *sign, value),
            FStmt::If { arms, otherwise } => {
                let mut ends = Vec::new(self.alloc);
                for arm in arms.as_slice() {
                    let end = self.arm(arm)?;
                    ends.push(end)?;
                }
                self.statements(otherwise.as_slice())?;
                self.fill_all(ends.as_slice())
            }
            FStmt::Case {
                selector,
                alternatives,
                default,
            } => {
                let jumps = self.labels(selector, alternatives.as_slice())?;
                self.statements(default.as_slice())?;
                self.alternatives(alternatives.as_slice(), jumps.as_slice())
            }
        }
    }

    /// Lets jumps lead to the next instruction.
    fn fill_all(&mut self, holes: &[u32]) -> Result<(), Memory> {
        for hole in holes {
            self.fill(*hole)?;
        }
        Ok(())
    }

    fn assignment(&mut self, target: &FTarget, sign: VSign, value: &FExpr) -> Result<(), Memory> {
        let how = match (self.function, sign) {
            (Some(_), _) => How::Quiet,
            (None, VSign::Blocking) => How::Now,
            (None, VSign::Nonblocking) => How::Later,
        };
        let from = self.value(value)?;
        match target {
            FTarget::Fixed(place) => {
                let to = self.field(*place);
                self.emit(Instr::Put {
                    from: from.at,
                    to,
                    how,
                })?;
            }
            FTarget::Indexed {
                of,
                index,
                count: _,
            } => {
                let index = self.value(index)?;
                let of = self.field(*of);
                self.emit(Instr::PutAt {
                    from,
                    of,
                    index,
                    how,
                })?;
            }
        }
        self.clear_room();
        Ok(())
    }

    /// Adds the code of an arm, and answers the jump behind it.
    #[cycle(statements)]
    fn arm(&mut self, arm: &FArm) -> Result<u32, Memory> {
        let condition = self.value(&arm.condition)?;
        self.clear_room();
        let past = self.hole(Instr::Unless {
            bit: condition.at,
            to: 0,
        })?;
        self.statements(arm.body.as_slice())?;
        let end = self.hole(Instr::Jump(0))?;
        self.fill(past)?;
        Ok(end)
    }

    /// Adds the code that looks for a label, and answers the jumps of the labels.
    fn labels(
        &mut self,
        selector: &FExpr,
        alternatives: &[FAlternative],
    ) -> Result<Vec<u32>, Memory> {
        let selector = self.value(selector)?;
        let mut jumps = Vec::new(self.alloc);
        for alternative in alternatives {
            for label in alternative.labels.as_slice() {
                let label = self.constant(label.as_slice())?;
                let jump = self.hole(Instr::Same {
                    left: selector.at,
                    right: label.at,
                    width: selector.width,
                    to: 0,
                })?;
                jumps.push(jump)?;
            }
        }
        self.clear_room();
        Ok(jumps)
    }

    /// Adds the code of the alternatives behind that of the default.
    #[cycle(statements)]
    fn alternatives(&mut self, alternatives: &[FAlternative], jumps: &[u32]) -> Result<(), Memory> {
        let mut ends = Vec::new(self.alloc);
        let mut next: usize = 0;
        for alternative in alternatives {
            let end = self.hole(Instr::Jump(0))?;
            ends.push(end)?;
            for _ in alternative.labels.as_slice() {
                if let Some(jump) = jumps.get(next) {
                    self.fill(*jump)?;
                }
                next = next.saturating_add(1);
            }
            self.statements(alternative.body.as_slice())?;
        }
        self.fill_all(ends.as_slice())
    }
}
