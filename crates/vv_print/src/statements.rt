//! Printing statements.

use crate::printer::Printer;
use vv_base::fault::Memory;
use vv_vtree::{VAlternative, VArm, VBlock, VStmt};

impl Printer {
    /// Prints from `begin` to `end`. The lines of the block's statements are one level further in.
    #[cycle(statements)]
    pub fn block(&mut self, block: &VBlock, level: usize) -> Result<(), Memory> {
        self.put("begin\n")?;
        self.stmts(block.stmts.as_slice(), level.saturating_add(1))?;
        self.indent(level)?;
        self.put("end")
    }

    #[cycle(statements)]
    pub fn stmts(&mut self, stmts: &[VStmt], level: usize) -> Result<(), Memory> {
        for stmt in stmts {
            self.stmt(stmt, level)?;
        }
        Ok(())
    }

    #[cycle(statements)]
    fn stmt(&mut self, stmt: &VStmt, level: usize) -> Result<(), Memory> {
        self.indent(level)?;
        match stmt {
            VStmt::Assignment {
                target,
                sign,
                value,
                at: _,
            } => {
                self.reference(target)?;
                self.put(" ")?;
                self.put(sign.text())?;
                self.put(" ")?;
                self.expr(value)?;
                self.put(";\n")
            }
            VStmt::If {
                arms,
                otherwise,
                at: _,
            } => {
                self.arms(arms.as_slice(), level)?;
                if let Some(block) = otherwise {
                    self.put(" else ")?;
                    self.block(block, level)?;
                }
                self.put("\n")
            }
            VStmt::Case {
                selector,
                alternatives,
                default,
                at: _,
            } => {
                self.put("case (")?;
                self.expr(selector)?;
                self.put(")\n")?;
                self.alternatives(alternatives.as_slice(), level.saturating_add(1))?;
                if let Some(block) = default {
                    self.indent(level.saturating_add(1))?;
                    self.put("default: ")?;
                    self.block(block, level.saturating_add(1))?;
                    self.put("\n")?;
                }
                self.indent(level)?;
                self.put("endcase\n")
            }
        }
    }

    /// Prints the arms of an `if`, with `else` between them.
    #[cycle(statements)]
    fn arms(&mut self, arms: &[VArm], level: usize) -> Result<(), Memory> {
        for (index, arm) in arms.iter().enumerate() {
            if index > 0 {
                self.put(" else ")?;
            }
            self.put("if (")?;
            self.expr(&arm.condition)?;
            self.put(") ")?;
            self.block(&arm.block, level)?;
        }
        Ok(())
    }

    #[cycle(statements)]
    fn alternatives(&mut self, alternatives: &[VAlternative], level: usize) -> Result<(), Memory> {
        for alternative in alternatives {
            self.indent(level)?;
            for (index, label) in alternative.labels.as_slice().iter().enumerate() {
                self.comma(index)?;
                self.bits(&label.bits)?;
            }
            self.put(": ")?;
            self.block(&alternative.block, level)?;
            self.put("\n")?;
        }
        Ok(())
    }
}
