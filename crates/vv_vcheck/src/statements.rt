//! Statements: their targets and the sizes in them.

use crate::walk::{Checker, Use};
use vv_base::fault::Memory;
use vv_vscope::scope::{Found, Kind, Scope};
use vv_vtree::{VAlternative, VArm, VReference, VSign, VStmt};

impl<'s, 't> Checker<'s, 't> {
    #[cycle(statements)]
    pub fn stmts(&mut self, scope: Scope<'s, 't>, stmts: &[VStmt]) -> Result<(), Memory> {
        for stmt in stmts {
            self.stmt(scope, stmt)?;
        }
        Ok(())
    }

    #[cycle(statements)]
    fn stmt(&mut self, scope: Scope<'s, 't>, stmt: &VStmt) -> Result<(), Memory> {
        match stmt {
            VStmt::Assignment {
                target,
                sign,
                value,
                at: _,
            } => {
                let wanted = self.target_size(scope, target, *sign)?;
                let size = self.size(scope, value)?;
                self.fits(size, wanted, value.at());
                Ok(())
            }
            VStmt::If {
                arms,
                otherwise,
                at: _,
            } => {
                self.arms(scope, arms.as_slice())?;
                match otherwise {
                    Some(block) => self.stmts(scope, block.stmts.as_slice()),
                    None => Ok(()),
                }
            }
            VStmt::Case {
                selector,
                alternatives,
                default,
                at: _,
            } => {
                let size = self.size(scope, selector)?;
                self.alternatives(scope, size, alternatives.as_slice())?;
                match default {
                    Some(block) => self.stmts(scope, block.stmts.as_slice()),
                    None => Ok(()),
                }
            }
        }
    }

    #[cycle(statements)]
    fn arms(&mut self, scope: Scope<'s, 't>, arms: &[VArm]) -> Result<(), Memory> {
        for arm in arms {
            self.condition(scope, &arm.condition)?;
            self.stmts(scope, arm.block.stmts.as_slice())?;
        }
        Ok(())
    }

    /// Looks at the alternatives of a `case` whose selector has this size.
    #[cycle(statements)]
    fn alternatives(
        &mut self,
        scope: Scope<'s, 't>,
        size: Option<u64>,
        alternatives: &[VAlternative],
    ) -> Result<(), Memory> {
        for alternative in alternatives {
            for label in alternative.labels.as_slice() {
                self.fits(Some(label.bits.len() as u64), size, label.at);
            }
            self.stmts(scope, alternative.block.stmts.as_slice())?;
        }
        Ok(())
    }

    /// The size of what an assignment with this sign assigns to.
    fn target_size(
        &mut self,
        scope: Scope<'s, 't>,
        target: &VReference,
        sign: VSign,
    ) -> Result<Option<u64>, Memory> {
        let name = target.name();
        let found = scope.object(name.text.as_slice());
        match found {
            Some(Found::Own(own)) => {
                if own.input || sign == VSign::Nonblocking {
                    self.faults.driver(name.at);
                }
            }
            Some(Found::Shared { number, kind, .. }) if scope.function.is_none() => {
                self.assigned(number, kind, sign, name.at);
            }
            Some(Found::Shared { .. }) | None => self.faults.name(name.at),
        }
        self.reference_size(scope, target, found.map(|found| found.width()))
    }

    /// Looks at an assignment in the present always construct to an object of the module.
    fn assigned(&mut self, number: u32, kind: Kind, sign: VSign, at: u64) {
        if kind != Kind::Reg {
            self.faults.driver(at);
        }
        let present = Use {
            always: self.always,
            sign,
        };
        match self.first_use(number) {
            None => {
                if let Some(first) = self.uses.get_mut(number as usize) {
                    *first = Some(present);
                }
            }
            Some(first) => {
                if first != present {
                    self.faults.driver(at);
                }
            }
        }
    }

    /// How the object of this number was assigned first.
    fn first_use(&self, number: u32) -> Option<Use> {
        match self.uses.get(number as usize) {
            Some(first) => *first,
            None => None,
        }
    }
}
