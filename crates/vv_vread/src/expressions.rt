//! Reading expressions. `room` is how deep an expression may still nest, itself included.

use crate::deep::Goal;
use crate::reader::Reader;
use sqlite_items::{Boxed, Items};
use vv_bits::Bits4;
use vv_vlexer::token::{Kind, Sign};
use vv_vtree::{
    VBinary, VBits, VExpr, VExprList, VFault, VName, VPart, VReference, VSelect, VUnary,
};

impl<'t> Reader<'t> {
    /// The production `sel`.
    pub fn select(&mut self) -> Result<VSelect, VFault> {
        let name = self.name()?;
        if !self.takes_sign(Sign::OpenBracket) {
            return Ok(VSelect {
                name,
                part: VPart::Whole,
            });
        }
        let place = self.number()?;
        self.select_behind(name, place)
    }

    /// The rest of a `sel` whose bracket is open, behind its first number.
    fn select_behind(&mut self, name: VName, high: u32) -> Result<VSelect, VFault> {
        let part = if self.takes_sign(Sign::Colon) {
            let low = self.number()?;
            VPart::Slice { high, low }
        } else {
            VPart::Bit(high)
        };
        self.sign(Sign::CloseBracket)?;
        Ok(VSelect { name, part })
    }

    /// The rest of a `ref` behind its name. Its index has this room.
    #[cycle(expressions)]
    pub fn reference_behind(&mut self, name: VName, room: u32) -> Result<VReference, VFault> {
        if !self.takes_sign(Sign::OpenBracket) {
            return Ok(VReference::Select(VSelect {
                name,
                part: VPart::Whole,
            }));
        }
        if let Some(place) = self.takes_number() {
            let select = self.select_behind(name, place)?;
            return Ok(VReference::Select(select));
        }
        let (index, count) = self.index_behind(room)?;
        Ok(VReference::Indexed {
            name,
            index: Boxed::new(self.alloc, index)?,
            count,
        })
    }

    /// The index of a `ref` and the number of its bits, behind its open bracket.
    #[cycle(expressions)]
    fn index_behind(&mut self, room: u32) -> Result<(VExpr, u32), VFault> {
        let index = self.expr(room)?;
        self.sign(Sign::PlusColon)?;
        let count = self.number()?;
        self.sign(Sign::CloseBracket)?;
        Ok((index, count))
    }

    /// The production `vx`.
    #[cycle(expressions)]
    pub fn expr(&mut self, room: u32) -> Result<VExpr, VFault> {
        if room == 0 {
            return self.deep_expr();
        }
        match self.token().kind {
            Kind::Name(_) => self.name_expr(room - 1),
            Kind::Bits(_) => {
                let bits = self.bits()?;
                Ok(VExpr::Bits(bits))
            }
            Kind::Sign(Sign::OpenBrace) => self.braces(room - 1),
            Kind::Sign(Sign::Open) => self.operation(room - 1),
            _ => Err(self.refusal()),
        }
    }

    /// A reference or a call. The expressions in it have this room, here and below.
    #[cycle(expressions)]
    fn name_expr(&mut self, room: u32) -> Result<VExpr, VFault> {
        let name = self.name()?;
        if !self.takes_sign(Sign::Open) {
            let reference = self.reference_behind(name, room)?;
            return Ok(VExpr::Reference(reference));
        }
        let args = self.exprs(room)?;
        self.sign(Sign::Close)?;
        Ok(VExpr::Call { name, args })
    }

    /// A concatenation or a repetition.
    #[cycle(expressions)]
    fn braces(&mut self, room: u32) -> Result<VExpr, VFault> {
        let at = self.at();
        self.pass();
        match self.takes_number() {
            Some(count) => {
                let part = self.repeated(room)?;
                Ok(VExpr::Repetition {
                    count,
                    part: Boxed::new(self.alloc, part)?,
                    at,
                })
            }
            None => {
                let parts = self.exprs(room)?;
                self.sign(Sign::CloseBrace)?;
                Ok(VExpr::Concatenation { parts, at })
            }
        }
    }

    /// What is repeated, behind its count.
    #[cycle(expressions)]
    fn repeated(&mut self, room: u32) -> Result<VExpr, VFault> {
        self.sign(Sign::OpenBrace)?;
        let part = self.expr(room)?;
        self.sign(Sign::CloseBrace)?;
        self.sign(Sign::CloseBrace)?;
        Ok(part)
    }

    /// An operator with its operands, in parentheses.
    #[cycle(expressions)]
    fn operation(&mut self, room: u32) -> Result<VExpr, VFault> {
        let at = self.at();
        self.pass();
        let operation = match self.unary() {
            Some(op) => {
                self.pass();
                let operand = self.expr(room)?;
                self.unary_of(op, operand, at)?
            }
            None => {
                let first = self.expr(room)?;
                self.operation_behind(first, room, at)?
            }
        };
        self.sign(Sign::Close)?;
        Ok(operation)
    }

    /// The operator that stands next, before an operand.
    fn unary(&self) -> Option<VUnary> {
        match self.token().kind {
            Kind::Sign(sign) => sign.unary(),
            _ => None,
        }
    }

    /// The operator that stands next, between operands.
    fn binary(&self) -> Option<VBinary> {
        match self.token().kind {
            Kind::Sign(sign) => sign.binary(),
            _ => None,
        }
    }

    /// What stands behind the first operand: a second one, or the two of a condition.
    #[cycle(expressions)]
    fn operation_behind(&mut self, first: VExpr, room: u32, at: u64) -> Result<VExpr, VFault> {
        if self.takes_sign(Sign::Question) {
            let (yes, no) = self.choices(room)?;
            return self.conditional_of(first, yes, no, at);
        }
        let Some(op) = self.binary() else {
            return Err(self.refusal());
        };
        self.pass();
        let right = self.expr(room)?;
        self.binary_of(first, op, right, at)
    }

    /// The two expressions behind a condition.
    #[cycle(expressions)]
    fn choices(&mut self, room: u32) -> Result<(VExpr, VExpr), VFault> {
        let yes = self.expr(room)?;
        self.sign(Sign::Colon)?;
        let no = self.expr(room)?;
        Ok((yes, no))
    }

    fn unary_of(&self, op: VUnary, operand: VExpr, at: u64) -> Result<VExpr, VFault> {
        Ok(VExpr::Unary {
            op,
            operand: Boxed::new(self.alloc, operand)?,
            at,
        })
    }

    fn binary_of(&self, left: VExpr, op: VBinary, right: VExpr, at: u64) -> Result<VExpr, VFault> {
        Ok(VExpr::Binary {
            left: Boxed::new(self.alloc, left)?,
            op,
            right: Boxed::new(self.alloc, right)?,
            at,
        })
    }

    fn conditional_of(
        &self,
        condition: VExpr,
        yes: VExpr,
        no: VExpr,
        at: u64,
    ) -> Result<VExpr, VFault> {
        Ok(VExpr::Conditional {
            condition: Boxed::new(self.alloc, condition)?,
            yes: Boxed::new(self.alloc, yes)?,
            no: Boxed::new(self.alloc, no)?,
            at,
        })
    }

    /// Expressions with commas between them.
    #[cycle(expressions)]
    fn exprs(&mut self, room: u32) -> Result<VExprList, VFault> {
        let mut exprs = Items::new(self.alloc);
        let tokens = self.tokens;
        for _ in tokens {
            exprs.push(self.expr(room)?)?;
            if !self.takes_sign(Sign::Comma) {
                return Ok(exprs);
            }
        }
        Err(self.refusal())
    }

    /// Passes over an expression that nests too deep. No tree is made of the text then, so bits stand for it.
    fn deep_expr(&mut self) -> Result<VExpr, VFault> {
        let at = self.at();
        self.note_depth();
        self.pass_over(Goal::Expr)?;
        Ok(VExpr::Bits(VBits {
            bits: Bits4::new(self.alloc),
            at,
        }))
    }
}
