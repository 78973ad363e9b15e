//! Printing expressions.

use crate::printer::Printer;
use vv_base::fault::Memory;
use vv_vtree::{VExpr, VPart, VReference, VSelect};

impl Printer {
    pub fn select(&mut self, select: &VSelect) -> Result<(), Memory> {
        self.name(&select.name)?;
        match select.part {
            VPart::Whole => Ok(()),
            VPart::Bit(place) => {
                self.put("[")?;
                self.number(u64::from(place))?;
                self.put("]")
            }
            VPart::Slice { high, low } => {
                self.put("[")?;
                self.number(u64::from(high))?;
                self.put(":")?;
                self.number(u64::from(low))?;
                self.put("]")
            }
        }
    }

    #[cycle(expressions)]
    pub fn reference(&mut self, reference: &VReference) -> Result<(), Memory> {
        match reference {
            VReference::Select(select) => self.select(select),
            VReference::Indexed { name, index, count } => {
                self.name(name)?;
                self.put("[")?;
                self.expr(index.get())?;
                self.put(" +: ")?;
                self.number(u64::from(*count))?;
                self.put("]")
            }
        }
    }

    #[cycle(expressions)]
    pub fn expr(&mut self, expr: &VExpr) -> Result<(), Memory> {
        match expr {
            VExpr::Reference(reference) => self.reference(reference),
            VExpr::Bits(bits) => self.bits(&bits.bits),
            VExpr::Concatenation { parts, at: _ } => {
                self.put("{")?;
                self.exprs(parts.as_slice())?;
                self.put("}")
            }
            VExpr::Repetition { count, part, at: _ } => {
                self.put("{")?;
                self.number(u64::from(*count))?;
                self.put("{")?;
                self.expr(part.get())?;
                self.put("}}")
            }
            VExpr::Call { name, args } => {
                self.name(name)?;
                self.put("(")?;
                self.exprs(args.as_slice())?;
                self.put(")")
            }
            VExpr::Unary { op, operand, at: _ } => {
                self.put("(")?;
                self.put(op.text())?;
                self.expr(operand.get())?;
                self.put(")")
            }
            VExpr::Binary {
                left,
                op,
                right,
                at: _,
            } => {
                self.put("(")?;
                self.expr(left.get())?;
                self.put(" ")?;
                self.put(op.text())?;
                self.put(" ")?;
                self.expr(right.get())?;
                self.put(")")
            }
            VExpr::Conditional {
                condition,
                yes,
                no,
                at: _,
            } => {
                self.put("(")?;
                self.expr(condition.get())?;
                self.put(" ? ")?;
                self.expr(yes.get())?;
                self.put(" : ")?;
                self.expr(no.get())?;
                self.put(")")
            }
        }
    }

    /// Prints expressions with commas between them.
    #[cycle(expressions)]
    fn exprs(&mut self, exprs: &[VExpr]) -> Result<(), Memory> {
        for (index, expr) in exprs.iter().enumerate() {
            self.comma(index)?;
            self.expr(expr)?;
        }
        Ok(())
    }
}
