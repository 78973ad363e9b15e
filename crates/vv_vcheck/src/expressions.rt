//! Sizes of expressions. One that has no size is noted, or holds a part that is.

use crate::walk::Checker;
use vv_base::fault::Memory;
use vv_vscope::scope::{Found, Scope};
use vv_vtree::{VBinary, VExpr, VName, VPart, VReference, VSelect, VUnary};

/// How many bits an expression may have.
const BITS: u64 = 4_294_967_295;

/// How many bits an index may have.
const INDEX: u64 = 32;

/// How many bits an operand of `+`, `-` and `*` may have.
const ARITHMETIC: u64 = 128;

impl<'s, 't> Checker<'s, 't> {
    /// The size of an expression.
    #[cycle(sizes)]
    pub fn size(&mut self, scope: Scope<'s, 't>, expr: &VExpr) -> Result<Option<u64>, Memory> {
        match expr {
            VExpr::Reference(reference) => self.read_size(scope, reference),
            VExpr::Bits(bits) => Ok(Some(bits.bits.len() as u64)),
            VExpr::Concatenation { parts, at } => {
                let size = self.total_size(scope, parts.as_slice())?;
                Ok(self.bounded(size, *at))
            }
            VExpr::Repetition { count, part, at } => {
                let size = self.size(scope, part.get())?;
                if *count == 0 {
                    self.faults.size(*at);
                    return Ok(None);
                }
                let size = size.map(|size| size.saturating_mul(u64::from(*count)));
                Ok(self.bounded(size, *at))
            }
            VExpr::Call { name, args } => self.call_size(scope, name, args.as_slice()),
            VExpr::Unary { op, operand, at: _ } => {
                let size = self.size(scope, operand.get())?;
                if *op == VUnary::Not {
                    Ok(size)
                } else {
                    Ok(Some(1))
                }
            }
            VExpr::Binary {
                left,
                op,
                right,
                at,
            } => {
                let left = self.size(scope, left.get())?;
                let right = self.size(scope, right.get())?;
                Ok(self.binary_size(left, *op, right, *at))
            }
            VExpr::Conditional {
                condition,
                yes,
                no,
                at,
            } => {
                self.condition(scope, condition.get())?;
                let yes = self.size(scope, yes.get())?;
                let no = self.size(scope, no.get())?;
                Ok(self.common(yes, no, *at))
            }
        }
    }

    /// Looks at a condition, which has one bit.
    #[cycle(sizes)]
    pub fn condition(&mut self, scope: Scope<'s, 't>, expr: &VExpr) -> Result<(), Memory> {
        let size = self.size(scope, expr)?;
        self.fits(size, Some(1), expr.at());
        Ok(())
    }

    /// The size of all these expressions together.
    #[cycle(sizes)]
    fn total_size(&mut self, scope: Scope<'s, 't>, parts: &[VExpr]) -> Result<Option<u64>, Memory> {
        let mut total = Some(0);
        for part in parts {
            let size = self.size(scope, part)?;
            total = sum(total, size);
        }
        Ok(total)
    }

    /// The size of a call. Each argument has the size of its input.
    #[cycle(sizes)]
    fn call_size(
        &mut self,
        scope: Scope<'s, 't>,
        name: &VName,
        args: &[VExpr],
    ) -> Result<Option<u64>, Memory> {
        let Some(function) = scope.function(name.text.as_slice()) else {
            self.faults.name(name.at);
            for arg in args {
                self.size(scope, arg)?;
            }
            return Ok(None);
        };
        if args.len() != function.function.inputs.len() {
            self.faults.name(name.at);
        }
        if let Some(caller) = scope.function {
            self.note_call(caller.number, function.number, name.at)?;
        }
        let own = function.own.as_slice();
        for (index, arg) in args.iter().enumerate() {
            let size = self.size(scope, arg)?;
            if let Some(input) = own.get(index.saturating_add(1)) {
                self.fits(size, Some(input.width), arg.at());
            }
        }
        Ok(own.first().map(|first| first.width))
    }

    /// The size of a reference that is read.
    #[cycle(sizes)]
    fn read_size(
        &mut self,
        scope: Scope<'s, 't>,
        reference: &VReference,
    ) -> Result<Option<u64>, Memory> {
        let name = reference.name();
        let found = scope.object(name.text.as_slice());
        match found {
            None => self.faults.name(name.at),
            Some(Found::Shared { .. }) if scope.function.is_some() => self.faults.driver(name.at),
            Some(_) => {}
        }
        self.reference_size(scope, reference, found.map(|found| found.width()))
    }

    /// The size of a reference to an object of this width.
    #[cycle(sizes)]
    pub fn reference_size(
        &mut self,
        scope: Scope<'s, 't>,
        reference: &VReference,
        width: Option<u64>,
    ) -> Result<Option<u64>, Memory> {
        match reference {
            VReference::Select(select) => Ok(self.select_size(select, width)),
            VReference::Indexed { name, index, count } => {
                let size = self.size(scope, index.get())?;
                if let Some(size) = size
                    && size > INDEX
                {
                    self.faults.size(index.get().at());
                }
                Ok(self.indexed_size(name, *count, width))
            }
        }
    }

    /// The size of as many bits of an object of this width from an index on.
    fn indexed_size(&mut self, name: &VName, count: u32, width: Option<u64>) -> Option<u64> {
        if count == 0 || width? == 1 {
            self.faults.size(name.at);
            return None;
        }
        Some(u64::from(count))
    }

    /// The size of a fixed part of an object of this width.
    pub fn select_size(&mut self, select: &VSelect, width: Option<u64>) -> Option<u64> {
        let size = part_size(select.part, width?);
        if size.is_none() {
            self.faults.size(select.name.at);
        }
        size
    }

    /// The size, where it is not too great.
    fn bounded(&mut self, size: Option<u64>, at: u64) -> Option<u64> {
        if size? > BITS {
            self.faults.size(at);
            return None;
        }
        size
    }

    /// The size of what an operator gives. An operator that compares gives one bit.
    fn binary_size(
        &mut self,
        left: Option<u64>,
        op: VBinary,
        right: Option<u64>,
        at: u64,
    ) -> Option<u64> {
        let size = self.common(left, right, at);
        if op.is_arithmetic()
            && let Some(size) = size
            && size > ARITHMETIC
        {
            self.faults.limit(at);
        }
        if op.keeps_size() { size } else { Some(1) }
    }

    /// The size that both have. Where they differ this is noted at the place.
    fn common(&mut self, left: Option<u64>, right: Option<u64>, at: u64) -> Option<u64> {
        self.fits(left, right, at);
        let right = right?;
        if left? == right { Some(right) } else { None }
    }

    /// Notes the place where both have a size and these differ.
    pub fn fits(&mut self, size: Option<u64>, wanted: Option<u64>, at: u64) {
        if let (Some(size), Some(wanted)) = (size, wanted)
            && size != wanted
        {
            self.faults.size(at);
        }
    }
}

/// The sum of two sizes, where there are both.
fn sum(left: Option<u64>, right: Option<u64>) -> Option<u64> {
    Some(left?.saturating_add(right?))
}

/// The size of a part of an object of this width, where there is such a part.
fn part_size(part: VPart, width: u64) -> Option<u64> {
    match part {
        VPart::Whole => Some(width),
        VPart::Bit(place) if width > 1 && u64::from(place) < width => Some(1),
        VPart::Slice { high, low } if width > 1 && low <= high && u64::from(high) < width => {
            Some(u64::from(high - low) + 1)
        }
        VPart::Bit(_) | VPart::Slice { .. } => None,
    }
}
