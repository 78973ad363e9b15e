//! What expressions are made of, and the names of the writer's own wires.

use sqlite_items::{Boxed, Items};
use std::alloc::Global;
use vv_base::fault::Memory;
use vv_base::text::Text;
use vv_bits::{Bits4, V4};
use vv_vtree::{VBinary, VBits, VExpr, VExprList, VName, VPart, VReference, VSelect, VUnary};

/// A written expression, how many bits it has, and how deep it is.
#[derive(Drop)]
pub struct Part {
    pub expr: VExpr,
    pub width: u32,
    pub depth: u32,
}

/// Some bits of an object that lie side by side: `bits` of them, from its bit `low` on. `whole` is whether these are all.
#[derive(Drop)]
pub struct Run {
    pub name: Text,
    pub low: u32,
    pub bits: u32,
    pub whole: bool,
}

impl Run {
    /// All bits of an object.
    pub fn whole(name: Text, bits: u32) -> Run {
        Run {
            name,
            low: 0,
            bits,
            whole: true,
        }
    }

    pub fn copy(&self, alloc: Global) -> Result<Run, Memory> {
        Ok(Run {
            name: Text::from_slice(alloc, self.name.as_slice())?,
            low: self.low,
            bits: self.bits,
            whole: self.whole,
        })
    }

    /// Some of its bits: `bits` of them, from `low` on.
    pub fn part(self, low: u32, bits: u32) -> Run {
        let all = bits == self.bits;
        Run {
            name: self.name,
            low: self.low.saturating_add(low),
            bits,
            whole: self.whole && all,
        }
    }

    /// How it is written.
    pub fn select(self) -> VSelect {
        let part = if self.whole {
            VPart::Whole
        } else if self.bits == 1 {
            VPart::Bit(self.low)
        } else {
            VPart::Slice {
                high: self.low.saturating_add(self.bits).saturating_sub(1),
                low: self.low,
            }
        };
        VSelect {
            name: VName {
                text: self.name,
                at: 0,
            },
            part,
        }
    }

    pub fn reference(self) -> VReference {
        VReference::Select(self.select())
    }

    pub fn read(self) -> Part {
        let width = self.bits;
        Part {
            expr: VExpr::Reference(self.reference()),
            width,
            depth: 1,
        }
    }
}

impl Part {
    /// These bits.
    pub fn bits(bits: Bits4) -> Part {
        let width = bits.len().min(0xffff_ffff) as u32;
        Part {
            expr: VExpr::Bits(VBits { bits, at: 0 }),
            width,
            depth: 1,
        }
    }

    /// One bit.
    pub fn bit(alloc: Global, bit: V4) -> Result<Part, Memory> {
        Ok(Part::bits(Bits4::from_slice(alloc, &[bit])?))
    }

    /// A copy of written bits or of a fixed part of an object. Else it is an unknown bit.
    pub fn copied(&self, alloc: Global) -> Result<Part, Memory> {
        match &self.expr {
            VExpr::Bits(bits) => Ok(Part::bits(Bits4::from_slice(alloc, bits.bits.as_slice())?)),
            VExpr::Reference(VReference::Select(select)) => Ok(Part {
                expr: VExpr::Reference(VReference::Select(VSelect {
                    name: VName {
                        text: Text::from_slice(alloc, select.name.text.as_slice())?,
                        at: 0,
                    },
                    part: select.part,
                })),
                width: self.width,
                depth: 1,
            }),
            _ => Part::bit(alloc, V4::X),
        }
    }

    /// Its bits, where it is written bits.
    pub fn known(&self) -> Option<&Bits4> {
        match &self.expr {
            VExpr::Bits(bits) => Some(&bits.bits),
            _ => None,
        }
    }

    /// Whether it is written bits.
    pub fn is_known(&self) -> bool {
        matches!(self.expr, VExpr::Bits(_))
    }

    /// Whether it is a name or a fixed part of an object.
    pub fn is_select(&self) -> bool {
        matches!(self.expr, VExpr::Reference(VReference::Select(_)))
    }

    pub fn unary(alloc: Global, op: VUnary, operand: Part) -> Result<Part, Memory> {
        let width = if matches!(op, VUnary::Not) {
            operand.width
        } else {
            1
        };
        Ok(Part {
            depth: operand.depth.saturating_add(1),
            expr: VExpr::Unary {
                op,
                operand: Boxed::new(alloc, operand.expr)?,
                at: 0,
            },
            width,
        })
    }

    pub fn binary(alloc: Global, left: Part, op: VBinary, right: Part) -> Result<Part, Memory> {
        let width = if op.keeps_size() { left.width } else { 1 };
        Ok(Part {
            depth: left.depth.max(right.depth).saturating_add(1),
            expr: VExpr::Binary {
                left: Boxed::new(alloc, left.expr)?,
                op,
                right: Boxed::new(alloc, right.expr)?,
                at: 0,
            },
            width,
        })
    }

    pub fn conditional(
        alloc: Global,
        condition: Part,
        yes: Part,
        no: Part,
    ) -> Result<Part, Memory> {
        let width = yes.width;
        Ok(Part {
            depth: condition
                .depth
                .max(yes.depth)
                .max(no.depth)
                .saturating_add(1),
            expr: VExpr::Conditional {
                condition: Boxed::new(alloc, condition.expr)?,
                yes: Boxed::new(alloc, yes.expr)?,
                no: Boxed::new(alloc, no.expr)?,
                at: 0,
            },
            width,
        })
    }

    pub fn repeated(alloc: Global, count: u32, part: Part) -> Result<Part, Memory> {
        if count == 1 {
            return Ok(part);
        }
        Ok(Part {
            width: part.width.saturating_mul(count),
            depth: part.depth.saturating_add(1),
            expr: VExpr::Repetition {
                count,
                part: Boxed::new(alloc, part.expr)?,
                at: 0,
            },
        })
    }
}

/// Parts side by side, from the left. Concatenations in it are taken up, and written bits side by side are joined.
#[derive(Drop)]
pub struct Joined {
    alloc: Global,
    parts: VExprList,
    width: u32,
    depth: u32,
}

impl Joined {
    pub fn new(alloc: Global) -> Joined {
        Joined {
            alloc,
            parts: Items::new(alloc),
            width: 0,
            depth: 0,
        }
    }

    /// Puts a part to the right.
    pub fn push(&mut self, part: Part) -> Result<(), Memory> {
        if part.width == 0 {
            return Ok(());
        }
        self.width = self.width.saturating_add(part.width);
        self.depth = self.depth.max(part.depth);
        match part.expr {
            VExpr::Concatenation { parts, at: _ } => self.parts.append(parts)?,
            VExpr::Bits(bits) => self.push_bits(bits)?,
            other => self.parts.push(other)?,
        }
        Ok(())
    }

    fn push_bits(&mut self, more: VBits) -> Result<(), Memory> {
        match self.parts.pop() {
            Some(VExpr::Bits(mut bits)) => {
                for bit in more.bits.as_slice() {
                    bits.bits.push(*bit)?;
                }
                self.parts.push(VExpr::Bits(bits))?;
            }
            Some(other) => {
                self.parts.push(other)?;
                self.parts.push(VExpr::Bits(more))?;
            }
            None => self.parts.push(VExpr::Bits(more))?,
        }
        Ok(())
    }

    /// All parts as one.
    pub fn part(self) -> Part {
        let Joined {
            alloc: _,
            mut parts,
            width,
            depth,
        } = self;
        if parts.len() == 1 {
            match parts.pop() {
                Some(expr) => return Part { expr, width, depth },
                None => {}
            }
        }
        Part {
            expr: VExpr::Concatenation { parts, at: 0 },
            width,
            depth: depth.saturating_add(1),
        }
    }
}
