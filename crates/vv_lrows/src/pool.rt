//! Parts that are written and wait for what is made of them. They are held by numbers, so that what is made of them is put together
//! without a tree in hand.

use sqlite_items::Boxed;
use std::alloc::Global;
use std::mem;
use vv_base::fault::{Memory, cannot_come};
use vv_bits::{Bits4, V4};
use vv_lpart::{Joined, Part, Run};
use vv_lstate::Lowering;
use vv_vtree::{VBinary, VExpr, VName, VReference, VUnary};

/// A part in a pool: how many bits it has, how deep it is, whether it is written bits, and whether it is a name or a fixed part of an
/// object. It is taken once, but `slice` leaves it there.
#[derive(Clone, Copy)]
pub struct Held {
    number: usize,
    pub width: u32,
    pub depth: u32,
    pub known: bool,
    pub select: bool,
}

/// The parts that wait.
#[derive(Drop)]
pub struct Pool {
    parts: Vec<Option<Part>>,
}

impl Pool {
    /// Nothing yet.
    pub fn new(alloc: Global) -> Pool {
        Pool {
            parts: Vec::new(alloc),
        }
    }

    /// Puts a part into the pool.
    pub fn hold(&mut self, part: Part) -> Result<Held, Memory> {
        let held = Held {
            number: self.parts.len(),
            width: part.width,
            depth: part.depth,
            known: part.is_known(),
            select: part.is_select(),
        };
        self.parts.push(Some(part))?;
        Ok(held)
    }

    /// Takes a part out of the pool.
    pub fn taken(&mut self, held: Held) -> Result<Part, Memory> {
        let Some(slot) = self.parts.get_mut(held.number) else {
            return Err(cannot_come());
        };
        match mem::replace(slot, None) {
            Some(part) => Ok(part),
            None => Err(cannot_come()),
        }
    }

    /// The bits of a part, where it is written bits.
    pub fn known(&self, held: Held) -> Option<&Bits4> {
        match self.parts.get(held.number) {
            Some(Some(part)) => part.known(),
            _ => None,
        }
    }

    /// A copy of a part that is written bits or a fixed part of an object.
    fn copied(&self, alloc: Global, held: Held) -> Result<Part, Memory> {
        match self.parts.get(held.number) {
            Some(Some(part)) => part.copied(alloc),
            _ => Err(cannot_come()),
        }
    }

    /// The run of a part that is a fixed part of an object.
    pub fn run(&self, state: &mut Lowering<'_>, held: Held) -> Result<Run, Memory> {
        let copy = self.copied(state.alloc, held)?;
        state.named(copy, b"")
    }

    /// Bits of a part that is a fixed part of an object, from `low` on. The part stays.
    pub fn slice(
        &mut self,
        state: &mut Lowering<'_>,
        held: Held,
        low: u32,
        bits: u32,
    ) -> Result<Held, Memory> {
        let run = self.run(state, held)?;
        self.hold(run.part(low, bits).read())
    }

    /// These bits.
    pub fn bits(&mut self, bits: Bits4) -> Result<Held, Memory> {
        self.hold(Part::bits(bits))
    }

    /// One bit.
    pub fn bit(&mut self, state: &Lowering<'_>, bit: V4) -> Result<Held, Memory> {
        let part = Part::bit(state.alloc, bit)?;
        self.hold(part)
    }

    /// As many bits as `width`, all the same.
    pub fn fill(&mut self, state: &Lowering<'_>, bit: V4, width: u32) -> Result<Held, Memory> {
        let part = state.fill(bit, width)?;
        self.hold(part)
    }

    /// The last `width` bits of a number.
    pub fn number(&mut self, state: &Lowering<'_>, n: i64, width: u32) -> Result<Held, Memory> {
        let part = state.number(n, width)?;
        self.hold(part)
    }

    /// The part with a name, of which it is a fixed part.
    pub fn named(&mut self, state: &mut Lowering<'_>, part: Held) -> Result<Held, Memory> {
        let part = self.taken(part)?;
        let run = state.named(part, b"")?;
        self.hold(run.read())
    }

    /// The part as an operand of another one.
    pub fn operand(&mut self, state: &mut Lowering<'_>, part: Held) -> Result<Held, Memory> {
        let part = self.taken(part)?;
        let part = state.operand(part)?;
        self.hold(part)
    }

    /// The part for two reads.
    pub fn twice(&mut self, state: &mut Lowering<'_>, part: Held) -> Result<(Held, Held), Memory> {
        let first = if part.known {
            part
        } else {
            self.named(state, part)?
        };
        let copy = self.copied(state.alloc, first)?;
        let second = self.hold(copy)?;
        Ok((first, second))
    }

    /// An operator before a part.
    pub fn unary(
        &mut self,
        state: &mut Lowering<'_>,
        op: VUnary,
        operand: Held,
    ) -> Result<Held, Memory> {
        let operand = self.taken(operand)?;
        let part = state.unary(op, operand)?;
        self.hold(part)
    }

    /// A part as an operand, boxed.
    fn boxed(&mut self, alloc: Global, part: Held) -> Result<Boxed<VExpr>, Memory> {
        let part = self.taken(part)?;
        Ok(Boxed::new(alloc, part.expr)?)
    }

    /// An operator between two parts.
    pub fn binary(
        &mut self,
        state: &mut Lowering<'_>,
        left: Held,
        op: VBinary,
        right: Held,
    ) -> Result<Held, Memory> {
        let a = self.operand(state, left)?;
        let b = self.operand(state, right)?;
        let width = if op.keeps_size() { a.width } else { 1 };
        let depth = a.depth.max(b.depth).saturating_add(1);
        let left = self.boxed(state.alloc, a)?;
        let right = self.boxed(state.alloc, b)?;
        let expr = VExpr::Binary {
            left,
            op,
            right,
            at: 0,
        };
        self.hold(Part { expr, width, depth })
    }

    /// One of two parts by a condition.
    pub fn conditional(
        &mut self,
        state: &mut Lowering<'_>,
        condition: Held,
        yes: Held,
        no: Held,
    ) -> Result<Held, Memory> {
        let a = self.operand(state, condition)?;
        let b = self.operand(state, yes)?;
        let c = self.operand(state, no)?;
        let width = b.width;
        let depth = a.depth.max(b.depth).max(c.depth).saturating_add(1);
        let condition = self.boxed(state.alloc, a)?;
        let yes = self.boxed(state.alloc, b)?;
        let no = self.boxed(state.alloc, c)?;
        let expr = VExpr::Conditional {
            condition,
            yes,
            no,
            at: 0,
        };
        self.hold(Part { expr, width, depth })
    }

    /// Two parts side by side.
    pub fn beside(
        &mut self,
        state: &mut Lowering<'_>,
        left: Held,
        right: Held,
    ) -> Result<Held, Memory> {
        let left = self.operand(state, left)?;
        let right = self.operand(state, right)?;
        let mut joined = Joined::new(state.alloc);
        self.join(left, &mut joined)?;
        self.join(right, &mut joined)?;
        self.hold(joined.part())
    }

    /// Puts a part to the right of others.
    pub fn join(&mut self, part: Held, joined: &mut Joined) -> Result<(), Memory> {
        let part = self.taken(part)?;
        joined.push(part)
    }

    /// A part as often as `count`.
    pub fn repeated(
        &mut self,
        state: &Lowering<'_>,
        count: u32,
        part: Held,
    ) -> Result<Held, Memory> {
        let part = self.taken(part)?;
        let part = Part::repeated(state.alloc, count, part)?;
        self.hold(part)
    }

    /// The bits of a part from `low` on.
    pub fn bits_from(
        &mut self,
        state: &mut Lowering<'_>,
        part: Held,
        low: u32,
        bits: u32,
    ) -> Result<Held, Memory> {
        let part = self.taken(part)?;
        let part = state.bits_from(part, low, bits)?;
        self.hold(part)
    }

    /// The part with another number of bits: the leftmost ones are left out, or bits are put before them, which are 0 or are the sign.
    pub fn resized(
        &mut self,
        state: &mut Lowering<'_>,
        part: Held,
        width: u32,
        signed: bool,
    ) -> Result<Held, Memory> {
        if width == part.width {
            return Ok(part);
        }
        let part = self.taken(part)?;
        let part = state.resized(part, width, signed)?;
        self.hold(part)
    }

    /// Gives a part an own object.
    pub fn owned(
        &mut self,
        state: &mut Lowering<'_>,
        part: Held,
        hint: &[u8],
    ) -> Result<u32, Memory> {
        let part = self.taken(part)?;
        state.owned(part, hint)
    }

    /// All of an own object.
    pub fn own(&mut self, state: &Lowering<'_>, number: u32) -> Result<Held, Memory> {
        let run = state.own_run(number)?;
        self.hold(run.read())
    }

    /// `count` bits of an own object from an index on.
    pub fn indexed(
        &mut self,
        state: &Lowering<'_>,
        number: u32,
        index: Held,
        count: u32,
    ) -> Result<Held, Memory> {
        let depth = index.depth.saturating_add(1);
        let run = state.own_run(number)?;
        let index = self.boxed(state.alloc, index)?;
        let expr = VExpr::Reference(VReference::Indexed {
            name: VName {
                text: run.name,
                at: 0,
            },
            index,
            count,
        });
        self.hold(Part {
            expr,
            width: count,
            depth,
        })
    }

    /// What a reference of `width` bits reads.
    pub fn reference(
        &mut self,
        reference: VReference,
        width: u32,
        depth: u32,
    ) -> Result<Held, Memory> {
        self.hold(Part {
            expr: VExpr::Reference(reference),
            width,
            depth,
        })
    }
}
