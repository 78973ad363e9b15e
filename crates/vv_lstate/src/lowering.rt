//! What writing the parts of a module goes on from.

use crate::objects::{ObjectList, PresentList};
use sqlite_items::Items;
use std::alloc::Global;
use vv_base::fault::{Memory, cannot_come};
use vv_base::text::Text;
use vv_bits::{Bits4, V4};
use vv_design::Design;
use vv_lpart::{Joined, Part, Run, own_name, push_number};
use vv_vtree::{
    VBinary, VBits, VExpr, VPart, VReference, VSelect, VSign, VStmt, VStmtList, VUnary,
};

/// Where parts that need a name of their own get it.
#[derive(Clone, Copy, Debug, PartialEq, Eq)]
pub enum Mode {
    /// In a wire, which has its value at all times.
    Wires,
    /// In a register that a clocked process assigns before it goes on.
    Process,
    /// In a register of a function.
    Function,
}

/// What an own object is.
#[derive(Drop)]
pub enum OwnKind {
    /// A wire with this value.
    Wire(VExpr),
    /// A register with these bits at the start.
    Reg(Option<VBits>),
}

/// An object of the writer's own. Its name has its number, and `hint` is the name of the object whose value it is, or nothing.
#[derive(Drop)]
pub struct Own {
    pub width: u32,
    pub hint: Text,
    pub kind: OwnKind,
}

/// A function that puts `count` bits at an index of `index` bits into an object of `total` bits, of which it is given and answers
/// `bits`, from `low` on.
#[derive(Clone, Copy, Debug, PartialEq, Eq)]
pub struct Put {
    pub total: u32,
    pub low: u32,
    pub bits: u32,
    pub count: u32,
    pub index: u32,
}

/// The own wire of the number of a vector.
#[derive(Drop)]
pub struct NumberOf {
    pub run: Run,
    pub own: u32,
}

/// The own wire of a table, and the number of the constant that it has, where that is one of the design's.
#[derive(Clone, Copy, Debug, PartialEq, Eq)]
pub struct TableOf {
    pub constant: Option<u32>,
    pub own: u32,
}

pub type OwnList = Items<Own>;

pub type PutList = Items<Put>;

pub type NameList = Items<Text>;

/// The depth from which on an operand gets a wire of its own.
const DEEP: u32 = 400;

/// What is written so far of a process or a function. `names` are the names of the nets within their modules, and `objects` the
/// variables, and behind them what else is assigned in single-assignment form.
#[derive(Drop)]
pub struct Lowering<'d> {
    pub alloc: Global,
    pub design: &'d Design,
    pub names: &'d NameList,
    pub mode: Mode,
    pub owns: OwnList,
    pub stmts: VStmtList,
    pub objects: ObjectList,
    pub present: PresentList,
    pub numbers: Items<NumberOf>,
    pub tables: Items<TableOf>,
    pub called: Items<u32>,
    pub puts: PutList,
}

impl<'d> Lowering<'d> {
    /// Nothing yet.
    pub fn new(
        alloc: Global,
        design: &'d Design,
        names: &'d NameList,
        mode: Mode,
        puts: PutList,
    ) -> Lowering<'d> {
        Lowering {
            alloc,
            design,
            names,
            mode,
            owns: Items::new(alloc),
            stmts: Items::new(alloc),
            objects: Items::new(alloc),
            present: Items::new(alloc),
            numbers: Items::new(alloc),
            tables: Items::new(alloc),
            called: Items::new(alloc),
            puts,
        }
    }

    /// Makes an own object, and answers its number.
    pub fn push_own(&mut self, width: u32, hint: &[u8], kind: OwnKind) -> Result<u32, Memory> {
        let number = self.owns.len().min(0xffff_ffff) as u32;
        let hint = Text::from_slice(self.alloc, hint)?;
        self.owns.push(Own { width, hint, kind })?;
        Ok(number)
    }

    /// The own object with a number.
    pub fn own(&self, number: u32) -> Result<&Own, Memory> {
        self.owns.get(number as usize).ok_or(cannot_come())
    }

    /// All of an own object.
    pub fn own_run(&self, number: u32) -> Result<Run, Memory> {
        let width = self.own(number)?.width;
        Ok(Run::whole(own_name(self.alloc, number, b"")?, width))
    }

    /// Gives a part an own object.
    pub fn owned(&mut self, part: Part, hint: &[u8]) -> Result<u32, Memory> {
        let width = part.width;
        let wire = match self.mode {
            Mode::Wires => true,
            Mode::Process => part.is_known(),
            Mode::Function => false,
        };
        if wire {
            return self.push_own(width, hint, OwnKind::Wire(part.expr));
        }
        let number = self.push_own(width, hint, OwnKind::Reg(None))?;
        let run = self.own_run(number)?;
        self.assign(run.reference(), VSign::Blocking, part)?;
        Ok(number)
    }

    /// Writes an assignment.
    pub fn assign(&mut self, target: VReference, sign: VSign, value: Part) -> Result<(), Memory> {
        self.stmts.push(VStmt::Assignment {
            target,
            sign,
            value: value.expr,
            at: 0,
        })?;
        Ok(())
    }

    /// Sees to it that a part has a name, of which it is a fixed part.
    pub fn named(&mut self, part: Part, hint: &[u8]) -> Result<Run, Memory> {
        let Part { expr, width, depth } = part;
        match expr {
            VExpr::Reference(VReference::Select(select)) => Ok(run_of(select, width)),
            other => {
                let number = self.owned(
                    Part {
                        expr: other,
                        width,
                        depth,
                    },
                    hint,
                )?;
                self.own_run(number)
            }
        }
    }

    /// The part, or where it is neither written bits nor a fixed part of an object, an own object with its value.
    pub fn named_or_known(&mut self, part: Part) -> Result<Part, Memory> {
        if part.is_known() {
            return Ok(part);
        }
        Ok(self.named(part, b"")?.read())
    }

    /// The number of the function that puts bits so.
    pub fn put_number(&mut self, put: Put) -> Result<u32, Memory> {
        for (number, known) in self.puts.as_slice().iter().enumerate() {
            if *known == put {
                return Ok(number.min(0xffff_ffff) as u32);
            }
        }
        let number = self.puts.len().min(0xffff_ffff) as u32;
        self.puts.push(put)?;
        Ok(number)
    }

    /// The part for two reads.
    pub fn twice(&mut self, part: Part, hint: &[u8]) -> Result<(Part, Part), Memory> {
        if let Some(bits) = part.known() {
            let copy = Bits4::from_slice(self.alloc, bits.as_slice())?;
            return Ok((part, Part::bits(copy)));
        }
        let run = self.named(part, hint)?;
        let copy = run.copy(self.alloc)?;
        Ok((run.read(), copy.read()))
    }

    /// The part as an operand of another one.
    pub fn operand(&mut self, part: Part) -> Result<Part, Memory> {
        if part.depth < DEEP {
            return Ok(part);
        }
        let run = self.named(part, b"")?;
        Ok(run.read())
    }

    pub fn unary(&mut self, op: VUnary, operand: Part) -> Result<Part, Memory> {
        let operand = self.operand(operand)?;
        Part::unary(self.alloc, op, operand)
    }

    pub fn binary(&mut self, left: Part, op: VBinary, right: Part) -> Result<Part, Memory> {
        let left = self.operand(left)?;
        let right = self.operand(right)?;
        Part::binary(self.alloc, left, op, right)
    }

    pub fn conditional(&mut self, condition: Part, yes: Part, no: Part) -> Result<Part, Memory> {
        let condition = self.operand(condition)?;
        let yes = self.operand(yes)?;
        let no = self.operand(no)?;
        Part::conditional(self.alloc, condition, yes, no)
    }

    /// Two parts side by side.
    pub fn beside(&mut self, left: Part, right: Part) -> Result<Part, Memory> {
        let mut joined = Joined::new(self.alloc);
        let left = self.operand(left)?;
        joined.push(left)?;
        let right = self.operand(right)?;
        joined.push(right)?;
        Ok(joined.part())
    }

    /// As many bits as `width`, all the same.
    pub fn fill(&self, bit: V4, width: u32) -> Result<Part, Memory> {
        let mut bits = Bits4::new(self.alloc);
        for _ in 0..width {
            bits.push(bit)?;
        }
        Ok(Part::bits(bits))
    }

    /// The last `width` bits of a number.
    pub fn number(&self, n: i64, width: u32) -> Result<Part, Memory> {
        let mut bits = Bits4::new(self.alloc);
        push_number(n, width, &mut bits)?;
        Ok(Part::bits(bits))
    }

    /// The bits of a part from `low` on.
    pub fn bits_from(&mut self, part: Part, low: u32, bits: u32) -> Result<Part, Memory> {
        if low == 0 && bits == part.width {
            return Ok(part);
        }
        if let Some(known) = part.known() {
            return self.known_part(known, low, bits);
        }
        let run = self.named(part, b"")?;
        Ok(run.part(low, bits).read())
    }

    /// The bits of written bits from `low` on.
    fn known_part(&self, known: &Bits4, low: u32, bits: u32) -> Result<Part, Memory> {
        let end = known.len().saturating_sub(low as usize);
        let begin = end.saturating_sub(bits as usize);
        let mut kept = Bits4::new(self.alloc);
        for bit in known.as_slice().iter().take(end).skip(begin) {
            kept.push(*bit)?;
        }
        Ok(Part::bits(kept))
    }

    /// The part with another number of bits: the leftmost ones are left out, or bits are put before them, which are 0 or are the sign.
    pub fn resized(&mut self, part: Part, width: u32, signed: bool) -> Result<Part, Memory> {
        if width == part.width {
            return Ok(part);
        }
        if width < part.width {
            return self.bits_from(part, 0, width);
        }
        let more = width.saturating_sub(part.width);
        if !signed {
            let zeros = self.fill(V4::Zero, more)?;
            return self.beside(zeros, part);
        }
        if let Some(bits) = part.known() {
            let sign = match bits.as_slice().first() {
                Some(bit) => *bit,
                None => V4::Zero,
            };
            let signs = self.fill(sign, more)?;
            return self.beside(signs, part);
        }
        let last = part.width.saturating_sub(1);
        let run = self.named(part, b"")?;
        let sign = run.copy(self.alloc)?.part(last, 1).read();
        let signs = Part::repeated(self.alloc, more, sign)?;
        self.beside(signs, run.read())
    }
}

/// What a select of `bits` bits reads.
fn run_of(select: VSelect, bits: u32) -> Run {
    let VSelect { name, part } = select;
    let (low, whole) = match part {
        VPart::Whole => (0, true),
        VPart::Bit(low) => (low, false),
        VPart::Slice { high: _, low } => (low, false),
    };
    Run {
        name: name.text,
        low,
        bits,
        whole,
    }
}
