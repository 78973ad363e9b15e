//! The code of expressions.

use crate::build::Builder;
use vv_base::fault::Memory;
use vv_engine4::code::{Field, Instr, Slot};
use vv_flat::{FExpr, Place};
use vv_vtree::{VBinary, VUnary};

impl Builder {
    /// Adds the code of an expression. Its value is then in these words.
    #[cycle(expressions)]
    pub fn value(&mut self, expr: &FExpr) -> Result<Slot, Memory> {
        match expr {
            FExpr::Read(place) => self.read(*place),
            FExpr::Indexed { of, index, count } => {
                let index = self.value(index.get())?;
                self.indexed(*of, index, *count)
            }
            FExpr::Bits(bits) => self.constant(bits.as_slice()),
            FExpr::Concatenation(parts) => self.concatenation(parts.as_slice()),
            FExpr::Repetition { count, part } => {
                let part = self.value(part.get())?;
                self.repetition(*count, part)
            }
            FExpr::Call { function, args } => self.call(*function, args.as_slice()),
            FExpr::Unary { op, operand } => {
                let operand = self.value(operand.get())?;
                self.unary(*op, operand)
            }
            FExpr::Binary { left, op, right } => {
                let left = self.value(left.get())?;
                let right = self.value(right.get())?;
                self.binary(*op, left, right)
            }
            FExpr::Conditional { condition, yes, no } => {
                let is_plain = is_plain(yes.get()) && is_plain(no.get());
                let condition = self.value(condition.get())?.at;
                let past = self.begin_choice(condition, is_plain)?;
                let yes = self.value(yes.get())?;
                let choice = self.go_on_choice(condition, yes, past)?;
                let no = self.value(no.get())?;
                self.end_choice(condition, choice, no)
            }
        }
    }

    fn read(&mut self, place: Place) -> Result<Slot, Memory> {
        self.note_read(place)?;
        if let Some(slot) = self.slot(place) {
            return Ok(slot);
        }
        let from = self.field(place);
        let to = self.between(place.width)?;
        self.emit(Instr::Take { from, to: to.at })?;
        Ok(to)
    }

    fn indexed(&mut self, of: Place, index: Slot, count: u32) -> Result<Slot, Memory> {
        self.note_read(of)?;
        let of = self.field(of);
        let to = self.between(count)?;
        self.emit(Instr::Pick {
            of,
            index,
            count,
            to: to.at,
        })?;
        Ok(to)
    }

    #[cycle(expressions)]
    fn concatenation(&mut self, parts: &[FExpr]) -> Result<Slot, Memory> {
        let mut slots = Vec::new(self.alloc);
        let mut width: u32 = 0;
        for part in parts {
            let slot = self.value(part)?;
            width = width.checked_add(slot.width).ok_or(Memory)?;
            slots.push(slot)?;
        }
        self.joined(width, slots.as_slice())
    }

    /// Joins vectors, the leftmost of which is the first.
    fn joined(&mut self, width: u32, slots: &[Slot]) -> Result<Slot, Memory> {
        let to = self.between(width)?;
        let mut start: u32 = 0;
        for from in slots.iter().rev() {
            self.emit(Instr::Join {
                from: *from,
                to: Field {
                    at: to.at.saturating_add(start / 64),
                    shift: start % 64,
                    width: from.width,
                },
            })?;
            start = start.saturating_add(from.width);
        }
        Ok(to)
    }

    fn repetition(&mut self, count: u32, part: Slot) -> Result<Slot, Memory> {
        let width = count.checked_mul(part.width).ok_or(Memory)?;
        let to = self.between(width)?;
        self.emit(Instr::Repeat {
            from: part,
            count,
            to: to.at,
        })?;
        Ok(to)
    }

    #[cycle(expressions)]
    fn call(&mut self, function: u32, args: &[FExpr]) -> Result<Slot, Memory> {
        let mut slots = Vec::new(self.alloc);
        for arg in args {
            slots.push(self.value(arg)?)?;
        }
        self.called(function, slots.as_slice())
    }

    /// Calls a function with these arguments. Its result is moved, since a further call changes it.
    fn called(&mut self, function: u32, args: &[Slot]) -> Result<Slot, Memory> {
        for (number, arg) in args.iter().enumerate() {
            let input = self.input(function, number)?;
            self.emit(Instr::Take {
                from: Field {
                    at: arg.at,
                    shift: 0,
                    width: arg.width,
                },
                to: input.at,
            })?;
        }
        self.emit(Instr::Call(function))?;
        let result = match self.frames.get(function as usize) {
            Some(frame) => frame.result,
            None => return Err(Memory),
        };
        let to = self.between(result.width)?;
        self.emit(Instr::Take {
            from: Field {
                at: result.at,
                shift: 0,
                width: result.width,
            },
            to: to.at,
        })?;
        Ok(to)
    }

    /// The words of an input of a function.
    fn input(&self, function: u32, number: usize) -> Result<Slot, Memory> {
        let frame = self.frames.get(function as usize).ok_or(Memory)?;
        frame.inputs.get(number).copied().ok_or(Memory)
    }

    fn unary(&mut self, op: VUnary, operand: Slot) -> Result<Slot, Memory> {
        let width = if op == VUnary::Not { operand.width } else { 1 };
        let to = self.between(width)?;
        self.emit(Instr::Unary {
            op,
            operand,
            to: to.at,
        })?;
        Ok(to)
    }

    fn binary(&mut self, op: VBinary, left: Slot, right: Slot) -> Result<Slot, Memory> {
        let width = if op.keeps_size() { left.width } else { 1 };
        let to = self.between(width)?;
        self.emit(Instr::Binary {
            op,
            left: left.at,
            right: right.at,
            width: left.width,
            to: to.at,
        })?;
        Ok(to)
    }

    /// Begins a choice by a condition: past the first of two expressions where the condition is 0. No jump is needed where neither of them
    /// has code of its own.
    fn begin_choice(&mut self, condition: u32, is_plain: bool) -> Result<Option<u32>, Memory> {
        if is_plain {
            return Ok(None);
        }
        let past = self.hole(Instr::Zero {
            bit: condition,
            to: 0,
        })?;
        Ok(Some(past))
    }

    /// Goes on with a choice behind the code of the first expression: past the second one where the condition is 1.
    fn go_on_choice(
        &mut self,
        condition: u32,
        yes: Slot,
        past: Option<u32>,
    ) -> Result<Choice, Memory> {
        let to = self.between(yes.width)?;
        let Some(past) = past else {
            return Ok(Choice { yes, to, end: None });
        };
        self.emit(Instr::Take {
            from: Field {
                at: yes.at,
                shift: 0,
                width: yes.width,
            },
            to: to.at,
        })?;
        let end = self.hole(Instr::One {
            bit: condition,
            to: 0,
        })?;
        self.fill(past)?;
        Ok(Choice {
            yes: to,
            to,
            end: Some(end),
        })
    }

    /// Ends a choice behind the code of the second expression.
    fn end_choice(&mut self, condition: u32, choice: Choice, no: Slot) -> Result<Slot, Memory> {
        self.emit(Instr::Choose {
            condition,
            yes: choice.yes.at,
            no: no.at,
            width: choice.to.width,
            to: choice.to.at,
        })?;
        if let Some(end) = choice.end {
            self.fill(end)?;
        }
        Ok(choice.to)
    }
}

/// A choice whose second expression has no code yet: the words of the first one, those of the value, and the jump past the second one.
#[derive(Clone, Copy, Debug, PartialEq, Eq)]
struct Choice {
    yes: Slot,
    to: Slot,
    end: Option<u32>,
}

/// Whether an expression needs no code, or a copy at most.
fn is_plain(expr: &FExpr) -> bool {
    matches!(expr, FExpr::Read(_) | FExpr::Bits(_))
}
