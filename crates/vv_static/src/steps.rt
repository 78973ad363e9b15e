//! What each instruction does.

use crate::integers::whole;
use crate::machine::{Item, Machine};
use crate::operators::{numeric, standard};
use vv_base::fault::{Fault, Rule};
use vv_code::Instr;
use vv_held::Held;
use vv_held::held::{
    element_at, fitted, from_ordinal, initial_of, literal, misfit, refused, slice_of,
};
use vv_held::shape::{contains, count, reversed};
use vv_types::{Bounds, Value};

impl<'t> Machine<'t> {
    /// Does an instruction.
    pub fn step(&mut self, instr: Instr<'t>) -> Result<(), Fault> {
        match instr {
            Instr::Integer(n) => self.put(Held::scalar(Value::Int(n))),
            Instr::Literal { base, position } => self.put(Held::scalar(literal(base, position))),
            Instr::Text {
                base,
                positions,
                span,
            } => self.text(base, positions, span),
            Instr::Global(decl) => self.global(decl),
            Instr::Local(slot) => self.local(slot),
            Instr::NotStatic | Instr::Done => Err(refused(Rule::E1, self.root)),
            Instr::Standard { f, arity, span } => {
                let held = standard(self, f, arity, span)?;
                self.put(held)
            }
            Instr::Numeric { f, arity, span } => {
                let held = numeric(self, f, arity, span)?;
                self.put(held)
            }
            Instr::Whole { op, arity, span } => {
                let held = whole(self, op, arity, span)?;
                self.put(held)
            }
            Instr::Call {
                decl,
                formals,
                count,
                span,
            } => self.call(decl, formals, count, span),
            Instr::Decide { on, gives, to } => self.decide(on, gives, to),
            _ => self.name_step(instr),
        }
    }

    fn name_step(&mut self, instr: Instr<'t>) -> Result<(), Fault> {
        match instr {
            Instr::Index(span) => {
                let index = self.pop_ordinal()?;
                let held = self.pop()?;
                let held = element_at(self.alloc, &held, index, span)?;
                self.put(held)
            }
            Instr::Slice(span) => {
                let range = self.pop_range()?;
                let held = self.pop()?;
                let held = slice_of(self.alloc, &held, range, span)?;
                self.put(held)
            }
            Instr::MakeRange { down, base: _ } => {
                let right = self.pop_ordinal()?;
                let left = self.pop_ordinal()?;
                self.put_range(Bounds { left, right, down })
            }
            Instr::MarkRange(mark) => {
                let shape = self.shape_of(mark)?;
                match (shape.levels, shape.outer) {
                    (0, _) => self.put_range(shape.scalar),
                    (_, Some(bounds)) => self.put_range(bounds),
                    _ => Err(misfit()),
                }
            }
            Instr::GlobalRange(decl) => self.global_range(decl),
            Instr::Bounds(bounds) => self.put_range(bounds),
            Instr::LocalRange(slot) => {
                let bounds = match &self.slot(slot)?.held {
                    Some(held) => held.outer,
                    None => None,
                };
                match bounds {
                    Some(bounds) => self.put_range(bounds),
                    None => Err(misfit()),
                }
            }
            Instr::ValueRange => {
                let held = self.pop()?;
                match held.outer {
                    Some(bounds) => self.put_range(bounds),
                    None => Err(misfit()),
                }
            }
            Instr::Reverse => {
                let range = self.pop_range()?;
                self.put_range(reversed(range))
            }
            Instr::RangeEnd { end, base } => self.range_end(end, base),
            Instr::Convert { mark, span } => {
                let shape = self.shape_of(mark)?;
                let held = self.pop()?;
                let held = fitted(held, shape, span)?;
                self.put(held)
            }
            Instr::Qualify { mark, span } => {
                let shape = self.shape_of(mark)?;
                let held = self.pop()?;
                let held = fitted(held, shape, span)?;
                self.put(held)
            }
            Instr::Position => {
                let n = self.pop_ordinal()?;
                self.put(Held::scalar(Value::Int(n)))
            }
            Instr::AtPosition { mark, span } => {
                let shape = self.shape_of(mark)?;
                let n = self.pop_ordinal()?;
                if !contains(shape.scalar, n) {
                    return Err(refused(Rule::E2, span));
                }
                match from_ordinal(shape.base, n) {
                    Some(value) => self.put(Held::scalar(value)),
                    None => Err(misfit()),
                }
            }
            Instr::Others => self.put_item(Item::Others),
            Instr::Aggregate {
                elements,
                base: _,
                wanted,
                span,
            } => self.aggregate(elements, wanted, span),
            _ => self.flow_step(instr),
        }
    }

    fn flow_step(&mut self, instr: Instr<'t>) -> Result<(), Fault> {
        match instr {
            Instr::WantMark(mark) => {
                let shape = self.wanted_shape(mark);
                self.wants.push(shape)?;
                Ok(())
            }
            Instr::WantElementOf(mark) => {
                let shape = match self.wanted_shape(mark) {
                    Some(shape) => Some(shape.element()),
                    None => None,
                };
                self.wants.push(shape)?;
                Ok(())
            }
            Instr::FitElement { mark, span } => {
                let held = self.pop()?;
                let held = match self.shape_of(mark) {
                    Ok(shape) => fitted(held, shape.element(), span)?,
                    Err(_) => held,
                };
                self.put(held)
            }
            Instr::Natural(span) => {
                let held = self.pop()?;
                match held.value {
                    Value::Int(n) if n < 0 => Err(refused(Rule::E2, span)),
                    _ => self.put(held),
                }
            }
            Instr::WantSlot { slot, suffixes } => self.want_slot(slot, suffixes),
            Instr::EndWant => {
                let _ = self.wants.pop();
                Ok(())
            }
            Instr::Store {
                slot,
                suffixes,
                span,
            } => self.store(slot, suffixes, span),
            Instr::Jump(to) => {
                self.now.at = to;
                Ok(())
            }
            Instr::Unless(to) => {
                if !self.pop_truth()? {
                    self.now.at = to;
                }
                Ok(())
            }
            Instr::Choose { choices, to } => self.choose(choices, to),
            Instr::NoChoice(span) => Err(refused(Rule::E11, span)),
            Instr::Turn(span) => self.spend(span),
            Instr::StartLoop { slot, hidden, base } => self.start_loop(slot, hidden, base),
            Instr::NextTurn {
                slot,
                hidden,
                to,
                span,
            } => self.next_turn(slot, hidden, to, span),
            Instr::Return { mark, span } => self.finish(mark, span),
            Instr::End(span) => Err(refused(Rule::E2, span)),
            _ => self.declaration_step(instr),
        }
    }

    fn declaration_step(&mut self, instr: Instr<'t>) -> Result<(), Fault> {
        match instr {
            Instr::ShapeMark(mark) => {
                self.shape = Some(self.shape_of(mark)?);
                Ok(())
            }
            Instr::ShapeArray => {
                let Some(shape) = self.shape else {
                    return Err(misfit());
                };
                self.shape = Some(shape.array_of(None));
                Ok(())
            }
            Instr::ShapeRange(span) => {
                let range = self.pop_range()?;
                let Some(shape) = self.shape else {
                    return Err(misfit());
                };
                if count(range) == 0 {
                    return Err(refused(Rule::E4, span));
                }
                self.shape = Some(shape.constrained(range));
                Ok(())
            }
            Instr::SetShape(slot) => {
                let shape = self.shape;
                let place = self.slot_mut(slot)?;
                place.shape = shape;
                Ok(())
            }
            Instr::IfGiven { slot, to } => {
                if self.slot(slot)?.held.is_some() {
                    self.now.at = to;
                }
                Ok(())
            }
            Instr::StartSlot { slot, span } => {
                let held = self.pop()?;
                self.fill(slot, held, span)
            }
            Instr::DefaultSlot { slot, span } => {
                let Some(shape) = self.slot(slot)?.shape else {
                    return Err(misfit());
                };
                let held = initial_of(self.alloc, shape, span)?;
                let place = self.slot_mut(slot)?;
                place.held = Some(held);
                Ok(())
            }
            Instr::FitSlot { slot, span } => {
                let place = self.slot_mut(slot)?;
                match place.held.take() {
                    Some(held) => self.fill(slot, held, span),
                    None => Err(misfit()),
                }
            }
            _ => Err(misfit()),
        }
    }
}
