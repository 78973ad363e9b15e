//! The machine that runs code.

use crate::aggregates::{Part, assembled};
use crate::targets::written;
use sqlite_items::{Items, at};
use std::alloc::Global;
use vv_base::fault::{Fault, Memory, Rule, Span};
use vv_code::{Code, End, Instr, MarkAt, code_of_body};
use vv_held::held::{fitted, from_ordinal, literal, misfit, ordinal, refused};
use vv_held::shape::{contains, count, ends, place_in, upwards, value_at};
use vv_held::{Entry, Env, Held, Shape};
use vv_typed::{ElementList, NumberList};
use vv_types::{BaseType, Bounds, Value};

/// What stands on the stack.
#[derive(Drop)]
pub enum Item {
    Held(Held),
    Range(Bounds),
    Others,
}

/// What a function keeps for one of its declarations.
#[derive(Drop)]
pub struct Slot {
    pub shape: Option<Shape>,
    pub held: Option<Held>,
}

/// Where a call goes on when it returns.
#[derive(Clone, Copy)]
pub struct Frame {
    pub code: usize,
    pub at: usize,
    pub base: usize,
}

/// The state of an evaluation.
#[derive(Drop)]
pub struct Machine<'t> {
    pub alloc: Global,
    pub env: &'t Env<'t>,
    pub codes: Vec<Code<'t>>,
    pub stack: Vec<Item>,
    pub slots: Vec<Slot>,
    pub frames: Vec<Frame>,
    pub wants: Vec<Option<Shape>>,
    pub now: Frame,
    pub shape: Option<Shape>,
    pub root: Span,
    pub steps: u32,
}

impl<'t> Machine<'t> {
    pub fn new(
        alloc: Global,
        env: &'t Env<'t>,
        code: Code<'t>,
        root: Span,
        steps: u32,
    ) -> Result<Machine<'t>, Memory> {
        let mut codes = Vec::new(alloc);
        codes.push(code)?;
        Ok(Machine {
            alloc,
            env,
            codes,
            stack: Vec::new(alloc),
            slots: Vec::new(alloc),
            frames: Vec::new(alloc),
            wants: Vec::new(alloc),
            now: Frame {
                code: 0,
                at: 0,
                base: 0,
            },
            shape: None,
            root,
            steps,
        })
    }

    /// Runs to the end of the expression.
    pub fn run(&mut self) -> Result<Held, Fault> {
        for _ in 0..u64::MAX {
            let Some(instr) = self.fetch() else {
                return Err(misfit());
            };
            if let Instr::Done = instr {
                return self.pop();
            }
            self.step(instr)?;
        }
        Err(misfit())
    }

    /// Takes the next instruction.
    fn fetch(&mut self) -> Option<Instr<'t>> {
        let code = self.codes.get(self.now.code)?;
        let instr = *code.instrs.get(self.now.at)?;
        self.now.at = self.now.at.saturating_add(1);
        Some(instr)
    }

    // ---- the stack

    pub fn put(&mut self, held: Held) -> Result<(), Fault> {
        self.stack.push(Item::Held(held))?;
        Ok(())
    }

    pub fn put_item(&mut self, item: Item) -> Result<(), Fault> {
        self.stack.push(item)?;
        Ok(())
    }

    pub fn put_range(&mut self, range: Bounds) -> Result<(), Fault> {
        self.stack.push(Item::Range(range))?;
        Ok(())
    }

    pub fn pop(&mut self) -> Result<Held, Fault> {
        match self.stack.pop() {
            Some(Item::Held(held)) => Ok(held),
            _ => Err(misfit()),
        }
    }

    pub fn pop_range(&mut self) -> Result<Bounds, Fault> {
        match self.stack.pop() {
            Some(Item::Range(range)) => Ok(range),
            _ => Err(misfit()),
        }
    }

    pub fn pop_ordinal(&mut self) -> Result<i32, Fault> {
        let held = self.pop()?;
        match ordinal(&held.value) {
            Some(n) => Ok(n),
            None => Err(misfit()),
        }
    }

    pub fn pop_truth(&mut self) -> Result<bool, Fault> {
        let held = self.pop()?;
        match held.value {
            Value::Bool(b) => Ok(b),
            _ => Err(misfit()),
        }
    }

    // ---- slots

    pub fn slot(&self, slot: u32) -> Result<&Slot, Fault> {
        let place = self.now.base.saturating_add(slot as usize);
        match self.slots.get(place) {
            Some(slot) => Ok(slot),
            None => Err(misfit()),
        }
    }

    pub fn slot_mut(&mut self, slot: u32) -> Result<&mut Slot, Fault> {
        let place = self.now.base.saturating_add(slot as usize);
        match self.slots.get_mut(place) {
            Some(slot) => Ok(slot),
            None => Err(misfit()),
        }
    }

    /// Puts a value into a slot as one of its shape.
    pub fn fill(&mut self, slot: u32, held: Held, span: Span) -> Result<(), Fault> {
        let Some(shape) = self.slot(slot)?.shape else {
            return Err(misfit());
        };
        let held = fitted(held, shape, span)?;
        let place = self.slot_mut(slot)?;
        place.held = Some(held);
        Ok(())
    }

    pub fn shape_of(&self, mark: MarkAt) -> Result<Shape, Fault> {
        match mark {
            MarkAt::Fixed(shape) => Ok(shape),
            MarkAt::Slot(slot) => match self.slot(slot)?.shape {
                Some(shape) => Ok(shape),
                None => Err(misfit()),
            },
            MarkAt::Unknown => Err(refused(Rule::E1, self.root)),
        }
    }

    /// The shape of a mark, where it is known.
    pub fn wanted_shape(&self, mark: MarkAt) -> Option<Shape> {
        match self.shape_of(mark) {
            Ok(shape) => Some(shape),
            Err(_) => None,
        }
    }

    // ---- values

    pub fn text(
        &mut self,
        base: BaseType,
        positions: &NumberList,
        span: Span,
    ) -> Result<(), Fault> {
        let mut elements = Items::new(self.alloc);
        for position in positions.as_slice() {
            elements.push(literal(base, *position))?;
        }
        if elements.len() == 0 {
            return Err(refused(Rule::E4, span));
        }
        let outer = upwards(0, elements.len());
        self.put(Held {
            value: Value::Array(elements),
            outer,
            inner: None,
        })
    }

    pub fn global(&mut self, decl: u32) -> Result<(), Fault> {
        match self.env.entry(decl) {
            Some(Entry::Constant(held)) => {
                let held = held.copy(self.alloc)?;
                self.put(held)
            }
            _ => Err(refused(Rule::E1, self.root)),
        }
    }

    pub fn global_range(&mut self, decl: u32) -> Result<(), Fault> {
        let bounds = match self.env.entry(decl) {
            Some(Entry::Constant(held)) => held.outer,
            Some(Entry::Signal(shape)) => shape.outer,
            _ => None,
        };
        match bounds {
            Some(bounds) => self.put_range(bounds),
            None => Err(refused(Rule::E1, self.root)),
        }
    }

    pub fn local(&mut self, slot: u32) -> Result<(), Fault> {
        let held = match &self.slot(slot)?.held {
            Some(held) => held.copy(self.alloc)?,
            None => return Err(misfit()),
        };
        self.put(held)
    }

    pub fn range_end(&mut self, end: End, base: BaseType) -> Result<(), Fault> {
        let range = self.pop_range()?;
        let (low, high) = ends(range);
        let value = match end {
            End::Left => from_ordinal(base, range.left),
            End::Right => from_ordinal(base, range.right),
            End::Low => from_ordinal(base, low),
            End::High => from_ordinal(base, high),
            End::Length => match i32::try_from(count(range)) {
                Ok(n) => Some(Value::Int(n)),
                Err(_) => None,
            },
        };
        match value {
            Some(value) => self.put(Held::scalar(value)),
            None => Err(misfit()),
        }
    }

    pub fn aggregate(
        &mut self,
        elements: &ElementList,
        wanted: bool,
        span: Span,
    ) -> Result<(), Fault> {
        let mut parts = Vec::new(self.alloc);
        for element in elements.as_slice().iter().rev() {
            let value = self.pop()?;
            let mut choices = Vec::new(self.alloc);
            for _ in 0..element.choices.len() {
                match self.stack.pop() {
                    Some(item) => choices.push(item)?,
                    None => return Err(misfit()),
                }
            }
            parts.push(Part {
                choices,
                value,
                span: element.value.span,
            })?;
        }
        let wanted = match self.wants.last() {
            Some(Some(shape)) if wanted => shape.outer,
            _ => None,
        };
        let held = assembled(self.alloc, parts.as_slice(), wanted, span)?;
        self.put(held)
    }

    // ---- flow

    pub fn decide(&mut self, on: bool, gives: bool, to: usize) -> Result<(), Fault> {
        let b = self.pop_truth()?;
        if b == on {
            self.now.at = to;
            self.put(Held::scalar(Value::Bool(gives)))
        } else {
            self.put(Held::scalar(Value::Bool(b)))
        }
    }

    /// Takes a step.
    pub fn spend(&mut self, span: Span) -> Result<(), Fault> {
        match self.steps.checked_sub(1) {
            Some(left) => {
                self.steps = left;
                Ok(())
            }
            None => Err(refused(Rule::E3, span)),
        }
    }

    pub fn call(
        &mut self,
        decl: u32,
        formals: Option<&NumberList>,
        args: u32,
        span: Span,
    ) -> Result<(), Fault> {
        self.spend(span)?;
        let code = self.code_of_call(decl)?;
        let base = self.slots.len();
        let slots = match self.codes.get(code) {
            Some(code) => code.slots,
            None => return Err(misfit()),
        };
        for _ in 0..slots {
            self.slots.push(Slot {
                shape: None,
                held: None,
            })?;
        }
        for k in (0..args).rev() {
            let held = self.pop()?;
            let formal = match formals {
                Some(formals) => at(formals.as_slice(), k as usize).copied(),
                None => Some(k),
            };
            let Some(formal) = formal else {
                return Err(misfit());
            };
            match self.slots.get_mut(base.saturating_add(formal as usize)) {
                Some(slot) => slot.held = Some(held),
                None => return Err(misfit()),
            }
        }
        self.frames.push(self.now)?;
        self.now = Frame { code, at: 0, base };
        Ok(())
    }

    /// The place of a function's code, which is made at its first call.
    fn code_of_call(&mut self, decl: u32) -> Result<usize, Fault> {
        for (k, code) in self.codes.iter().enumerate() {
            if code.decl == decl {
                return Ok(k);
            }
        }
        let Some(body) = self.env.body(decl) else {
            return Err(refused(Rule::E1, self.root));
        };
        let code = code_of_body(self.alloc, body, self.env)?;
        self.codes.push(code)?;
        Ok(self.codes.len().saturating_sub(1))
    }

    pub fn finish(&mut self, mark: MarkAt, span: Span) -> Result<(), Fault> {
        let shape = self.shape_of(mark)?;
        let held = self.pop()?;
        let held = fitted(held, shape, span)?;
        let Some(frame) = self.frames.pop() else {
            return Err(misfit());
        };
        self.slots.truncate(self.now.base);
        self.now = frame;
        self.put(held)
    }

    pub fn choose(&mut self, choices: u32, to: usize) -> Result<(), Fault> {
        let mut hit = false;
        let mut items = Vec::new(self.alloc);
        for _ in 0..choices {
            match self.stack.pop() {
                Some(item) => items.push(item)?,
                None => return Err(misfit()),
            }
        }
        let selector = self.pop()?;
        for item in items.as_slice() {
            hit = hit || is_chosen(&selector.value, item);
        }
        if hit {
            self.now.at = to;
            Ok(())
        } else {
            self.put(selector)
        }
    }

    pub fn start_loop(&mut self, slot: u32, hidden: u32, base: BaseType) -> Result<(), Fault> {
        let range = self.pop_range()?;
        let turns = self.slot_mut(hidden)?;
        turns.shape = Some(Shape::scalar(base).constrained(range));
        let place = self.slot_mut(slot)?;
        place.held = None;
        Ok(())
    }

    pub fn next_turn(
        &mut self,
        slot: u32,
        hidden: u32,
        to: usize,
        span: Span,
    ) -> Result<(), Fault> {
        let Some(shape) = self.slot(hidden)?.shape else {
            return Err(misfit());
        };
        let range = shape.scalar;
        let place = match &self.slot(slot)?.held {
            None => Some(0),
            Some(held) => behind(&held.value, range),
        };
        let Some(place) = place else {
            return Err(misfit());
        };
        match value_at(range, place) {
            None => {
                self.now.at = to;
                Ok(())
            }
            Some(n) => {
                self.spend(span)?;
                let Some(value) = from_ordinal(shape.base, n) else {
                    return Err(misfit());
                };
                let place = self.slot_mut(slot)?;
                place.held = Some(Held::scalar(value));
                Ok(())
            }
        }
    }

    // ---- targets

    pub fn want_slot(&mut self, slot: u32, suffixes: u32) -> Result<(), Fault> {
        let slot = self.slot(slot)?;
        let mut shape = slot.shape;
        if let (Some(s), Some(held)) = (slot.shape, &slot.held) {
            shape = Some(Shape {
                levels: s.levels,
                outer: held.outer,
                inner: held.inner,
                scalar: s.scalar,
                base: s.base,
            });
        }
        let first = self.stack.len().saturating_sub(suffixes as usize);
        for k in 0..suffixes {
            let Some(s) = shape else {
                return Err(misfit());
            };
            shape = match self.stack.get(first.saturating_add(k as usize)) {
                Some(Item::Range(range)) => Some(s.constrained(*range)),
                _ => Some(s.element()),
            };
        }
        self.wants.push(shape)?;
        Ok(())
    }

    pub fn store(&mut self, slot: u32, suffixes: u32, span: Span) -> Result<(), Fault> {
        let held = self.pop()?;
        let mut path = Vec::new(self.alloc);
        for _ in 0..suffixes {
            match self.stack.pop() {
                Some(item) => path.push(item)?,
                None => return Err(misfit()),
            }
        }
        if path.is_empty() {
            return self.fill(slot, held, span);
        }
        let alloc = self.alloc;
        let target = self.slot_mut(slot)?;
        let (Some(shape), Some(old)) = (target.shape, target.held.as_ref()) else {
            return Err(misfit());
        };
        let changed = written(alloc, old, path.as_slice(), held, shape, span)?;
        target.held = Some(changed);
        Ok(())
    }
}

/// The place behind that of a value in a range.
fn behind(value: &Value, range: Bounds) -> Option<u64> {
    let n = ordinal(value)?;
    let place = place_in(range, n)?;
    Some(place.saturating_add(1))
}

/// Whether a choice names a value.
pub fn is_chosen(value: &Value, item: &Item) -> bool {
    match item {
        Item::Others => true,
        Item::Range(range) => match ordinal(value) {
            Some(n) => contains(*range, n),
            None => false,
        },
        Item::Held(held) => same(value, &held.value),
    }
}

/// Whether two values are the same.
fn same(a: &Value, b: &Value) -> bool {
    match (a, b) {
        (Value::Logic(x), Value::Logic(y)) => x == y,
        (Value::Bool(x), Value::Bool(y)) => x == y,
        (Value::Int(x), Value::Int(y)) => x == y,
        (Value::Enum(x), Value::Enum(y)) => x == y,
        (Value::Array(xs), Value::Array(ys)) => {
            let ys = ys.as_slice();
            if xs.len() != ys.len() {
                return false;
            }
            for (k, x) in xs.as_slice().iter().enumerate() {
                match at(ys, k) {
                    Some(y) => {
                        if !same(x, y) {
                            return false;
                        }
                    }
                    None => return false,
                }
            }
            true
        }
        _ => false,
    }
}
