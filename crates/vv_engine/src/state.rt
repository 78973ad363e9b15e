//! A run of a process: its instructions on the cells.

use crate::code::Instr;
use crate::integers::{place_in, whole_of};
use crate::marks::Marks;
use std::alloc::Global;
use vv_base::fault::{Memory, Span};
use vv_design::{Met, MetKind};
use vv_store::Store;
use vv_types::Place;

/// What instructions work on.
#[derive(Drop)]
pub struct State {
    store: Store,
    /// The first of the cells with the values before.
    before: u32,
    /// The net elements that have an event.
    events: Marks,
    /// The net elements with a driver that changed.
    dirty: Marks,
    /// Where each open call goes on.
    back: Vec<u32>,
    depth: usize,
    /// What was met first.
    met: Option<Met>,
}

/// The number of a truth value.
fn bit(truth: bool) -> i32 {
    if truth { 1 } else { 0 }
}

/// Whether a number is one of U, X and -.
fn is_unknown(a: i32) -> bool {
    a == 0 || a == 1 || a == 8
}

/// Some cells from one on.
fn from(first: u32, size: u32) -> Place {
    Place { first, size }
}

impl State {
    /// The state of some net elements. Cells begin with their values and go on with those before; at most `calls` calls are open at once.
    pub fn new(alloc: Global, store: Store, elements: u32, calls: usize) -> Result<State, Memory> {
        Ok(State {
            store,
            before: elements,
            events: Marks::new(alloc, elements)?,
            dirty: Marks::new(alloc, elements)?,
            back: vec![in alloc; 0u32; calls]?,
            depth: 0,
            met: None,
        })
    }

    /// The number in a cell.
    pub fn get(&self, cell: u32) -> i32 {
        self.store.get(cell)
    }

    /// What was met first since the last `forget_met`.
    pub fn met(&self) -> Option<Met> {
        self.met
    }

    /// Forgets what was met.
    pub fn forget_met(&mut self) {
        self.met = None;
    }

    /// Notes what is met, where it is the first.
    pub fn meet(&mut self, kind: MetKind, at: Span) {
        if self.met.is_none() {
            self.met = Some(Met { kind, at });
        }
    }

    /// Gives an element its value, and as the value before too.
    pub fn start(&mut self, elem: u32, value: i32) {
        self.store.set(elem, value);
        let before = self.before.saturating_add(elem);
        self.store.set(before, value);
    }

    /// Gives an element a value. The former one is answered where it differs, which is an event.
    pub fn change(&mut self, elem: u32, value: i32) -> Option<i32> {
        let old = self.store.get(elem);
        if value == old {
            return None;
        }
        self.events.add(elem);
        self.store.set(elem, value);
        let before = self.before.saturating_add(elem);
        self.store.set(before, old);
        Some(old)
    }

    /// Forgets the events: the values before are those of now.
    pub fn forget(&mut self) {
        for k in 0..self.events.len() {
            let elem = self.events.get(k);
            let now = self.store.get(elem);
            let before = self.before.saturating_add(elem);
            self.store.set(before, now);
        }
        self.events.clear();
    }

    /// How many elements have a driver that changed.
    pub fn dirty_len(&self) -> usize {
        self.dirty.len()
    }

    /// One of them.
    pub fn dirty(&self, place: usize) -> u32 {
        self.dirty.get(place)
    }

    /// No driver has changed since now.
    pub fn clean(&mut self) {
        self.dirty.clear();
    }

    /// Runs the code from one place to its end. The answer is the place of a range error.
    pub fn run(&mut self, code: &[Instr], entry: u32) -> Option<Span> {
        let mut at = entry;
        self.depth = 0;
        for _ in 0..u64::MAX {
            let place = at as usize;
            if place >= code.len() {
                return None;
            }
            let instr = code[place];
            at = at.saturating_add(1);
            match instr {
                Instr::Halt => return None,
                Instr::Jump(to) => at = to,
                Instr::Call(to) => {
                    self.open(at);
                    at = to;
                }
                Instr::Return => at = self.close(),
                Instr::Unless { cell, to } if self.store.get(cell) == 0 => at = to,
                Instr::When { cell, to } if self.store.get(cell) != 0 => at = to,
                Instr::WhenSame { a, b, to } if self.store.same(a, b) => at = to,
                Instr::WhenWithin {
                    cell,
                    low,
                    high,
                    to,
                } if self.is_within(cell, low, high) => at = to,
                _ => {
                    if let Some(span) = self.step(instr) {
                        return Some(span);
                    }
                }
            }
        }
        None
    }

    /// Notes where a call goes on.
    fn open(&mut self, at: u32) {
        if self.depth < self.back.len() {
            self.back[self.depth] = at;
            self.depth += 1;
        }
    }

    /// Where the last call goes on.
    fn close(&mut self) -> u32 {
        self.depth = self.depth.saturating_sub(1);
        match self.back.get(self.depth) {
            Some(at) => *at,
            None => u32::MAX,
        }
    }

    fn is_within(&self, cell: u32, low: i32, high: i32) -> bool {
        let n = self.store.get(cell);
        low <= n && n <= high
    }

    /// An instruction that may reach a range error.
    fn step(&mut self, instr: Instr) -> Option<Span> {
        match instr {
            Instr::Numeric { f, a, b, to, at } => {
                if !self.store.numeric(f, a, b, to) {
                    return Some(at);
                }
            }
            Instr::Whole { op, a, b, to, at } => {
                match whole_of(op, self.store.get(a), self.store.get(b)) {
                    Some(n) => self.store.set(to, n),
                    None => return Some(at),
                }
            }
            Instr::Check {
                cell,
                low,
                high,
                at,
            } => {
                if !self.is_within(cell, low, high) {
                    return Some(at);
                }
            }
            Instr::Locate {
                index,
                bounds,
                width,
                plus,
                to,
                at,
            } => {
                let Some(place) = place_in(bounds, self.store.get(index)) else {
                    return Some(at);
                };
                let offset = place
                    .saturating_mul(width)
                    .saturating_add(self.offset(plus));
                self.store
                    .set(to, i32::try_from(offset).unwrap_or(i32::MAX));
            }
            _ => self.plain(instr),
        }
        None
    }

    /// An instruction that only works on cells.
    fn plain(&mut self, instr: Instr) {
        match instr {
            Instr::Copy { from, to } => self.store.copy(from, to),
            Instr::Fill { from, to } => self.fill(from, to),
            Instr::Standard { f, a, b, to } => self.store.standard(f, a, b, to),
            Instr::Fetch { first, offset, to } => {
                let of = from(first.saturating_add(self.offset(offset)), to.size);
                self.store.copy(of, to);
            }
            Instr::Put {
                from: of,
                first,
                offset,
            } => {
                let to = from(first.saturating_add(self.offset(offset)), of.size);
                self.store.copy(of, to);
            }
            Instr::Drive {
                from,
                first,
                offset,
                elem,
            } => {
                let offset = self.offset(offset);
                self.drive(
                    from,
                    first.saturating_add(offset),
                    elem.saturating_add(offset),
                );
            }
            Instr::Clash { a, b, at } => self.clash(a, b, at),
            Instr::Set { to, v } => self.store.set(to, v),
            _ => self.look(instr),
        }
    }

    /// An instruction that looks at events.
    fn look(&mut self, instr: Instr) {
        match instr {
            Instr::Edge { elem, rising, to } => {
                let (level, other) = if rising { (3, 2) } else { (2, 3) };
                let before = self.store.get(self.before.saturating_add(elem));
                let edge = self.events.has(elem)
                    && self.store.get(elem) == level
                    && before == other;
                self.store.set(to, bit(edge));
            }
            Instr::Event { of, to } => {
                let mut any = false;
                for k in 0..of.size {
                    any = any || self.events.has(of.first.saturating_add(k));
                }
                self.store.set(to, bit(any));
            }
            _ => {}
        }
    }

    /// The number in a cell as an offset.
    fn offset(&self, cell: u32) -> u32 {
        u32::try_from(self.store.get(cell)).unwrap_or(0)
    }

    /// Puts the numbers of a place one behind another until the other place is full.
    fn fill(&mut self, from: Place, to: Place) {
        let mut k: u32 = 0;
        for at in 0..to.size {
            let n = self.store.get(from.first.saturating_add(k));
            self.store.set(to.first.saturating_add(at), n);
            k = k.saturating_add(1);
            if k >= from.size {
                k = 0;
            }
        }
    }

    /// Puts numbers into the cells of a driver, and notes the elements where they are new.
    fn drive(&mut self, from: Place, first: u32, elem: u32) {
        for k in 0..from.size {
            let n = self.store.get(from.first.saturating_add(k));
            let at = first.saturating_add(k);
            if self.store.get(at) != n {
                self.store.set(at, n);
                self.dirty.add(elem.saturating_add(k));
            }
        }
    }

    /// Notes a clash: different values of U, X and - at one element of two places of the same size.
    fn clash(&mut self, a: Place, b: Place, at: Span) {
        if self.met.is_some() || a.size != b.size {
            return;
        }
        for k in 0..a.size {
            let x = self.store.get(a.first.saturating_add(k));
            let y = self.store.get(b.first.saturating_add(k));
            if x != y && is_unknown(x) && is_unknown(y) {
                self.meet(MetKind::Clash, at);
                return;
            }
        }
    }
}
