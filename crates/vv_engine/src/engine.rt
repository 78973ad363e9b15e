//! The cycle of a run: ready processes resume, and then nets take the resolutions of their sources.

use crate::code::Instr;
use crate::lists::{Lists, Segments};
use crate::marks::Ready;
use crate::state::State;
use vv_base::fault::Span;
use vv_design::MetKind;

/// A control that a process drives, and the place of its declaration.
#[derive(Clone, Copy, Debug, PartialEq, Eq)]
pub struct Watch {
    pub elem: u32,
    pub at: Span,
}

/// A design that is ready to be run. `entries` are the places of the processes in the code, `feeds` has for each net element the cells of
/// its sources, `listeners` for each segment of elements the processes that are sensitive to it, and `watches` the controls that
/// processes drive, the least element first. `most` bounds the steps of a row.
#[derive(Drop)]
pub struct Engine {
    pub state: State,
    pub code: Vec<Instr>,
    pub entries: Vec<u32>,
    pub feeds: Lists,
    pub segments: Segments,
    pub listeners: Lists,
    pub watches: Vec<Watch>,
    pub ready: Ready,
    pub most: u64,
}

/// What two sources give together. The order of the numbers is U X 0 1 Z W L H -.
fn joined(a: i32, b: i32) -> i32 {
    if a == b && a != 8 {
        a
    } else if a == 0 || b == 0 {
        0
    } else if a == 1 || b == 1 || a == 8 || b == 8 {
        1
    } else if a == 4 {
        b
    } else if b == 4 {
        a
    } else if (a == 2 && b == 3) || (a == 3 && b == 2) {
        1
    } else if a == 2 || b == 2 {
        2
    } else if a == 3 || b == 3 {
        3
    } else {
        5
    }
}

/// Whether a number is '0' or '1'.
fn is_level(value: i32) -> bool {
    value == 2 || value == 3
}

impl Engine {
    /// The resolution of the sources of an element, and its own value where it has none.
    fn resolved(&self, elem: u32) -> i32 {
        match self.feeds.list(elem) {
            [] => self.state.get(elem),
            [one] => self.state.get(*one),
            [first, rest @ ..] => {
                let mut value = self.state.get(*first);
                for cell in rest {
                    value = joined(value, self.state.get(*cell));
                }
                value
            }
        }
    }

    /// Lets each element below `elements` begin with the resolution of its sources, and makes all processes ready.
    pub fn begin(&mut self, elements: u32) {
        for elem in 0..elements {
            let value = self.resolved(elem);
            self.state.start(elem, value);
        }
        let mut number: u32 = 0;
        for _ in self.entries.as_slice() {
            self.ready.add(number);
            number = number.saturating_add(1);
        }
    }

    /// Resumes the ready processes in their order. The answer is the place of a range error.
    fn resume(&mut self) -> Option<Span> {
        for word in 0..self.ready.begin() {
            let mut bits = self.ready.take(word);
            for _ in 0..64 {
                if bits == 0 {
                    break;
                }
                let number = word
                    .saturating_mul(64)
                    .saturating_add(bits.trailing_zeros() as usize);
                bits &= bits.wrapping_sub(1);
                if let Some(entry) = self.entries.get(number).copied()
                    && let Some(span) = self.state.run(self.code.as_slice(), entry)
                {
                    return Some(span);
                }
            }
        }
        None
    }

    /// Gives an element a value. The processes that are sensitive to it become ready where that is an event. Whether it leaves the
    /// levels '0' and '1' is told.
    pub fn change(&mut self, elem: u32, value: i32) -> bool {
        let Some(old) = self.state.change(elem, value) else {
            return false;
        };
        for process in self.listeners.list(self.segments.of(elem)) {
            self.ready.add(*process);
        }
        is_level(old) && !is_level(value)
    }

    /// Updates the elements whose drivers have changed.
    fn update(&mut self) {
        self.state.forget();
        let mut least = u32::MAX;
        for k in 0..self.state.dirty_len() {
            let elem = self.state.dirty(k);
            let value = self.resolved(elem);
            if self.change(elem, value) && elem < least && self.watch(elem).is_some() {
                least = elem;
            }
        }
        self.state.clean();
        if let Some(at) = self.watch(least) {
            self.state.meet(MetKind::Control, at);
        }
    }

    /// The place of a control that a process drives.
    fn watch(&self, elem: u32) -> Option<Span> {
        for watch in self.watches.as_slice() {
            if watch.elem == elem {
                return Some(watch.at);
            }
        }
        None
    }

    /// Goes on until nothing is ready. The answer is the place of a range error.
    pub fn settle(&mut self) -> Option<Span> {
        for _ in 0..self.most {
            if !self.ready.is_any() {
                return None;
            }
            if let Some(span) = self.resume() {
                return Some(span);
            }
            self.update();
        }
        None
    }
}
