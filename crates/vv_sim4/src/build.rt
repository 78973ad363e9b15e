//! What code is made with: words, instructions, and the places that an item reads.

use crate::layout::{Layout, behind};
use std::alloc::Global;
use vv_base::fault::Memory;
use vv_bits::V4;
use vv_engine4::code::{Field, Instr, Slot};
use vv_engine4::pair::{Pair, ZEROS, words_of};
use vv_engine4::store::{mask_in, span_of};
use vv_flat::Place;

/// Where a function has its objects: the layout of its frame, its result, its inputs, and the rest of its frame.
#[derive(Drop)]
pub struct Frame {
    pub layout: Layout,
    pub result: Slot,
    pub inputs: Vec<Slot>,
    pub rest: Slot,
}

/// Words for what is between: from `start` on to `end`, and those before `top` are taken.
#[derive(Clone, Copy, Debug, PartialEq, Eq)]
struct Room {
    start: u32,
    top: u32,
    end: u32,
}

/// Makes the code. `words` has what the words hold at first.
#[derive(Drop)]
pub struct Builder {
    pub alloc: Global,
    pub words: Vec<Pair>,
    pub instrs: Vec<Instr>,
    pub bits: Layout,
    pub frames: Vec<Frame>,
    /// The number of the function whose code is made.
    pub function: Option<usize>,
    /// What the present item reads.
    pub reads: Vec<Field>,
    room: Room,
}

/// What was made: the words, the code, and where the bits of the design lie.
#[derive(Drop)]
pub struct Made {
    pub words: Vec<Pair>,
    pub instrs: Vec<Instr>,
    pub bits: Layout,
}

impl Builder {
    pub fn finish(self) -> Made {
        Made {
            words: self.words,
            instrs: self.instrs,
            bits: self.bits,
        }
    }

    /// Makes bits x.
    pub fn forget(&mut self, field: Field) {
        for word in 0..span_of(field) {
            let mask = mask_in(field, word);
            let at = field.at.saturating_add(word) as usize;
            if let Some(pair) = self.words.get_mut(at) {
                *pair = pair.merged(Pair::unknowns(mask), mask);
            }
        }
    }

    pub fn new(alloc: Global) -> Builder {
        Builder {
            alloc,
            words: Vec::new(alloc),
            instrs: Vec::new(alloc),
            bits: Layout::new(alloc),
            frames: Vec::new(alloc),
            function: None,
            reads: Vec::new(alloc),
            room: Room {
                start: 0,
                top: 0,
                end: 0,
            },
        }
    }

    /// The number of the next word.
    pub fn next_word(&self) -> Result<u32, Memory> {
        u32::try_from(self.words.len()).map_err(|_| Memory)
    }

    /// The number of the next instruction.
    pub fn next_instr(&self) -> Result<u32, Memory> {
        u32::try_from(self.instrs.len()).map_err(|_| Memory)
    }

    /// New words that hold zeros.
    pub fn grow(&mut self, words: u32) -> Result<(), Memory> {
        for _ in 0..words {
            self.words.push(ZEROS)?;
        }
        Ok(())
    }

    /// New words for a vector that nothing else takes.
    pub fn own(&mut self, width: u32) -> Result<Slot, Memory> {
        let at = self.next_word()?;
        self.grow(words_of(width))?;
        Ok(Slot { at, width })
    }

    /// New words for bits from the bit `shift` on.
    pub fn own_field(&mut self, shift: u32, width: u32) -> Result<Field, Memory> {
        let end = shift.checked_add(width).ok_or(Memory)?;
        let slot = self.own(end)?;
        Ok(Field {
            at: slot.at,
            shift,
            width,
        })
    }

    /// Lets what comes next have words of its own.
    pub fn fresh_room(&mut self) -> Result<(), Memory> {
        let next = self.next_word()?;
        self.room = Room {
            start: next,
            top: next,
            end: next,
        };
        Ok(())
    }

    /// Gives back the words of a statement that has come to its end.
    pub fn clear_room(&mut self) {
        self.room.top = self.room.start;
    }

    /// Words for a vector, up to the end of the statement.
    pub fn between(&mut self, width: u32) -> Result<Slot, Memory> {
        let at = self.room.top;
        let top = behind(at, width)?;
        if top <= self.room.end {
            self.room.top = top;
            return Ok(Slot { at, width });
        }
        let size = self.room.end.saturating_sub(self.room.start);
        let start = self.next_word()?;
        let top = behind(start, width)?;
        let end = top.max(start.saturating_add(size.saturating_mul(2)));
        self.grow(end.saturating_sub(start))?;
        self.room = Room { start, top, end };
        Ok(Slot { at: start, width })
    }

    /// Words with these bits, leftmost first.
    pub fn constant(&mut self, bits: &[V4]) -> Result<Slot, Memory> {
        let width = u32::try_from(bits.len()).map_err(|_| Memory)?;
        let at = self.next_word()?;
        let mut pair = ZEROS;
        let mut place: u32 = 0;
        for bit in bits.iter().rev() {
            pair = pair.with_bit(*bit, place);
            place = place.saturating_add(1);
            if place == 64 {
                self.words.push(pair)?;
                pair = ZEROS;
                place = 0;
            }
        }
        if place > 0 {
            self.words.push(pair)?;
        }
        Ok(Slot { at, width })
    }

    pub fn emit(&mut self, instr: Instr) -> Result<(), Memory> {
        self.instrs.push(instr)?;
        Ok(())
    }

    /// Adds a jump that is to lead to a place which is not known yet. Its number is told.
    pub fn hole(&mut self, jump: Instr) -> Result<u32, Memory> {
        let number = self.next_instr()?;
        self.instrs.push(jump)?;
        Ok(number)
    }

    /// Lets a jump lead to the next instruction.
    pub fn fill(&mut self, hole: u32) -> Result<(), Memory> {
        let next = self.next_instr()?;
        if let Some(jump) = self.instrs.get_mut(hole as usize) {
            *jump = leading(*jump, next);
        }
        Ok(())
    }

    fn layout(&self) -> &Layout {
        match self.function {
            Some(number) => match self.frames.get(number) {
                Some(frame) => &frame.layout,
                None => &self.bits,
            },
            None => &self.bits,
        }
    }

    /// Where a place of the item or the function lies.
    pub fn field(&self, place: Place) -> Field {
        self.layout().field(place)
    }

    /// The words of a place that has its own ones.
    pub fn slot(&self, place: Place) -> Option<Slot> {
        let layout = self.layout();
        if layout.is_area(place) {
            Some(Slot {
                at: layout.field(place).at,
                width: place.width,
            })
        } else {
            None
        }
    }

    /// Notes that the present item reads a place.
    pub fn note_read(&mut self, place: Place) -> Result<(), Memory> {
        if self.function.is_none() {
            let field = self.field(place);
            self.reads.push(field)?;
        }
        Ok(())
    }
}

/// A jump that leads to another place.
fn leading(jump: Instr, next: u32) -> Instr {
    match jump {
        Instr::Jump(_) => Instr::Jump(next),
        Instr::Unless { bit, to: _ } => Instr::Unless { bit, to: next },
        Instr::Zero { bit, to: _ } => Instr::Zero { bit, to: next },
        Instr::One { bit, to: _ } => Instr::One { bit, to: next },
        Instr::Same {
            left,
            right,
            width,
            to: _,
        } => Instr::Same {
            left,
            right,
            width,
            to: next,
        },
        other => other,
    }
}
