//! Where ways of execution join.

use crate::single::Single;
use sqlite_items::Items;
use std::mem;
use vv_base::fault::{Memory, cannot_come};
use vv_lrows::{Held, Pool};
use vv_lstate::{Piece, PieceList, PresentList, copied_present, push_piece};

/// A condition by the number of its wire, and the present values at the end of the way that is taken where it holds.
#[derive(Drop)]
pub struct Way {
    pub condition: u32,
    pub present: PresentList,
}

pub type WayList = Items<Way>;

/// Pieces that are gone through from the left, `bits` bits at a time.
#[derive(Drop)]
struct Cursor<'p> {
    pieces: &'p [Piece],
    next: usize,
    now: Option<Piece>,
}

impl<'p> Cursor<'p> {
    fn new(pieces: &'p [Piece]) -> Cursor<'p> {
        Cursor {
            pieces,
            next: 1,
            now: pieces.first().copied(),
        }
    }

    /// Goes on behind the left `bits` bits of the piece that is looked at.
    fn skip(&mut self, piece: Piece, bits: u32) {
        self.now = if piece.bits <= bits {
            let next = self.pieces.get(self.next).copied();
            self.next = self.next.saturating_add(1);
            next
        } else {
            Some(Piece {
                bits: piece.bits.saturating_sub(bits),
                ..piece
            })
        };
    }
}

/// The left `bits` bits of a piece.
fn upper(piece: Piece, bits: u32) -> Piece {
    Piece {
        own: piece.own,
        low: match piece.own {
            Some(_) => piece.low.saturating_add(piece.bits.saturating_sub(bits)),
            None => 0,
        },
        bits,
    }
}

impl Single<'_, '_> {
    /// Ends a way: its present values are kept, and those from which all ways start are back.
    pub fn end_way(
        &mut self,
        condition: u32,
        start: &PresentList,
        ways: &mut WayList,
    ) -> Result<(), Memory> {
        let again = copied_present(self.low.alloc, start.as_slice())?;
        let present = mem::replace(&mut self.low.present, again);
        ways.push(Way { condition, present })?;
        Ok(())
    }

    /// Joins the ways with the present values where no condition holds. The first condition that holds decides.
    pub fn join(&mut self, ways: WayList) -> Result<(), Memory> {
        for way in ways.as_slice().iter().rev() {
            self.join_way(way)?;
        }
        Ok(())
    }

    fn join_way(&mut self, way: &Way) -> Result<(), Memory> {
        for object in 0..self.low.present.len() {
            let number = object.min(0xffff_ffff) as u32;
            let yes = way.present.get(object).ok_or(cannot_come())?;
            let joined = self.joined(way.condition, yes.as_slice(), number)?;
            self.low.set_pieces(number, joined);
        }
        Ok(())
    }

    /// The pieces of an object where two ways join.
    fn joined(&mut self, condition: u32, yes: &[Piece], object: u32) -> Result<PieceList, Memory> {
        let mut joined = Items::new(self.low.alloc);
        let hint = self.low.object_hint(object)?;
        let width = self.low.object(object)?.width();
        let no = self.low.object_pieces(object, 0, width)?;
        let mut left = Cursor::new(yes);
        let mut right = Cursor::new(no.as_slice());
        for _ in 0..yes.len().saturating_add(no.len()) {
            match (left.now, right.now) {
                (Some(a), Some(b)) => {
                    let bits = a.bits.min(b.bits);
                    let (a_part, b_part) = (upper(a, bits), upper(b, bits));
                    let piece = self.choice(condition, a_part, b_part, hint.as_slice())?;
                    push_piece(&mut joined, piece)?;
                    left.skip(a, bits);
                    right.skip(b, bits);
                }
                _ => return Ok(joined),
            }
        }
        Ok(joined)
    }

    /// One of two pieces by a condition. Equal ones stay; where one is not assigned, neither is the choice.
    fn choice(
        &mut self,
        condition: u32,
        yes: Piece,
        no: Piece,
        hint: &[u8],
    ) -> Result<Piece, Memory> {
        if yes == no {
            return Ok(yes);
        }
        if yes.own.is_none() || no.own.is_none() {
            return Ok(Piece {
                own: None,
                low: 0,
                bits: yes.bits,
            });
        }
        let own = self.chosen_own(condition, yes, no, hint)?;
        Ok(Piece {
            own: Some(own),
            low: 0,
            bits: yes.bits,
        })
    }

    /// An own object that is one of two pieces by a condition.
    fn chosen_own(
        &mut self,
        condition: u32,
        yes: Piece,
        no: Piece,
        hint: &[u8],
    ) -> Result<u32, Memory> {
        let mut pool = Pool::new(self.low.alloc);
        let test = pool.own(self.low, condition)?;
        let a = self.held_piece(yes, &mut pool)?;
        let b = self.held_piece(no, &mut pool)?;
        let value = pool.conditional(self.low, test, a, b)?;
        pool.owned(self.low, value, hint)
    }

    /// What a piece reads, in a pool.
    pub fn held_piece(&self, piece: Piece, pool: &mut Pool) -> Result<Held, Memory> {
        let part = self.low.read_piece(piece)?;
        pool.hold(part)
    }
}
