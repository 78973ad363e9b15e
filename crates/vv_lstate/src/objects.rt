//! Variables and targets, and in single-assignment form the present value of each.

use crate::lowering::Lowering;
use sqlite_items::Items;
use std::alloc::Global;
use vv_base::fault::{Memory, cannot_come};
use vv_base::text::Text;
use vv_bits::V4;
use vv_lpart::{Joined, Layout, Part, Run};

/// A variable or a target. In the statements of a process or a function it has a name. `hint` is the end of the names of its values.
#[derive(Drop)]
pub struct Object {
    pub layout: Layout,
    pub size: u32,
    pub name: Option<Text>,
    pub hint: Text,
}

/// Bits of a present value: `bits` of them, which are those of an own object from `low` on. Without an own object they are not assigned.
#[derive(Clone, Copy, Debug, PartialEq, Eq)]
pub struct Piece {
    pub own: Option<u32>,
    pub low: u32,
    pub bits: u32,
}

pub type PieceList = Items<Piece>;

pub type ObjectList = Items<Object>;

/// The present value of each object.
pub type PresentList = Items<PieceList>;

impl Object {
    /// How many bits it has.
    pub fn width(&self) -> u32 {
        self.layout.width().saturating_mul(self.size)
    }
}

/// Appends a piece. One that goes on where the last one ends is joined with it.
pub fn push_piece(pieces: &mut PieceList, piece: Piece) -> Result<(), Memory> {
    if piece.bits == 0 {
        return Ok(());
    }
    if let Some(last) = pieces.pop() {
        let follows = match (last.own, piece.own) {
            (None, None) => true,
            (Some(left), Some(right)) => {
                left == right && last.low == piece.low.saturating_add(piece.bits)
            }
            _ => false,
        };
        if follows {
            pieces.push(Piece {
                own: piece.own,
                low: piece.low,
                bits: piece.bits.saturating_add(last.bits),
            })?;
            return Ok(());
        }
        pieces.push(last)?;
    }
    pieces.push(piece)?;
    Ok(())
}

/// Appends the pieces of `bits` bits from `low` on, of pieces with `total` bits.
pub fn push_pieces(
    pieces: &[Piece],
    total: u32,
    low: u32,
    bits: u32,
    into: &mut PieceList,
) -> Result<(), Memory> {
    let mut end = total;
    let high = low.saturating_add(bits);
    for piece in pieces {
        let begin = end.saturating_sub(piece.bits);
        let from = begin.max(low);
        let to = end.min(high);
        if from < to {
            push_piece(
                into,
                Piece {
                    own: piece.own,
                    low: piece.low.saturating_add(from.saturating_sub(begin)),
                    bits: to.saturating_sub(from),
                },
            )?;
        }
        end = begin;
    }
    Ok(())
}

/// A copy of pieces.
fn copied(alloc: Global, pieces: &[Piece]) -> Result<PieceList, Memory> {
    Ok(Items::from_slice(alloc, pieces)?)
}

impl Lowering<'_> {
    /// The object with a number.
    pub fn object(&self, number: u32) -> Result<&Object, Memory> {
        self.objects.get(number as usize).ok_or(cannot_come())
    }

    /// The end of the names of an object's values.
    pub fn object_hint(&self, number: u32) -> Result<Text, Memory> {
        Text::from_slice(self.alloc, self.object(number)?.hint.as_slice())
    }

    /// The pieces of some bits of an object.
    pub fn object_pieces(&self, number: u32, low: u32, bits: u32) -> Result<PieceList, Memory> {
        let mut pieces = Items::new(self.alloc);
        let width = self.object(number)?.width();
        let present = self.present.get(number as usize).ok_or(cannot_come())?;
        push_pieces(present.as_slice(), width, low, bits, &mut pieces)?;
        Ok(pieces)
    }

    /// What pieces read.
    pub fn read_pieces(&self, pieces: &[Piece]) -> Result<Part, Memory> {
        let mut joined = Joined::new(self.alloc);
        for piece in pieces {
            joined.push(self.read_piece(*piece)?)?;
        }
        Ok(joined.part())
    }

    /// What a piece reads.
    pub fn read_piece(&self, piece: Piece) -> Result<Part, Memory> {
        match piece.own {
            Some(own) => Ok(self.piece_run(own, piece)?.read()),
            None => self.fill(V4::X, piece.bits),
        }
    }

    /// The bits of a piece of an own object.
    fn piece_run(&self, own: u32, piece: Piece) -> Result<Run, Memory> {
        Ok(self.own_run(own)?.part(piece.low, piece.bits))
    }

    /// Some bits of an object: of the one with its name, or of its present value.
    pub fn read_object(&mut self, number: u32, low: u32, bits: u32) -> Result<Part, Memory> {
        let object = self.object(number)?;
        if let Some(name) = &object.name {
            let name = Text::from_slice(self.alloc, name.as_slice())?;
            let run = Run::whole(name, object.width());
            return Ok(run.part(low, bits).read());
        }
        let pieces = self.object_pieces(number, low, bits)?;
        self.read_pieces(pieces.as_slice())
    }

    /// Makes some bits of an object those of other pieces.
    pub fn put_pieces(
        &mut self,
        number: u32,
        low: u32,
        bits: u32,
        more: &[Piece],
    ) -> Result<(), Memory> {
        let width = self.object(number)?.width();
        let high = low.saturating_add(bits);
        let mut pieces = self.object_pieces(number, high, width.saturating_sub(high))?;
        for piece in more {
            push_piece(&mut pieces, *piece)?;
        }
        for piece in self.object_pieces(number, 0, low)?.as_slice() {
            push_piece(&mut pieces, *piece)?;
        }
        self.set_pieces(number, pieces);
        Ok(())
    }

    /// Makes the present value of an object these pieces.
    pub fn set_pieces(&mut self, number: u32, pieces: PieceList) {
        let index = number as usize;
        if index < self.present.len() {
            self.present.set(index, pieces);
        }
    }
}

/// A copy of present values.
pub fn copied_present(alloc: Global, present: &[PieceList]) -> Result<PresentList, Memory> {
    let mut copy = Items::new(alloc);
    for pieces in present {
        copy.push(copied(alloc, pieces.as_slice())?)?;
    }
    Ok(copy)
}
