//! What is written so far of a process or a function, and what may be done with parts there.
#![tactic(auto)]

mod lowering;
mod nets;
mod objects;

pub use lowering::{
    Lowering, Mode, NameList, NumberOf, Own, OwnKind, OwnList, Put, PutList, TableOf,
};
pub use objects::{
    Object, ObjectList, Piece, PieceList, PresentList, copied_present, push_piece, push_pieces,
};
