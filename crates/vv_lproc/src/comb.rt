//! Combinational processes.

use crate::drivers::Driven;
use crate::registers::bits_of_driven;
use crate::single::Single;
use vv_base::fault::Memory;
use vv_design::Stmt;
use vv_lstate::{Lowering, Piece};
use vv_vtree::{VItem, VItemList};

/// Writes a Comb process: an assignment of each run of scalars.
pub fn comb(
    low: &mut Lowering<'_>,
    driven: &[Driven],
    body: &[Stmt],
    items: &mut VItemList,
) -> Result<(), Memory> {
    let mut single = Single::new(low, driven)?;
    single.stmts(body)?;
    for run in driven {
        assign_run(&single, *run, items)?;
    }
    Ok(())
}

/// Assigns a run of scalars piece by piece.
fn assign_run(single: &Single<'_, '_>, run: Driven, items: &mut VItemList) -> Result<(), Memory> {
    let object = single.object_of(run.net)?;
    let (from, bits) = bits_of_driven(single.low, run)?;
    let pieces = single.low.object_pieces(object, from, bits)?;
    let mut end = from.saturating_add(bits);
    for piece in pieces.as_slice() {
        let begin = end.saturating_sub(piece.bits);
        assign_piece(single, run.net, begin, *piece, items)?;
        end = begin;
    }
    Ok(())
}

/// Assigns a piece of a net, which begins at its bit `begin`.
fn assign_piece(
    single: &Single<'_, '_>,
    net: u32,
    begin: u32,
    piece: Piece,
    items: &mut VItemList,
) -> Result<(), Memory> {
    let run = single.low.net_run(net)?;
    let value = single.value_of(net, begin, piece)?;
    Ok(items.push(VItem::Assign {
        target: run.part(begin, piece.bits).select(),
        value: value.expr,
        at: 0,
    })?)
}
