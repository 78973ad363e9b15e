//! What operators may mean.

use crate::cands::Cands;
use crate::count::{count, profile, times};
use crate::noted::{Kind, Noted, Scene, joined};
use sqlite_items::Items;
use vv_base::fault::{Memory, Span};
use vv_types::Op;

/// What an operator before its operand may mean.
pub fn unary<'t>(
    scene: &Scene<'_, '_, '_>,
    op: Op,
    operand: Noted<'t>,
    span: Span,
) -> Result<Noted<'t>, Memory> {
    let mut here = Cands::new(scene.alloc);
    for decl in scene.lib.operator(scene.scope, op) {
        if let Some(([param], _)) = profile(scene.lib, *decl) {
            here.add_ways(*decl, count(scene, &operand, *param))?;
        }
    }
    let mut noted = Noted::around(scene.alloc, Kind::Unary(op), span, operand)?;
    noted.here = here;
    Ok(noted)
}

/// The functions that an operator between two operands may mean.
fn pairs(
    scene: &Scene<'_, '_, '_>,
    op: Op,
    left: &Noted<'_>,
    right: &Noted<'_>,
) -> Result<Cands, Memory> {
    let mut here = Cands::new(scene.alloc);
    for decl in scene.lib.operator(scene.scope, op) {
        if let Some(([first, second], _)) = profile(scene.lib, *decl) {
            let ways = count(scene, left, *first);
            if ways != 0 {
                here.add_ways(*decl, times(ways, count(scene, right, *second)))?;
            }
        }
    }
    Ok(here)
}

/// What an operator between two operands may mean.
pub fn binary<'t>(
    scene: &Scene<'_, '_, '_>,
    op: Op,
    left: Noted<'t>,
    right: Noted<'t>,
    span: Span,
) -> Result<Noted<'t>, Memory> {
    let here = pairs(scene, op, &left, &right)?;
    let mut parts = Items::new(scene.alloc);
    parts.push(left)?;
    parts.push(right)?;
    let mut noted = Noted::new(scene.alloc, Kind::Binary(op), span, parts);
    noted.here = here;
    Ok(noted)
}

/// Appends a link to a chain. `span` is that of the operator and its right operand.
pub fn link<'t>(
    scene: &Scene<'_, '_, '_>,
    parts: &mut Items<Noted<'t>>,
    op: Op,
    right: Noted<'t>,
    span: Span,
) -> Result<(), Memory> {
    let mut here = Cands::new(scene.alloc);
    let mut whole = span;
    if let Some(left) = parts.as_slice().last() {
        here = pairs(scene, op, left, &right)?;
        whole = joined(left.span, span);
    }
    let mut noted = Noted::around(scene.alloc, Kind::Link(op), whole, right)?;
    noted.here = here;
    parts.push(noted)?;
    Ok(())
}
