//! The first broken place.
ghost use Rattle.std.specs.Prelude.{◌≡◌, IfOk, MatchOption};
ghost use Rattle.vv_gate.specs.Conditions.{IsSound, IsFirstBroken};
ghost use Rattle.vv_gate.specs.View.{file_of};
ghost use Rattle.vv_gate.specs.Whole.{IsPlaced};
ghost use Rattle.vv_gate_check.specs.Places.{broken_places, first};

use crate::names::Names;
use std::alloc::{AllocError, Global};
use vv_gate::tree::GateFile;

/// Goes through the file in the order of its text.
fn first_place(alloc: Global, file: &GateFile<'_>, top: &[u8]) -> Result<Option<usize>, AllocError>
    ensures { IfOk result (λ place. place ≡ first (broken_places top.now (file_of file.now))) }
{
    if top != file.entity.text {
        return Ok(Some(0));
    }
    let mut names = Names::new(alloc, &file.groups)?;
    let repeated = names.declare_all(&file.groups)?;
    if repeated.is_some() {
        return Ok(repeated);
    }
    if file.of.text != file.entity.text {
        return Ok(Some(file.of.at));
    }
    Ok(names.assign_all(&file.assignments))
}

/// The least place at which a condition refuses the file, for a top whose name is folded to lower case.
pub fn first_broken(
    alloc: Global,
    file: &GateFile<'_>,
    top: &[u8],
) -> Result<Option<usize>, AllocError>
    requires { IsPlaced (file_of file.now) }
    ensures place { IfOk result (λ place. place ≡ first (broken_places top.now (file_of file.now))) }
    ensures least { IfOk result (λ place. MatchOption place (IsSound top.now (file_of file.now)) (IsFirstBroken top.now (file_of file.now))) }
{
    first_place(alloc, file, top)
}
