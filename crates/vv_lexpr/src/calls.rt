//! Calls of functions.

use sqlite_items::Items;
use std::alloc::Global;
use vv_base::fault::{Memory, cannot_come};
use vv_base::text::Text;
use vv_bits::V4;
use vv_design::{Design, Function};
use vv_lpart::{Layout, Part, scalars};
use vv_lrows::{Held, Pool};
use vv_lstate::Lowering;
use vv_types::Subtype;
use vv_vtree::{VExpr, VExprList, VName};

/// The arguments of a call by the numbers of their parameters.
pub type ArgumentSlots = Vec<Option<Held>>;

/// No arguments of a function.
pub fn no_arguments(alloc: Global, function: &Function) -> Result<ArgumentSlots, Memory> {
    Ok(vec![in alloc; None; function.params.len()]?)
}

/// How many bits a scalar of a parameter of a function has.
pub fn width_of_param(design: &Design, function: u32, param: u32) -> Result<u32, Memory> {
    let params = &design.function(function)?.params;
    match params.get(param as usize) {
        Some(param) => Ok(Layout::of(&param.subtype).width()),
        None => Err(cannot_come()),
    }
}

/// Puts an argument at its parameter.
pub fn put_argument(slots: &mut ArgumentSlots, param: u32, part: Held) {
    if let Some(slot) = slots.get_mut(param as usize) {
        *slot = Some(part);
    }
}

/// The call of a function. Its result has the bits of the function's result.
pub fn call_of(
    state: &mut Lowering<'_>,
    pool: &mut Pool,
    number: u32,
    function: &Function,
    slots: &[Option<Held>],
) -> Result<Held, Memory> {
    let mut args = Items::new(state.alloc);
    let mut depth = 0u32;
    let mut at = 0usize;
    for slot in slots {
        let part = match slot {
            Some(part) => *part,
            None => zeros_of(state, pool, function, at)?,
        };
        depth = depth.max(part.depth);
        push_argument(pool, part, &mut args)?;
        at = at.saturating_add(1);
    }
    note_call(state, number)?;
    let text = function_name(state.alloc, number, function)?;
    let expr = VExpr::Call {
        name: VName { text, at: 0 },
        args,
    };
    pool.hold(Part {
        expr,
        width: width_of(&function.result),
        depth: depth.saturating_add(1),
    })
}

/// Appends an argument.
fn push_argument(pool: &mut Pool, part: Held, args: &mut VExprList) -> Result<(), Memory> {
    let part = pool.taken(part)?;
    Ok(args.push(part.expr)?)
}

/// As many 0s as a parameter has bits.
fn zeros_of(
    state: &Lowering<'_>,
    pool: &mut Pool,
    function: &Function,
    param: usize,
) -> Result<Held, Memory> {
    match function.params.get(param) {
        Some(param) => pool.fill(state, V4::Zero, width_of(&param.subtype)),
        None => pool.fill(state, V4::Zero, 1),
    }
}

fn width_of(subtype: &Subtype) -> u32 {
    Layout::of(subtype).width().saturating_mul(scalars(subtype))
}

/// Notes that a function is called.
fn note_call(state: &mut Lowering<'_>, number: u32) -> Result<(), Memory> {
    if !state.called.as_slice().iter().any(|known| *known == number) {
        state.called.push(number)?;
    }
    Ok(())
}

/// The written name of a function.
pub fn function_name(alloc: Global, number: u32, function: &Function) -> Result<Text, Memory> {
    let digits = format!(in alloc; "_vf{number}")?;
    let mut bytes = Vec::from_slice(alloc, digits.as_str().as_bytes())?;
    let name = function.name.as_slice();
    if is_word(name) {
        bytes.push(b'_')?;
        bytes.extend_from_slice(name)?;
    }
    Text::from_slice(alloc, bytes.as_slice())
}

/// Whether a name is made of letters, digits and underscores.
fn is_word(name: &[u8]) -> bool {
    !name.is_empty()
        && name
            .iter()
            .all(|byte| byte.is_ascii_alphanumeric() || *byte == b'_')
}
