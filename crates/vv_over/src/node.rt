//! Nodes of typed trees for calls and attributes. Their parts stand at the end of a list, from which they are taken.

use sqlite_items::Items;
use std::alloc::Global;
use vv_base::fault::{Memory, cannot_come};
use vv_meant::calls::formal_at;
use vv_meant::noted::{Attribute, Noted, Scene};
use vv_typed::{Form, TypedList};
use vv_typed_nodes::callees::function_callee;
use vv_typed_nodes::node::{Mark, put, taken_box};
use vv_types::BaseType;

/// The numbers of the parameters that arguments are for, in the order of the arguments.
fn formals_of(
    scene: &Scene<'_, '_, '_>,
    decl: u32,
    params: &[BaseType],
    written: &[Noted<'_>],
) -> Result<Items<u32>, Memory> {
    let mut formals = Items::new(scene.alloc);
    for (k, _) in written.iter().enumerate() {
        let formal = formal_at(scene.lib, decl, params.len(), written, k);
        formals.push(formal.ok_or(cannot_come())?)?;
    }
    Ok(formals)
}

/// A call with its arguments, which are written so.
pub(crate) fn put_call(
    scene: &Scene<'_, '_, '_>,
    decl: u32,
    params: &[BaseType],
    written: &[Noted<'_>],
    args: TypedList,
    mark: Mark,
    into: &mut TypedList,
) -> Result<(), Memory> {
    let formals = formals_of(scene, decl, params, written)?;
    let callee = function_callee(scene.lib, decl, params);
    put(
        Form::Call {
            callee,
            formals,
            args,
        },
        mark,
        into,
    )
}

/// An attribute of the last expression.
pub(crate) fn put_attribute(
    alloc: Global,
    attribute: Attribute,
    mark: Mark,
    into: &mut TypedList,
) -> Result<(), Memory> {
    let prefix = taken_box(alloc, into)?;
    let form = match attribute {
        Attribute::Length => Form::Length(prefix),
        Attribute::Range => Form::Range(prefix),
        Attribute::ReverseRange => Form::ReverseRange(prefix),
        Attribute::Left => Form::Left(prefix),
        Attribute::Right => Form::Right(prefix),
        Attribute::High => Form::High(prefix),
        Attribute::Low => Form::Low(prefix),
        Attribute::Event => Form::Event(prefix),
        Attribute::Pos | Attribute::Val | Attribute::Unknown => return Err(cannot_come()),
    };
    put(form, mark, into)
}
