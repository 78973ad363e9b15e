//! Expressions without parts.

use crate::nodes::made;
use sqlite_items::Items;
use vv_base::fault::{Fault, Rule};
use vv_design::Form as Designed;
use vv_elab_base::known::Object;
use vv_elab_base::making::{Made, Making};
use vv_elab_types::ranges::bounds_of;
use vv_held::held::{from_ordinal, literal, misfit, refused};
use vv_held::shape::{count, ends, upwards};
use vv_held::{Entry, Held, Shape as Extent};
use vv_typed::{Form, NumberList, Typed};
use vv_types::{BaseType, Value};

/// An expression without parts, or an attribute.
pub fn leaf<'u>(making: &mut Making<'u>, e: &Typed, wanted: Option<Extent>) -> Result<Made, Fault> {
    match &e.form {
        Form::Integer(n) => Ok(making.number(*n, e.span)),
        Form::Character { decl: _, position } | Form::Literal { decl: _, position } => {
            Ok(making.value(Held::scalar(literal(e.base, *position)), e.base, e.span))
        }
        Form::String(positions) | Form::BitString(positions) => {
            text(making, e, positions, wanted)
        }
        Form::Object(decl) => object(making, *decl, e),
        Form::Length(prefix) => {
            let bounds = bounds_of(making, prefix.get())?;
            match i32::try_from(count(bounds)) {
                Ok(n) => Ok(making.number(n, e.span)),
                Err(_) => Err(misfit()),
            }
        }
        Form::Left(prefix) | Form::Right(prefix) | Form::High(prefix) | Form::Low(prefix) => {
            let bounds = bounds_of(making, prefix.get())?;
            let (low, high) = ends(bounds);
            let n = match &e.form {
                Form::Left(_) => bounds.left,
                Form::Right(_) => bounds.right,
                Form::Low(_) => low,
                _ => high,
            };
            match from_ordinal(e.base, n) {
                Some(value) => Ok(making.value(Held::scalar(value), e.base, e.span)),
                None => Err(misfit()),
            }
        }
        _ => Err(misfit()),
    }
}

/// An object.
fn object<'u>(making: &mut Making<'u>, decl: u32, e: &Typed) -> Result<Made, Fault> {
    if let Some(Entry::Constant(_)) = making.env.entry(decl) {
        return making.constant(decl, e.base, e.span);
    }
    let known = making.known(decl);
    match known.object {
        Object::Net(net) => Ok(made(making, Designed::Net(net), known.sub, e.span)),
        Object::Variable(k) => Ok(made(making, Designed::Variable(k), known.sub, e.span)),
        Object::Absent => Err(refused(Rule::E1, e.span)),
    }
}

/// A string.
fn text<'u>(
    making: &Making<'u>,
    e: &Typed,
    positions: &NumberList,
    wanted: Option<Extent>,
) -> Result<Made, Fault> {
    let BaseType::Array(decl) = e.base else {
        return Err(misfit());
    };
    let of = making.known(decl).sub.extent.base;
    let n = positions.len();
    if n == 0 {
        return Err(refused(Rule::E4, e.span));
    }
    if n > 4096 {
        return Err(refused(Rule::E8, e.span));
    }
    let mut elements = Items::new(making.alloc);
    for position in positions.as_slice() {
        elements.push(literal(of, *position))?;
    }
    let outer = match wanted {
        Some(
            Extent {
                levels: _,
                outer: Some(bounds),
                inner: _,
                scalar: _,
                base: _,
            },
        ) if count(bounds) == n as u64 => Some(bounds),
        _ => upwards(0, n),
    };
    let held = Held {
        value: Value::Array(elements),
        outer,
        inner: None,
    };
    Ok(making.value(held, e.base, e.span))
}
