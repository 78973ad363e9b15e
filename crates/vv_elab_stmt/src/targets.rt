//! Targets of assignments.

use sqlite_items::Items;
use vv_base::fault::{Fault, Memory};
use vv_design::{Part, PartList, Target};
use vv_elab_base::known::Object;
use vv_elab_base::making::{Making, outer_of};
use vv_elab_base::sub::{Sub, element_of, shape_of};
use vv_elab_expr::names::index;
use vv_elab_made::parts::{Index, slice};
use vv_elab_plain::fixed::{is_fixed, is_range_fixed};
use vv_held::held::misfit;
use vv_typed::{Form, Suffix, SuffixList, Typed};

/// A target, its subtype, and the scalars of the object that its longest static prefix has. There are none where an index of that prefix
/// lies outside.
#[derive(Drop)]
pub struct Aim {
    pub target: Target,
    pub sub: Sub,
    pub is_net: bool,
    pub first: u32,
    pub len: u32,
}

/// The object and the parts of a target.
fn split(e: &Typed) -> Option<(u32, Option<&SuffixList>)> {
    match &e.form {
        Form::Object(decl) => Some((*decl, None)),
        Form::Part { prefix, suffixes } => match &prefix.get().form {
            Form::Object(decl) => Some((*decl, Some(suffixes))),
            _ => None,
        },
        Form::Parenthesis(inner) => split(inner.get()),
        _ => None,
    }
}

/// The target of an assignment.
pub fn target<'u>(making: &mut Making<'u>, e: &'u Typed) -> Result<Aim, Fault> {
    making.node()?;
    let Some((decl, suffixes)) = split(e) else {
        return Err(misfit());
    };
    let known = making.known(decl);
    let (object, is_net) = match known.object {
        Object::Net(net) => (net, true),
        Object::Variable(k) => (k, false),
        Object::Absent => return Err(misfit()),
    };
    let mut aim = Aim {
        target: Target {
            object,
            whole: shape_of(making, known.sub),
            parts: Items::new(making.alloc),
            shape: shape_of(making, known.sub),
            span: e.span,
        },
        sub: known.sub,
        is_net,
        first: 0,
        len: known.sub.size(),
    };
    if let Some(suffixes) = suffixes {
        aim_at(making, &mut aim, suffixes.as_slice())?;
    }
    Ok(aim)
}

/// Takes the parts of a target.
fn aim_at<'u>(making: &mut Making<'u>, aim: &mut Aim, suffixes: &'u [Suffix]) -> Result<(), Fault> {
    let mut open = true;
    for suffix in suffixes {
        let bounds = outer_of(aim.sub)?;
        let width = aim.sub.element_size();
        match suffix {
            Suffix::Index {
                index: e,
                base: _,
                span: _,
            } => {
                let fixed = is_fixed(making, e, false);
                let element = element_of(making, aim.sub);
                aim.sub = element;
                match index(making, e, bounds)? {
                    Index::Place(place) => {
                        let first = place.saturating_mul(width);
                        open = open && fixed;
                        if open {
                            narrow(aim, first, width);
                        }
                        elements(making, aim, first)?;
                    }
                    Index::Expr(index) => {
                        if open && fixed {
                            aim.len = 0;
                        }
                        open = false;
                        let shape = shape_of(making, element);
                        aim.target.parts.push(Part::Element {
                            index,
                            bounds,
                            shape,
                        })?;
                        aim.target.shape = shape;
                    }
                }
            }
            Suffix::Slice { range, span } => {
                let fixed = is_range_fixed(making, range, false);
                let (own, place) = slice(making, range, bounds, *span)?;
                aim.sub = aim.sub.with_outer(Some(own));
                let first = place.saturating_mul(width);
                open = open && fixed;
                if open {
                    let size = aim.sub.size();
                    narrow(aim, first, size);
                }
                elements(making, aim, first)?;
            }
        }
    }
    Ok(())
}

fn narrow(aim: &mut Aim, first: u32, len: u32) {
    aim.first = aim.first.saturating_add(first);
    aim.len = len;
}

/// Takes some scalars of a target. They are taken at once of those that were taken before.
fn elements<'u>(making: &Making<'u>, aim: &mut Aim, first: u32) -> Result<(), Memory> {
    let shape = shape_of(making, aim.sub);
    let before = last_first(&mut aim.target.parts);
    aim.target.parts.push(Part::Elements {
        first: before.saturating_add(first),
        shape,
    })?;
    aim.target.shape = shape;
    Ok(())
}

/// Takes away a last part that is static, and tells its first scalar.
fn last_first(parts: &mut PartList) -> u32 {
    let first = match parts.as_slice().last() {
        Some(Part::Elements { first, shape: _ }) => Some(*first),
        _ => None,
    };
    match first {
        Some(first) => {
            let _ = parts.pop();
            first
        }
        None => 0,
    }
}
