//! Declarations.

use vv_base::fault::{Fault, Span};
use vv_design::{Local, Net, NetKind, ProcVar};
use vv_elab_base::known::Object;
use vv_elab_base::making::{Made, Making, next_number};
use vv_elab_base::objects::{fit, objects_only};
use vv_elab_base::sub::{Sub, shape_of, subtype_of};
use vv_elab_expr::expressions::expression;
use vv_elab_plain::fixed::is_fixed;
use vv_elab_types::ranges::must;
use vv_elab_types::types::{is_resolved, subtype, subtype_declaration, type_declaration};
use vv_held::Held;
use vv_held::held::{fitted, initial_of, misfit};
use vv_typed::{Ident, Objects, TDecl, Typed};
use vv_types::ObjectKind;

/// Some declarations, in their order.
pub fn declarations<'u>(making: &mut Making<'u>, decls: &'u [TDecl]) -> Result<(), Fault> {
    for decl in decls {
        match decl {
            TDecl::Type { ident, base, form } => {
                type_declaration(making, ident.decl, *base, form, ident.span)?
            }
            TDecl::Subtype {
                ident,
                subtype,
                resolved,
            } => subtype_declaration(making, ident.decl, subtype, *resolved)?,
            TDecl::Objects(objects) => {
                for ident in objects.idents.as_slice() {
                    object(making, objects, ident)?;
                }
            }
        }
    }
    Ok(())
}

/// An object of a declaration.
fn object<'u>(making: &mut Making<'u>, objects: &'u Objects, ident: &Ident) -> Result<(), Fault> {
    let sub = subtype(making, &objects.subtype)?;
    objects_only(making, sub, objects.subtype.span)?;
    match objects.kind {
        ObjectKind::Constant => constant(making, objects, ident, sub),
        ObjectKind::Signal => signal(making, objects, ident, sub),
        ObjectKind::Variable => variable(making, objects, ident, sub),
        _ => Err(misfit()),
    }
}

/// An initial value that has to be static, or that of the subtype.
pub fn initial_value<'u>(
    making: &mut Making<'u>,
    initial: Option<&Typed>,
    sub: Sub,
    span: Span,
) -> Result<Held, Fault> {
    match initial {
        Some(e) => {
            let held = must(making, e, Some(sub.extent))?;
            fitted(held, sub.extent, e.span)
        }
        None => initial_of(making.alloc, sub.extent, span),
    }
}

/// The subtype of an object with a value: an array without bounds has those of its value.
pub fn sub_by_value<'u>(making: &Making<'u>, sub: Sub, held: &Held) -> Sub {
    if sub.is_open() {
        making.sub_of(sub.base, held)
    } else {
        sub
    }
}

/// A constant. In a function it is a variable where its value is not static.
fn constant<'u>(
    making: &mut Making<'u>,
    objects: &'u Objects,
    ident: &Ident,
    sub: Sub,
) -> Result<(), Fault> {
    let Some(initial) = &objects.initial else {
        return Err(misfit());
    };
    if making.frame.is_some() && !is_fixed(making, initial, true) {
        return local(making, objects, ident, sub);
    }
    let held = initial_value(making, Some(initial), sub, objects.subtype.span)?;
    let sub = sub_by_value(making, sub, &held);
    Ok(making.note_constant(ident.decl, sub, held, false)?)
}

/// A signal.
fn signal<'u>(
    making: &mut Making<'u>,
    objects: &Objects,
    ident: &Ident,
    sub: Sub,
) -> Result<(), Fault> {
    let first = making.claim_net(sub.size(), objects.span)?;
    let initial = initial_value(making, objects.initial.as_ref(), sub, objects.subtype.span)?;
    let resolved = is_resolved(making, &objects.subtype);
    net(
        making,
        ident,
        NetKind::Signal,
        sub,
        first,
        resolved,
        initial,
    )
}

/// A net with its number.
pub fn net<'u>(
    making: &mut Making<'u>,
    ident: &Ident,
    kind: NetKind,
    sub: Sub,
    first: u32,
    resolved: bool,
    initial: Held,
) -> Result<(), Fault> {
    let number = next_number(making.design.nets.len())?;
    let net = Net {
        path: making.path_of(ident.name)?,
        span: ident.span,
        inst: making.inst,
        kind,
        subtype: subtype_of(making, sub)?,
        shape: shape_of(making, sub),
        first,
        resolved,
        initial: initial.value,
        procs_before: next_number(making.design.procs.len())?,
    };
    making.design.nets.push(net)?;
    Ok(making.note_object(ident.decl, sub, Object::Net(number))?)
}

/// A variable of a process or of a function.
fn variable<'u>(
    making: &mut Making<'u>,
    objects: &'u Objects,
    ident: &Ident,
    sub: Sub,
) -> Result<(), Fault> {
    if making.frame.is_some() {
        return local(making, objects, ident, sub);
    }
    making.claim_variable(sub.size(), objects.span)?;
    let initial = initial_value(making, objects.initial.as_ref(), sub, objects.subtype.span)?;
    let var = ProcVar {
        path: making.path_of(ident.name)?,
        span: ident.span,
        subtype: subtype_of(making, sub)?,
        shape: shape_of(making, sub),
        initial: initial.value,
    };
    making.vars.push(var)?;
    let number = making.variables;
    making.variables = number.saturating_add(1);
    Ok(making.note_object(ident.decl, sub, Object::Variable(number))?)
}

/// A variable of a function, or a constant whose value is not static.
fn local<'u>(
    making: &mut Making<'u>,
    objects: &'u Objects,
    ident: &Ident,
    sub: Sub,
) -> Result<(), Fault> {
    let Made {
        expr: initial,
        sub: own,
    } = match &objects.initial {
        Some(e) => {
            let of = expression(making, e, Some(sub.extent))?;
            fit(making, of, sub.extent, e.span)?
        }
        None => {
            let held = initial_of(making.alloc, sub.extent, objects.subtype.span)?;
            making.value(held, sub.base, ident.span)
        }
    };
    let sub = if sub.is_open() { own } else { sub };
    let subtype = subtype_of(making, sub)?;
    let name = making.text(ident.name)?;
    match making.frame.as_mut() {
        Some(frame) => frame.locals.push(Local {
            name,
            span: ident.span,
            subtype,
            initial,
        })?,
        None => return Err(misfit()),
    }
    let number = making.variables;
    making.variables = number.saturating_add(1);
    Ok(making.note_object(ident.decl, sub, Object::Variable(number))?)
}
