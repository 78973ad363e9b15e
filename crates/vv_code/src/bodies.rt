//! The code of functions.

use crate::code::{Code, Instr, MarkAt};
use crate::expressions::{choice, expression, joined};
use crate::slots::Coding;
use crate::statements::{Back, statements};
use std::alloc::Global;
use vv_base::fault::Memory;
use vv_held::held::narrow;
use vv_held::{Env, Shape};
use vv_typed::{Constraint, FnBody, Objects, TDecl, TSub, TypeForm, Typed};
use vv_types::{BaseType, Bounds};

/// The code of an expression, which stands in no function and may be wanted at a shape.
pub fn code_of<'t>(
    alloc: Global,
    e: &'t Typed,
    wanted: Option<Shape>,
    env: &'t Env<'t>,
) -> Result<Code<'t>, Memory> {
    let mut to = Coding::new(alloc, env);
    match wanted {
        Some(shape) => {
            to.push(Instr::WantMark(MarkAt::Fixed(shape)))?;
            expression(e, true, &mut to)?;
        }
        None => expression(e, false, &mut to)?,
    }
    to.push(Instr::Done)?;
    finished(u32::MAX, to)
}

/// The code of the operands of an expression up to a link.
pub fn code_of_links<'t>(
    alloc: Global,
    e: &'t Typed,
    count: usize,
    env: &'t Env<'t>,
) -> Result<Code<'t>, Memory> {
    let mut to = Coding::new(alloc, env);
    joined(e, count, &mut to)?;
    to.push(Instr::Done)?;
    finished(u32::MAX, to)
}

/// The code of a function.
pub fn code_of_body<'t>(
    alloc: Global,
    body: &'t FnBody,
    env: &'t Env<'t>,
) -> Result<Code<'t>, Memory> {
    let mut to = Coding::new(alloc, env);
    for objects in body.params.as_slice() {
        for ident in objects.idents.as_slice() {
            to.add(ident.decl)?;
        }
    }
    let mut slot = 0;
    for objects in body.params.as_slice() {
        parameters(objects, &mut slot, &mut to)?;
    }
    for decl in body.decls.as_slice() {
        declaration(decl, &mut to)?;
    }
    let mark = to.mark(body.result);
    statements(body.body.as_slice(), Back { mark }, &mut to)?;
    to.push(Instr::End(body.span))?;
    finished(body.decl, to)
}

fn finished<'t>(decl: u32, to: Coding<'t>) -> Result<Code<'t>, Memory> {
    let slots = narrow(to.names.len())?;
    let Coding {
        alloc: _,
        env: _,
        instrs,
        names: _,
        marks: _,
        loops: _,
    } = to;
    Ok(Code {
        decl,
        slots,
        instrs,
    })
}

/// Makes the shape that a subtype has.
fn shape<'t>(subtype: &'t TSub, to: &mut Coding<'t>) -> Result<(), Memory> {
    let mark = to.mark(subtype.mark);
    to.push(Instr::ShapeMark(mark))?;
    match &subtype.constraint {
        Constraint::Absent => Ok(()),
        Constraint::Index(range) | Constraint::Range(range) => {
            choice(range, to)?;
            to.push(Instr::ShapeRange(subtype.span))
        }
    }
}

/// The parameters of one declaration. Those that the call gives stand in their slots.
fn parameters<'t>(objects: &'t Objects, slot: &mut u32, to: &mut Coding<'t>) -> Result<(), Memory> {
    for ident in objects.idents.as_slice() {
        shape(&objects.subtype, to)?;
        to.push(Instr::SetShape(*slot))?;
        if let Some(initial) = &objects.initial {
            let hole = to.here();
            to.push(Instr::Jump(0))?;
            start(*slot, initial, to)?;
            let behind = to.here();
            to.put(
                hole,
                Instr::IfGiven {
                    slot: *slot,
                    to: behind,
                },
            );
        }
        to.push(Instr::FitSlot {
            slot: *slot,
            span: ident.span,
        })?;
        *slot = slot.saturating_add(1);
    }
    Ok(())
}

/// Puts an initial value into a slot.
fn start<'t>(slot: u32, initial: &'t Typed, to: &mut Coding<'t>) -> Result<(), Memory> {
    to.push(Instr::WantSlot { slot, suffixes: 0 })?;
    expression(initial, true, to)?;
    to.push(Instr::EndWant)?;
    to.push(Instr::StartSlot {
        slot,
        span: initial.span,
    })
}

fn declaration<'t>(decl: &'t TDecl, to: &mut Coding<'t>) -> Result<(), Memory> {
    match decl {
        TDecl::Objects(objects) => {
            for ident in objects.idents.as_slice() {
                shape(&objects.subtype, to)?;
                let slot = to.add(ident.decl)?;
                to.push(Instr::SetShape(slot))?;
                match &objects.initial {
                    Some(initial) => start(slot, initial, to)?,
                    None => to.push(Instr::DefaultSlot {
                        slot,
                        span: objects.subtype.span,
                    })?,
                }
            }
            Ok(())
        }
        TDecl::Subtype {
            ident,
            subtype,
            resolved: _,
        } => {
            shape(subtype, to)?;
            let base = to.scalar_base(subtype.mark);
            let slot = to.add_mark(ident.decl, base)?;
            to.push(Instr::SetShape(slot))
        }
        TDecl::Type { ident, base, form } => {
            let scalars = type_shape(*base, form, to)?;
            let slot = to.add_mark(ident.decl, scalars)?;
            to.push(Instr::SetShape(slot))
        }
    }
}

/// Makes the shape that a declared type has. The answer is the type of its scalars.
fn type_shape<'t>(
    base: BaseType,
    form: &'t TypeForm,
    to: &mut Coding<'t>,
) -> Result<BaseType, Memory> {
    match form {
        TypeForm::Predefined => {
            to.push(Instr::ShapeMark(MarkAt::Fixed(Shape::scalar(base))))?;
            Ok(base)
        }
        TypeForm::Enumeration { count } => {
            let bounds = Bounds {
                left: 0,
                right: count.saturating_sub(1).min(0x7fff_ffff) as i32,
                down: false,
            };
            let all = Shape::scalar(base).constrained(bounds);
            to.push(Instr::ShapeMark(MarkAt::Fixed(all)))?;
            Ok(base)
        }
        TypeForm::Unconstrained { index: _, element } => {
            shape(element, to)?;
            to.push(Instr::ShapeArray)?;
            Ok(to.scalar_base(element.mark))
        }
        TypeForm::Constrained { index, element } => {
            shape(element, to)?;
            to.push(Instr::ShapeArray)?;
            choice(index, to)?;
            to.push(Instr::ShapeRange(element.span))?;
            Ok(to.scalar_base(element.mark))
        }
    }
}
