//! Expressions.

use crate::aggregates::aggregate;
use crate::calls::{argument, of_numeric, of_user, to_length};
use crate::chains::links;
use crate::names::parts;
use sqlite_items::Boxed;
use vv_base::fault::{Fault, Rule, Span};
use vv_design::{Form as Designed, Operator};
use vv_elab_base::making::{Made, Making};
use vv_elab_base::objects::fit;
use vv_elab_base::operators::{Row, given, row_of};
use vv_elab_base::sub::Sub;
use vv_elab_made::callings::{call_of, called};
use vv_elab_made::joins::{Joined, Open, number_of_one, number_of_two, wanted_below};
use vv_elab_made::leaves::leaf;
use vv_elab_made::nodes::{
    applied, as_marked, at_position, converted, folded, natural_where_wanted, operands_of,
    operator_of, position, truth,
};
use vv_elab_plain::fixed::is_fixed;
use vv_held::Shape as Extent;
use vv_held::held::refused;
use vv_typed::{Callee, Form, Typed};

/// An expression. An aggregate or a literal takes the bounds that are wanted.
#[cycle(expressions)]
pub fn expression<'u>(
    making: &mut Making<'u>,
    e: &'u Typed,
    wanted: Option<Extent>,
) -> Result<Made, Fault> {
    making.node()?;
    match &e.form {
        Form::Part { prefix, suffixes } => {
            let of = expression(making, prefix.get(), None)?;
            parts(making, suffixes.as_slice(), of)
        }
        Form::Conversion { mark, operand } => {
            let operand = operand.get();
            let of = expression(making, operand, None)?;
            converted(making, of, *mark, operand.span)
        }
        Form::Qualified { mark, operand } => {
            let sub = making.mark(*mark);
            let operand = operand.get();
            let of = expression(making, operand, Some(sub.extent))?;
            let fitted = fit(making, of, sub.extent, operand.span)?;
            Ok(as_marked(fitted, sub))
        }
        Form::Edge { rising, signal } => {
            let of = expression(making, signal.get(), None)?;
            let form = Designed::Edge {
                rising: *rising,
                of: Boxed::new(making.alloc, of.expr)?,
            };
            Ok(truth(making, form, e.span))
        }
        Form::Event(prefix) => {
            let of = expression(making, prefix.get(), None)?;
            let form = Designed::Event(Boxed::new(making.alloc, of.expr)?);
            Ok(truth(making, form, e.span))
        }
        Form::Pos { mark: _, operand } => {
            let of = expression(making, operand.get(), None)?;
            position(making, of, e.span)
        }
        Form::Val { mark, operand } => {
            let of = expression(making, operand.get(), None)?;
            let sub = making.mark(*mark);
            at_position(making, of, sub, e.span)
        }
        Form::Parenthesis(inner) => expression(making, inner.get(), wanted),
        Form::Aggregate(elements) => {
            aggregate(making, elements.as_slice(), e.base, e.span, wanted)
        }
        _ => operation(making, e, wanted),
    }
}

/// What a call or an operator gives, or a leaf.
#[cycle(expressions)]
fn operation<'u>(
    making: &mut Making<'u>,
    e: &'u Typed,
    wanted: Option<Extent>,
) -> Result<Made, Fault> {
    match &e.form {
        Form::Call {
            callee,
            formals,
            args,
        } => match *callee {
            Callee::User(decl) => {
                if is_fixed(making, e, true) {
                    return folded(making, e);
                }
                of_user(
                    making,
                    args.as_slice(),
                    formals.as_slice(),
                    decl,
                    e.base,
                    e.span,
                )
            }
            Callee::Numeric(f) if row_of(f) == Row::Length => {
                to_length(
                    making,
                    args.as_slice(),
                    formals.as_slice(),
                    f,
                    e.base,
                    e.span,
                )
            }
            _ => {
                let operator = operator_of(*callee)?;
                of_numeric(
                    making,
                    args.as_slice(),
                    formals.as_slice(),
                    operator,
                    e.base,
                    e.span,
                )
            }
        },
        Form::Logical { first, rest } | Form::Sum { first, rest } => {
            let first = first.get();
            let wanted = wanted_below(rest.as_slice(), wanted);
            let so_far = Joined {
                fixed: is_fixed(making, first, true),
                of: expression(making, first, wanted)?,
                open: Open::No,
            };
            links(making, rest.as_slice(), e, so_far, wanted)
        }
        Form::Product { first, rest } => {
            let first = first.get();
            let so_far = Joined {
                fixed: is_fixed(making, first, true),
                of: expression(making, first, None)?,
                open: Open::No,
            };
            links(making, rest.as_slice(), e, so_far, None)
        }
        _ => operator(making, e, wanted),
    }
}

/// What an operator of one or two operands gives, or a leaf. An aggregate on the right has the bounds of the left operand.
#[cycle(expressions)]
fn operator<'u>(
    making: &mut Making<'u>,
    e: &'u Typed,
    wanted: Option<Extent>,
) -> Result<Made, Fault> {
    match &e.form {
        Form::Relation {
            left,
            callee,
            right,
        }
        | Form::Shift {
            left,
            callee,
            right,
        }
        | Form::Power {
            left,
            callee,
            right,
        } => {
            let (left, right) = (left.get(), right.get());
            if let Callee::User(decl) = *callee {
                if is_fixed(making, e, true) {
                    return folded(making, e);
                }
                let mut call = call_of(making, decl)?;
                argument(making, left, 0, &mut call)?;
                argument(making, right, 1, &mut call)?;
                return called(making, call, e.base, e.span);
            }
            let a = expression(making, left, None)?;
            let b = expression(making, right, Some(a.sub.extent))?;
            of_two_operands(
                making,
                e,
                *callee,
                Operand {
                    of: a,
                    span: left.span,
                },
                Operand {
                    of: b,
                    span: right.span,
                },
            )
        }
        Form::Sign { callee, operand }
        | Form::Absolute { callee, operand }
        | Form::Not { callee, operand } => {
            let operand = operand.get();
            if let Callee::User(decl) = *callee {
                if is_fixed(making, e, true) {
                    return folded(making, e);
                }
                let mut call = call_of(making, decl)?;
                argument(making, operand, 0, &mut call)?;
                return called(making, call, e.base, e.span);
            }
            let of = expression(making, operand, wanted)?;
            of_one_operand(making, e, *callee, of)
        }
        _ => leaf(making, e, wanted),
    }
}

/// An operand with its place.
#[derive(Drop)]
struct Operand {
    of: Made,
    span: Span,
}

/// An operator of two operands.
fn of_two_operands<'u>(
    making: &Making<'u>,
    e: &Typed,
    callee: Callee,
    left: Operand,
    right: Operand,
) -> Result<Made, Fault> {
    let a = natural(making, callee, 0, left)?;
    let b = natural(making, callee, 1, right)?;
    of_naturals(making, e, callee, a, b)
}

/// The operand of this place of an operator, which some operators want natural.
fn natural<'u>(
    making: &Making<'u>,
    callee: Callee,
    place: usize,
    operand: Operand,
) -> Result<Made, Fault> {
    let operator = operator_of(callee)?;
    let Operand { of, span } = operand;
    Ok(natural_where_wanted(making, operator, place, of, span)?)
}

/// An operator with the subtype of what it gives.
#[derive(Clone, Copy)]
struct Typing {
    operator: Operator,
    sub: Sub,
}

fn typing_of<'u>(
    making: &Making<'u>,
    e: &Typed,
    callee: Callee,
    left: Sub,
    right: Sub,
) -> Result<Typing, Fault> {
    let operator = operator_of(callee)?;
    let sub = given(making, operator, left, Some(right), e.base, e.span)?;
    check_power(making, e, callee)?;
    Ok(Typing { operator, sub })
}

/// A power of integers has to be static.
fn check_power<'u>(making: &Making<'u>, e: &Typed, callee: Callee) -> Result<(), Fault> {
    if let (Form::Power { .. }, Callee::Predefined(_)) = (&e.form, callee) {
        if !is_fixed(making, e, true) {
            return Err(refused(Rule::E12, e.span));
        }
    }
    Ok(())
}

fn of_naturals<'u>(
    making: &Making<'u>,
    e: &Typed,
    callee: Callee,
    a: Made,
    b: Made,
) -> Result<Made, Fault> {
    let Typing { operator, sub } = typing_of(making, e, callee, a.sub, b.sub)?;
    match number_of_two(operator, &a.expr, &b.expr) {
        Some(n) => Ok(making.number(n, e.span)),
        None => applied_to_two(making, operator, a, b, sub, e.span),
    }
}

fn applied_to_two<'u>(
    making: &Making<'u>,
    operator: Operator,
    a: Made,
    b: Made,
    sub: Sub,
    span: Span,
) -> Result<Made, Fault> {
    let operands = operands_of(making, a.expr, Some(b.expr))?;
    Ok(applied(making, operator, operands, sub, span))
}

/// An operator of one operand.
fn of_one_operand<'u>(
    making: &Making<'u>,
    e: &Typed,
    callee: Callee,
    of: Made,
) -> Result<Made, Fault> {
    let operator = operator_of(callee)?;
    let sub = given(making, operator, of.sub, None, e.base, e.span)?;
    if let Some(n) = number_of_one(operator, &of.expr) {
        return Ok(making.number(n, e.span));
    }
    let operands = operands_of(making, of.expr, None)?;
    Ok(applied(making, operator, operands, sub, e.span))
}
