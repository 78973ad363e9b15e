//! Calls by names.

use crate::expressions::expression;
use sqlite_items::{Items, at};
use vv_base::fault::{Fault, Span};
use vv_design::{Form, Operator};
use vv_elab_base::making::{Made, Making};
use vv_elab_base::operators::{down_vector, given};
use vv_elab_base::sub::{ALL, Sub};
use vv_elab_made::callings::{Calling, call_of, called};
use vv_elab_made::nodes::{applied, length_of, made, natural_where_wanted};
use vv_elab_plain::fixed::is_fixed;
use vv_held::held::misfit;
use vv_typed::Typed;
use vv_types::{BaseType, NumFn};

/// An argument of a user function. A static one is evaluated.
#[cycle(expressions)]
pub fn argument<'u>(
    making: &mut Making<'u>,
    e: &'u Typed,
    formal: u32,
    call: &mut Calling<'u>,
) -> Result<(), Fault> {
    if is_fixed(making, e, true) {
        return call.hold(making, e, formal);
    }
    let wanted = call.wanted(formal)?;
    let of = expression(making, e, Some(wanted.extent))?;
    call.add(making, of, formal, e.span)
}

/// A call of a user function that is not static.
#[cycle(expressions)]
pub fn of_user<'u>(
    making: &mut Making<'u>,
    args: &'u [Typed],
    formals: &[u32],
    decl: u32,
    base: BaseType,
    span: Span,
) -> Result<Made, Fault> {
    let mut call = call_of(making, decl)?;
    for (k, arg) in args.iter().enumerate() {
        match at(formals, k) {
            Some(formal) => argument(making, arg, *formal, &mut call)?,
            None => return Err(misfit()),
        }
    }
    called(making, call, base, span)
}

/// A call of a function of a package. Its operands stand in the order of its parameters.
#[cycle(expressions)]
pub fn of_numeric<'u>(
    making: &mut Making<'u>,
    args: &'u [Typed],
    formals: &[u32],
    operator: Operator,
    base: BaseType,
    span: Span,
) -> Result<Made, Fault> {
    let mut operands = Items::new(making.alloc);
    let mut first = Sub::scalar(BaseType::Int, ALL);
    let mut second = None;
    let mut formal: u32 = 0;
    for _ in 0..args.len() {
        for (k, arg) in args.iter().enumerate() {
            if at(formals, k).copied() == Some(formal) {
                let of = expression(making, arg, None)?;
                let of = natural_where_wanted(making, operator, formal as usize, of, arg.span)?;
                if formal == 0 {
                    first = of.sub;
                } else {
                    second = Some(of.sub);
                }
                operands.push(of.expr)?;
            }
        }
        formal = formal.saturating_add(1);
    }
    let sub = given(making, operator, first, second, base, span)?;
    Ok(applied(making, operator, operands, sub, span))
}

/// A call of `resize`, `to_unsigned` or `to_signed`.
#[cycle(expressions)]
pub fn to_length<'u>(
    making: &mut Making<'u>,
    args: &'u [Typed],
    formals: &[u32],
    f: NumFn,
    base: BaseType,
    span: Span,
) -> Result<Made, Fault> {
    let operator = Operator::Numeric(f);
    let mut operands = Items::new(making.alloc);
    let mut length = None;
    for (k, arg) in args.iter().enumerate() {
        if at(formals, k).copied() == Some(0) {
            let of = expression(making, arg, None)?;
            let of = natural_where_wanted(making, operator, 0, of, arg.span)?;
            operands.push(of.expr)?;
        } else {
            making.node()?;
            let n = length_of(making, arg, span)?;
            length = Some((n, arg.span));
        }
    }
    let Some((n, place)) = length else {
        return Err(misfit());
    };
    let sub = down_vector(making, base, n, span)?;
    let number = making.number(number_of(n), place);
    operands.push(number.expr)?;
    Ok(made(making, Form::Apply { operator, operands }, sub, span))
}

/// A length as a number of INTEGER, which each length is.
fn number_of(n: u32) -> i32 {
    match i32::try_from(n) {
        Ok(n) => n,
        Err(_) => i32::MAX,
    }
}
