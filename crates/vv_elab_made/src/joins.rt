//! Operands that operators join, from the left.

use crate::nodes::{made, natural_where_wanted};
use sqlite_items::{Boxed, Items};
use std::alloc::Global;
use vv_base::fault::{Fault, Memory, Span};
use vv_design::{Expr, Form as Designed, Link as Joint, Operator};
use vv_elab_base::making::{Made, Making};
use vv_elab_base::objects::checked;
use vv_elab_base::operators::{given, is_concatenation, joined};
use vv_elab_base::sub::{Sub, element_of, shape_of};
use vv_held::Shape as Extent;
use vv_held::held::misfit;
use vv_held::integers::{of_one, of_two};
use vv_typed::{Callee, Link};
use vv_types::{BaseType, Bounds, Op, StdFn, Value};

/// What is joined so far, whether it is static, and whether more can be put to its end.
#[derive(Drop)]
pub struct Joined {
    pub of: Made,
    pub fixed: bool,
    pub open: Open,
}

/// Whether more can be put to the end of what is joined so far.
#[derive(Clone, Copy)]
pub enum Open {
    No,
    Chain,
    Concatenation,
}

/// What is wanted of the operands: the same where all operators work by element.
pub fn wanted_below(rest: &[Link], wanted: Option<Extent>) -> Option<Extent> {
    for link in rest {
        if let Callee::Standard(f) = link.callee {
            if is_concatenation(Operator::Standard(f)) {
                return None;
            }
        }
    }
    wanted
}

/// One more operand of a chain.
pub fn join<'u>(
    making: &mut Making<'u>,
    operator: Operator,
    so_far: Joined,
    right: Made,
    link: &Link,
    fixed: bool,
) -> Result<Joined, Fault> {
    making.node()?;
    let Joined { of, fixed: _, open } = so_far;
    let Made { expr, sub } = of;
    let first_span = expr.span;
    let of = natural_where_wanted(making, operator, 0, Made { expr, sub }, first_span)?;
    let right = natural_where_wanted(making, operator, 1, right, link.right.span)?;
    let sub = given(
        making,
        operator,
        of.sub,
        Some(right.sub),
        link.base,
        link.span,
    )?;
    if let Some(n) = number_of_two(operator, &of.expr, &right.expr) {
        return Ok(Joined {
            of: making.number(n, link.span),
            fixed,
            open: Open::No,
        });
    }
    let joint = Joint {
        operator,
        right: right.expr,
        shape: shape_of(making, sub),
        span: link.span,
    };
    let form = chained(making.alloc, of.expr, joint, open)?;
    Ok(Joined {
        of: made(making, form, sub, link.span),
        fixed,
        open: Open::Chain,
    })
}

/// The number of an expression that is one.
pub fn number_of(e: &Expr) -> Option<i32> {
    match &e.form {
        Designed::Value(Value::Int(n)) => Some(*n),
        _ => None,
    }
}

/// What an operator gives of two numbers, where it gives one: then the run gives no other.
pub fn number_of_two(operator: Operator, left: &Expr, right: &Expr) -> Option<i32> {
    match operator {
        Operator::Integer(op) => of_two(op, number_of(left)?, number_of(right)?),
        _ => None,
    }
}

/// What an operator gives of a number, where it gives one.
pub fn number_of_one(operator: Operator, operand: &Expr) -> Option<i32> {
    match operator {
        Operator::Integer(op) => of_one(op, number_of(operand)?),
        _ => None,
    }
}

/// A chain with one more link.
pub fn chained(alloc: Global, of: Expr, joint: Joint, open: Open) -> Result<Designed, Memory> {
    let Expr { form, shape, span } = of;
    match (open, form) {
        (Open::Chain, Designed::Chain { first, mut links }) => {
            links.push(joint)?;
            Ok(Designed::Chain { first, links })
        }
        (_, form) => {
            let mut links = Items::new(alloc);
            links.push(joint)?;
            Ok(Designed::Chain {
                first: Boxed::new(alloc, Expr { form, shape, span })?,
                links,
            })
        }
    }
}

/// An operand of a concatenation. An element has the range of the elements.
pub fn element_where<'u>(
    making: &Making<'u>,
    is_element: bool,
    of: Made,
    base: BaseType,
    span: Span,
) -> Result<Made, Memory> {
    match base {
        BaseType::Array(decl) if is_element => {
            let element = element_of(making, making.known(decl).sub);
            checked(making, of, element.extent.scalar, span)
        }
        _ => Ok(of),
    }
}

/// One more operand of a concatenation.
pub fn concatenate<'u>(
    making: &mut Making<'u>,
    operator: Operator,
    so_far: Joined,
    right: Made,
    link: &Link,
    fixed: bool,
) -> Result<Joined, Fault> {
    making.node()?;
    let Operator::Standard(f) = operator else {
        return Err(misfit());
    };
    let Joined { of, fixed: _, open } = so_far;
    let sub = joined(making, f, &of, &right, link.base, link.span)?;
    let sub = Sub {
        base: sub.base,
        extent: Extent {
            levels: sub.extent.levels,
            outer: sub.extent.outer,
            inner: inner_of(f, &of, &right),
            scalar: sub.extent.scalar,
            base: sub.extent.base,
        },
    };
    let (left_is_element, right_is_element) = match f {
        StdFn::ConcatenateArrays => (false, false),
        StdFn::ConcatenateArrayElement => (false, true),
        StdFn::ConcatenateElementArray => (true, false),
        _ => (true, true),
    };
    let left_span = of.expr.span;
    let of = element_where(making, left_is_element, of, link.base, left_span)?;
    let right = element_where(making, right_is_element, right, link.base, link.right.span)?;
    let Expr { form, shape, span } = of.expr;
    let form = match (open, form) {
        (Open::Concatenation, Designed::Concatenation(mut parts)) => {
            parts.push(right.expr)?;
            Designed::Concatenation(parts)
        }
        (_, form) => {
            let mut parts = Items::new(making.alloc);
            parts.push(Expr { form, shape, span })?;
            parts.push(right.expr)?;
            Designed::Concatenation(parts)
        }
    };
    Ok(Joined {
        of: made(making, form, sub, link.span),
        fixed,
        open: Open::Concatenation,
    })
}

/// The bounds of the elements of a concatenation of arrays of vectors.
pub fn inner_of(f: StdFn, left: &Made, right: &Made) -> Option<Bounds> {
    match f {
        StdFn::ConcatenateArrays | StdFn::ConcatenateArrayElement => left.sub.extent.inner,
        StdFn::ConcatenateElementArray => right.sub.extent.inner,
        _ => left.sub.extent.outer,
    }
}

pub fn is_division(op: Op) -> bool {
    match op {
        Op::Divide | Op::Modulo | Op::Remainder => true,
        _ => false,
    }
}

/// Whether a number is one of 1, 2, 4 and so on up to 1073741824.
pub fn is_power_of_two(n: i32) -> bool {
    match u32::try_from(n) {
        Ok(n) => n.is_power_of_two(),
        Err(_) => false,
    }
}
