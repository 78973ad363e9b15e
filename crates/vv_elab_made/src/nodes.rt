//! Expressions that are made of made parts.

use sqlite_items::{Boxed, Items};
use vv_base::fault::{Fault, Memory, Rule, Span};
use vv_code::is_natural_operand;
use vv_design::{Expr, ExprList, Form, Operator};
use vv_elab_base::making::{Made, Making};
use vv_elab_base::objects::{checked, matched};
use vv_elab_base::operators::{NATURAL, any};
use vv_elab_base::sub::{Sub, shape_of};
use vv_elab_types::ranges::must_number;
use vv_held::held::{misfit, refused};
use vv_held::shape::ends;
use vv_typed::{Callee, TypeMark, Typed};
use vv_types::BaseType;

/// An expression of a form with its subtype.
pub fn made<'u>(making: &Making<'u>, form: Form, sub: Sub, span: Span) -> Made {
    Made {
        expr: Expr {
            form,
            shape: shape_of(making, sub),
            span,
        },
        sub,
    }
}

pub fn truth<'u>(making: &Making<'u>, form: Form, span: Span) -> Made {
    let sub = any(making, BaseType::Bool);
    made(making, form, sub, span)
}

/// The same value with the bounds of a mark, where it has some.
pub fn as_marked(of: Made, sub: Sub) -> Made {
    let Made { expr, sub: own } = of;
    let sub = if sub.is_open() {
        sub.with_outer(own.extent.outer)
    } else if sub.extent.levels == 0 {
        own
    } else {
        sub
    };
    Made { expr, sub }
}

/// A type conversion.
pub fn converted<'u>(
    making: &Making<'u>,
    of: Made,
    mark: TypeMark,
    span: Span,
) -> Result<Made, Fault> {
    let sub = making.mark(mark);
    matched(of.sub, sub.extent, span)?;
    let of = checked(making, of, sub.extent.scalar, span)?;
    Ok(as_marked(of, sub))
}

/// The position of a value.
pub fn position<'u>(making: &Making<'u>, of: Made, span: Span) -> Result<Made, Fault> {
    let range = of.sub.extent.scalar;
    if of.sub.base == BaseType::Int {
        return Ok(of);
    }
    let form = Form::Position(Boxed::new(making.alloc, of.expr)?);
    Ok(made(making, form, Sub::scalar(BaseType::Int, range), span))
}

/// The value at a position.
pub fn at_position<'u>(making: &Making<'u>, of: Made, sub: Sub, span: Span) -> Result<Made, Fault> {
    let (low, high) = ends(sub.extent.scalar);
    if sub.base == BaseType::Int {
        return Ok(checked(making, of, sub.extent.scalar, span)?);
    }
    let form = Form::AtPosition {
        of: Boxed::new(making.alloc, of.expr)?,
        low,
        high,
    };
    Ok(made(making, form, sub, span))
}

/// What a callee of a package is.
pub fn operator_of(callee: Callee) -> Result<Operator, Fault> {
    match callee {
        Callee::Standard(f) => Ok(Operator::Standard(f)),
        Callee::Numeric(f) => Ok(Operator::Numeric(f)),
        Callee::Predefined(op) => Ok(Operator::Integer(op)),
        Callee::User(_) => Err(misfit()),
    }
}

/// An operand as the subtype natural where the function wants it.
pub fn natural_where_wanted<'u>(
    making: &Making<'u>,
    operator: Operator,
    operand: usize,
    of: Made,
    span: Span,
) -> Result<Made, Memory> {
    match operator {
        Operator::Numeric(f) if is_natural_operand(f, operand) => {
            checked(making, of, NATURAL, span)
        }
        _ => Ok(of),
    }
}

/// A static expression as its value.
pub fn folded<'u>(making: &mut Making<'u>, e: &Typed) -> Result<Made, Fault> {
    let held = making.fold(e, None)?;
    Ok(making.value(held, e.base, e.span))
}

/// The number of a length, which has to be static and natural.
pub fn length_of<'u>(making: &mut Making<'u>, e: &Typed, span: Span) -> Result<u32, Fault> {
    let n = must_number(making, e)?;
    match u32::try_from(n) {
        Err(_) => Err(refused(Rule::E2, e.span)),
        Ok(0) => Err(refused(Rule::E4, span)),
        Ok(n) => {
            if n > 4096 {
                Err(refused(Rule::E8, span))
            } else {
                Ok(n)
            }
        }
    }
}

/// An operator of operands that are made.
pub fn applied<'u>(
    making: &Making<'u>,
    operator: Operator,
    operands: ExprList,
    sub: Sub,
    span: Span,
) -> Made {
    made(making, Form::Apply { operator, operands }, sub, span)
}

/// A list of one or two operands.
pub fn operands_of<'u>(
    making: &Making<'u>,
    first: Expr,
    second: Option<Expr>,
) -> Result<ExprList, Memory> {
    let mut operands = Items::new(making.alloc);
    operands.push(first)?;
    if let Some(second) = second {
        operands.push(second)?;
    }
    Ok(operands)
}
