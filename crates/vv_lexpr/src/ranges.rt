//! The range in which the numbers of an expression lie, and how many bits its scalars have.

use vv_design::{Expr, Form, Operator, Scalar};
use vv_lpart::{Does, Layout, Range, Row, scalar_width};
use vv_lstate::Lowering;
use vv_types::{Op, Value};

/// The range in which the numbers of an expression lie.
#[cycle(ranges)]
pub fn range(e: &Expr, state: &Lowering<'_>) -> Range {
    match &e.form {
        Form::Value(value) => range_of_value(value),
        Form::Constant(constant) => match state.design.constants.get(*constant as usize) {
            Some(value) => range_of_value(value),
            None => Range::INTEGER,
        },
        Form::Net(net) => match state.design.nets.get(*net as usize) {
            Some(net) => Layout::of(&net.subtype).range,
            None => Range::INTEGER,
        },
        Form::Variable(variable) => match state.objects.get(*variable as usize) {
            Some(object) => object.layout.range,
            None => Range::INTEGER,
        },
        Form::Elements { of, first: _ } => range(of.get(), state),
        Form::Element {
            of,
            index: _,
            bounds: _,
        } => range(of.get(), state),
        Form::Aggregate { parts, elements: _ } => range_of_all(parts.as_slice(), state),
        Form::Concatenation(parts) => range_of_all(parts.as_slice(), state),
        Form::Check { operand, low, high } => range(operand.get(), state).within(
            i64::from(*low),
            i64::from(*high),
        ),
        Form::Apply { operator, operands } => range_of_row(operands.as_slice(), *operator, state),
        Form::Chain { first: _, links } => range_of_chain(e, links.len(), state),
        Form::Position(of) => positions(of.get().shape.scalar()),
        Form::Call {
            function,
            formals: _,
            arguments: _,
        } => match state.design.functions.get(*function as usize) {
            Some(function) => Layout::of(&function.result).range,
            None => Range::INTEGER,
        },
        Form::AtPosition {
            of: _,
            low: _,
            high: _,
        }
        | Form::Edge { rising: _, of: _ }
        | Form::Event(_) => Range::INTEGER,
    }
}

/// The least range that has the numbers of all parts.
#[cycle(ranges)]
fn range_of_all(parts: &[Expr], state: &Lowering<'_>) -> Range {
    let mut all = None;
    for part in parts {
        let more = range(part, state);
        all = Some(match all {
            Some(before) => more.join(before),
            None => more,
        });
    }
    all.unwrap_or(Range::INTEGER)
}

/// The range of what an operator gives of operands.
#[cycle(ranges)]
fn range_of_row(operands: &[Expr], operator: Operator, state: &Lowering<'_>) -> Range {
    match operands {
        [a] => match operator {
            Operator::Integer(op) => of_one(op, range(a, state)),
            Operator::Numeric(f) => numbers_of(Row::of(f), a.shape.size()),
            Operator::Standard(_) => Range::INTEGER,
        },
        [a, b] => match operator {
            Operator::Integer(op) => range(a, state).under(op, range(b, state)),
            _ => Range::INTEGER,
        },
        _ => Range::INTEGER,
    }
}

/// The range of what the first operand of a chain and as many links as `count` give together.
#[cycle(ranges)]
pub fn range_of_chain(e: &Expr, count: usize, state: &Lowering<'_>) -> Range {
    let Form::Chain { first, links } = &e.form else {
        return Range::INTEGER;
    };
    let mut all = range(first.get(), state);
    let mut at = 0usize;
    for link in links.as_slice() {
        if at < count {
            all = match link.operator {
                Operator::Integer(op) => all.under(op, range(&link.right, state)),
                _ => Range::INTEGER,
            };
        }
        at = at.saturating_add(1);
    }
    all
}

/// What an operator makes of the numbers of its one operand.
fn of_one(op: Op, range: Range) -> Range {
    match op {
        Op::Plus => range,
        Op::Minus => range.negated(),
        Op::Absolute => range.absolute(),
        _ => Range::INTEGER,
    }
}

/// The numbers of the positions of a scalar.
fn positions(scalar: Scalar) -> Range {
    let count = match scalar {
        Scalar::Enum { count } => count,
        Scalar::Bool => 2,
        Scalar::Logic | Scalar::Int => return Range::INTEGER,
    };
    Range {
        low: 0,
        high: i64::from(count.saturating_sub(1)),
    }
}

/// The numbers that a row gives of one vector with `len` elements.
fn numbers_of(row: Row, len: u32) -> Range {
    if !matches!(row.does, Does::ToInteger) {
        return Range::INTEGER;
    }
    let reach = if row.signed {
        len.saturating_sub(1)
    } else {
        len
    };
    let most = (1i64 << reach.min(40)).saturating_sub(1);
    Range {
        low: if row.signed {
            0i64.saturating_sub(most).saturating_sub(1)
        } else {
            0
        },
        high: most,
    }
    .join(Range::point(0))
    .within(Range::INTEGER.low, Range::INTEGER.high)
}

/// The numbers of a value.
fn range_of_value(value: &Value) -> Range {
    match value {
        Value::Int(n) => Range::point(i64::from(*n)),
        Value::Array(xs) => {
            let mut all = None;
            for x in xs.as_slice() {
                let range = range_of_value(x);
                all = Some(match all {
                    Some(before) => range.join(before),
                    None => range,
                });
            }
            all.unwrap_or(Range::INTEGER)
        }
        _ => Range::INTEGER,
    }
}

/// How many bits a scalar of an expression has by itself.
pub fn natural(e: &Expr, state: &Lowering<'_>) -> u32 {
    let scalar = e.shape.scalar();
    match scalar {
        Scalar::Int => range(e, state).width(),
        _ => scalar_width(scalar, Range::point(0)),
    }
}
