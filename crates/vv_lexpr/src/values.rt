//! Expressions of every form. A name or a part of one is gone down to the object that it is of; the other forms are written from their
//! operands. Each function of the group puts one part, or one spot, on the stack.

use crate::aggregates::{ElementRun, NamedParts, no_names, runs_of};
use crate::calls::width_of_param;
use crate::chains::{
    Step, is_modular, known_of_chain, leading_numbers, plan_of_chain, wanted_of_first,
};
use crate::operands::{Known, known_of, takes_length, wanted_by};
use crate::ranges::{natural, range};
use crate::stack::{
    Stack, absolute, as_operand, combine, convert, divide, join_from, keep, name, negate, number,
    push_fill, push_named, push_net, push_number, push_run, push_variable, put_call,
    put_row_of_length, put_row_of_one, put_row_of_two, read, repeat, resize, take_element,
    take_part, take_place,
};
use vv_base::fault::Memory;
use vv_bits::V4;
use vv_design::{Expr, Form, Link, Operator, Part as TargetPart, Scalar, Shape, index_count};
use vv_lpart::{Part, Row, Run, bits_of};
use vv_lrows::{Rows, Spot, index_digits, power_of_two, step_needed, table};
use vv_lstate::Lowering;
use vv_types::{Bounds, Op, Value};

/// An expression by itself.
pub fn value(e: &Expr, state: &mut Lowering<'_>) -> Result<Part, Memory> {
    let width = natural(e, state);
    value_at(e, width, state)
}

/// An expression whose scalars get `width` bits each. Only numbers may get other than they have by themselves.
pub fn value_at(e: &Expr, width: u32, state: &mut Lowering<'_>) -> Result<Part, Memory> {
    let mut stack = Stack::new(state.alloc);
    put_value(e, width, state, &mut stack)?;
    stack.part()
}

/// What a target changes, of an object that has a name and `size` scalars.
pub fn target_spot(
    parts: &[TargetPart],
    run: Run,
    size: u32,
    state: &mut Lowering<'_>,
) -> Result<Spot, Memory> {
    let scalar = run.bits.checked_div(size).unwrap_or(1);
    let mut stack = Stack::new(state.alloc);
    push_run(run, &mut stack)?;
    let mut now = size;
    for part in parts {
        match part {
            TargetPart::Elements { first, shape } => {
                let low = behind(now, *first, shape.size()).saturating_mul(scalar);
                now = shape.size();
                take_part(low, now.saturating_mul(scalar), &mut stack)?;
            }
            TargetPart::Element {
                index,
                bounds,
                shape,
            } => {
                now = shape.size();
                let rows = Rows::side_by_side(now.saturating_mul(scalar));
                put_element(index, *bounds, rows, state, &mut stack)?;
            }
        }
    }
    stack.spot(state)
}

/// The expression, whose scalars get `width` bits each.
#[cycle(values)]
fn put_value(
    e: &Expr,
    width: u32,
    state: &mut Lowering<'_>,
    stack: &mut Stack,
) -> Result<(), Memory> {
    if matches!(e.shape, Shape::Scalar(Scalar::Int)) {
        return put_integer(e, width, state, stack);
    }
    match &e.form {
        Form::Net(_) | Form::Variable(_) | Form::Elements { .. } | Form::Element { .. } => {
            put_place(e, state, stack)?;
            convert(e, width, state, stack)
        }
        _ => put_composed(e, width, state, stack),
    }
}

/// The last `width` bits of a number.
#[cycle(values)]
fn put_integer(
    e: &Expr,
    width: u32,
    state: &mut Lowering<'_>,
    stack: &mut Stack,
) -> Result<(), Memory> {
    let numbers = range(e, state);
    if numbers.is_point() {
        return push_number(state, numbers.low, width, stack);
    }
    put_integer_within(e, numbers.width().min(width), state, stack)?;
    resize(state, width, numbers.is_signed(), stack)
}

/// The last `width` bits of a number; there are no more than its range has.
#[cycle(values)]
fn put_integer_within(
    e: &Expr,
    width: u32,
    state: &mut Lowering<'_>,
    stack: &mut Stack,
) -> Result<(), Memory> {
    match &e.form {
        Form::Net(_) | Form::Variable(_) | Form::Elements { .. } | Form::Element { .. } => {
            put_place(e, state, stack)?;
            resize(state, width, false, stack)
        }
        Form::Check {
            operand,
            low: _,
            high: _,
        } => put_integer(operand.get(), width, state, stack),
        Form::Position(of) => {
            let own = natural(of.get(), state);
            put_value(of.get(), own, state, stack)?;
            resize(state, width, false, stack)
        }
        Form::Apply { operator, operands } => {
            put_integer_row(operands.as_slice(), *operator, width, state, stack)
        }
        Form::Chain { first: _, links } => put_prefix(e, links.len(), width, state, stack),
        Form::Call {
            function,
            formals,
            arguments,
        } => {
            put_arguments(
                arguments.as_slice(),
                *function,
                formals.as_slice(),
                state,
                stack,
            )?;
            resize(state, width, false, stack)
        }
        _ => push_fill(state, V4::Zero, width, stack),
    }
}

/// The last bits of what an operator gives as a number.
#[cycle(values)]
fn put_integer_row(
    operands: &[Expr],
    operator: Operator,
    width: u32,
    state: &mut Lowering<'_>,
    stack: &mut Stack,
) -> Result<(), Memory> {
    match operands {
        [a] => match operator {
            Operator::Integer(Op::Minus) => {
                put_integer(a, width, state, stack)?;
                negate(state, width, stack)
            }
            Operator::Integer(Op::Absolute) => {
                let numbers = range(a, state);
                put_integer(a, numbers.width().max(width), state, stack)?;
                absolute(state, numbers, width, stack)
            }
            Operator::Numeric(f) => {
                put_value(a, 1, state, stack)?;
                number(state, Row::of(f).signed, width, stack)
            }
            Operator::Integer(_) | Operator::Standard(_) => put_integer(a, width, state, stack),
        },
        [a, b] => match operator {
            Operator::Integer(op) => {
                let numbers = range(a, state);
                let places = power_of_two(range(b, state));
                let needed = step_needed(op, numbers, places, width);
                put_integer(a, needed, state, stack)?;
                if !is_modular(op) {
                    return divide(state, op, numbers, places, width, stack);
                }
                put_integer(b, width, state, stack)?;
                combine(state, op, stack)
            }
            Operator::Standard(_) | Operator::Numeric(_) => {
                push_fill(state, V4::Zero, width, stack)
            }
        },
        _ => push_fill(state, V4::Zero, width, stack),
    }
}

/// The last bits of the number that the first operand of a chain and as many links as `count` give.
#[cycle(values)]
fn put_prefix(
    e: &Expr,
    count: usize,
    width: u32,
    state: &mut Lowering<'_>,
    stack: &mut Stack,
) -> Result<(), Memory> {
    let Form::Chain { first, links } = &e.form else {
        return push_fill(state, V4::Zero, width, stack);
    };
    let plan = plan_of_chain(e, count, width, state)?;
    match plan.number {
        Some(number) => push_number(state, number, plan.width, stack)?,
        None => put_integer(first.get(), plan.width, state, stack)?,
    }
    let mut at = 0usize;
    for link in links.as_slice() {
        if let Some(step) = plan.step(at) {
            put_step(link, step, state, stack)?;
        }
        at = at.saturating_add(1);
    }
    resize(state, width, plan.range.is_signed(), stack)
}

/// What a link gives behind a number.
#[cycle(values)]
fn put_step(
    link: &Link,
    step: Step,
    state: &mut Lowering<'_>,
    stack: &mut Stack,
) -> Result<(), Memory> {
    resize(state, step.left, step.range.is_signed(), stack)?;
    if !is_modular(step.op) {
        return divide(state, step.op, step.range, step.places, step.width, stack);
    }
    put_integer(&link.right, step.width, state, stack)?;
    combine(state, step.op, stack)
}

/// The value of a name or of a part of one.
#[cycle(values)]
fn put_place(e: &Expr, state: &mut Lowering<'_>, stack: &mut Stack) -> Result<(), Memory> {
    if let Some(part) = part_of_variable(e, 0) {
        return push_part(part, e.shape.size(), state, stack);
    }
    put_spot(e, state, stack)?;
    read(state, stack)
}

/// Where the value of an expression lies.
#[cycle(values)]
fn put_spot(e: &Expr, state: &mut Lowering<'_>, stack: &mut Stack) -> Result<(), Memory> {
    match &e.form {
        Form::Net(net) => push_net(state, *net, stack),
        Form::Variable(variable) => push_variable(state, *variable, stack),
        Form::Elements { of, first } => {
            let width = natural(e, state);
            let size = e.shape.size();
            let behind = behind(of.get().shape.size(), *first, size);
            put_spot(of.get(), state, stack)?;
            take_part(
                behind.saturating_mul(width),
                size.saturating_mul(width),
                stack,
            )
        }
        Form::Element { of, index, bounds } => {
            let width = natural(e, state);
            let bits = e.shape.size().saturating_mul(width);
            let rows = match table_of(of.get(), *bounds, width, bits, state, stack)? {
                Some(rows) => rows,
                None => {
                    put_spot(of.get(), state, stack)?;
                    Rows::side_by_side(bits)
                }
            };
            put_element(index.get(), *bounds, rows, state, stack)
        }
        _ => {
            let width = natural(e, state);
            put_composed(e, width, state, stack)?;
            name(state, stack)
        }
    }
}

/// The element of the last spot with an index.
#[cycle(values)]
fn put_element(
    index: &Expr,
    bounds: Bounds,
    rows: Rows,
    state: &mut Lowering<'_>,
    stack: &mut Stack,
) -> Result<(), Memory> {
    let numbers = range(index, state);
    if numbers.is_point() || index_count(bounds) <= 1 {
        let least = i64::from(bounds.left.min(bounds.right));
        return take_place(numbers.low.saturating_sub(least), bounds, rows, stack);
    }
    put_integer(index, index_digits(bounds), state, stack)?;
    take_element(state, bounds, rows, stack)
}

/// An expression that is no name and no part of one.
#[cycle(values)]
fn put_composed(
    e: &Expr,
    width: u32,
    state: &mut Lowering<'_>,
    stack: &mut Stack,
) -> Result<(), Memory> {
    match &e.form {
        Form::Value(value) => push_value(value, width, state, stack),
        Form::Constant(constant) => push_constant(*constant, width, state, stack),
        Form::Aggregate { parts, elements } => {
            put_aggregate(parts.as_slice(), elements.as_slice(), width, state, stack)
        }
        Form::Concatenation(parts) => put_joined(parts.as_slice(), width, state, stack),
        Form::Apply { operator, operands } => {
            put_row(operands.as_slice(), *operator, e.shape.size(), state, stack)
        }
        Form::Chain { first: _, links: _ } => {
            put_chain(e, state, stack)?;
            convert(e, width, state, stack)
        }
        Form::Check {
            operand,
            low: _,
            high: _,
        } => put_value(operand.get(), width, state, stack),
        Form::AtPosition {
            of,
            low: _,
            high: _,
        } => put_integer(of.get(), width, state, stack),
        Form::Call {
            function,
            formals,
            arguments,
        } => {
            put_arguments(
                arguments.as_slice(),
                *function,
                formals.as_slice(),
                state,
                stack,
            )?;
            convert(e, width, state, stack)
        }
        _ => push_fill(state, V4::Zero, 1, stack),
    }
}

/// What an operator gives of its operands, where that is no number. `size` is how many scalars it has.
#[cycle(values)]
fn put_row(
    operands: &[Expr],
    operator: Operator,
    size: u32,
    state: &mut Lowering<'_>,
    stack: &mut Stack,
) -> Result<(), Memory> {
    match operands {
        [a] => {
            let width = natural(a, state);
            put_value(a, width, state, stack)?;
            put_row_of_one(state, operator, stack)
        }
        [a, b] => {
            let wants = wanted_by(operator, known_of(a, state), known_of(b, state), size);
            put_value(a, wants.left, state, stack)?;
            if takes_length(operator) {
                return put_row_of_length(state, operator, size, stack);
            }
            put_value(b, wants.right, state, stack)?;
            put_row_of_two(state, operator, wants.range, size, stack)
        }
        _ => push_fill(state, V4::Zero, size, stack),
    }
}

/// What a chain gives that is no number. Its first operands may be numbers.
#[cycle(values)]
fn put_chain(e: &Expr, state: &mut Lowering<'_>, stack: &mut Stack) -> Result<(), Memory> {
    let Form::Chain { first, links } = &e.form else {
        return push_fill(state, V4::Zero, e.shape.size(), stack);
    };
    let numbers = leading_numbers(links.as_slice());
    let mut before = known_of_chain(e, numbers, state);
    let width = wanted_of_first(links.as_slice(), numbers, before, state);
    if numbers == 0 {
        put_value(first.get(), width, state, stack)?;
    } else {
        put_prefix(e, numbers, width, state, stack)?;
    }
    let mut at = 0usize;
    for link in links.as_slice() {
        if at >= numbers {
            put_link(link, before, state, stack)?;
            before = Known::bits(stack.width());
        }
        at = at.saturating_add(1);
    }
    Ok(())
}

/// What a link gives behind the last part.
#[cycle(values)]
fn put_link(
    link: &Link,
    before: Known,
    state: &mut Lowering<'_>,
    stack: &mut Stack,
) -> Result<(), Memory> {
    let size = link.shape.size();
    let wants = wanted_by(link.operator, before, known_of(&link.right, state), size);
    put_value(&link.right, wants.right, state, stack)?;
    put_row_of_two(state, link.operator, wants.range, size, stack)
}

/// Parts side by side.
#[cycle(values)]
fn put_joined(
    parts: &[Expr],
    width: u32,
    state: &mut Lowering<'_>,
    stack: &mut Stack,
) -> Result<(), Memory> {
    let base = stack.len();
    for part in parts {
        put_value(part, width, state, stack)?;
        as_operand(state, stack)?;
    }
    join_from(state, base, stack)
}

/// An aggregate: runs of elements with one part are written once and repeated.
#[cycle(values)]
fn put_aggregate(
    parts: &[Expr],
    elements: &[u32],
    width: u32,
    state: &mut Lowering<'_>,
    stack: &mut Stack,
) -> Result<(), Memory> {
    let runs = runs_of(state.alloc, parts.len(), elements)?;
    let mut names = no_names(state.alloc, parts.len())?;
    let base = stack.len();
    for run in runs.as_slice() {
        put_part(parts, *run, width, &mut names, state, stack)?;
        repeat(state, run.count, stack)?;
    }
    join_from(state, base, stack)
}

/// A part of an aggregate. One that is needed again is kept by a name.
#[cycle(values)]
fn put_part(
    parts: &[Expr],
    run: ElementRun,
    width: u32,
    names: &mut NamedParts,
    state: &mut Lowering<'_>,
    stack: &mut Stack,
) -> Result<(), Memory> {
    if push_named(state, names, run, stack)? {
        return Ok(());
    }
    match parts.get(run.part as usize) {
        Some(e) => {
            put_value(e, width, state, stack)?;
            keep(state, names, run, stack)
        }
        None => push_fill(state, V4::X, width, stack),
    }
}

/// A call. Its result has the bits of the function's result.
#[cycle(values)]
fn put_arguments(
    arguments: &[Expr],
    number: u32,
    formals: &[u32],
    state: &mut Lowering<'_>,
    stack: &mut Stack,
) -> Result<(), Memory> {
    let base = stack.len();
    let mut at = 0usize;
    for argument in arguments {
        let param = formals.get(at).copied().unwrap_or(0);
        let width = width_of_param(state.design, number, param)?;
        put_value(argument, width, state, stack)?;
        as_operand(state, stack)?;
        at = at.saturating_add(1);
    }
    put_call(state, number, formals, base, stack)
}

/// A value.
fn push_value(
    value: &Value,
    width: u32,
    state: &Lowering<'_>,
    stack: &mut Stack,
) -> Result<(), Memory> {
    let bits = bits_of(state.alloc, value, width)?;
    stack.push_part(Part::bits(bits))
}

/// A large constant.
fn push_constant(
    constant: u32,
    width: u32,
    state: &Lowering<'_>,
    stack: &mut Stack,
) -> Result<(), Memory> {
    push_value(state.design.constant(constant)?, width, state, stack)
}

/// A static part of a variable: the scalars that the variable has, and how many stand before the part.
#[derive(Clone, Copy)]
struct VariablePart {
    variable: u32,
    size: u32,
    first: u32,
}

/// The static part of a variable that an expression is, where it is one, of which `first` scalars are left out.
fn part_of_variable(e: &Expr, first: u32) -> Option<VariablePart> {
    match &e.form {
        Form::Variable(variable) => Some(VariablePart {
            variable: *variable,
            size: e.shape.size(),
            first,
        }),
        Form::Elements { of, first: more } => {
            part_of_variable(of.get(), first.saturating_add(*more))
        }
        _ => None,
    }
}

/// The value of a static part of a variable, which has `size` scalars.
fn push_part(
    part: VariablePart,
    size: u32,
    state: &mut Lowering<'_>,
    stack: &mut Stack,
) -> Result<(), Memory> {
    let width = state.object(part.variable)?.layout.width();
    let low = behind(part.size, part.first, size).saturating_mul(width);
    let read = state.read_object(part.variable, low, size.saturating_mul(width))?;
    stack.push_part(read)
}

/// How many of `all` scalars stand behind `size` of them from `first` on.
fn behind(all: u32, first: u32, size: u32) -> u32 {
    all.saturating_sub(first).saturating_sub(size)
}

/// The spot of a constant array that is read by an index, and how its elements lie there.
fn table_of(
    of: &Expr,
    bounds: Bounds,
    width: u32,
    bits: u32,
    state: &mut Lowering<'_>,
    stack: &mut Stack,
) -> Result<Option<Rows>, Memory> {
    let design = state.design;
    let (value, constant) = match &of.form {
        Form::Value(value) => (value, None),
        Form::Constant(constant) => (design.constant(*constant)?, Some(*constant)),
        _ => return Ok(None),
    };
    let Value::Array(values) = value else {
        return Ok(None);
    };
    let rows = Rows::of_table(bits, values.len());
    let run = table(state, values, constant, bounds.down, width, rows)?;
    push_run(run, stack)?;
    Ok(Some(rows))
}
