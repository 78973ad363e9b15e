//! The code of expressions.

use crate::build::{Build, Operand, known_of};
use crate::names::{Part, located, part_of, read, taken, whole};
use crate::operators::{applied, begin_short, decides, end_short};
use vv_base::fault::{Memory, Span, cannot_come};
use vv_design::{Expr, Form, Link, Scalar};
use vv_engine::Instr;
use vv_types::Place;

/// The code of an expression, and where its value lies.
pub fn expression<'d>(e: &'d Expr, to: &mut Build<'d>) -> Result<Operand, Memory> {
    let part = value(e, to)?;
    read(to, part)
}

/// The code of an expression. A name is not read yet.
#[cycle(expressions)]
pub fn value<'d>(e: &'d Expr, to: &mut Build<'d>) -> Result<Part, Memory> {
    let size = e.shape.size();
    match &e.form {
        Form::Elements { of, first } => {
            let part = value(of.get(), to)?;
            taken(part, *first, size)
        }
        Form::Element { of, index, bounds } => {
            let part = value(of.get(), to)?;
            let index = index.get();
            let found = value(index, to)?;
            let found = read(to, found)?;
            located(to, part, found, *bounds, size, index.span)
        }
        Form::Aggregate { parts, elements } => {
            let parts = operands(parts.as_slice(), to)?;
            arranged(to, parts.as_slice(), elements.as_slice(), size)
        }
        Form::Concatenation(parts) => {
            let parts = operands(parts.as_slice(), to)?;
            joined(to, parts.as_slice(), size)
        }
        Form::Apply {
            operator,
            operands: list,
        } => {
            let of = scalar_of(list.as_slice());
            let found = operands(list.as_slice(), to)?;
            let Some(a) = found.first().copied() else {
                return Err(cannot_come());
            };
            let b = found.get(1).copied();
            Ok(part_of(applied(to, *operator, a, b, of, size, e.span)?))
        }
        Form::Chain { first, links } => {
            let part = value(first.get(), to)?;
            let left = read(to, part)?;
            Ok(part_of(chain(links.as_slice(), left, to)?))
        }
        Form::Position(of) => {
            let part = value(of.get(), to)?;
            Ok(part_of(read(to, part)?))
        }
        Form::AtPosition { of, low, high }
        | Form::Check {
            operand: of,
            low,
            high,
        } => {
            let part = value(of.get(), to)?;
            let found = read(to, part)?;
            checked(to, found, *low, *high, e.span)
        }
        Form::Edge { rising, of } => {
            let part = value(of.get(), to)?;
            edge(to, part, *rising)
        }
        Form::Event(of) => {
            let part = value(of.get(), to)?;
            event(to, part)
        }
        Form::Call {
            function,
            formals,
            arguments,
        } => {
            let found = operands(arguments.as_slice(), to)?;
            called(to, *function, formals.as_slice(), found.as_slice())
        }
        _ => leaf(e, to),
    }
}

/// The kind of the scalars of a left operand.
fn scalar_of(list: &[Expr]) -> Scalar {
    match list.first() {
        Some(e) => e.shape.scalar(),
        None => Scalar::Bool,
    }
}

/// The code of some expressions in their order.
#[cycle(expressions)]
fn operands<'d>(list: &'d [Expr], to: &mut Build<'d>) -> Result<Vec<Operand>, Memory> {
    let mut found = Vec::new(to.alloc);
    for e in list {
        let part = value(e, to)?;
        let operand = read(to, part)?;
        found.push(operand)?;
    }
    Ok(found)
}

/// The code of operands that operators join, behind the first one.
#[cycle(expressions)]
fn chain<'d>(links: &'d [Link], first: Operand, to: &mut Build<'d>) -> Result<Operand, Memory> {
    let mut left = first;
    for link in links {
        let size = link.shape.size();
        let of = link.right.shape.scalar();
        match decides(link.operator) {
            None => {
                let part = value(&link.right, to)?;
                let right = read(to, part)?;
                left = applied(to, link.operator, left, Some(right), of, size, link.span)?;
            }
            Some((on, gives)) => {
                let short = begin_short(to, gives)?;
                let part = value(&link.right, to)?;
                let right = read(to, part)?;
                let both = applied(to, link.operator, left, Some(right), of, size, link.span)?;
                left = end_short(to, short, left, on, both)?;
            }
        }
    }
    Ok(left)
}

/// An expression without parts.
fn leaf<'d>(e: &'d Expr, to: &mut Build<'d>) -> Result<Part, Memory> {
    match &e.form {
        Form::Value(value) => Ok(Part {
            place: to.lay(value)?,
            offset: None,
            known: known_of(value),
        }),
        Form::Constant(number) => Ok(whole(to.large(*number)?)),
        Form::Net(number) => Ok(whole(Place {
            first: to.design.net(*number)?.first,
            size: e.shape.size(),
        })),
        Form::Variable(number) => Ok(whole(to.var(*number)?)),
        _ => Err(cannot_come()),
    }
}

/// A scalar that has to lie in a range.
fn checked<'d>(
    to: &mut Build<'d>,
    found: Operand,
    low: i32,
    high: i32,
    at: Span,
) -> Result<Part, Memory> {
    match found.known {
        Some(n) if low <= n && n <= high => {}
        _ => to.push(Instr::Check {
            cell: found.place.first,
            low,
            high,
            at,
        })?,
    }
    Ok(part_of(found))
}

/// Whether an element of a net has an edge.
fn edge<'d>(to: &mut Build<'d>, part: Part, rising: bool) -> Result<Part, Memory> {
    let place = to.temporary(1)?;
    to.push(Instr::Edge {
        elem: part.place.first,
        rising,
        to: place.first,
    })?;
    Ok(whole(place))
}

/// Whether a net has an event.
fn event<'d>(to: &mut Build<'d>, part: Part) -> Result<Part, Memory> {
    let place = to.temporary(1)?;
    to.push(Instr::Event {
        of: part.place,
        to: place.first,
    })?;
    Ok(whole(place))
}

/// A call: the arguments are copied into the parameters, and the value out of the result.
fn called<'d>(
    to: &mut Build<'d>,
    function: u32,
    formals: &[u32],
    arguments: &[Operand],
) -> Result<Part, Memory> {
    let Some(routine) = to.routines.get(function as usize) else {
        return Err(cannot_come());
    };
    let (entry, result) = (routine.entry, routine.result);
    for (formal, argument) in formals.iter().zip(arguments) {
        let Some(place) = param_of(to, function, *formal) else {
            return Err(cannot_come());
        };
        to.push(Instr::Copy {
            from: argument.place,
            to: place,
        })?;
    }
    to.push(Instr::Call(entry))?;
    let place = to.temporary(result.size)?;
    to.push(Instr::Copy {
        from: result,
        to: place,
    })?;
    Ok(whole(place))
}

/// Where a parameter of a function lies.
fn param_of<'d>(to: &Build<'d>, function: u32, formal: u32) -> Option<Place> {
    let routine = to.routines.get(function as usize)?;
    routine.params.get(formal as usize).copied()
}

/// The parts of an aggregate, each at the elements that are its own.
fn arranged<'d>(
    to: &mut Build<'d>,
    parts: &[Operand],
    elements: &[u32],
    size: u32,
) -> Result<Part, Memory> {
    if is_known(parts) {
        return constant(to, parts, elements);
    }
    let place = to.temporary(size)?;
    let mut first = place.first;
    let mut run: u32 = 0;
    let mut last = None;
    for number in elements {
        if last == Some(*number) {
            run = run.saturating_add(1);
        } else {
            first = spread(to, parts, last, first, run)?;
            last = Some(*number);
            run = 1;
        }
    }
    spread(to, parts, last, first, run)?;
    Ok(whole(place))
}

/// Whether all parts are scalars that are known.
fn is_known(parts: &[Operand]) -> bool {
    for part in parts {
        if part.known.is_none() {
            return false;
        }
    }
    true
}

/// An aggregate of scalars that are known.
fn constant<'d>(to: &mut Build<'d>, parts: &[Operand], elements: &[u32]) -> Result<Part, Memory> {
    let place = to.fresh(0)?;
    let mut size: u32 = 0;
    for number in elements {
        match parts.get(*number as usize) {
            Some(
                Operand {
                    place: _,
                    known: Some(n),
                },
            ) => to.cells.push(*n)?,
            _ => return Err(cannot_come()),
        }
        size = size.saturating_add(1);
    }
    Ok(whole(Place {
        first: place.first,
        size,
    }))
}

/// Puts a part at some elements that lie side by side. The cell behind them is answered.
fn spread<'d>(
    to: &mut Build<'d>,
    parts: &[Operand],
    number: Option<u32>,
    first: u32,
    run: u32,
) -> Result<u32, Memory> {
    let Some(number) = number else {
        return Ok(first);
    };
    let Some(part) = parts.get(number as usize) else {
        return Err(cannot_come());
    };
    let size = part.place.size.saturating_mul(run);
    to.push(Instr::Fill {
        from: part.place,
        to: Place { first, size },
    })?;
    Ok(first.saturating_add(size))
}

/// Parts side by side.
fn joined<'d>(to: &mut Build<'d>, parts: &[Operand], size: u32) -> Result<Part, Memory> {
    let place = to.temporary(size)?;
    let mut first = place.first;
    for part in parts {
        let size = part.place.size;
        to.push(Instr::Copy {
            from: part.place,
            to: Place { first, size },
        })?;
        first = first.saturating_add(size);
    }
    Ok(whole(place))
}
