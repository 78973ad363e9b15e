//! The code of expressions.

use crate::code::{Arity, End, Instr, MarkAt};
use crate::rows::is_natural_operand;
use crate::slots::Coding;
use sqlite_items::at;
use vv_base::fault::{Memory, Span};
use vv_held::held::narrow;
use vv_typed::{Callee, Element, Form, Link, Suffix, TRange, Typed};
use vv_types::StdFn;

/// The code of an expression. Where it is `wanted`, an aggregate in it may take the bounds that are wanted.
#[cycle(expressions)]
pub fn expression<'t>(e: &'t Typed, wanted: bool, to: &mut Coding<'t>) -> Result<(), Memory> {
    match &e.form {
        Form::Call {
            callee,
            formals,
            args,
        } => {
            arguments(args.as_slice(), *callee, formals.as_slice(), to)?;
            let count = narrow(args.len())?;
            match callee {
                Callee::User(decl) => to.push(Instr::Call {
                    decl: *decl,
                    formals: Some(formals),
                    count,
                    span: e.span,
                }),
                _ => operator(*callee, arity_of(count), e.span, to),
            }
        }
        Form::Part { prefix, suffixes } => {
            expression(prefix.get(), false, to)?;
            parts(suffixes.as_slice(), to)
        }
        Form::Conversion { mark, operand } => {
            let operand = operand.get();
            expression(operand, false, to)?;
            let mark = to.mark(*mark);
            to.push(Instr::Convert {
                mark,
                span: operand.span,
            })
        }
        Form::Qualified { mark, operand } => {
            let operand = operand.get();
            let mark = to.mark(*mark);
            to.push(Instr::WantMark(mark))?;
            expression(operand, true, to)?;
            to.push(Instr::EndWant)?;
            to.push(Instr::Qualify {
                mark,
                span: operand.span,
            })
        }
        Form::Pos { mark: _, operand } => {
            expression(operand.get(), false, to)?;
            to.push(Instr::Position)
        }
        Form::Val { mark, operand } => {
            expression(operand.get(), false, to)?;
            let mark = to.mark(*mark);
            to.push(Instr::AtPosition { mark, span: e.span })
        }
        Form::Parenthesis(inner) => expression(inner.get(), wanted, to),
        Form::Aggregate(parts) => {
            let mark = to.mark_of(e.base);
            elements(parts.as_slice(), mark, to)?;
            to.push(Instr::Aggregate {
                elements: parts,
                base: e.base,
                wanted,
                span: e.span,
            })
        }
        Form::Length(prefix)
        | Form::Left(prefix)
        | Form::Right(prefix)
        | Form::High(prefix)
        | Form::Low(prefix) => {
            bounds(prefix.get(), to)?;
            to.push(Instr::RangeEnd {
                end: end_of(&e.form),
                base: e.base,
            })
        }
        Form::Logical { first, rest } => {
            expression(first.get(), false, to)?;
            logical(rest.as_slice(), to)
        }
        Form::Sum { first, rest } | Form::Product { first, rest } => {
            expression(first.get(), false, to)?;
            links(rest.as_slice(), to)
        }
        Form::Relation {
            left,
            callee,
            right,
        }
        | Form::Shift {
            left,
            callee,
            right,
        }
        | Form::Power {
            left,
            callee,
            right,
        } => {
            let (left, right) = (left.get(), right.get());
            expression(left, false, to)?;
            natural(*callee, 0, left.span, to)?;
            expression(right, false, to)?;
            natural(*callee, 1, right.span, to)?;
            operator(*callee, Arity::Two, e.span, to)
        }
        Form::Sign { callee, operand }
        | Form::Absolute { callee, operand }
        | Form::Not { callee, operand } => {
            expression(operand.get(), false, to)?;
            operator(*callee, Arity::One, e.span, to)
        }
        _ => leaf(e, to),
    }
}

/// The code of an expression without parts.
fn leaf<'t>(e: &'t Typed, to: &mut Coding<'t>) -> Result<(), Memory> {
    match &e.form {
        Form::Integer(n) => to.push(Instr::Integer(*n)),
        Form::Character { decl: _, position } | Form::Literal { decl: _, position } => {
            to.push(Instr::Literal {
                base: e.base,
                position: *position,
            })
        }
        Form::String(positions) | Form::BitString(positions) => to.push(Instr::Text {
            base: to.element_base(e.base),
            positions,
            span: e.span,
        }),
        Form::Object(decl) => match to.slot(*decl) {
            Some(slot) => to.push(Instr::Local(slot)),
            None => to.push(Instr::Global(*decl)),
        },
        _ => to.push(Instr::NotStatic),
    }
}

/// Which end of a range an attribute gives.
fn end_of(form: &Form) -> End {
    match form {
        Form::Left(_) => End::Left,
        Form::Right(_) => End::Right,
        Form::High(_) => End::High,
        Form::Low(_) => End::Low,
        _ => End::Length,
    }
}

fn arity_of(count: u32) -> Arity {
    if count == 1 { Arity::One } else { Arity::Two }
}

/// The instruction of an operator whose operands stand on the stack.
fn operator<'t>(
    callee: Callee,
    arity: Arity,
    span: Span,
    to: &mut Coding<'t>,
) -> Result<(), Memory> {
    match callee {
        Callee::Standard(f) => to.push(Instr::Standard { f, arity, span }),
        Callee::Numeric(f) => to.push(Instr::Numeric { f, arity, span }),
        Callee::Predefined(op) => to.push(Instr::Whole { op, arity, span }),
        Callee::User(decl) => to.push(Instr::Call {
            decl,
            formals: None,
            count: match arity {
                Arity::One => 1,
                Arity::Two => 2,
            },
            span,
        }),
    }
}

#[cycle(expressions)]
fn arguments<'t>(
    args: &'t [Typed],
    callee: Callee,
    formals: &[u32],
    to: &mut Coding<'t>,
) -> Result<(), Memory> {
    for (k, arg) in args.iter().enumerate() {
        expression(arg, false, to)?;
        let operand = match at(formals, k) {
            Some(formal) => *formal as usize,
            None => k,
        };
        natural(callee, operand, arg.span, to)?;
    }
    Ok(())
}

/// Checks an operand that is of the subtype natural.
fn natural<'t>(
    callee: Callee,
    operand: usize,
    span: Span,
    to: &mut Coding<'t>,
) -> Result<(), Memory> {
    match callee {
        Callee::Numeric(f) if is_natural_operand(f, operand) => to.push(Instr::Natural(span)),
        _ => Ok(()),
    }
}

#[cycle(expressions)]
fn links<'t>(links: &'t [Link], to: &mut Coding<'t>) -> Result<(), Memory> {
    for link in links {
        expression(&link.right, false, to)?;
        natural(link.callee, 1, link.right.span, to)?;
        operator(link.callee, Arity::Two, link.span, to)?;
    }
    Ok(())
}

/// What a left operand decides by itself.
fn decides(callee: Callee) -> Option<(bool, bool)> {
    match callee {
        Callee::Standard(StdFn::AndBool) => Some((false, false)),
        Callee::Standard(StdFn::OrBool) => Some((true, true)),
        Callee::Standard(StdFn::NandBool) => Some((false, true)),
        Callee::Standard(StdFn::NorBool) => Some((true, false)),
        _ => None,
    }
}

#[cycle(expressions)]
fn logical<'t>(links: &'t [Link], to: &mut Coding<'t>) -> Result<(), Memory> {
    for link in links {
        let decided = decides(link.callee);
        let hole = to.here();
        if decided.is_some() {
            to.push(Instr::Jump(0))?;
        }
        expression(&link.right, false, to)?;
        operator(link.callee, Arity::Two, link.span, to)?;
        if let Some((on, gives)) = decided {
            let behind = to.here();
            to.put(
                hole,
                Instr::Decide {
                    on,
                    gives,
                    to: behind,
                },
            );
        }
    }
    Ok(())
}

/// Each suffix is taken of what stands on the stack.
#[cycle(expressions)]
fn parts<'t>(suffixes: &'t [Suffix], to: &mut Coding<'t>) -> Result<(), Memory> {
    for suffix in suffixes {
        match suffix {
            Suffix::Index {
                index,
                base: _,
                span: _,
            } => {
                expression(index, false, to)?;
                to.push(Instr::Index(index.span))?;
            }
            Suffix::Slice { range, span } => {
                choice(range, to)?;
                to.push(Instr::Slice(*span))?;
            }
        }
    }
    Ok(())
}

/// The code of the first operand with its first `count` links.
pub fn joined<'t>(e: &'t Typed, count: usize, to: &mut Coding<'t>) -> Result<(), Memory> {
    match &e.form {
        Form::Logical { first, rest } => {
            expression(first.get(), false, to)?;
            let rest = rest.as_slice();
            logical(&rest[..count.min(rest.len())], to)
        }
        Form::Sum { first, rest } | Form::Product { first, rest } => {
            expression(first.get(), false, to)?;
            let rest = rest.as_slice();
            links(&rest[..count.min(rest.len())], to)
        }
        _ => expression(e, false, to),
    }
}

/// The indexes and ranges of a target, which stay on the stack.
pub fn places<'t>(suffixes: &'t [Suffix], to: &mut Coding<'t>) -> Result<(), Memory> {
    for suffix in suffixes {
        match suffix {
            Suffix::Index {
                index,
                base: _,
                span: _,
            } => expression(index, false, to)?,
            Suffix::Slice { range, span: _ } => choice(range, to)?,
        }
    }
    Ok(())
}

/// A range, or a choice.
#[cycle(expressions)]
pub fn choice<'t>(range: &'t TRange, to: &mut Coding<'t>) -> Result<(), Memory> {
    match range {
        TRange::Whole(e) => match &e.form {
            Form::Range(prefix) => bounds(prefix.get(), to),
            Form::ReverseRange(prefix) => {
                bounds(prefix.get(), to)?;
                to.push(Instr::Reverse)
            }
            Form::Mark(mark) => {
                let mark = to.mark(*mark);
                to.push(Instr::MarkRange(mark))
            }
            _ => expression(e, false, to),
        },
        TRange::Between { left, right, down } => {
            expression(left, false, to)?;
            expression(right, false, to)?;
            to.push(Instr::MakeRange {
                down: *down,
                base: left.base,
            })
        }
        TRange::Within { mark: _, range } => choice(range.get(), to),
        TRange::Others(_) => to.push(Instr::Others),
    }
}

/// The bounds of a prefix of an attribute.
#[cycle(expressions)]
fn bounds<'t>(prefix: &'t Typed, to: &mut Coding<'t>) -> Result<(), Memory> {
    match &prefix.form {
        Form::Mark(mark) => {
            let mark = to.mark(*mark);
            to.push(Instr::MarkRange(mark))
        }
        Form::Object(decl) => match to.slot(*decl) {
            Some(slot) => to.push(Instr::LocalRange(slot)),
            None => to.push(Instr::GlobalRange(*decl)),
        },
        Form::Part {
            prefix: of,
            suffixes,
        } => {
            let signal = match &of.get().form {
                Form::Object(decl) => to.signal(*decl),
                _ => None,
            };
            match (signal, suffixes.as_slice().last()) {
                (Some(_), Some(Suffix::Slice { range, span: _ })) => choice(range, to),
                (Some(shape), _) => match shape.inner {
                    Some(bounds) => to.push(Instr::Bounds(bounds)),
                    None => to.push(Instr::NotStatic),
                },
                _ => {
                    expression(prefix, false, to)?;
                    to.push(Instr::ValueRange)
                }
            }
        }
        _ => {
            expression(prefix, false, to)?;
            to.push(Instr::ValueRange)
        }
    }
}

#[cycle(expressions)]
fn elements<'t>(elements: &'t [Element], mark: MarkAt, to: &mut Coding<'t>) -> Result<(), Memory> {
    for element in elements {
        for range in element.choices.as_slice() {
            choice(range, to)?;
        }
        to.push(Instr::WantElementOf(mark))?;
        expression(&element.value, true, to)?;
        to.push(Instr::EndWant)?;
        to.push(Instr::FitElement {
            mark,
            span: element.value.span,
        })?;
    }
    Ok(())
}
