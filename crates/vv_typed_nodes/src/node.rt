//! Nodes of typed trees. The parts of a node stand at the end of a list, from which they are taken, and the node is put there.

use sqlite_items::Boxed;
use std::alloc::Global;
use vv_base::fault::{Memory, Span, cannot_come};
use vv_typed::{
    Callee, Element, ElementList, Form, Link, LinkList, Suffix, SuffixList, TRange, TRangeList,
    TypeMark, Typed, TypedList,
};
use vv_types::{BaseType, Op};

/// The type and the place of an expression.
#[derive(Clone, Copy)]
pub struct Mark {
    pub base: BaseType,
    pub span: Span,
}

/// Appends an expression without parts, or one that has them already.
pub fn put(form: Form, mark: Mark, into: &mut TypedList) -> Result<(), Memory> {
    into.push(Typed {
        form,
        base: mark.base,
        span: mark.span,
    })?;
    Ok(())
}

/// The last expression, which is taken off the list.
pub fn taken(list: &mut TypedList) -> Result<Typed, Memory> {
    match list.pop() {
        Some(e) => Ok(e),
        None => Err(cannot_come()),
    }
}

/// The last range, which is taken off the list.
pub fn taken_range(list: &mut TRangeList) -> Result<TRange, Memory> {
    match list.pop() {
        Some(range) => Ok(range),
        None => Err(cannot_come()),
    }
}

/// The last expression in a box, which is taken off the list.
pub fn taken_box(alloc: Global, list: &mut TypedList) -> Result<Boxed<Typed>, Memory> {
    Ok(Boxed::new(alloc, taken(list)?)?)
}

/// The last expression in parentheses.
pub fn put_parenthesis(alloc: Global, mark: Mark, into: &mut TypedList) -> Result<(), Memory> {
    let inner = taken_box(alloc, into)?;
    put(Form::Parenthesis(inner), mark, into)
}

/// An operator before its operand.
pub fn put_unary(
    alloc: Global,
    op: Op,
    callee: Callee,
    mark: Mark,
    into: &mut TypedList,
) -> Result<(), Memory> {
    let operand = taken_box(alloc, into)?;
    let form = match op {
        Op::Absolute => Form::Absolute { callee, operand },
        Op::Not => Form::Not { callee, operand },
        _ => Form::Sign { callee, operand },
    };
    put(form, mark, into)
}

/// An operator between two operands and in no chain.
pub fn put_binary(
    alloc: Global,
    op: Op,
    callee: Callee,
    mark: Mark,
    into: &mut TypedList,
) -> Result<(), Memory> {
    let right = taken_box(alloc, into)?;
    let left = taken_box(alloc, into)?;
    put(between(op, left, callee, right), mark, into)
}

fn between(op: Op, left: Boxed<Typed>, callee: Callee, right: Boxed<Typed>) -> Form {
    match op {
        Op::Power => Form::Power {
            left,
            callee,
            right,
        },
        Op::ShiftLeftLogical
        | Op::ShiftRightLogical
        | Op::ShiftLeftArithmetic
        | Op::ShiftRightArithmetic
        | Op::RotateLeft
        | Op::RotateRight => Form::Shift {
            left,
            callee,
            right,
        },
        _ => Form::Relation {
            left,
            callee,
            right,
        },
    }
}

/// Operands that operators join. The first of them is the last expression, and `op` is the first operator.
pub fn put_chain(
    alloc: Global,
    op: Op,
    rest: LinkList,
    mark: Mark,
    into: &mut TypedList,
) -> Result<(), Memory> {
    let first = taken_box(alloc, into)?;
    let form = match op {
        Op::Plus | Op::Minus | Op::Concatenate => Form::Sum { first, rest },
        Op::Times | Op::Divide | Op::Modulo | Op::Remainder => Form::Product { first, rest },
        _ => Form::Logical { first, rest },
    };
    put(form, mark, into)
}

/// An operator with its right operand, which is the last expression of `from`.
pub fn put_link(
    callee: Callee,
    mark: Mark,
    from: &mut TypedList,
    into: &mut LinkList,
) -> Result<(), Memory> {
    into.push(Link {
        callee,
        right: taken(from)?,
        base: mark.base,
        span: mark.span,
    })?;
    Ok(())
}

/// An element of an aggregate, whose value is the last expression of `from`.
pub fn put_element(
    choices: TRangeList,
    from: &mut TypedList,
    into: &mut ElementList,
) -> Result<(), Memory> {
    into.push(Element {
        choices,
        value: taken(from)?,
    })?;
    Ok(())
}

/// A range of one expression.
pub fn put_whole(from: &mut TypedList, into: &mut TRangeList) -> Result<(), Memory> {
    into.push(TRange::Whole(taken(from)?))?;
    Ok(())
}

/// A range between the last two expressions of `from`.
pub fn put_between(down: bool, from: &mut TypedList, into: &mut TRangeList) -> Result<(), Memory> {
    let right = taken(from)?;
    let left = taken(from)?;
    into.push(TRange::Between { left, right, down })?;
    Ok(())
}

/// An index, which is the last expression of `from`.
pub fn put_index(mark: Mark, from: &mut TypedList, into: &mut SuffixList) -> Result<(), Memory> {
    into.push(Suffix::Index {
        index: taken(from)?,
        base: mark.base,
        span: mark.span,
    })?;
    Ok(())
}

/// A slice, whose range is the last one of `from`.
pub fn put_slice(mark: Mark, from: &mut TRangeList, into: &mut SuffixList) -> Result<(), Memory> {
    into.push(Suffix::Slice {
        range: taken_range(from)?,
        span: mark.span,
    })?;
    Ok(())
}

/// Elements of the last expression, which stays as it is where there are no suffixes.
pub fn put_part(
    alloc: Global,
    suffixes: SuffixList,
    mark: Mark,
    into: &mut TypedList,
) -> Result<(), Memory> {
    if suffixes.is_empty() {
        return Ok(());
    }
    let prefix = taken_box(alloc, into)?;
    put(Form::Part { prefix, suffixes }, mark, into)
}

/// An edge of a signal, which is the last expression.
pub fn put_edge(
    alloc: Global,
    rising: bool,
    mark: Mark,
    into: &mut TypedList,
) -> Result<(), Memory> {
    let signal = taken_box(alloc, into)?;
    put(Form::Edge { rising, signal }, mark, into)
}

/// What stands behind a type with an operand.
#[derive(Clone, Copy)]
pub enum OfType {
    Conversion,
    Qualified,
    Pos,
    Val,
}

/// A form of a type with the last expression as its operand.
pub fn put_of_type(
    alloc: Global,
    of: OfType,
    decl: u32,
    at: Mark,
    into: &mut TypedList,
) -> Result<(), Memory> {
    let mark = TypeMark { decl };
    let operand = taken_box(alloc, into)?;
    let form = match of {
        OfType::Conversion => Form::Conversion { mark, operand },
        OfType::Qualified => Form::Qualified { mark, operand },
        OfType::Pos => Form::Pos { mark, operand },
        OfType::Val => Form::Val { mark, operand },
    };
    put(form, at, into)
}
