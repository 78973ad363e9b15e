//! The code of operators.

use crate::build::{Build, Operand};
use vv_base::fault::{Memory, Span};
use vv_design::{Operator, Scalar};
use vv_engine::Instr;
use vv_types::{NumFn, Op, Place, StdFn};

/// A place without cells.
const NOWHERE: Place = Place { first: 0, size: 0 };

/// Whether an operator is a predefined equality that can clash on scalars of this kind.
fn can_clash(f: StdFn, of: Scalar) -> bool {
    match f {
        StdFn::EqualLogic | StdFn::NotEqualLogic | StdFn::EqualArray | StdFn::NotEqualArray => of
            == Scalar::Logic,
        _ => false,
    }
}

/// An operator on one or two operands, whose left one has scalars of a kind. Its value has `size` scalars.
pub fn applied<'d>(
    to: &mut Build<'d>,
    operator: Operator,
    a: Operand,
    b: Option<Operand>,
    of: Scalar,
    size: u32,
    at: Span,
) -> Result<Operand, Memory> {
    let place = to.temporary(size)?;
    match operator {
        Operator::Standard(f) => standard(to, f, a, b, of, place, at)?,
        Operator::Numeric(f) => numeric(to, f, a, b, place, at)?,
        Operator::Integer(op) => integer(to, op, a, b, place, at)?,
    }
    Ok(Operand { place, known: None })
}

/// An operator of `standard` or `std_logic_1164`.
fn standard<'d>(
    to: &mut Build<'d>,
    f: StdFn,
    a: Operand,
    b: Option<Operand>,
    of: Scalar,
    place: Place,
    at: Span,
) -> Result<(), Memory> {
    let right = match b {
        Some(b) => b.place,
        None => NOWHERE,
    };
    if can_clash(f, of) {
        to.push(Instr::Clash {
            a: a.place,
            b: right,
            at,
        })?;
    }
    to.push(Instr::Standard {
        f,
        a: a.place,
        b: right,
        to: place,
    })
}

/// An operator or a function of `numeric_std`.
fn numeric<'d>(
    to: &mut Build<'d>,
    f: NumFn,
    a: Operand,
    b: Option<Operand>,
    place: Place,
    at: Span,
) -> Result<(), Memory> {
    let right = match b {
        Some(b) => b.place,
        None => NOWHERE,
    };
    to.push(Instr::Numeric {
        f,
        a: a.place,
        b: right,
        to: place,
        at,
    })
}

/// Integer arithmetic. A sign has 0 on its left.
fn integer<'d>(
    to: &mut Build<'d>,
    op: Op,
    a: Operand,
    b: Option<Operand>,
    place: Place,
    at: Span,
) -> Result<(), Memory> {
    let (left, right) = match b {
        Some(b) => (a.place.first, b.place.first),
        None => (to.zero, a.place.first),
    };
    to.push(Instr::Whole {
        op,
        a: left,
        b: right,
        to: place.first,
        at,
    })
}

/// What a left operand decides by itself: at which value, and what the result then is.
pub fn decides(operator: Operator) -> Option<(bool, bool)> {
    match operator {
        Operator::Standard(StdFn::AndBool) => Some((false, false)),
        Operator::Standard(StdFn::OrBool) => Some((true, true)),
        Operator::Standard(StdFn::NandBool) => Some((false, true)),
        Operator::Standard(StdFn::NorBool) => Some((true, false)),
        _ => None,
    }
}

/// Code that leads past an operand which is not evaluated where the left one decides: where the value lies, and the place of the jump.
#[derive(Clone, Copy)]
pub struct Short {
    pub cell: Place,
    pub jump: u32,
}

/// Begins such code.
pub fn begin_short<'d>(to: &mut Build<'d>, gives: bool) -> Result<Short, Memory> {
    let cell = to.temporary(1)?;
    to.push(Instr::Set {
        to: cell.first,
        v: if gives { 1 } else { 0 },
    })?;
    let jump = to.here()?;
    to.push(Instr::Jump(0))?;
    Ok(Short { cell, jump })
}

/// Ends such code: `value` is that of both operands, and the left one decides where it is `on`.
pub fn end_short<'d>(
    to: &mut Build<'d>,
    short: Short,
    left: Operand,
    on: bool,
    value: Operand,
) -> Result<Operand, Memory> {
    to.push(Instr::Copy {
        from: value.place,
        to: short.cell,
    })?;
    let behind = to.here()?;
    let cell = left.place.first;
    let jump = if on {
        Instr::When { cell, to: behind }
    } else {
        Instr::Unless { cell, to: behind }
    };
    to.put(short.jump, jump);
    Ok(Operand {
        place: short.cell,
        known: None,
    })
}
