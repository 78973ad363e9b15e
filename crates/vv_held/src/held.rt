//! Values with their bounds.

use crate::shape::{Shape, contains, count, place_in};
use sqlite_items::{Items, at};
use std::alloc::Global;
use vv_base::fault::{Fault, Memory, Refusal, Rule, Span, cannot_come};
use vv_bits::S9;
use vv_types::{BaseType, Bounds, Value};

/// A value, with the bounds of an array and those of its elements.
#[derive(Drop)]
pub struct Held {
    pub value: Value,
    pub outer: Option<Bounds>,
    pub inner: Option<Bounds>,
}

/// A number as one of 32 bits.
pub fn narrow(n: usize) -> Result<u32, Memory> {
    match u32::try_from(n) {
        Ok(n) => Ok(n),
        Err(_) => Err(Memory),
    }
}

/// A broken rule.
pub fn refused(rule: Rule, span: Span) -> Fault {
    Fault::Refused(Refusal { rule, span })
}

/// The answer where a tree is not well typed, which no tree of the checked units is.
pub fn misfit() -> Fault {
    Fault::from(cannot_come())
}

impl Held {
    /// A scalar.
    pub fn scalar(value: Value) -> Held {
        Held {
            value,
            outer: None,
            inner: None,
        }
    }

    pub fn copy(&self, alloc: Global) -> Result<Held, Memory> {
        Ok(Held {
            value: self.value.copy(alloc)?,
            outer: self.outer,
            inner: self.inner,
        })
    }

    /// The elements of an array, and none of a scalar.
    pub fn elements(&self) -> &[Value] {
        match &self.value {
            Value::Array(xs) => xs.as_slice(),
            _ => &[],
        }
    }
}

/// The number by which a scalar is an index: a number itself, and the position of any other.
pub fn ordinal(value: &Value) -> Option<i32> {
    match value {
        Value::Int(n) => Some(*n),
        Value::Enum(position) => i32::try_from(*position).ok(),
        Value::Bool(b) => Some(if *b { 1 } else { 0 }),
        Value::Logic(_) | Value::Array(_) => None,
    }
}

/// The value of a type at a position.
pub fn from_ordinal(base: BaseType, n: i32) -> Option<Value> {
    match base {
        BaseType::Int => Some(Value::Int(n)),
        BaseType::Bool => Some(Value::Bool(n != 0)),
        BaseType::Enum(_) => Some(Value::Enum(u32::try_from(n).ok()?)),
        BaseType::Logic => Some(Value::Logic(nine(u32::try_from(n).ok()?))),
        BaseType::Array(_) => None,
    }
}

/// The value of `std_ulogic` at a position.
pub fn nine(position: u32) -> S9 {
    match position {
        0 => S9::U,
        1 => S9::X,
        2 => S9::Zero,
        3 => S9::One,
        4 => S9::Z,
        5 => S9::W,
        6 => S9::L,
        7 => S9::H,
        _ => S9::Dash,
    }
}

/// The value at a position of a type without numbers.
pub fn literal(base: BaseType, position: u32) -> Value {
    match base {
        BaseType::Logic => Value::Logic(nine(position)),
        BaseType::Bool => Value::Bool(position != 0),
        _ => Value::Enum(position),
    }
}

/// The element at an index.
pub fn element_at(alloc: Global, held: &Held, index: i32, span: Span) -> Result<Held, Fault> {
    let Some(bounds) = held.outer else {
        return Err(misfit());
    };
    let Some(place) = place_in(bounds, index) else {
        return Err(refused(Rule::E2, span));
    };
    let Some(value) = at(held.elements(), place as usize) else {
        return Err(misfit());
    };
    Ok(Held {
        value: value.copy(alloc)?,
        outer: held.inner,
        inner: None,
    })
}

/// The first place of a range within bounds, where the range lies in them and goes the same way.
pub fn slice_start(bounds: Bounds, range: Bounds, span: Span) -> Result<u64, Fault> {
    if count(range) == 0 || range.down != bounds.down {
        return Err(refused(Rule::E4, span));
    }
    match (place_in(bounds, range.left), place_in(bounds, range.right)) {
        (Some(first), Some(_)) => Ok(first),
        _ => Err(refused(Rule::E2, span)),
    }
}

/// The elements in a range of indexes.
pub fn slice_of(alloc: Global, held: &Held, range: Bounds, span: Span) -> Result<Held, Fault> {
    let Some(bounds) = held.outer else {
        return Err(misfit());
    };
    let first = slice_start(bounds, range, span)?;
    let mut elements = Items::new(alloc);
    for (k, value) in held.elements().iter().enumerate() {
        let k = k as u64;
        if first <= k && k - first < count(range) {
            elements.push(value.copy(alloc)?)?;
        }
    }
    Ok(Held {
        value: Value::Array(elements),
        outer: Some(range),
        inner: held.inner,
    })
}

/// Whether each scalar of a value is in a range.
pub fn scalars_within(value: &Value, range: Bounds) -> bool {
    match value {
        Value::Int(n) => contains(range, *n),
        Value::Enum(position) => match i32::try_from(*position) {
            Ok(n) => contains(range, n),
            Err(_) => false,
        },
        Value::Bool(b) => contains(range, if *b { 1 } else { 0 }),
        Value::Logic(_) => true,
        Value::Array(xs) => {
            for x in xs.as_slice() {
                if !scalars_within(x, range) {
                    return false;
                }
            }
            true
        }
    }
}

/// The value as one of a shape: an array takes the bounds of the shape where it has some, and each scalar is in its range.
pub fn fitted(held: Held, shape: Shape, span: Span) -> Result<Held, Fault> {
    let Held {
        value,
        outer,
        inner,
    } = held;
    if !scalars_within(&value, shape.scalar) {
        return Err(refused(Rule::E2, span));
    }
    Ok(Held {
        value,
        outer: taken(outer, shape.outer, span)?,
        inner: taken(inner, shape.inner, span)?,
    })
}

/// The bounds that a value gets: those that are wanted, where it has as many elements.
fn taken(own: Option<Bounds>, wanted: Option<Bounds>, span: Span) -> Result<Option<Bounds>, Fault> {
    match (own, wanted) {
        (Some(a), Some(b)) => {
            if count(a) == count(b) {
                Ok(Some(b))
            } else {
                Err(refused(Rule::E5, span))
            }
        }
        _ => Ok(own),
    }
}

/// The value that an object of a shape has where none is written: each scalar has the left value of its range.
pub fn initial_of(alloc: Global, shape: Shape, span: Span) -> Result<Held, Fault> {
    let Some(scalar) = (match shape.base {
        BaseType::Logic => Some(Value::Logic(S9::U)),
        base => from_ordinal(base, shape.scalar.left),
    }) else {
        return Err(misfit());
    };
    let mut value = scalar;
    if let Some(bounds) = shape.inner {
        value = repeated(alloc, &value, bounds, span)?;
    }
    if let Some(bounds) = shape.outer {
        value = repeated(alloc, &value, bounds, span)?;
    }
    Ok(Held {
        value,
        outer: shape.outer,
        inner: shape.inner,
    })
}

/// An array that has one value at each index.
fn repeated(alloc: Global, value: &Value, bounds: Bounds, span: Span) -> Result<Value, Fault> {
    let n = count(bounds);
    if n == 0 {
        return Err(refused(Rule::E4, span));
    }
    if n > 4096 {
        return Err(refused(Rule::E8, span));
    }
    let mut elements = Items::new(alloc);
    for _ in 0..n {
        elements.push(value.copy(alloc)?)?;
    }
    Ok(Value::Array(elements))
}
