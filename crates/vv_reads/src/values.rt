//! Scalars of values, and the values that sources start with.

use vv_bits::S9;
use vv_design::{Design, Origin, Scalar, Shape, Source};
use vv_types::Value;

/// Whether a shape is that of one `std_ulogic`.
pub fn is_logic(shape: Shape) -> bool {
    shape == Shape::Scalar(Scalar::Logic)
}

/// How many scalars a value has.
fn size(value: &Value) -> usize {
    match value {
        Value::Array(xs) => match xs.get(0) {
            Some(x) => xs.len().saturating_mul(size(x)),
            None => 0,
        },
        _ => 1,
    }
}

/// The scalar with this number, from the left, of a value.
pub fn scalar_of(value: &Value, at: usize) -> Option<&Value> {
    match value {
        Value::Array(xs) => {
            let width = match xs.get(0) {
                Some(x) => size(x),
                None => 0,
            };
            if width == 0 {
                return None;
            }
            let x = xs.get(at / width)?;
            scalar_of(x, at % width)
        }
        _ => if at == 0 { Some(value) } else { None },
    }
}

/// The logic value with which a source of an element starts.
pub fn start_of(design: &Design, source: &Source, elem: u32) -> Option<S9> {
    let value = match &source.from {
        Origin::Driver { proc: _, net } => {
            let net = design.nets.get(*net as usize)?;
            scalar_of(&net.initial, elem.checked_sub(net.first)? as usize)?
        }
        Origin::Constant { net: _, values } => {
            values.get(elem.checked_sub(source.run.first)? as usize)?
        }
    };
    match value {
        Value::Logic(x) => Some(*x),
        _ => None,
    }
}
