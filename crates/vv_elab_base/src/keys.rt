//! What tells two elaborations of one thing apart.

use sqlite_items::at;
use vv_held::{Held, Shape as Extent};
use vv_types::Value;

/// A parameter of an elaborated function: its value where that is static, or its subtype.
#[derive(Drop)]
pub enum KeyPart {
    Held(Held),
    Extent(Extent),
}

/// Whether two values are the same.
pub fn is_same_value(a: &Value, b: &Value) -> bool {
    match (a, b) {
        (Value::Logic(x), Value::Logic(y)) => x == y,
        (Value::Bool(x), Value::Bool(y)) => x == y,
        (Value::Int(x), Value::Int(y)) => x == y,
        (Value::Enum(x), Value::Enum(y)) => x == y,
        (Value::Array(xs), Value::Array(ys)) => {
            let ys = ys.as_slice();
            if xs.len() != ys.len() {
                return false;
            }
            for (k, x) in xs.as_slice().iter().enumerate() {
                match at(ys, k) {
                    Some(y) => {
                        if !is_same_value(x, y) {
                            return false;
                        }
                    }
                    None => return false,
                }
            }
            true
        }
        _ => false,
    }
}

/// Whether two values are the same, with their bounds.
pub fn is_same_held(a: &Held, b: &Held) -> bool {
    a.outer == b.outer && a.inner == b.inner && is_same_value(&a.value, &b.value)
}

fn is_same_part(a: &KeyPart, b: &KeyPart) -> bool {
    match (a, b) {
        (KeyPart::Held(x), KeyPart::Held(y)) => is_same_held(x, y),
        (KeyPart::Extent(x), KeyPart::Extent(y)) => x == y,
        _ => false,
    }
}

/// Whether two keys are the same.
pub fn is_same_key(a: &[KeyPart], b: &[KeyPart]) -> bool {
    if a.len() != b.len() {
        return false;
    }
    for (k, x) in a.iter().enumerate() {
        match at(b, k) {
            Some(y) => {
                if !is_same_part(x, y) {
                    return false;
                }
            }
            None => return false,
        }
    }
    true
}
