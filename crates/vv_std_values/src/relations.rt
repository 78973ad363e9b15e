//! Equality and order of values.

ghost use Rattle.std.specs.Prelude.{◌≡◌};
ghost use Rattle.vv_std_values.specs.Equality.{same_value};
ghost use Rattle.vv_std_values.specs.Rows.{rank};

use vv_types::Value;

/// Whether two values are the same.
pub fn equal(a: &Value, b: &Value) -> bool
    ensures { result ≡ same_value a.now b.now }
{
    match (a, b) {
        (Value::Logic(x), Value::Logic(y)) => x == y,
        (Value::Bool(x), Value::Bool(y)) => x == y,
        (Value::Int(x), Value::Int(y)) => x == y,
        (Value::Enum(x), Value::Enum(y)) => x == y,
        (Value::Array(xs), Value::Array(ys)) => {
            let (xs, ys) = (xs.as_slice(), ys.as_slice());
            if xs.len() != ys.len() {
                return false;
            }
            for (i, x) in xs.iter().enumerate() {
                if !equal(x, &ys[i]) {
                    return false;
                }
            }
            true
        }
        _ => false,
    }
}

/// The number by which a value is ordered.
pub fn rank(a: &Value) -> i64
    ensures { result ≡ rank a.now }
{
    match a {
        Value::Bool(x) => *x as i64,
        Value::Int(x) => *x as i64,
        Value::Enum(position) => *position as i64,
        _ => 0,
    }
}
