//! Logical operators on booleans, on `std_ulogic` and on vectors.

ghost use Rattle.std.specs.Prelude.{◌≡◌, IfOk, not};
ghost use Rattle.vv_std_values.specs.Equality.{same_bool};
ghost use Rattle.vv_std_values.specs.Rows.{boolean_row, logic_row, vector_row, boolean_rule, logic_rule, row_of_one, no_row};
ghost use Rattle.vv_types.specs.declared.standard.StdFn.TheVariants.{NotBool, NotLogic, NotVector};

use sqlite_items::{Items, at};
use std::alloc::Global;
use vv_base::fault::Memory;
use vv_bits::{S9, and9, nand9, nor9, not9, or9, xnor9, xor9};
use vv_types::Value;

/// A logical operator of two operands.
#[derive(Clone, Copy)]
pub enum Gate {
    And,
    Or,
    Xor,
    Nand,
    Nor,
    Xnor,
}

impl Gate {
    /// What the operator gives for two truth values.
    pub fn of_booleans(self, x: bool, y: bool) -> bool
        ensures { result ≡ boolean_rule self x y }
    {
        match self {
            Gate::And => x && y,
            Gate::Or => x || y,
            Gate::Xor => x != y,
            Gate::Nand => !(x && y),
            Gate::Nor => !(x || y),
            Gate::Xnor => x == y,
        }
    }

    /// What the operator gives for two values of `std_ulogic`.
    pub fn of_logics(self, x: S9, y: S9) -> S9
        ensures { result ≡ logic_rule self x y }
    {
        match self {
            Gate::And => and9(x, y),
            Gate::Or => or9(x, y),
            Gate::Xor => xor9(x, y),
            Gate::Nand => nand9(x, y),
            Gate::Nor => nor9(x, y),
            Gate::Xnor => xnor9(x, y),
        }
    }
}

/// The answer for operands that an operator does not have.
pub fn no_row() -> Value
    ensures { result ≡ no_row }
{
    Value::Bool(false)
}

pub fn booleans(gate: Gate, a: &Value, b: &Value) -> Value
    ensures { result ≡ boolean_row gate a.now b.now }
{
    match (a, b) {
        (Value::Bool(x), Value::Bool(y)) => Value::Bool(gate.of_booleans(*x, *y)),
        _ => no_row(),
    }
}

pub fn logics(gate: Gate, a: &Value, b: &Value) -> Value
    ensures { result ≡ logic_row gate a.now b.now }
{
    match (a, b) {
        (Value::Logic(x), Value::Logic(y)) => Value::Logic(gate.of_logics(*x, *y)),
        _ => no_row(),
    }
}

pub fn vectors(alloc: Global, gate: Gate, a: &Value, b: &Value) -> Result<Value, Memory>
    ensures { IfOk result (λ v. v ≡ vector_row gate a.now b.now) }
{
    match (a, b) {
        (Value::Array(xs), Value::Array(ys)) => {
            let mut elements = Items::new(alloc);
            for (i, x) in xs.as_slice().iter().enumerate() {
                if let Some(y) = at(ys.as_slice(), i) {
                    elements.push(logics(gate, x, y))?;
                }
            }
            Ok(Value::Array(elements))
        }
        _ => Ok(no_row()),
    }
}

pub fn not_boolean(a: &Value) -> Value
    ensures { result ≡ row_of_one NotBool a.now }
{
    match a {
        Value::Bool(x) => Value::Bool(!*x),
        _ => no_row(),
    }
}

pub fn not_logic(a: &Value) -> Value
    ensures { result ≡ row_of_one NotLogic a.now }
{
    match a {
        Value::Logic(x) => Value::Logic(not9(*x)),
        _ => no_row(),
    }
}

pub fn not_vector(alloc: Global, a: &Value) -> Result<Value, Memory>
    ensures { IfOk result (λ v. v ≡ row_of_one NotVector a.now) }
{
    match a {
        Value::Array(xs) => {
            let mut elements = Items::new(alloc);
            for x in xs.as_slice() {
                elements.push(not_logic(x))?;
            }
            Ok(Value::Array(elements))
        }
        _ => Ok(no_row()),
    }
}
