//! The values of the operators.

ghost use Rattle.std.specs.Prelude.{◌≡◌, IfOk};
ghost use Rattle.vv_std_values.specs.Rows.{std_row, row_of_one, row_of_two, relation_row};

use crate::arrays::{Part, concatenated};
use crate::gates::{Gate, booleans, logics, no_row, not_boolean, not_logic, not_vector, vectors};
use crate::relations::{equal, rank};
use std::alloc::Global;
use vv_base::fault::Memory;
use vv_types::{StdFn, Value};

/// The value of an operator for its operands from the left. Operands that the operator does not have give FALSE.
pub fn std_value(alloc: Global, f: StdFn, args: &[Value]) -> Result<Value, Memory>
    ensures { IfOk result (λ v. v ≡ std_row f args.now) }
{
    match args {
        [a] => of_one(alloc, f, a),
        [a, b] => of_two(alloc, f, a, b),
        _ => Ok(no_row()),
    }
}

fn of_one(alloc: Global, f: StdFn, a: &Value) -> Result<Value, Memory>
    ensures { IfOk result (λ v. v ≡ row_of_one f a.now) }
{
    match f {
        StdFn::NotBool => Ok(not_boolean(a)),
        StdFn::NotLogic => Ok(not_logic(a)),
        StdFn::NotVector => not_vector(alloc, a),
        _ => Ok(no_row()),
    }
}

fn of_two(alloc: Global, f: StdFn, a: &Value, b: &Value) -> Result<Value, Memory>
    ensures { IfOk result (λ v. v ≡ row_of_two f a.now b.now) }
{
    match f {
        StdFn::AndBool => Ok(booleans(Gate::And, a, b)),
        StdFn::OrBool => Ok(booleans(Gate::Or, a, b)),
        StdFn::XorBool => Ok(booleans(Gate::Xor, a, b)),
        StdFn::NandBool => Ok(booleans(Gate::Nand, a, b)),
        StdFn::NorBool => Ok(booleans(Gate::Nor, a, b)),
        StdFn::XnorBool => Ok(booleans(Gate::Xnor, a, b)),
        StdFn::AndLogic => Ok(logics(Gate::And, a, b)),
        StdFn::OrLogic => Ok(logics(Gate::Or, a, b)),
        StdFn::XorLogic => Ok(logics(Gate::Xor, a, b)),
        StdFn::NandLogic => Ok(logics(Gate::Nand, a, b)),
        StdFn::NorLogic => Ok(logics(Gate::Nor, a, b)),
        StdFn::XnorLogic => Ok(logics(Gate::Xnor, a, b)),
        StdFn::AndVector => vectors(alloc, Gate::And, a, b),
        StdFn::OrVector => vectors(alloc, Gate::Or, a, b),
        StdFn::XorVector => vectors(alloc, Gate::Xor, a, b),
        StdFn::NandVector => vectors(alloc, Gate::Nand, a, b),
        StdFn::NorVector => vectors(alloc, Gate::Nor, a, b),
        StdFn::XnorVector => vectors(alloc, Gate::Xnor, a, b),
        StdFn::ConcatenateArrays => concatenated(alloc, Part::Elements, a, Part::Elements, b),
        StdFn::ConcatenateArrayElement => concatenated(alloc, Part::Elements, a, Part::Element, b),
        StdFn::ConcatenateElementArray => concatenated(alloc, Part::Element, a, Part::Elements, b),
        StdFn::ConcatenateElements => concatenated(alloc, Part::Element, a, Part::Element, b),
        _ => Ok(Value::Bool(relation(f, a, b))),
    }
}

/// The relation that an operator stands for. An operator that is no relation gives false.
fn relation(f: StdFn, a: &Value, b: &Value) -> bool
    ensures { result ≡ relation_row f a.now b.now }
{
    match f {
        StdFn::EqualLogic
        | StdFn::EqualBool
        | StdFn::EqualInt
        | StdFn::EqualEnum
        | StdFn::EqualArray => equal(a, b),
        StdFn::NotEqualLogic
        | StdFn::NotEqualBool
        | StdFn::NotEqualInt
        | StdFn::NotEqualEnum
        | StdFn::NotEqualArray => !equal(a, b),
        StdFn::LessBool | StdFn::LessInt | StdFn::LessEnum => rank(a) < rank(b),
        StdFn::LessEqualBool | StdFn::LessEqualInt | StdFn::LessEqualEnum => rank(a) <= rank(b),
        StdFn::GreaterBool | StdFn::GreaterInt | StdFn::GreaterEnum => rank(a) > rank(b),
        StdFn::GreaterEqualBool | StdFn::GreaterEqualInt | StdFn::GreaterEqualEnum => rank(a)
            >= rank(b),
        _ => false,
    }
}
