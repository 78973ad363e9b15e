//! Values of VHDL expressions.

ghost use Rattle.std.specs.Prelude.{◌≡◌, IfOk};

use sqlite_items::Items;
use std::alloc::Global;
use vv_base::fault::Memory;
use vv_bits::S9;

/// A value. An integer has its number, an enumeration value its position from 0, and an array its elements from the left.
#[derive(Drop)]
pub enum Value {
    Logic(S9),
    Bool(bool),
    Int(i32),
    Enum(u32),
    Array(ValueList),
}

pub type ValueList = Items<Value>;

impl Value {
    /// A copy of the value.
    pub fn copy(&self, alloc: Global) -> Result<Value, Memory>
        ensures { IfOk result (λ v. v ≡ self.now) }
    {
        match self {
            Value::Logic(x) => Ok(Value::Logic(*x)),
            Value::Bool(x) => Ok(Value::Bool(*x)),
            Value::Int(x) => Ok(Value::Int(*x)),
            Value::Enum(position) => Ok(Value::Enum(*position)),
            Value::Array(xs) => {
                let mut copies = Items::new(alloc);
                for x in xs.as_slice() {
                    copies.push(x.copy(alloc)?)?;
                }
                Ok(Value::Array(copies))
            }
        }
    }
}
