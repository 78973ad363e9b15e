//! Concatenation.

ghost use Rattle.std.specs.Prelude.{◌≡◌, ◌++◌, IfOk, OnOk};
ghost use Rattle.vv_std_values.specs.Rows.{array, brought};

use sqlite_items::Items;
use std::alloc::Global;
use vv_base::fault::Memory;
use vv_types::{Value, ValueList};

/// What an operand of `&` brings: the elements of an array, or itself as one element.
#[derive(Clone, Copy)]
pub enum Part {
    Elements,
    Element,
}

/// Appends what an operand brings.
fn append(alloc: Global, part: Part, a: &Value, list: &mut ValueList) -> Result<(), Memory>
    ensures { OnOk result (list.new ≡ list.old ++ brought part a.now) }
{
    match (part, a) {
        (Part::Element, _) => list.push(a.copy(alloc)?)?,
        (Part::Elements, Value::Array(xs)) => {
            for x in xs.as_slice() {
                list.push(x.copy(alloc)?)?;
            }
        }
        (Part::Elements, _) => {}
    }
    Ok(())
}

/// What both operands bring, the left one first.
pub fn concatenated(
    alloc: Global,
    left: Part,
    a: &Value,
    right: Part,
    b: &Value,
) -> Result<Value, Memory>
    ensures { IfOk result (λ v. v ≡ array (brought left a.now ++ brought right b.now)) }
{
    let mut elements = Items::new(alloc);
    append(alloc, left, a, &mut elements)?;
    append(alloc, right, b, &mut elements)?;
    Ok(Value::Array(elements))
}
