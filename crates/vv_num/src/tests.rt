use crate::{Outcome, num_in, num_value};
use std::alloc::Global;
use std::test::Fail;
use vv_base::fault::Memory;
use vv_bits::S9;
use vv_types::{Cells, NumFn, Place, Value, ValueList};

/// An operand. A vector is written by its letters.
#[derive(Clone, Copy)]
enum Sample {
    Number(i32),
    Vector(&'static str),
    Nothing,
}

use Sample::{Nothing, Number, Vector};

const LETTERS: [char; 9] = ['U', 'X', '0', '1', 'Z', 'W', 'L', 'H', '-'];

fn element(letter: char) -> Value {
    Value::Logic(match letter {
        'U' => S9::U,
        'X' => S9::X,
        '0' => S9::Zero,
        '1' => S9::One,
        'Z' => S9::Z,
        'W' => S9::W,
        'L' => S9::L,
        'H' => S9::H,
        _ => S9::Dash,
    })
}

fn put(alloc: Global, sample: Sample, args: &mut Vec<Value>) -> Result<(), Memory> {
    match sample {
        Number(n) => args.push(Value::Int(n))?,
        Vector(letters) => {
            let mut elements = ValueList::new(alloc);
            for letter in letters.chars() {
                elements.push(element(letter))?;
            }
            args.push(Value::Array(elements))?;
        }
        Nothing => {}
    }
    Ok(())
}

/// A value as text: a truth value as T or F, and the elements of a vector from the left.
fn show(alloc: Global, value: &Value, into: &mut String) -> Result<(), Memory> {
    match value {
        Value::Logic(x) => into.push(LETTERS[*x as usize])?,
        Value::Bool(x) => into.push(if *x { 'T' } else { 'F' })?,
        Value::Int(n) => into.push_str(format!(in alloc; "{n}")?.as_str())?,
        Value::Array(xs) => {
            for x in xs.as_slice() {
                show(alloc, x, into)?;
            }
        }
        Value::Enum(_) => into.push('?')?,
    }
    Ok(())
}

fn answer(alloc: Global, f: NumFn, a: Sample, b: Sample) -> Result<String, Memory> {
    let mut args = Vec::new(alloc);
    put(alloc, a, &mut args)?;
    put(alloc, b, &mut args)?;
    let mut text = String::new(alloc);
    match num_value(alloc, f, &args)? {
        Outcome::Value(value) => show(alloc, &value, &mut text)?,
        Outcome::Range => text.push_str("Range")?,
    }
    Ok(text)
}

/// The tables of more operands are the input and the output of the program `numeric_rows`.
#[test]
fn values(rt: HostRuntime) -> Result<(), Fail> {
    let rows = [
        (NumFn::ResizeSigned, Vector("1011"), Number(6), "111011"),
        (NumFn::ResizeSigned, Vector("1011"), Number(3), "111"),
        (NumFn::AddUnsignedUnsigned, Vector("0X"), Vector("01"), "XX"),
        (
            NumFn::MultiplyUnsignedNatural,
            Vector("11"),
            Number(5),
            "0011",
        ),
        (NumFn::ToUnsigned, Number(10), Number(3), "010"),
        (NumFn::LessUnsignedNatural, Vector("11"), Number(7), "T"),
        (NumFn::LessUnsignedNatural, Vector("0X"), Number(3), "F"),
        (NumFn::NotEqualUnsignedNatural, Vector("0X"), Number(3), "T"),
        (NumFn::ShiftRightSigned, Vector("1000"), Number(2), "1110"),
        (NumFn::ToIntegerUnsigned, Vector("0X"), Nothing, "0"),
        (
            NumFn::ToIntegerUnsigned,
            Vector("11111111111111111111111111111111"),
            Nothing,
            "Range",
        ),
        (NumFn::AndUnsigned, Vector("11"), Vector("111"), "F"),
        (NumFn::ShiftLeftUnsigned, Vector("11"), Number(-1), "F"),
    ];
    for (f, a, b, text) in rows {
        let given = answer(rt.alloc(), f, a, b)?;
        assert_eq!(rt; given.as_str(), text, "{f:?}");
    }
    Ok(())
}

#[test]
fn cells(rt: HostRuntime) -> Result<(), Fail> {
    let mut cells = Cells::new(rt.alloc(), 8)?;
    cells.set(0, 3);
    cells.set(1, 2);
    cells.set(2, 3);
    let a = Place { first: 0, size: 2 };
    let b = Place { first: 2, size: 1 };
    let inside = num_in(
        NumFn::SubtractUnsignedNatural,
        &mut cells,
        a,
        b,
        Place { first: 4, size: 2 },
    );
    assert!(rt; inside);
    assert_eq!(rt; (cells.get(4), cells.get(5), cells.get(6)), (3, 3, 0));
    Ok(())
}
