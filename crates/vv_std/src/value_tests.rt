use crate::{Gate, std_value};
use std::alloc::Global;
use std::test::Fail;
use vv_base::fault::Memory;
use vv_bits::S9;
use vv_types::{StdFn, Value, ValueList};

/// An operand of a row. A vector is written by its letters.
#[derive(Clone, Copy)]
enum Sample {
    Logic(char),
    Bool(bool),
    Int(i32),
    Enum(u32),
    Vector(&'static str),
}

use Sample::{Bool, Enum, Int, Logic, Vector};

const LETTERS: [char; 9] = ['U', 'X', '0', '1', 'Z', 'W', 'L', 'H', '-'];

fn logic(letter: char) -> Value {
    Value::Logic(match letter {
        'U' => S9::U,
        'X' => S9::X,
        '0' => S9::Zero,
        '1' => S9::One,
        'Z' => S9::Z,
        'W' => S9::W,
        'L' => S9::L,
        'H' => S9::H,
        _ => S9::Dash,
    })
}

fn value(alloc: Global, sample: Sample) -> Result<Value, Memory> {
    match sample {
        Logic(letter) => Ok(logic(letter)),
        Bool(x) => Ok(Value::Bool(x)),
        Int(x) => Ok(Value::Int(x)),
        Enum(position) => Ok(Value::Enum(position)),
        Vector(letters) => {
            let mut elements = ValueList::new(alloc);
            for letter in letters.chars() {
                elements.push(logic(letter))?;
            }
            Ok(Value::Array(elements))
        }
    }
}

/// A value as text: a truth value as T or F, and the elements of an array from the left.
fn show(value: &Value, into: &mut String) -> Result<(), Memory> {
    match value {
        Value::Logic(x) => into.push(LETTERS[*x as usize])?,
        Value::Bool(x) => into.push(if *x { 'T' } else { 'F' })?,
        Value::Array(xs) => {
            for x in xs.as_slice() {
                show(x, into)?;
            }
        }
        _ => into.push('?')?,
    }
    Ok(())
}

fn answer(alloc: Global, f: StdFn, args: &[Value]) -> Result<String, Memory> {
    let mut text = String::new(alloc);
    show(&std_value(alloc, f, args)?, &mut text)?;
    Ok(text)
}

#[test]
fn relations(rt: HostRuntime) -> Result<(), Fail> {
    let rows = [
        (StdFn::EqualLogic, Logic('Z'), Logic('Z'), "T"),
        (StdFn::EqualLogic, Logic('0'), Logic('L'), "F"),
        (StdFn::EqualBool, Bool(false), Bool(false), "T"),
        (StdFn::EqualInt, Int(-2147483648), Int(2147483647), "F"),
        (StdFn::EqualEnum, Enum(4294967295), Enum(4294967295), "T"),
        (StdFn::EqualArray, Vector("01X"), Vector("01X"), "T"),
        (StdFn::EqualArray, Vector("01X"), Vector("01U"), "F"),
        (StdFn::EqualArray, Vector("01"), Vector("010"), "F"),
        (StdFn::NotEqualLogic, Logic('U'), Logic('X'), "T"),
        (StdFn::NotEqualBool, Bool(true), Bool(true), "F"),
        (StdFn::NotEqualInt, Int(-2147483648), Int(2147483647), "T"),
        (StdFn::NotEqualEnum, Enum(4294967295), Enum(4294967295), "F"),
        (StdFn::NotEqualArray, Vector("0"), Vector("00"), "T"),
        (StdFn::LessBool, Bool(false), Bool(true), "T"),
        (StdFn::LessBool, Bool(true), Bool(true), "F"),
        (StdFn::LessInt, Int(-2147483648), Int(2147483647), "T"),
        (StdFn::LessEnum, Enum(4294967295), Enum(0), "F"),
        (StdFn::LessEqualBool, Bool(true), Bool(false), "F"),
        (StdFn::LessEqualInt, Int(2147483647), Int(2147483647), "T"),
        (
            StdFn::LessEqualEnum,
            Enum(4294967295),
            Enum(4294967294),
            "F",
        ),
        (StdFn::GreaterBool, Bool(true), Bool(false), "T"),
        (StdFn::GreaterInt, Int(-2147483648), Int(-2147483648), "F"),
        (StdFn::GreaterEnum, Enum(4294967295), Enum(0), "T"),
        (StdFn::GreaterEqualBool, Bool(false), Bool(true), "F"),
        (
            StdFn::GreaterEqualInt,
            Int(2147483647),
            Int(-2147483648),
            "T",
        ),
        (StdFn::GreaterEqualEnum, Enum(0), Enum(4294967295), "F"),
    ];
    let alloc = rt.alloc();
    for (f, a, b, text) in rows {
        let given = answer(alloc, f, &[value(alloc, a)?, value(alloc, b)?])?;
        assert_eq!(rt; given.as_str(), text, "{f:?}");
    }
    Ok(())
}

#[test]
fn logic_and_concatenation(rt: HostRuntime) -> Result<(), Fail> {
    let rows = [
        (StdFn::AndBool, Bool(true), Bool(false), "F"),
        (StdFn::OrBool, Bool(true), Bool(false), "T"),
        (StdFn::XorBool, Bool(true), Bool(true), "F"),
        (StdFn::NandBool, Bool(true), Bool(true), "F"),
        (StdFn::NorBool, Bool(false), Bool(false), "T"),
        (StdFn::XnorBool, Bool(false), Bool(true), "F"),
        (StdFn::AndLogic, Logic('U'), Logic('L'), "0"),
        (StdFn::OrLogic, Logic('Z'), Logic('0'), "X"),
        (StdFn::XorLogic, Logic('H'), Logic('0'), "1"),
        (StdFn::NandLogic, Logic('1'), Logic('-'), "X"),
        (StdFn::NorLogic, Logic('U'), Logic('X'), "U"),
        (StdFn::XnorLogic, Logic('W'), Logic('U'), "U"),
        (StdFn::AndVector, Vector("01UX"), Vector("U1ZH"), "01UX"),
        (StdFn::OrVector, Vector("01UX"), Vector("U1ZH"), "U1U1"),
        (StdFn::XorVector, Vector("0011"), Vector("01LZ"), "011X"),
        (
            StdFn::NandVector,
            Vector("0011UX"),
            Vector("0101ZU"),
            "1110UU",
        ),
        (
            StdFn::NorVector,
            Vector("0011UZ"),
            Vector("01010H"),
            "1000U0",
        ),
        (
            StdFn::XnorVector,
            Vector("0011UW"),
            Vector("01011L"),
            "1001UX",
        ),
        (StdFn::ConcatenateArrays, Vector("01"), Vector("X"), "01X"),
        (
            StdFn::ConcatenateArrayElement,
            Vector("01"),
            Logic('Z'),
            "01Z",
        ),
        (
            StdFn::ConcatenateElementArray,
            Logic('Z'),
            Vector("01"),
            "Z01",
        ),
        (StdFn::ConcatenateElements, Logic('L'), Logic('-'), "L-"),
    ];
    let alloc = rt.alloc();
    for (f, a, b, text) in rows {
        let given = answer(alloc, f, &[value(alloc, a)?, value(alloc, b)?])?;
        assert_eq!(rt; given.as_str(), text, "{f:?}");
    }
    let rows = [
        (StdFn::NotBool, Bool(false), "T"),
        (StdFn::NotLogic, Logic('W'), "X"),
        (StdFn::NotVector, Vector("UX01ZWLH-"), "UX10XX10X"),
    ];
    for (f, a, text) in rows {
        let given = answer(alloc, f, &[value(alloc, a)?])?;
        assert_eq!(rt; given.as_str(), text, "{f:?}");
    }
    Ok(())
}

#[test]
fn gates(rt: HostRuntime) -> Result<(), Fail> {
    let rows = [
        (Gate::And, true, false, S9::H, S9::Z, S9::X),
        (Gate::Or, true, true, S9::L, S9::H, S9::One),
        (Gate::Xor, false, true, S9::One, S9::H, S9::Zero),
        (Gate::Nand, false, true, S9::L, S9::U, S9::One),
        (Gate::Nor, false, false, S9::L, S9::Zero, S9::One),
        (Gate::Xnor, true, false, S9::One, S9::H, S9::One),
    ];
    for (gate, of_both, of_one, a, b, wanted) in rows {
        assert_eq!(rt; gate.of_booleans(true, true), of_both);
        assert_eq!(rt; gate.of_booleans(false, true), of_one);
        assert_eq!(rt; gate.of_logics(a, b), wanted);
    }
    Ok(())
}
