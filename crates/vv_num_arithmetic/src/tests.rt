ghost use Rattle.std.specs.Prelude.{◌≡◌, ◌≤◌, length};
ghost use Rattle.vv_vectors.specs.Vectors.{LiesIn};
ghost use Rattle.vv_num_arithmetic.specs.Arithmetic.{size_of};

use crate::Operator::{self, Add, Multiply, Subtract};
use crate::VectorKind::{self, Signed, Unsigned};
use crate::laws::{results_have_their_numbers, rows_have_their_lengths};
use crate::{
    absolute, combine_number_with_vector, combine_vector_with_number, combine_vectors, negate,
};
use std::alloc::Global;
use std::test::Fail;
use vv_base::fault::Memory;
use vv_bits::S9;
use vv_types::{Cells, Place};
use vv_vectors::{bit, put_scalar, write_bit};

const LETTERS: [char; 9] = ['U', 'X', '0', '1', 'Z', 'W', 'L', 'H', '-'];

/// One call, with vectors by their letters.
#[derive(Clone, Copy)]
enum Call<'a> {
    Vectors(Operator, VectorKind, &'a [u8], &'a [u8]),
    WithNumber(Operator, VectorKind, &'a [u8], i32),
    NumberWith(Operator, VectorKind, i32, &'a [u8]),
    Absolute(&'a [u8]),
    Negate(&'a [u8]),
}

fn element(letter: u8) -> S9 {
    match letter {
        b'U' => S9::U,
        b'X' => S9::X,
        b'0' => S9::Zero,
        b'1' => S9::One,
        b'Z' => S9::Z,
        b'W' => S9::W,
        b'L' => S9::L,
        b'H' => S9::H,
        _ => S9::Dash,
    }
}

/// Puts up to 16 letters.
fn put_letters(cells: &mut Cells, first: u32, letters: &[u8]) -> Place
    requires cells { length cells.old ≡ 80 }
    requires first { first ≤ 16 }
    ensures cells { length cells.new ≡ 80 }
    ensures lies { LiesIn cells.new result }
    ensures few { result.size ≤ 16 }
{
    let size = letters.len().min(16) as u32;
    let place = Place { first, size };
    for k in 0..size {
        write_bit(cells, place, k, element(letters[k as usize]));
    }
    place
}

fn put_number(cells: &mut Cells, first: u32, number: i32) -> Place
    requires cells { length cells.old ≡ 80 }
    requires first { first ≤ 16 }
    ensures cells { length cells.new ≡ 80 }
    ensures lies { LiesIn cells.new result }
    ensures one { result.size ≡ 1 }
{
    let place = Place { first, size: 1 };
    put_scalar(cells, place, number);
    place
}

/// The place of a result.
fn result_place(operator: Operator, m: u32, n: u32) -> Place
    requires m { m ≤ 16 }
    requires n { n ≤ 16 }
    ensures first { result.first ≡ 40 }
    ensures size { result.size ≡ size_of operator m n }
    ensures few { result.size ≤ 32 }
{
    let size = match operator {
        Operator::Multiply => m + n,
        _ => m.max(n),
    };
    Place { first: 40, size }
}

fn read(alloc: Global, cells: &Cells, place: Place) -> Result<String, Memory>
    requires { LiesIn cells.now place }
{
    let mut text = String::new(alloc);
    for k in 0..place.size {
        text.push(LETTERS[bit(cells, place, k) as usize])?;
    }
    Ok(text)
}

/// The letters of a result.
fn result(alloc: Global, call: Call<'_>) -> Result<String, Memory> {
    let mut cells = Cells::new(alloc, 80)?;
    match call {
        Call::Vectors(operator, kind, a, b) => {
            let x = put_letters(&mut cells, 0, a);
            let y = put_letters(&mut cells, 16, b);
            let to = result_place(operator, x.size, y.size);
            combine_vectors(&mut cells, operator, kind, x, y, to);
            read(alloc, &cells, to)
        }
        Call::WithNumber(operator, kind, a, number) => {
            let x = put_letters(&mut cells, 0, a);
            let y = put_number(&mut cells, 16, number);
            let to = result_place(operator, x.size, x.size);
            combine_vector_with_number(&mut cells, operator, kind, x, y, to);
            read(alloc, &cells, to)
        }
        Call::NumberWith(operator, kind, number, b) => {
            let x = put_number(&mut cells, 0, number);
            let y = put_letters(&mut cells, 16, b);
            let to = result_place(operator, y.size, y.size);
            combine_number_with_vector(&mut cells, operator, kind, x, y, to);
            read(alloc, &cells, to)
        }
        Call::Absolute(a) => {
            let x = put_letters(&mut cells, 0, a);
            absolute(&mut cells, x, x);
            read(alloc, &cells, x)
        }
        Call::Negate(a) => {
            let x = put_letters(&mut cells, 0, a);
            negate(&mut cells, x, x);
            read(alloc, &cells, x)
        }
    }
}

#[test]
fn rows(rt: HostRuntime) -> Result<(), Fail> {
    let rows = [
        (Call::Vectors(Add, Unsigned, b"0X", b"01"), "XX"),
        (Call::Vectors(Add, Unsigned, b"11", b"001"), "100"),
        (Call::Vectors(Add, Unsigned, b"1111", b"0001"), "0000"),
        (Call::Vectors(Add, Unsigned, b"HL", b"01"), "11"),
        (Call::Vectors(Add, Signed, b"-0", b"001"), "XXX"),
        (Call::Vectors(Add, Signed, b"11", b"0001"), "0000"),
        (Call::Vectors(Add, Signed, b"011", b"001"), "100"),
        (Call::WithNumber(Add, Unsigned, b"U1", 1), "XX"),
        (Call::WithNumber(Add, Unsigned, b"11", 6), "01"),
        (Call::NumberWith(Add, Unsigned, 2147483647, b"010"), "001"),
        (Call::NumberWith(Add, Unsigned, 0, b"Z10"), "XXX"),
        (Call::WithNumber(Add, Signed, b"W", 0), "X"),
        (Call::WithNumber(Add, Signed, b"1000", -1), "0111"),
        (Call::NumberWith(Add, Signed, -2147483648, b"0110"), "0110"),
        (Call::NumberWith(Add, Signed, 7, b"1X"), "XX"),
        (Call::Vectors(Subtract, Unsigned, b"0", b"00X"), "XXX"),
        (Call::Vectors(Subtract, Unsigned, b"01", b"0010"), "1111"),
        (Call::Vectors(Subtract, Unsigned, b"101", b"11"), "010"),
        (Call::Vectors(Subtract, Signed, b"X", b"X"), "X"),
        (Call::Vectors(Subtract, Signed, b"10", b"0111"), "0111"),
        (Call::Vectors(Subtract, Signed, b"1000", b"01"), "0111"),
        (Call::WithNumber(Subtract, Unsigned, b"00-", 3), "XXX"),
        (Call::WithNumber(Subtract, Unsigned, b"001", 2), "111"),
        (Call::NumberWith(Subtract, Unsigned, 9, b"011"), "110"),
        (Call::NumberWith(Subtract, Unsigned, 9, b"U"), "X"),
        (Call::WithNumber(Subtract, Signed, b"0111", -1), "1000"),
        (Call::WithNumber(Subtract, Signed, b"0Z", -1), "XX"),
        (Call::NumberWith(Subtract, Signed, -8, b"0001"), "0111"),
        (Call::NumberWith(Subtract, Signed, 0, b"W0"), "XX"),
        (Call::Vectors(Multiply, Unsigned, b"1X", b"101"), "XXXXX"),
        (Call::Vectors(Multiply, Unsigned, b"11", b"101"), "01111"),
        (
            Call::Vectors(Multiply, Unsigned, b"1111", b"1111"),
            "11100001",
        ),
        (Call::Vectors(Multiply, Signed, b"1", b"0U"), "XXX"),
        (Call::Vectors(Multiply, Signed, b"11", b"101"), "00011"),
        (
            Call::Vectors(Multiply, Signed, b"1000", b"1000"),
            "01000000",
        ),
        (Call::WithNumber(Multiply, Unsigned, b"11", 5), "0011"),
        (Call::WithNumber(Multiply, Unsigned, b"X1", 0), "XXXX"),
        (Call::NumberWith(Multiply, Unsigned, 7, b"111"), "110001"),
        (Call::NumberWith(Multiply, Unsigned, 7, b"1--"), "XXXXXX"),
        (Call::WithNumber(Multiply, Signed, b"10", 3), "0010"),
        (Call::WithNumber(Multiply, Signed, b"1W", 3), "XXXX"),
        (Call::NumberWith(Multiply, Signed, -2, b"011"), "111010"),
        (Call::NumberWith(Multiply, Signed, -2, b"Z11"), "XXXXXX"),
        (Call::Absolute(b"1011"), "0101"),
        (Call::Absolute(b"0HL1"), "0101"),
        (Call::Absolute(b"1000"), "1000"),
        (Call::Absolute(b"1X00"), "XXXX"),
        (Call::Negate(b"0101"), "1011"),
        (Call::Negate(b"1000"), "1000"),
        (Call::Negate(b"000"), "000"),
        (Call::Negate(b"0-1"), "XXX"),
    ];
    for (call, want) in rows {
        let text = result(rt.alloc(), call)?;
        assert_eq!(rt; text.as_str(), want);
    }
    Ok(())
}

#[test]
fn laws(rt: HostRuntime) {
    rows_have_their_lengths();
    results_have_their_numbers();
}
