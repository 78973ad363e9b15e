ghost use Rattle.std.specs.Prelude.{◌≡◌, ◌≤◌, IfOk, length};
ghost use Rattle.vv_vectors.specs.Vectors.{LiesIn};

use crate::{
    Gate, Operand, Relation, combine, compare, invert, resize_signed, resize_unsigned, rotate_left,
    rotate_right, shift_left, shift_right_signed, shift_right_unsigned, to_integer, to_vector,
};
use std::alloc::Global;
use std::test::Fail;
use vv_base::fault::Memory;
use vv_bits::S9;
use vv_types::{Cells, Place};
use vv_vectors::{bit, put_scalar, scalar, write_bit};

const LETTERS: [char; 9] = ['U', 'X', '0', '1', 'Z', 'W', 'L', 'H', '-'];

/// The place of the number, between those of the vectors and that of the answer.
const NUMBER: Place = Place {
    first: 128,
    size: 1,
};

fn nine(letter: u8) -> S9 {
    match letter {
        b'U' => S9::U,
        b'X' => S9::X,
        b'0' => S9::Zero,
        b'1' => S9::One,
        b'Z' => S9::Z,
        b'W' => S9::W,
        b'L' => S9::L,
        b'H' => S9::H,
        _ => S9::Dash,
    }
}

fn put(cells: &mut Cells, to: Place, text: &[u8])
    requires lies { LiesIn cells.old to }
    requires size { length text.now ≡ to.size }
    ensures { length cells.new ≡ length cells.old }
{
    for k in 0..to.size {
        write_bit(cells, to, k, nine(text[k as usize]));
    }
}

fn text(alloc: Global, cells: &Cells, place: Place) -> Result<String, Memory>
    requires { LiesIn cells.now place }
{
    let mut text = String::new(alloc);
    for k in 0..place.size {
        text.push(LETTERS[bit(cells, place, k) as usize])?;
    }
    Ok(text)
}

/// Cells with vectors from cell 0 and from cell 64 on, and with a number.
fn filled(alloc: Global, a: &[u8], b: &[u8], n: i32) -> Result<Cells, Memory>
    requires a { length a.now ≤ 64 }
    requires b { length b.now ≤ 64 }
    ensures { IfOk result (λ cells. length cells ≡ 256) }
{
    let mut cells = Cells::new(alloc, 256)?;
    put(
        &mut cells,
        Place {
            first: 0,
            size: a.len() as u32,
        },
        a,
    );
    put(
        &mut cells,
        Place {
            first: 64,
            size: b.len() as u32,
        },
        b,
    );
    put_scalar(&mut cells, NUMBER, n);
    Ok(cells)
}

/// The forms of a relation's operands.
#[derive(Clone, Copy, Debug)]
enum Forms {
    Unsigned,
    Signed,
    UnsignedNumber,
    NumberUnsigned,
    SignedNumber,
    NumberSigned,
}

#[test]
fn relations(rt: HostRuntime) -> Result<(), Fail> {
    let rows = [
        (Relation::Less, Forms::Unsigned, "11", "0111", 0, true),
        (Relation::Less, Forms::Unsigned, "0X", "11", 0, false),
        (Relation::NotEqual, Forms::Unsigned, "0X", "11", 0, true),
        (Relation::Equal, Forms::Unsigned, "00HL", "10", 0, true),
        (
            Relation::GreaterEqual,
            Forms::Unsigned,
            "111",
            "0110",
            0,
            true,
        ),
        (Relation::Less, Forms::Signed, "100", "1", 0, true),
        (Relation::Equal, Forms::Signed, "1101", "101", 0, true),
        (Relation::Greater, Forms::Signed, "01", "1000", 0, true),
        (Relation::LessEqual, Forms::Signed, "U1", "01", 0, false),
        (Relation::Less, Forms::UnsignedNumber, "11", "", 7, true),
        (Relation::Less, Forms::UnsignedNumber, "0X", "", 3, false),
        (Relation::NotEqual, Forms::UnsignedNumber, "0X", "", 3, true),
        (Relation::Equal, Forms::UnsignedNumber, "0011", "", 3, true),
        (
            Relation::Greater,
            Forms::NumberUnsigned,
            "1111",
            "",
            2147483647,
            true,
        ),
        (
            Relation::LessEqual,
            Forms::NumberUnsigned,
            "0101",
            "",
            5,
            true,
        ),
        (Relation::Equal, Forms::SignedNumber, "1111", "", -1, true),
        (
            Relation::Greater,
            Forms::SignedNumber,
            "10",
            "",
            -2147483648,
            true,
        ),
        (Relation::Less, Forms::NumberSigned, "0", "", -1, true),
        (
            Relation::GreaterEqual,
            Forms::NumberSigned,
            "-1",
            "",
            0,
            false,
        ),
    ];
    for (relation, forms, first, second, n, want) in rows {
        let (first, second) = (first.as_bytes(), second.as_bytes());
        assert!(rt; first.len() <= 64 && second.len() <= 64);
        let mut cells = filled(rt.alloc(), first, second, n)?;
        let a = Place {
            first: 0,
            size: first.len() as u32,
        };
        let b = Place {
            first: 64,
            size: second.len() as u32,
        };
        let (x, y) = match forms {
            Forms::Unsigned => (Operand::Unsigned(a), Operand::Unsigned(b)),
            Forms::Signed => (Operand::Signed(a), Operand::Signed(b)),
            Forms::UnsignedNumber => (Operand::Unsigned(a), Operand::Number(NUMBER)),
            Forms::NumberUnsigned => (Operand::Number(NUMBER), Operand::Unsigned(a)),
            Forms::SignedNumber => (Operand::Signed(a), Operand::Number(NUMBER)),
            Forms::NumberSigned => (Operand::Number(NUMBER), Operand::Signed(a)),
        };
        let to = Place {
            first: 129,
            size: 1,
        };
        compare(&mut cells, relation, x, y, to);
        assert_eq!(rt;
            scalar(&cells, to),
            i32::from(want),
            "{relation:?} {forms:?}"
        );
    }
    Ok(())
}

#[test]
fn gates(rt: HostRuntime) -> Result<(), Fail> {
    let rows = [
        (Gate::And, "01HLX", "11H10", "01100"),
        (Gate::Or, "01ZUX", "0X1L1", "011U1"),
        (Gate::Xor, "0011U", "01X1X", "01X0U"),
        (Gate::Nand, "0H1-", "X111", "100X"),
        (Gate::Nor, "0L1W", "00X0", "110X"),
        (Gate::Xnor, "001U", "0101", "100U"),
    ];
    for (gate, first, second, want) in rows {
        let (first, second) = (first.as_bytes(), second.as_bytes());
        assert!(rt; first.len() <= 64 && second.len() == first.len());
        let mut cells = filled(rt.alloc(), first, second, 0)?;
        let size = first.len() as u32;
        let a = Place { first: 0, size };
        let b = Place { first: 64, size };
        let to = Place { first: 129, size };
        combine(&mut cells, gate, a, b, to);
        assert_eq!(rt; text(rt.alloc(), &cells, to)?.as_str(), want, "{gate:?}");
    }
    Ok(())
}

#[derive(Clone, Copy, Debug)]
enum Move {
    Invert,
    ShiftLeft,
    ShiftRightUnsigned,
    ShiftRightSigned,
    RotateLeft,
    RotateRight,
    ResizeUnsigned,
    ResizeSigned,
    ToVector,
}

/// What a vector is moved to, where the count or the number and the new length are given.
fn moved(alloc: Global, call: Move, vector: &[u8], n: i32, size: u32) -> Result<String, Memory>
    requires vector { length vector.now ≤ 64 }
    requires size { size ≤ 64 }
{
    let mut cells = filled(alloc, vector, &[], n)?;
    let to = Place { first: 129, size };
    let a = Place {
        first: 0,
        size: vector.len() as u32,
    };
    let natural = scalar(&cells, NUMBER) >= 0;
    let same = a.size == size;
    match call {
        Move::Invert if same => invert(&mut cells, a, to),
        Move::ShiftLeft if same && natural => shift_left(&mut cells, a, NUMBER, to),
        Move::ShiftRightUnsigned if same && natural => shift_right_unsigned(
            &mut cells, a, NUMBER, to,
        ),
        Move::ShiftRightSigned if same && natural => shift_right_signed(&mut cells, a, NUMBER, to),
        Move::RotateLeft if same && natural => rotate_left(&mut cells, a, NUMBER, to),
        Move::RotateRight if same && natural => rotate_right(&mut cells, a, NUMBER, to),
        Move::ResizeUnsigned => resize_unsigned(&mut cells, a, to),
        Move::ResizeSigned => resize_signed(&mut cells, a, to),
        Move::ToVector => to_vector(&mut cells, NUMBER, to),
        _ => {}
    }
    text(alloc, &cells, to)
}

#[test]
fn moves(rt: HostRuntime) -> Result<(), Fail> {
    let rows = [
        (Move::Invert, "01LHUX-", 0, 7, "1010UXX"),
        (Move::ShiftLeft, "1X01", 1, 4, "X010"),
        (Move::ShiftLeft, "1X01", 4, 4, "0000"),
        (Move::ShiftLeft, "11", 2147483647, 2, "00"),
        (Move::ShiftRightUnsigned, "1X0H", 2, 4, "001X"),
        (Move::ShiftRightUnsigned, "1X0H", 0, 4, "1X0H"),
        (Move::ShiftRightSigned, "1000", 2, 4, "1110"),
        (Move::ShiftRightSigned, "Z01", 5, 3, "ZZZ"),
        (Move::RotateLeft, "1X01", 1, 4, "X011"),
        (Move::RotateLeft, "1001", 6, 4, "0110"),
        (Move::RotateRight, "1X01", 1, 4, "11X0"),
        (Move::RotateRight, "100", 3, 3, "100"),
        (Move::ResizeUnsigned, "1X", 4, 4, "001X"),
        (Move::ResizeUnsigned, "1X01", 0, 2, "01"),
        (Move::ResizeSigned, "1011", 0, 6, "111011"),
        (Move::ResizeSigned, "1011", 0, 3, "111"),
        (Move::ResizeSigned, "0X11", 0, 1, "0"),
        (Move::ResizeSigned, "U1", 0, 3, "UU1"),
        (Move::ToVector, "", 10, 3, "010"),
        (Move::ToVector, "", 5, 8, "00000101"),
        (Move::ToVector, "", -3, 4, "1101"),
        (
            Move::ToVector,
            "",
            -2,
            34,
            "1111111111111111111111111111111110",
        ),
        (
            Move::ToVector,
            "",
            2147483647,
            36,
            "000001111111111111111111111111111111",
        ),
    ];
    for (call, vector, n, size, want) in rows {
        let vector = vector.as_bytes();
        assert!(rt; vector.len() <= 64 && size <= 64);
        assert_eq!(rt;
            moved(rt.alloc(), call, vector, n, size)?.as_str(),
            want,
            "{call:?}"
        );
    }
    Ok(())
}

#[test]
fn integers(rt: HostRuntime) -> Result<(), Fail> {
    let rows = [
        (false, "0X", Some(0)),
        (false, "1HL", Some(6)),
        (false, "1", Some(1)),
        (false, "01111111111111111111111111111111", Some(2147483647)),
        (false, "11111111111111111111111111111111", None),
        (false, "010000000000000000000000000000000", None),
        (true, "-1", Some(0)),
        (true, "1", Some(-1)),
        (true, "1011", Some(-5)),
        (true, "11111111111111111111111111111111", Some(-1)),
        (true, "0001111111111111111111111111111111", Some(2147483647)),
        (
            true,
            "1110000000000000000000000000000000",
            Some(-2147483648),
        ),
        (true, "101111111111111111111111111111111", None),
        (true, "010000000000000000000000000000000", None),
    ];
    for (signed, vector, want) in rows {
        let vector = vector.as_bytes();
        assert!(rt; vector.len() <= 64);
        let mut cells = filled(rt.alloc(), vector, &[], 77)?;
        let a = Place {
            first: 0,
            size: vector.len() as u32,
        };
        let operand = if signed {
            Operand::Signed(a)
        } else {
            Operand::Unsigned(a)
        };
        let found = to_integer(&mut cells, operand, NUMBER);
        assert_eq!(rt; found, want.is_some());
        assert_eq!(rt; scalar(&cells, NUMBER), want.unwrap_or(77));
    }
    Ok(())
}
