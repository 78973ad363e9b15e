//! The records of cycles.

use csv::ByteRecord;
use std::alloc::Global;
use vv_base::fault::Memory;
use vv_base::text::ByteList;
use vv_bits::{S9, V4};
use vv_map::{Line, record_of};

/// The first record: `row`, and the VHDL paths of the lines that are no inputs.
pub fn heading(alloc: Global, lines: &[Line]) -> Result<Vec<u8>, Memory> {
    let mut fields = ByteRecord::new(alloc);
    fields.push_field("row".as_bytes())?;
    for line in lines {
        if !line.kind.is_input() {
            fields.push_field(line.vhdl.as_slice())?;
        }
    }
    record_of(alloc, &fields)
}

/// The digit of a value of Verilog.
fn digit4(bit: V4) -> u8 {
    match bit {
        V4::Zero => b'0',
        V4::One => b'1',
        V4::X => b'x',
        V4::Z => b'z',
    }
}

/// The digit of a value of VHDL.
fn digit9(bit: S9) -> u8 {
    match bit {
        S9::U => b'U',
        S9::X => b'X',
        S9::Zero => b'0',
        S9::One => b'1',
        S9::Z => b'Z',
        S9::W => b'W',
        S9::L => b'L',
        S9::H => b'H',
        S9::Dash => b'-',
    }
}

/// Begins the record of a row with its number.
pub fn begin_row(alloc: Global, number: u64) -> Result<ByteList, Memory> {
    let text = format!(in alloc; "{number}")?;
    ByteList::from_slice(alloc, text.as_bytes())
}

/// Appends a field with bits of Verilog.
pub fn push_bits4(record: &mut ByteList, bits: &[V4]) -> Result<(), Memory> {
    record.push(b',')?;
    for bit in bits {
        record.push(digit4(*bit))?;
    }
    Ok(())
}

/// Appends a field with bits of VHDL.
pub fn push_bits9(record: &mut ByteList, bits: &[S9]) -> Result<(), Memory> {
    record.push(b',')?;
    for bit in bits {
        record.push(digit9(*bit))?;
    }
    Ok(())
}

/// The digits of bits of Verilog.
pub fn digits4(alloc: Global, bits: &[V4]) -> Result<ByteList, Memory> {
    let mut digits = ByteList::new(alloc);
    for bit in bits {
        digits.push(digit4(*bit))?;
    }
    Ok(digits)
}

/// The digits of bits of VHDL.
pub fn digits9(alloc: Global, bits: &[S9]) -> Result<ByteList, Memory> {
    let mut digits = ByteList::new(alloc);
    for bit in bits {
        digits.push(digit9(*bit))?;
    }
    Ok(digits)
}
