//! The stimulus.

use crate::source::digits;
use std::alloc::Global;
use vv_base::fault::Memory;
use vv_base::text::ByteList;

/// The records of 100 rows. In turn a row gives the data, lets the clock rise and lets it fall; the reset is active in row 1 alone.
pub fn stimulus(alloc: Global) -> Result<ByteList, Memory> {
    let mut text = ByteList::new(alloc);
    text.extend_from_slice("clk,rst,d\n".as_bytes())?;
    for row in 1..101u32 {
        match row % 3 {
            1 => add_data(alloc, row, &mut text)?,
            2 => text.extend_from_slice("1,,\n".as_bytes())?,
            _ => text.extend_from_slice("0,,\n".as_bytes())?,
        }
    }
    Ok(text)
}

/// Appends a record with data, and with a level of the reset in rows 1 and 4.
fn add_data(alloc: Global, row: u32, text: &mut ByteList) -> Result<(), Memory> {
    let level = match row {
        1 => "1",
        4 => "0",
        _ => "",
    };
    let digits = digits(alloc, row)?;
    let line = format!(in alloc; ",{level},{digits}\n")?;
    text.extend_from_slice(line.as_bytes())
}
