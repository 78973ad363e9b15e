//! The Verilog names of objects.

use std::alloc::Global;
use vv_base::fault::Memory;
use vv_base::text::Text;
use vv_vast::words::is_reserved;

/// The Verilog name of the object with this path: `$` for each `.` and each `(`, `m` for a `-` directly behind a `(`, and nothing
/// for a `)`. A reserved word gets `$` at its end.
pub fn mangle(alloc: Global, path: &str) -> Result<Text, Memory> {
    let mut name = Vec::new(alloc);
    let mut opened = false;
    for byte in path.as_bytes() {
        match *byte {
            b'.' | b'(' => name.push(b'$')?,
            b'-' if opened => name.push(b'm')?,
            b')' => {}
            other => name.push(other)?,
        }
        opened = *byte == b'(';
    }
    if is_reserved(name.as_slice()) {
        name.push(b'$')?;
    }
    Text::from_slice(alloc, name.as_slice())
}
