//! The Verilog names.
ghost use Rattle.std.specs.Prelude.{◌≡◌, ◌++◌, OnOk};
ghost use Rattle.vv_gate_text.specs.Names.{mangled};

use std::alloc::AllocError;
use vv_vast::words::is_reserved;

/// Writes the Verilog name of a VHDL name.
pub(crate) fn write_name(out: &mut Vec<u8>, name: &[u8]) -> Result<(), AllocError>
    ensures { OnOk result (out.new.items ≡ out.old.items ++ mangled name.now) }
{
    out.extend_from_slice(name)?;
    if is_reserved(name) {
        out.push(b'$')?;
    }
    Ok(())
}
