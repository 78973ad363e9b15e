//! The map: a line for each port.
ghost use Rattle.std.specs.Prelude.{◌≡◌, ◌++◌, codes, IfOk, OnOk};
ghost use Rattle.vv_gate.specs.View.{file_of};
ghost use Rattle.vv_gate_text.specs.Map.{kind_of, written_kind, line_of, written_line, map_of};
ghost use Rattle.vv_gate_text.specs.Names.{mangled};
ghost use Rattle.vv_gate_text.specs.View.{port_of};

use crate::names::write_name;
use crate::ports::{Port, ports};
use std::alloc::{AllocError, Global};
use vv_gate::tree::GateFile;

/// The kind of a port, and a comma.
fn kind(port: &Port<'_>) -> &'static [u8]
    ensures { result.now ≡ written_kind (kind_of port.now.input) ++ codes "," }
{
    if port.input { b"data," } else { b"out," }
}

/// Writes the VHDL path and the Verilog path of a name.
fn write_paths(out: &mut Vec<u8>, name: &[u8]) -> Result<(), AllocError>
    ensures { OnOk result (out.new.items ≡ out.old.items ++ (name.now ++ codes "," ++ mangled name.now)) }
{
    out.extend_from_slice(name)?;
    out.extend_from_slice(b",")?;
    write_name(out, name)
}

/// Writes the line of a port: kind, VHDL path, Verilog path, width and codec.
#[tactic(auto, using(crate::proofs::MapLine::line_parts))]
fn write_line(out: &mut Vec<u8>, port: &Port<'_>) -> Result<(), AllocError>
    ensures { OnOk result (out.new.items ≡ out.old.items ++ written_line (line_of (port_of port.now))) }
{
    out.extend_from_slice(kind(port))?;
    write_paths(out, port.ident.text)?;
    out.extend_from_slice(b",1,std\n")
}

/// The map of a file of gates.
pub fn map(alloc: Global, file: &GateFile<'_>) -> Result<Vec<u8>, AllocError>
    ensures { IfOk result (λ v. v.items ≡ map_of (file_of file.now)) }
{
    let ports = ports(alloc, file)?;
    let mut out = Vec::new(alloc);
    for port in &ports {
        write_line(&mut out, port)?;
    }
    Ok(out)
}
