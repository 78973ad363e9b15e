//! The ports of a file, one by one, and their numbers.
ghost use Rattle.std.specs.Prelude.{◌≡◌, ◌++◌, map, IfOk, OnOk};
ghost use Rattle.vv_gate.specs.Tree.{ports_of, ports_of_group};
ghost use Rattle.vv_gate.specs.View.{file_of, group_of};
ghost use Rattle.vv_gate_vhdl.specs.Design.{net_of};
ghost use Rattle.vv_gate_run.specs.Circuit.{port_of};

use std::alloc::{AllocError, Global};
use vv_gate::tree::{GateFile, Group, Ident};

/// A port with its direction.
#[derive(Clone, Copy)]
pub struct Port<'a> {
    pub ident: Ident<'a>,
    pub input: bool,
}

/// Appends the ports of a group.
fn push_group<'a>(all: &mut Vec<Port<'a>>, group: &Group<'a>) -> Result<(), AllocError>
    ensures { OnOk result (map port_of all.new.items ≡ map port_of all.old.items ++ ports_of_group (group_of group.now)) }
{
    for ident in &group.idents {
        all.push(Port {
            ident: *ident,
            input: group.input,
        })?;
    }
    Ok(())
}

/// The ports in the order of the text. The number of a port is its place among them.
pub fn ports<'a>(alloc: Global, file: &GateFile<'a>) -> Result<Vec<Port<'a>>, AllocError>
    ensures { IfOk result (λ v. map port_of v.items ≡ ports_of (file_of file.now)) }
{
    let mut all = Vec::new(alloc);
    for group in &file.groups {
        push_group(&mut all, group)?;
    }
    Ok(all)
}

/// The number of the first port with this name, or the number of ports where none has it.
pub(crate) fn net_of(ports: &[Port<'_>], name: &[u8]) -> usize
    ensures { result ≡ net_of (map port_of ports.now) name.now }
{
    for (net, port) in ports.iter().enumerate() {
        if port.ident.text == name {
            return net;
        }
    }
    ports.len()
}
