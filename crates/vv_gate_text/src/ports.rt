//! The ports of a file, one by one.
ghost use Rattle.std.specs.Prelude.{◌≡◌, ◌++◌, map, IfOk, OnOk};
ghost use Rattle.vv_gate.specs.Tree.{ports_of, ports_of_group};
ghost use Rattle.vv_gate.specs.View.{file_of, group_of};
ghost use Rattle.vv_gate_text.specs.View.{port_of};

use std::alloc::{AllocError, Global};
use vv_gate::tree::{GateFile, Group, Ident};

/// A port with its direction.
#[derive(Clone, Copy)]
pub(crate) struct Port<'a> {
    pub ident: Ident<'a>,
    pub input: bool,
}

/// Appends the ports of a group.
fn push_group<'a>(all: &mut Vec<Port<'a>>, group: &Group<'a>) -> Result<(), AllocError>
    ensures { OnOk result (map port_of all.new.items ≡ map port_of all.old.items ++ ports_of_group (group_of group.now)) }
{
    for ident in &group.idents {
        all.push(Port {
            ident: *ident,
            input: group.input,
        })?;
    }
    Ok(())
}

/// The ports in the order of the text.
pub(crate) fn ports<'a>(alloc: Global, file: &GateFile<'a>) -> Result<Vec<Port<'a>>, AllocError>
    ensures { IfOk result (λ v. map port_of v.items ≡ ports_of (file_of file.now)) }
{
    let mut all = Vec::new(alloc);
    for group in &file.groups {
        push_group(&mut all, group)?;
    }
    Ok(all)
}
