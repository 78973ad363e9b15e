//! The lines of a design: its top ports, and then what its clocked and latch processes hold, in elaboration order.

use crate::lines::{Line, LineKind, LineList, bytes_of, width_of};
use sqlite_items::{Boxed, Items};
use std::alloc::Global;
use vv_base::fault::Memory;
use vv_base::text::{ByteList, Text};
use vv_design::{Class, Design, Inst, Kind, Net, Origin, Plan, index_count};
use vv_types::{BaseType, Codec, Subtype};
use vv_vtree::mangle;

/// The bytes of the lines of a design.
pub fn write_map(alloc: Global, design: &Design, plan: &Plan) -> Result<ByteList, Memory> {
    let lines = own_lines(alloc, design, plan)?;
    bytes_of(alloc, lines.as_slice())
}

/// The lines of a design.
pub fn own_lines(alloc: Global, design: &Design, plan: &Plan) -> Result<LineList, Memory> {
    let mut lines = Items::new(alloc);
    let mut held = held_by_nets(alloc, design, plan)?;
    let mut inputs = plan.classes.as_slice().iter();
    for port in design.top.as_slice() {
        let kind = if port.input {
            kind_of(inputs.next().copied().unwrap_or(Class::Data))
        } else {
            LineKind::Out
        };
        if let Some(net) = design.nets.get(port.net as usize) {
            lines.push(net_line(alloc, design, net, kind)?)?;
        }
        if let Some(place) = held.get_mut(port.net as usize) {
            *place = None;
        }
    }
    add_held(alloc, design, plan, held.as_slice(), &mut lines)?;
    Ok(lines)
}

/// The kind of an input of a class.
fn kind_of(class: Class) -> LineKind {
    match class {
        Class::Clock(false) => LineKind::Clk0,
        Class::Clock(true) => LineKind::Clk1,
        Class::Control(false) => LineKind::Ctl0,
        Class::Control(true) => LineKind::Ctl1,
        Class::Data => LineKind::Data,
    }
}

/// For each net whether a clocked process assigns it by its name, or else a latch process.
fn held_by_nets(
    alloc: Global,
    design: &Design,
    plan: &Plan,
) -> Result<Vec<Option<LineKind>>, Memory> {
    let mut held = Vec::new(alloc);
    for _ in design.nets.as_slice() {
        held.push(None)?;
    }
    for source in design.sources.as_slice() {
        let Origin::Driver { proc, net } = &source.from else {
            continue;
        };
        let kind = match plan.kinds.get(*proc as usize) {
            Some(Kind::Clocked { .. }) => LineKind::Reg,
            Some(Kind::Latch { .. }) => LineKind::Lat,
            Some(Kind::Comb) | None => continue,
        };
        if let Some(place) = held.get_mut(*net as usize)
            && *place != Some(LineKind::Reg)
        {
            *place = Some(kind);
        }
    }
    Ok(held)
}

/// Adds the lines of nets that are held, and those of the variables of clocked processes.
fn add_held(
    alloc: Global,
    design: &Design,
    plan: &Plan,
    held: &[Option<LineKind>],
    lines: &mut LineList,
) -> Result<(), Memory> {
    let mut next: usize = 0;
    for (number, proc) in design.procs.as_slice().iter().enumerate() {
        let is_clocked = matches!(plan.kinds.get(number), Some(Kind::Clocked { .. }));
        if !is_clocked || proc.vars.is_empty() {
            continue;
        }
        next = add_nets(alloc, design, held, next, number, lines)?;
        for var in proc.vars.as_slice() {
            let line = line_of(
                alloc,
                design,
                LineKind::Var,
                proc.inst,
                &var.path,
                &var.subtype,
            )?;
            lines.push(line)?;
        }
    }
    add_nets(alloc, design, held, next, usize::MAX, lines)?;
    Ok(())
}

/// Adds the lines of the nets from one on that are held and are elaborated before a process. The net that comes next is told.
fn add_nets(
    alloc: Global,
    design: &Design,
    held: &[Option<LineKind>],
    from: usize,
    proc: usize,
    lines: &mut LineList,
) -> Result<usize, Memory> {
    let nets = design.nets.as_slice();
    for number in from..nets.len() {
        let Some(net) = nets.get(number) else {
            return Ok(number);
        };
        if net.procs_before as usize > proc {
            return Ok(number);
        }
        if let Some(Some(kind)) = held.get(number) {
            lines.push(net_line(alloc, design, net, *kind)?)?;
        }
    }
    Ok(nets.len())
}

fn net_line(alloc: Global, design: &Design, net: &Net, kind: LineKind) -> Result<Line, Memory> {
    line_of(alloc, design, kind, net.inst, &net.path, &net.subtype)
}

fn line_of(
    alloc: Global,
    design: &Design,
    kind: LineKind,
    inst: u32,
    path: &Text,
    subtype: &Subtype,
) -> Result<Line, Memory> {
    let codec = codec_of(alloc, subtype)?;
    Ok(Line {
        kind,
        vhdl: Text::from_slice(alloc, path.as_slice())?,
        verilog: verilog_path(alloc, design, inst, path.as_slice())?,
        width: u32::try_from(width_of(&codec)).unwrap_or(u32::MAX),
        codec,
    })
}

/// The Verilog path of an object of an instance: a path is cut behind each instance, and each part is mangled.
fn verilog_path(alloc: Global, design: &Design, inst: u32, path: &[u8]) -> Result<Text, Memory> {
    let mut around: Vec<&Inst> = Vec::new(alloc);
    let mut next = design.insts.get(inst as usize);
    for _ in design.insts.as_slice() {
        let Some(inst) = next else {
            break;
        };
        let Some(up) = inst.up else {
            break;
        };
        around.push(inst)?;
        next = design.insts.get(up as usize);
    }
    let mut verilog = ByteList::new(alloc);
    let mut outer: &[u8] = &[];
    for inst in around.as_slice().iter().rev() {
        push_part(alloc, outer, inst.path.as_slice(), &mut verilog)?;
        verilog.push(b'.')?;
        outer = inst.path.as_slice();
    }
    push_part(alloc, outer, path, &mut verilog)?;
    Text::from_slice(alloc, verilog.as_slice())
}

/// Appends what stands in a path behind the one of the instance round it, mangled.
fn push_part(
    alloc: Global,
    outer: &[u8],
    path: &[u8],
    verilog: &mut ByteList,
) -> Result<(), Memory> {
    let start = if outer.is_empty() {
        0
    } else {
        outer.len().saturating_add(1)
    };
    let part = path.get(start..).unwrap_or(&[]);
    let Ok(part) = str::from_utf8(part) else {
        return verilog.extend_from_slice(part);
    };
    verilog.extend_from_slice(mangle(alloc, part)?.as_slice())
}

/// The codec of a subtype.
fn codec_of(alloc: Global, subtype: &Subtype) -> Result<Codec, Memory> {
    match subtype {
        Subtype::Scalar {
            base,
            left,
            right,
            down,
            count,
        } => {
            let (low, high) = if *down {
                (*right, *left)
            } else {
                (*left, *right)
            };
            Ok(scalar_of(*base, low, high, *count))
        }
        Subtype::Array {
            base: _,
            bounds,
            elem,
        } => {
            let elem = codec_of(alloc, elem.get())?;
            Ok(Codec::Of {
                n: index_count(*bounds),
                elem: Boxed::new(alloc, elem)?,
            })
        }
    }
}

fn scalar_of(base: BaseType, low: i32, high: i32, count: u32) -> Codec {
    match base {
        BaseType::Logic | BaseType::Array(_) => Codec::Std,
        BaseType::Bool => Codec::Bool,
        BaseType::Int => Codec::Int { low, high },
        BaseType::Enum(_) => Codec::Enum { count },
    }
}
