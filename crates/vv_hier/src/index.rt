//! The design by its instances.

use sqlite_items::Items;
use std::alloc::Global;
use vv_base::fault::Memory;
use vv_base::text::Text;
use vv_design::{Design, Kind, Origin, Plan};
use vv_lpart::mangled;
use vv_lproc::{Drivers, within};
use vv_lstate::NameList;

/// Numbers for each of something.
pub type Lists = Vec<Items<u32>>;

/// For each instance its nets, its processes, and the instances that stand in it; the name of each net within its module; what drives it;
/// whether a net is a register; for each port the numbers of its constant sources; the names of the modules.
#[derive(Drop)]
pub struct Index {
    pub nets: Lists,
    pub procs: Lists,
    pub insts: Lists,
    pub names: NameList,
    pub drivers: Drivers,
    pub regs: Vec<bool>,
    pub constants: Lists,
    pub modules: Items<Text>,
}

impl Index {
    /// That of a design.
    pub fn of(alloc: Global, design: &Design, plan: &Plan) -> Result<Index, Memory> {
        let drivers = Drivers::of(alloc, design)?;
        Ok(Index {
            nets: nets(alloc, design)?,
            procs: procs(alloc, design)?,
            insts: insts(alloc, design)?,
            names: names(alloc, design)?,
            regs: registers(alloc, design, plan, &drivers)?,
            drivers,
            constants: constants(alloc, design)?,
            modules: module_names(alloc, design)?,
        })
    }
}

/// The list with a number.
pub fn list(lists: &Lists, at: u32) -> &[u32] {
    match lists.get(at as usize) {
        Some(list) => list.as_slice(),
        None => &[],
    }
}

/// So many empty lists.
fn empty_lists(alloc: Global, n: usize) -> Result<Lists, Memory> {
    let mut lists = Vec::new(alloc);
    for _ in 0..n {
        lists.push(Items::new(alloc))?;
    }
    Ok(lists)
}

fn push_at(lists: &mut Lists, at: u32, number: usize) -> Result<(), Memory> {
    if let Some(list) = lists.get_mut(at as usize) {
        list.push(number.min(0xffff_ffff) as u32)?;
    }
    Ok(())
}

/// The nets of each instance.
fn nets(alloc: Global, design: &Design) -> Result<Lists, Memory> {
    let mut nets = empty_lists(alloc, design.insts.len())?;
    for (number, net) in design.nets.as_slice().iter().enumerate() {
        push_at(&mut nets, net.inst, number)?;
    }
    Ok(nets)
}

/// The processes of each instance.
fn procs(alloc: Global, design: &Design) -> Result<Lists, Memory> {
    let mut procs = empty_lists(alloc, design.insts.len())?;
    for (number, proc) in design.procs.as_slice().iter().enumerate() {
        push_at(&mut procs, proc.inst, number)?;
    }
    Ok(procs)
}

/// The instances in each instance.
fn insts(alloc: Global, design: &Design) -> Result<Lists, Memory> {
    let mut insts = empty_lists(alloc, design.insts.len())?;
    for (number, inst) in design.insts.as_slice().iter().enumerate() {
        if let Some(up) = inst.up {
            push_at(&mut insts, up, number)?;
        }
    }
    Ok(insts)
}

/// The name of each net within its module.
fn names(alloc: Global, design: &Design) -> Result<NameList, Memory> {
    let mut names = Items::new(alloc);
    for net in design.nets.as_slice() {
        let before = design.inst(net.inst)?.path.as_slice();
        names.push(mangled(alloc, within(before, net.path.as_slice()))?)?;
    }
    Ok(names)
}

/// Whether each net is a register: a signal that a Clocked or Latch process alone drives.
fn registers(
    alloc: Global,
    design: &Design,
    plan: &Plan,
    drivers: &Drivers,
) -> Result<Vec<bool>, Memory> {
    let mut regs = vec![in alloc; false; design.nets.len()]?;
    for (number, kind) in plan.kinds.as_slice().iter().enumerate() {
        if keeps(kind) {
            mark_registers(drivers, number.min(0xffff_ffff) as u32, &mut regs);
        }
    }
    Ok(regs)
}

/// Whether a process keeps values.
fn keeps(kind: &Kind) -> bool {
    match kind {
        Kind::Comb => false,
        Kind::Clocked { .. } | Kind::Latch { .. } => true,
    }
}

/// Marks the registers of a process.
fn mark_registers(drivers: &Drivers, proc: u32, regs: &mut Vec<bool>) {
    for driven in drivers.of_proc(proc) {
        if drivers.is_sole(driven.net) {
            if let Some(flag) = regs.get_mut(driven.net as usize) {
                *flag = true;
            }
        }
    }
}

/// For each port the numbers of its constant sources.
fn constants(alloc: Global, design: &Design) -> Result<Lists, Memory> {
    let mut constants = empty_lists(alloc, design.nets.len())?;
    for (number, source) in design.sources.as_slice().iter().enumerate() {
        if let Origin::Constant { net, values: _ } = &source.from {
            push_at(&mut constants, *net, number)?;
        }
    }
    Ok(constants)
}

/// The names of the modules, by the numbers of the specialisations. The second and later ones of one entity have their number.
fn module_names(alloc: Global, design: &Design) -> Result<Items<Text>, Memory> {
    let mut names: Items<Text> = Items::new(alloc);
    let mut firsts: Items<u32> = Items::new(alloc);
    for (number, inst) in design.insts.as_slice().iter().enumerate() {
        if inst.spec as usize == names.len() {
            let count = count_before(design, firsts.as_slice(), number)?;
            let name = mangled(alloc, inst.entity_text.as_slice())?;
            names.push(numbered(alloc, name, count)?)?;
            firsts.push(number.min(0xffff_ffff) as u32)?;
        }
    }
    Ok(names)
}

/// How many of these instances have the entity of another one, and 1 for that.
fn count_before(design: &Design, firsts: &[u32], number: usize) -> Result<u32, Memory> {
    let mut count = 1u32;
    let entity = design.inst(number.min(0xffff_ffff) as u32)?.entity;
    for before in firsts {
        if design.inst(*before)?.entity == entity {
            count = count.saturating_add(1);
        }
    }
    Ok(count)
}

/// A name with a number behind it, but for 1.
fn numbered(alloc: Global, name: Text, count: u32) -> Result<Text, Memory> {
    if count == 1 {
        return Ok(name);
    }
    let more = format!(in alloc; "${count}")?;
    let mut bytes = Vec::from_slice(alloc, name.as_slice())?;
    bytes.extend_from_slice(more.as_str().as_bytes())?;
    Text::from_slice(alloc, bytes.as_slice())
}
