//! Cycles of dependences between bits.

use std::alloc::Global;
use vv_base::fault::Memory;
use vv_flat::{FAlternative, FArm, FExpr, FStmt, FTarget, FlatItem, Place};
use vv_vscope::graph::{Graph, component_of, components};
use vv_vscope::scope::number_of;

/// A bit, and an item that drives it.
#[derive(Clone, Copy, Debug, PartialEq, Eq, PartialOrd, Ord)]
struct Driver {
    bit: u32,
    item: u32,
}

/// The least offset of an item that drives a bit on a cycle, where there are so many bits.
pub fn on_cycle(alloc: Global, bits: usize, items: &[FlatItem]) -> Result<Option<u64>, Memory> {
    let bits = number_of(bits);
    let Some(nodes) = bits.checked_add(number_of(items.len())) else {
        return Err(Memory);
    };
    let mut drivers = Vec::new(alloc);
    for (number, item) in items.iter().enumerate() {
        add_drivers(&mut drivers, number_of(number), item)?;
    }
    drivers.sort()?;
    let cyclic = cyclic_bits(alloc, bits, nodes, &drivers, items)?;
    let mut least = None;
    for driver in &drivers {
        if cyclic.get(driver.bit as usize) == Some(&true)
            && let Some(item) = items.get(driver.item as usize)
        {
            least = Some(earlier(least, offset(item)));
        }
    }
    Ok(least)
}

/// For each bit whether it is on a cycle, where there are so many bits and items.
fn cyclic_bits(
    alloc: Global,
    bits: u32,
    nodes: u32,
    drivers: &[Driver],
    items: &[FlatItem],
) -> Result<Vec<bool>, Memory> {
    let components = components_of(alloc, bits, nodes, drivers, items)?;
    let mut cyclic = Vec::new(alloc);
    for _ in 0..bits {
        cyclic.push(false)?;
    }
    for driver in drivers {
        let item = component_of(&components, bits.saturating_add(driver.item));
        if component_of(&components, driver.bit) == item
            && let Some(place) = cyclic.get_mut(driver.bit as usize)
        {
            *place = true;
        }
    }
    Ok(cyclic)
}

/// The component of each bit and each item.
fn components_of(
    alloc: Global,
    bits: u32,
    nodes: u32,
    drivers: &[Driver],
    items: &[FlatItem],
) -> Result<Vec<u32>, Memory> {
    let graph = dependences(alloc, bits, drivers, items)?;
    components(alloc, &graph, nodes)
}

fn earlier(known: Option<u64>, at: u64) -> u64 {
    match known {
        Some(other) => other.min(at),
        None => at,
    }
}

/// The offset of an item.
fn offset(item: &FlatItem) -> u64 {
    match item {
        FlatItem::Assign { at, .. } | FlatItem::Always { at, .. } => *at,
    }
}

/// The graph of bits and items, which are numbered on behind the bits. A bit leads to the items that drive it, and an item to the bits on
/// which it depends.
fn dependences(
    alloc: Global,
    bits: u32,
    drivers: &[Driver],
    items: &[FlatItem],
) -> Result<Graph, Memory> {
    let mut graph = Graph::new(alloc);
    for driver in drivers {
        graph.lead(
            driver.bit,
            Place {
                first: bits.saturating_add(driver.item),
                width: 1,
            },
        )?;
    }
    for (number, item) in items.iter().enumerate() {
        let node = bits.saturating_add(number_of(number));
        let mut places = Vec::new(alloc);
        add_reads(&mut places, item)?;
        for place in &places {
            graph.lead(node, *place)?;
        }
    }
    Ok(graph)
}

/// Adds the bits on which an item depends.
fn add_reads(places: &mut Vec<Place>, item: &FlatItem) -> Result<(), Memory> {
    match item {
        FlatItem::Assign { value, .. } => add_expr(places, value),
        FlatItem::Always { events, .. } => {
            for event in events.as_slice() {
                places.push(event.of)?;
            }
            Ok(())
        }
    }
}

/// Adds the bits that an expression reads.
#[cycle(reads)]
fn add_expr(places: &mut Vec<Place>, expr: &FExpr) -> Result<(), Memory> {
    match expr {
        FExpr::Read(place) => places.push(*place)?,
        FExpr::Indexed {
            of,
            index,
            count: _,
        } => {
            places.push(*of)?;
            add_expr(places, index.get())?;
        }
        FExpr::Bits(_) => {}
        FExpr::Concatenation(parts) => add_exprs(places, parts.as_slice())?,
        FExpr::Repetition { count: _, part } => add_expr(places, part.get())?,
        FExpr::Call { function: _, args } => add_exprs(places, args.as_slice())?,
        FExpr::Unary { op: _, operand } => add_expr(places, operand.get())?,
        FExpr::Binary { left, op: _, right } => {
            add_expr(places, left.get())?;
            add_expr(places, right.get())?;
        }
        FExpr::Conditional { condition, yes, no } => {
            add_expr(places, condition.get())?;
            add_expr(places, yes.get())?;
            add_expr(places, no.get())?;
        }
    }
    Ok(())
}

#[cycle(reads)]
fn add_exprs(places: &mut Vec<Place>, exprs: &[FExpr]) -> Result<(), Memory> {
    for expr in exprs {
        add_expr(places, expr)?;
    }
    Ok(())
}

/// Adds the bits that an item drives.
fn add_drivers(drivers: &mut Vec<Driver>, number: u32, item: &FlatItem) -> Result<(), Memory> {
    match item {
        FlatItem::Assign { target, .. } => add_place(drivers, number, *target),
        FlatItem::Always { body, .. } => add_stmts(drivers, number, body.as_slice()),
    }
}

fn add_place(drivers: &mut Vec<Driver>, item: u32, place: Place) -> Result<(), Memory> {
    for bit in place.first..place.first.saturating_add(place.width) {
        drivers.push(Driver { bit, item })?;
    }
    Ok(())
}

#[cycle(targets)]
fn add_stmts(drivers: &mut Vec<Driver>, item: u32, stmts: &[FStmt]) -> Result<(), Memory> {
    for stmt in stmts {
        add_stmt(drivers, item, stmt)?;
    }
    Ok(())
}

#[cycle(targets)]
fn add_stmt(drivers: &mut Vec<Driver>, item: u32, stmt: &FStmt) -> Result<(), Memory> {
    match stmt {
        FStmt::Assignment { target, .. } => match target {
            FTarget::Fixed(place) => add_place(drivers, item, *place),
            FTarget::Indexed { of, .. } => add_place(drivers, item, *of),
        },
        FStmt::If { arms, otherwise } => {
            add_arms(drivers, item, arms.as_slice())?;
            add_stmts(drivers, item, otherwise.as_slice())
        }
        FStmt::Case {
            selector: _,
            alternatives,
            default,
        } => {
            add_alternatives(drivers, item, alternatives.as_slice())?;
            add_stmts(drivers, item, default.as_slice())
        }
    }
}

#[cycle(targets)]
fn add_arms(drivers: &mut Vec<Driver>, item: u32, arms: &[FArm]) -> Result<(), Memory> {
    for arm in arms {
        add_stmts(drivers, item, arm.body.as_slice())?;
    }
    Ok(())
}

#[cycle(targets)]
fn add_alternatives(
    drivers: &mut Vec<Driver>,
    item: u32,
    alternatives: &[FAlternative],
) -> Result<(), Memory> {
    for alternative in alternatives {
        add_stmts(drivers, item, alternative.body.as_slice())?;
    }
    Ok(())
}
