//! How much a module comes to with all that stands in it.

use crate::graph::{Edge, component_of, components, graph_of};
use crate::scope::{Design, ModuleScope, number_of};
use std::alloc::Global;
use vv_base::fault::Memory;
use vv_vtree::VItem;

/// How many objects and items a module comes to, and how many steps it takes to go over them. An instance of a module that comes to
/// nothing is passed over.
#[derive(Clone, Copy, Debug, PartialEq, Eq)]
pub struct Load {
    pub parts: u64,
    pub steps: u64,
}

const NOTHING: Load = Load { parts: 0, steps: 0 };

/// The load of each module, by its number. No module leads back to itself.
pub fn loads(alloc: Global, design: &Design<'_>) -> Result<Vec<Load>, Memory> {
    let mut loads = Vec::new(alloc);
    for _ in &design.modules {
        loads.push(NOTHING)?;
    }
    for number in &from_below(alloc, design)? {
        if let Some(module) = design.modules.get(*number as usize) {
            let load = load_of(design, &loads, module);
            if let Some(place) = loads.get_mut(*number as usize) {
                *place = load;
            }
        }
    }
    Ok(loads)
}

/// The numbers of the modules, each behind those that it has instances of.
fn from_below(alloc: Global, design: &Design<'_>) -> Result<Vec<u32>, Memory> {
    let modules = number_of(design.modules.len());
    let edges = instances(alloc, design)?;
    let graph = graph_of(alloc, edges.as_slice())?;
    let ranks = components(alloc, &graph, modules)?;
    let mut order = Vec::new(alloc);
    for _ in 0..modules {
        order.push(0)?;
    }
    for module in 0..modules {
        if let Some(place) = order.get_mut(component_of(&ranks, module) as usize) {
            *place = module;
        }
    }
    Ok(order)
}

/// The instances of modules in modules, in the order of the text.
pub fn instances(alloc: Global, design: &Design<'_>) -> Result<Vec<Edge>, Memory> {
    let mut edges = Vec::new(alloc);
    for (from, scope) in design.modules.iter().enumerate() {
        let from = number_of(from);
        for item in scope.module.items.as_slice() {
            if let VItem::Instance(instance) = item
                && let Some(to) = design.numbers.get(instance.module.text.as_slice())
            {
                edges.push(Edge {
                    from,
                    to: *to,
                    at: instance.module.at,
                })?;
            }
        }
    }
    Ok(edges)
}

/// The load of the module of this name.
pub fn named_load(design: &Design<'_>, loads: &[Load], name: &[u8]) -> Load {
    let Some(number) = design.numbers.get(name) else {
        return NOTHING;
    };
    loads.get(*number as usize).copied().unwrap_or(NOTHING)
}

fn load_of(design: &Design<'_>, loads: &[Load], scope: &ModuleScope<'_>) -> Load {
    let items = scope.module.items.as_slice();
    let mut parts = scope.objects.len() as u64;
    let mut steps = items.len() as u64;
    for item in items {
        match item {
            VItem::Instance(instance) => {
                let inner = named_load(design, loads, instance.module.text.as_slice());
                if inner.parts > 0 {
                    parts = parts.saturating_add(inner.parts);
                    steps = steps.saturating_add(inner.steps);
                }
            }
            VItem::Assign { .. } | VItem::Always(_) => parts = parts.saturating_add(1),
            VItem::Wire(_) | VItem::Reg { .. } | VItem::Function(_) => {}
        }
    }
    Load {
        parts,
        steps: steps.saturating_add(1),
    }
}
