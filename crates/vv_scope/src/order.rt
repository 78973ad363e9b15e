//! An order of packages in which each stands behind those that it needs, and what is left where some need themselves.

use crate::needs::Need;
use std::alloc::Global;
use vv_base::fault::{Memory, Span};

/// The places of packages in their order. `ring` is the least place at which a package that needs itself names what leads back to it.
#[derive(Drop)]
pub struct Order {
    pub places: Vec<usize>,
    pub ring: Option<Span>,
}

/// A need between packages by their places.
#[derive(Clone, Copy)]
struct Edge {
    from: usize,
    to: usize,
    span: Span,
}

/// The order of packages by their declarations, which rise, and by what each needs.
pub fn in_order(alloc: Global, decls: &[u32], needs: &[Vec<Need>]) -> Result<Order, Memory> {
    let edges = edges(alloc, decls, needs)?;
    let places = ready_first(alloc, decls.len(), edges.as_slice())?;
    let ring = ring(alloc, decls.len(), edges.as_slice(), places.as_slice())?;
    let mut all = Vec::from_slice(alloc, places.as_slice())?;
    for place in 0..decls.len() {
        if ring.is_some() && !places.as_slice().contains(&place) {
            all.push(place)?;
        }
    }
    Ok(Order { places: all, ring })
}

fn edges(alloc: Global, decls: &[u32], needs: &[Vec<Need>]) -> Result<Vec<Edge>, Memory> {
    let mut edges = Vec::new(alloc);
    for (from, list) in needs.iter().enumerate() {
        for need in list.as_slice() {
            if let Ok(to) = decls.binary_search(&need.package) {
                edges.push(Edge {
                    from,
                    to,
                    span: need.span,
                })?;
            }
        }
    }
    edges.sort_by_key(|edge| edge.to)?;
    Ok(edges)
}

/// The edges to a package, which stand in the order of what they lead to.
fn edges_to(edges: &[Edge], to: usize) -> &[Edge] {
    let start = edges.partition_point(|edge| edge.to < to);
    let end = edges.partition_point(|edge| edge.to <= to);
    edges.get(start..end).unwrap_or(&[])
}

/// The packages that can be put into an order, each behind those that it needs.
fn ready_first(alloc: Global, count: usize, edges: &[Edge]) -> Result<Vec<usize>, Memory> {
    let mut waiting = Vec::new(alloc);
    for _ in 0..count {
        waiting.push(0usize)?;
    }
    for edge in edges {
        if let Some(left) = waiting.get_mut(edge.from) {
            *left = left.saturating_add(1);
        }
    }
    let mut places = Vec::new(alloc);
    for (place, left) in waiting.as_slice().iter().enumerate() {
        if *left == 0 {
            places.push(place)?;
        }
    }
    for at in 0..count {
        let Some(place) = places.get(at).copied() else {
            break;
        };
        for edge in edges_to(edges, place) {
            if is_last_need(&mut waiting, edge.from) {
                places.push(edge.from)?;
            }
        }
    }
    Ok(places)
}

/// One need of a package is met. The answer is whether none is left.
fn is_last_need(waiting: &mut Vec<usize>, place: usize) -> bool {
    match waiting.get_mut(place) {
        Some(left) => {
            let was = *left;
            *left = was.saturating_sub(1);
            was == 1
        }
        None => false,
    }
}

/// The least place of an edge from which its start is reached again. Packages that are in order are on no ring.
fn ring(
    alloc: Global,
    count: usize,
    edges: &[Edge],
    places: &[usize],
) -> Result<Option<Span>, Memory> {
    if places.len() >= count {
        return Ok(None);
    }
    let mut sorted = Vec::from_slice(alloc, edges)?;
    sorted.sort_by_key(|edge| ((edge.span.file as u64) << 32) | edge.span.at as u64)?;
    for edge in sorted.as_slice() {
        if !places.contains(&edge.from) && leads_to(alloc, count, edges, edge.to, edge.from)? {
            return Ok(Some(edge.span));
        }
    }
    Ok(None)
}

/// Whether a package needs another one, or is it.
fn leads_to(
    alloc: Global,
    count: usize,
    edges: &[Edge],
    from: usize,
    to: usize,
) -> Result<bool, Memory> {
    let mut seen = Vec::new(alloc);
    for _ in 0..count {
        seen.push(false)?;
    }
    let mut list = Vec::new(alloc);
    list.push(to)?;
    for at in 0..count {
        let Some(place) = list.get(at).copied() else {
            break;
        };
        if place == from {
            return Ok(true);
        }
        for edge in edges_to(edges, place) {
            if let Some(mark) = seen.get_mut(edge.from)
                && !*mark
            {
                *mark = true;
                list.push(edge.from)?;
            }
        }
    }
    Ok(false)
}
