//! A graph of elements and of groups of assignments, with its cycles and the longest ways in it.
//!
//! Reads and targets are runs of elements. So that a run is not gone over element by element, two trees stand over the elements. In the
//! first a node leads to its halves, so a group leads to the few nodes whose elements are those of a run that it reads. In the second a
//! node leads to the one above it, and elements lead by it to the groups with a target that has them all.
//! With `size` elements, a power of two, node k of the first tree has the number k, from the root 1 on; element e is its leaf
//! `size + e`; the node k above leaves in the second tree is `2 * size + k`; and group g is `3 * size + g`.

use std::alloc::Global;
use vv_base::fault::Memory;
use vv_design::Run;

/// A node that leads to another one.
#[derive(Clone, Copy, Debug, PartialEq, Eq, PartialOrd, Ord)]
struct Edge {
    from: u32,
    to: u32,
}

/// The graph while it is made.
#[derive(Drop)]
pub struct Graph {
    count: u32,
    size: u32,
    groups: u32,
    edges: Vec<Edge>,
}

/// The least power of two that is no less than a number of elements, as far as there is one.
fn size_for(count: u32) -> u32 {
    let mut size = 1u32;
    for _ in 0..31 {
        if size < count {
            size = size.saturating_mul(2);
        }
    }
    size
}

impl Graph {
    /// A graph of this many elements, without groups.
    pub fn new(alloc: Global, count: u32) -> Result<Graph, Memory> {
        let size = size_for(count);
        if size > 1 << 29 {
            return Err(Memory);
        }
        Ok(Graph {
            count,
            size,
            groups: 0,
            edges: Vec::new(alloc),
        })
    }

    /// A new group.
    pub fn group(&mut self) -> Result<u32, Memory> {
        let group = self
            .size
            .saturating_mul(3)
            .checked_add(self.groups)
            .ok_or(Memory)?;
        self.groups = self.groups.saturating_add(1);
        Ok(group)
    }

    /// Lets a group depend on all on which another one does.
    pub fn link(&mut self, from: u32, to: u32) -> Result<(), Memory> {
        self.edges.push(Edge { from, to })?;
        Ok(())
    }

    /// Lets a group read a run of elements.
    pub fn read(&mut self, group: u32, run: Run) -> Result<(), Memory> {
        self.cover(run, group, true)
    }

    /// Lets the elements of a run depend on a group.
    pub fn target(&mut self, run: Run, group: u32) -> Result<(), Memory> {
        self.cover(run, group, false)
    }

    /// Adds edges between a group and the nodes that make up a run, from below upwards.
    fn cover(&mut self, run: Run, group: u32, read: bool) -> Result<(), Memory> {
        let mut low = self.size.saturating_add(run.first.min(self.count));
        let mut high = self.size.saturating_add(run.end().min(self.count));
        for _ in 0..32 {
            if low >= high {
                break;
            }
            if low % 2 == 1 {
                self.join(low, group, read)?;
                low = low.saturating_add(1);
            }
            if high % 2 == 1 {
                high = high.saturating_sub(1);
                self.join(high, group, read)?;
            }
            low /= 2;
            high /= 2;
        }
        Ok(())
    }

    /// Adds the edge between a group and the node with this number in both trees.
    fn join(&mut self, node: u32, group: u32, read: bool) -> Result<(), Memory> {
        let edge = if read {
            Edge {
                from: group,
                to: node,
            }
        } else if node < self.size {
            Edge {
                from: self.size.saturating_mul(2).saturating_add(node),
                to: group,
            }
        } else {
            Edge {
                from: node,
                to: group,
            }
        };
        self.edges.push(edge)?;
        Ok(())
    }

    /// Goes through the graph.
    pub fn search(self, alloc: Global) -> Result<Found, Memory> {
        let Graph {
            count,
            size,
            groups,
            edges,
        } = self;
        let mut edges = edges;
        edges.sort()?;
        let nodes = size.saturating_mul(3).checked_add(groups).ok_or(Memory)?;
        let mut ways = Ways {
            size,
            starts: Vec::new(alloc),
            ends: Vec::new(alloc),
        };
        for (at, edge) in edges.iter().enumerate() {
            let from = edge.from as usize;
            for _ in ways.starts.len()..=from {
                ways.starts.push(at)?;
            }
            ways.ends.push(edge.to)?;
        }
        let mut search = Search {
            marks: vec![in alloc; Mark::new(); nodes as usize]?,
            open: Vec::new(alloc),
            way: Vec::new(alloc),
            found: 0,
        };
        let steps = u64::from(nodes)
            .saturating_mul(4)
            .saturating_add(edges.len() as u64);
        for elem in 0..count {
            search.from(size.saturating_add(elem), &ways, steps)?;
        }
        let Search {
            marks,
            open: _,
            way: _,
            found: _,
        } = search;
        Ok(Found { count, size, marks })
    }
}

/// Where each node leads.
#[derive(Drop)]
struct Ways {
    size: u32,
    starts: Vec<usize>,
    ends: Vec<u32>,
}

impl Ways {
    /// Where a node leads by the trees.
    fn in_trees(&self, node: u32, number: usize) -> Option<u32> {
        let size = self.size;
        let twice = size.saturating_mul(2);
        if node < size {
            let half = node.saturating_mul(2);
            return match number {
                0 => Some(half),
                1 => Some(half.saturating_add(1)),
                _ => None,
            };
        }
        let above = if node < twice {
            node / 2
        } else if node < size.saturating_mul(3) {
            node.saturating_sub(twice) / 2
        } else {
            0
        };
        if number == 0 && above != 0 {
            Some(twice.saturating_add(above))
        } else {
            None
        }
    }

    /// Where a node leads in the way with this number: first come those in the trees, which are at most two.
    fn next(&self, node: u32, number: usize) -> Step {
        if number < 2 {
            return match self.in_trees(node, number) {
                Some(next) => Step::To(next),
                None => Step::Nowhere,
            };
        }
        let behind = self.ends.len();
        let first = self.starts.get(node as usize).copied().unwrap_or(behind);
        let end = self
            .starts
            .get((node as usize).saturating_add(1))
            .copied()
            .unwrap_or(behind);
        let at = first.saturating_add(number - 2);
        if at < end {
            match self.ends.get(at) {
                Some(next) => Step::To(*next),
                None => Step::End,
            }
        } else {
            Step::End
        }
    }
}

/// A step from a node.
#[derive(Clone, Copy, Debug, PartialEq, Eq)]
enum Step {
    To(u32),
    Nowhere,
    End,
}

/// What is known of a node: when it was found, from 1 on, the earliest found one that it leads to, where it stands among the open ones,
/// whether it is closed, whether it is on a cycle, and its rank.
#[derive(Clone, Copy, Debug, PartialEq, Eq)]
struct Mark {
    found: u32,
    earliest: u32,
    place: usize,
    closed: bool,
    cyclic: bool,
    rank: u32,
}

impl Mark {
    fn new() -> Mark {
        Mark {
            found: 0,
            earliest: 0,
            place: 0,
            closed: false,
            cyclic: false,
            rank: 0,
        }
    }
}

/// A node on the way, and the number of its way that is gone next.
#[derive(Clone, Copy, Debug, PartialEq, Eq)]
struct Stop {
    node: u32,
    number: usize,
}

/// A search for the strongly connected components, in depth first. Where there are no cycles, it also finds the rank of each node: a
/// group stands above the elements that it reads, and every other node at the height of the highest to which it leads.
#[derive(Drop)]
struct Search {
    marks: Vec<Mark>,
    /// The nodes that were found and are not closed, in the order in which they were found.
    open: Vec<u32>,
    way: Vec<Stop>,
    found: u32,
}

impl Search {
    fn mark(&self, node: u32) -> Mark {
        match self.marks.get(node as usize) {
            Some(mark) => *mark,
            None => Mark {
                found: 1,
                earliest: 1,
                place: 0,
                closed: true,
                cyclic: false,
                rank: 0,
            },
        }
    }

    /// Goes on from a node that was not found before, in at most so many steps.
    fn from(&mut self, node: u32, ways: &Ways, steps: u64) -> Result<(), Memory> {
        if self.mark(node).found != 0 {
            return Ok(());
        }
        self.find(node)?;
        for _ in 0..steps {
            let Some(stop) = self.way.pop() else {
                return Ok(());
            };
            self.step(stop, ways)?;
        }
        Ok(())
    }

    fn find(&mut self, node: u32) -> Result<(), Memory> {
        self.found = self.found.saturating_add(1);
        let found = self.found;
        let place = self.open.len();
        if let Some(mark) = self.marks.get_mut(node as usize) {
            mark.found = found;
            mark.earliest = found;
            mark.place = place;
        }
        self.open.push(node)?;
        self.way.push(Stop { node, number: 0 })?;
        Ok(())
    }

    /// Goes to the next node, or back from this one.
    fn step(&mut self, stop: Stop, ways: &Ways) -> Result<(), Memory> {
        let next = ways.next(stop.node, stop.number);
        if next == Step::End {
            self.leave(stop.node, ways.size);
            return Ok(());
        }
        self.way.push(Stop {
            node: stop.node,
            number: stop.number.saturating_add(1),
        })?;
        if let Step::To(next) = next {
            let mark = self.mark(next);
            if mark.found == 0 {
                self.find(next)?;
            } else {
                self.leads(stop.node, next, ways.size);
            }
        }
        Ok(())
    }

    /// Takes over to a node what is known of one to which it leads.
    fn leads(&mut self, node: u32, next: u32, size: u32) {
        let known = self.mark(next);
        let above = node >= size.saturating_mul(3) && next < size.saturating_mul(2);
        let rank = if above {
            known.rank.saturating_add(1)
        } else {
            known.rank
        };
        if let Some(mark) = self.marks.get_mut(node as usize) {
            if !known.closed {
                mark.earliest = mark.earliest.min(known.earliest);
            }
            mark.rank = mark.rank.max(rank);
        }
    }

    /// Goes back from a node. Where it leads to none that was found earlier, those found since are its component.
    fn leave(&mut self, node: u32, size: u32) {
        let mark = self.mark(node);
        if mark.earliest == mark.found {
            self.close(mark.place);
        }
        if let Some(stop) = self.way.last() {
            let before = stop.node;
            self.leads(before, node, size);
        }
    }

    /// Closes the component of the nodes that are open from this place on.
    fn close(&mut self, place: usize) {
        let cyclic = self.open.len() > place.saturating_add(1);
        for node in since(self.open.as_slice(), place) {
            if let Some(mark) = self.marks.get_mut(*node as usize) {
                mark.closed = true;
                mark.cyclic = cyclic;
            }
        }
        self.open.truncate(place);
    }
}

/// What stands in a list from this place on.
fn since(nodes: &[u32], place: usize) -> &[u32] {
    match nodes.get(place..) {
        Some(nodes) => nodes,
        None => &[],
    }
}

/// What was found of the elements.
#[derive(Drop)]
pub struct Found {
    count: u32,
    size: u32,
    marks: Vec<Mark>,
}

impl Found {
    fn elements(&self) -> &[Mark] {
        let first = self.size as usize;
        let end = first.saturating_add(self.count as usize);
        match self.marks.get(first..end) {
            Some(marks) => marks,
            None => &[],
        }
    }

    /// Which elements are on a cycle.
    pub fn cyclic(&self, alloc: Global) -> Result<Vec<bool>, Memory> {
        let mut cyclic = Vec::new(alloc);
        for mark in self.elements() {
            cyclic.push(mark.cyclic)?;
        }
        Ok(cyclic)
    }

    /// The rank of each element.
    pub fn ranks(&self, alloc: Global) -> Result<Vec<u32>, Memory> {
        let mut ranks = Vec::new(alloc);
        for mark in self.elements() {
            ranks.push(mark.rank)?;
        }
        Ok(ranks)
    }
}
