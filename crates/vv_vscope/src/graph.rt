//! Which nodes of a graph lead back to themselves.

use std::alloc::Global;
use vv_base::fault::Memory;
use vv_flat::Place;

/// A node that leads to another one, and the offset at which this is written.
#[derive(Clone, Copy, Debug, PartialEq, Eq)]
pub struct Edge {
    pub from: u32,
    pub to: u32,
    pub at: u64,
}

/// To which nodes each node leads. The ranges of node k stand from the k-th start on to the next one.
#[derive(Drop)]
pub struct Graph {
    starts: Vec<usize>,
    ranges: Vec<Place>,
}

impl Graph {
    /// A graph in which no node leads anywhere.
    pub fn new(alloc: Global) -> Graph {
        Graph {
            starts: Vec::new(alloc),
            ranges: Vec::new(alloc),
        }
    }

    /// Lets a node lead to a range of nodes. It is no lesser one than those for which this was done before.
    pub fn lead(&mut self, from: u32, to: Place) -> Result<(), Memory> {
        for _ in self.starts.len()..=from as usize {
            self.starts.push(self.ranges.len())?;
        }
        self.ranges.push(to)?;
        Ok(())
    }

    /// The ranges of nodes to which a node leads.
    fn next(&self, node: u32) -> &[Place] {
        let node = node as usize;
        let end = self.ranges.len();
        let first = self.starts.get(node).copied().unwrap_or(end);
        let behind = self.starts.get(node + 1).copied().unwrap_or(end);
        match self.ranges.get(first..behind) {
            Some(ranges) => ranges,
            None => &[],
        }
    }

    /// How many steps a search takes at most, where there are this many nodes.
    fn step_count(&self, nodes: u32) -> u64 {
        let mut count = u64::from(nodes) + 1;
        for range in &self.ranges {
            count = count.saturating_add(u64::from(range.width));
        }
        count
    }
}

/// What is known of a node: when it was found, from 1 on, the earliest found one that it leads to, and its component.
#[derive(Clone, Copy, Debug, PartialEq, Eq)]
struct Mark {
    found: u32,
    earliest: u32,
    component: Option<u32>,
}

/// A node on the way, and where in its ranges the search goes on.
#[derive(Clone, Copy, Debug, PartialEq, Eq)]
struct Stop {
    node: u32,
    range: usize,
    offset: u32,
}

impl Stop {
    /// The next node to which it leads.
    fn next(&mut self, ranges: &[Place]) -> Option<u32> {
        for range in ranges.iter().skip(self.range) {
            if self.offset < range.width {
                let node = range.first.saturating_add(self.offset);
                self.offset = self.offset.saturating_add(1);
                return Some(node);
            }
            self.offset = 0;
            self.range = self.range.saturating_add(1);
        }
        None
    }
}

/// A search for strongly connected components, in depth first.
#[derive(Drop)]
struct Search {
    marks: Vec<Mark>,
    /// The nodes that were found and have no component yet, in the order in which they were found.
    open: Vec<u32>,
    way: Vec<Stop>,
    found: u32,
    components: u32,
}

/// The component of each node: nodes that lead to each other have the same. The component of a node is no lesser than that of a node
/// to which it leads.
pub fn components(alloc: Global, graph: &Graph, nodes: u32) -> Result<Vec<u32>, Memory> {
    let mut search = Search {
        marks: Vec::new(alloc),
        open: Vec::new(alloc),
        way: Vec::new(alloc),
        found: 0,
        components: 0,
    };
    for _ in 0..nodes {
        search.marks.push(Mark {
            found: 0,
            earliest: 0,
            component: None,
        })?;
    }
    let steps = graph.step_count(nodes);
    for root in 0..nodes {
        if search.mark(root).found == 0 {
            search.find(root)?;
            search.go(graph, steps)?;
        }
    }
    let mut components = Vec::new(alloc);
    for mark in &search.marks {
        components.push(mark.component.unwrap_or(0))?;
    }
    Ok(components)
}

impl Search {
    fn mark(&self, node: u32) -> Mark {
        match self.marks.get(node as usize) {
            Some(mark) => *mark,
            None => Mark {
                found: u32::MAX,
                earliest: u32::MAX,
                component: Some(0),
            },
        }
    }

    /// Finds a node, and goes on from it.
    fn find(&mut self, node: u32) -> Result<(), Memory> {
        self.found = self.found.saturating_add(1);
        let found = self.found;
        if let Some(mark) = self.marks.get_mut(node as usize) {
            mark.found = found;
            mark.earliest = found;
        }
        self.open.push(node)?;
        self.way.push(Stop {
            node,
            range: 0,
            offset: 0,
        })?;
        Ok(())
    }

    /// Goes on as long as there is a way, in at most so many steps.
    fn go(&mut self, graph: &Graph, steps: u64) -> Result<(), Memory> {
        for _ in 0..steps {
            let Some(stop) = self.way.pop() else {
                return Ok(());
            };
            self.step(graph, stop)?;
        }
        Ok(())
    }

    /// Goes to the next node, or back from this one.
    fn step(&mut self, graph: &Graph, stop: Stop) -> Result<(), Memory> {
        let mut stop = stop;
        let node = stop.node;
        let ranges = graph.next(node);
        let Some(next) = stop.next(ranges) else {
            self.leave(node);
            return Ok(());
        };
        self.way.push(stop)?;
        let mark = self.mark(next);
        if mark.found == 0 {
            return self.find(next);
        }
        if mark.component.is_none() {
            self.reaches(node, mark.found);
        }
        Ok(())
    }

    /// Notes that a node leads to one that was found then.
    fn reaches(&mut self, node: u32, found: u32) {
        if let Some(mark) = self.marks.get_mut(node as usize) {
            mark.earliest = mark.earliest.min(found);
        }
    }

    /// Goes back from a node. Where it leads to none that was found earlier, those found since are its component.
    fn leave(&mut self, node: u32) {
        let mark = self.mark(node);
        if mark.earliest == mark.found {
            self.close(node);
        }
        if let Some(stop) = self.way.last() {
            let before = stop.node;
            self.reaches(before, mark.earliest);
        }
    }

    fn close(&mut self, first: u32) {
        for _ in 0..self.open.len() {
            let Some(node) = self.open.pop() else {
                break;
            };
            let component = Some(self.components);
            if let Some(mark) = self.marks.get_mut(node as usize) {
                mark.component = component;
            }
            if node == first {
                break;
            }
        }
        self.components = self.components.saturating_add(1);
    }
}

/// The component of a node.
pub fn component_of(components: &[u32], node: u32) -> u32 {
    components.get(node as usize).copied().unwrap_or(0)
}

/// The graph of these edges, which stand in the order of the nodes that they begin at.
pub fn graph_of(alloc: Global, edges: &[Edge]) -> Result<Graph, Memory> {
    let mut graph = Graph::new(alloc);
    for edge in edges {
        graph.lead(
            edge.from,
            Place {
                first: edge.to,
                width: 1,
            },
        )?;
    }
    Ok(graph)
}

/// The least offset of an edge whose end leads back to its beginning. The edges stand in the order of the nodes that they begin at.
pub fn leading_back(alloc: Global, nodes: u32, edges: &[Edge]) -> Result<Option<u64>, Memory> {
    let graph = graph_of(alloc, edges)?;
    let components = components(alloc, &graph, nodes)?;
    let mut least = None;
    for edge in edges {
        if component_of(&components, edge.from) == component_of(&components, edge.to) {
            least = match least {
                Some(at) if at <= edge.at => Some(at),
                _ => Some(edge.at),
            };
        }
    }
    Ok(least)
}
