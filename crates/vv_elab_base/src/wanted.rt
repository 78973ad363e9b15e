//! Functions that have to be elaborated before what calls them.

use crate::keys::KeyPart;
use crate::making::Making;
use crate::sub::Sub;
use vv_base::fault::{Fault, Name, cannot_come};
use vv_held::Held;

/// A parameter, and what it is in a call.
#[derive(Drop)]
pub struct Param {
    pub decl: u32,
    pub name: Name,
    pub sub: Sub,
    pub value: ParamValue,
}

/// What a parameter is in a call: nothing yet, a static value, or an argument that is made.
#[derive(Drop)]
pub enum ParamValue {
    Absent,
    Held(Held),
    Made,
}

/// A function that has to be elaborated: its place among the bodies, the region, what tells it apart, and its parameters.
#[derive(Drop)]
pub struct Wanted {
    pub place: usize,
    pub region: u32,
    pub key: Vec<KeyPart>,
    pub params: Vec<Param>,
}

/// How much there was before something was tried.
#[derive(Clone, Copy, PartialEq, Eq)]
pub struct Start {
    pub nodes: u32,
    pub steps: u32,
    pub variable_elements: u32,
    pub region: u32,
    pub regions: u32,
    pub sources: usize,
    pub path: usize,
}

impl<'u> Making<'u> {
    /// Notes a function that a call wants, and gives the answer that stops what calls it. This is tried again from its start once the
    /// function is there.
    pub fn want(&mut self, wanted: Wanted) -> Fault {
        self.wanted = Some(wanted);
        Fault::from(cannot_come())
    }

    /// How much there is now.
    pub fn start(&self) -> Start {
        Start {
            nodes: self.nodes,
            steps: self.steps,
            variable_elements: self.variable_elements,
            region: self.region,
            regions: self.regions,
            sources: self.design.sources.len(),
            path: self.path.len(),
        }
    }

    /// Takes back all that came since a start, functions and large constants apart.
    pub fn back_to(&mut self, start: Start) {
        self.nodes = start.nodes;
        self.steps = start.steps;
        self.variable_elements = start.variable_elements;
        self.region = start.region;
        self.regions = start.regions;
        self.path.truncate(start.path);
        for _ in start.sources..self.design.sources.len() {
            let _ = self.design.sources.pop();
        }
    }
}
