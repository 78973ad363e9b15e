//! How the conditions of processes use the elements of a design.

use std::alloc::Global;
use vv_base::fault::Memory;
use vv_design::{Class, Design};
use vv_reads::{EdgeForm, Level, Template, is_logic};

/// How an element is used: whether it is that of a scalar input of the top, and whether some process has it as a clock, as a clock with
/// a rising edge, or as an enable or a control with one level and the other.
#[derive(Clone, Copy, Debug, PartialEq, Eq)]
pub struct Role {
    pub input: bool,
    pub clock: bool,
    pub rising: bool,
    pub enable: Levels,
    pub control: Levels,
}

/// With which levels an element is used.
#[derive(Clone, Copy, Debug, PartialEq, Eq)]
pub struct Levels {
    pub low: bool,
    pub high: bool,
}

impl Levels {
    fn none() -> Levels {
        Levels {
            low: false,
            high: false,
        }
    }

    fn add(&mut self, high: bool) {
        if high {
            self.high = true;
        } else {
            self.low = true;
        }
    }

    pub fn some(self) -> bool {
        self.low || self.high
    }

    pub fn both(self) -> bool {
        self.low && self.high
    }
}

impl Role {
    fn none() -> Role {
        Role {
            input: false,
            clock: false,
            rising: false,
            enable: Levels::none(),
            control: Levels::none(),
        }
    }

    /// Whether it is a clock or an enable.
    pub fn is_clocking(self) -> bool {
        self.clock || self.enable.some()
    }

    /// The class of an input.
    fn class(self) -> Class {
        if self.clock {
            Class::Clock(!self.rising)
        } else if self.enable.some() {
            Class::Clock(!self.enable.high)
        } else if self.control.some() {
            Class::Control(!self.control.high)
        } else {
            Class::Data
        }
    }
}

/// The roles of the elements.
#[derive(Drop)]
pub struct Roles {
    roles: Vec<Role>,
}

impl Roles {
    /// The roles in a design whose processes have these templates.
    pub fn of(alloc: Global, design: &Design, templates: &[Template]) -> Result<Roles, Memory> {
        let count = design.elements as usize;
        let mut roles = Roles {
            roles: vec![in alloc; Role::none(); count]?,
        };
        for port in design.top.as_slice() {
            if port.input
                && let Some(net) = design.nets.get(port.net as usize)
                && is_logic(net.shape)
                && let Some(role) = roles.roles.get_mut(net.first as usize)
            {
                role.input = true;
            }
        }
        for template in templates {
            roles.add(template);
        }
        Ok(roles)
    }

    fn add(&mut self, template: &Template) {
        match template {
            Template::Unfit | Template::Comb => {}
            Template::Waits(edge) => self.add_edge(*edge),
            Template::Clocked { edge, controls } => {
                self.add_edge(*edge);
                self.add_controls(controls.as_slice());
            }
            Template::Latch { enable, controls } => {
                if let Some(role) = self.roles.get_mut(enable.elem as usize) {
                    role.enable.add(enable.high);
                }
                self.add_controls(controls.as_slice());
            }
        }
    }

    fn add_edge(&mut self, edge: EdgeForm) {
        if let Some(role) = self.roles.get_mut(edge.elem as usize) {
            role.clock = true;
            role.rising = role.rising || edge.rising;
        }
    }

    fn add_controls(&mut self, controls: &[Level]) {
        for control in controls {
            if let Some(role) = self.roles.get_mut(control.elem as usize) {
                role.control.add(control.high);
            }
        }
    }

    /// How many elements there are.
    pub fn count(&self) -> usize {
        self.roles.len()
    }

    /// The role of an element.
    pub fn role(&self, elem: u32) -> Role {
        match self.roles.get(elem as usize) {
            Some(role) => *role,
            None => Role::none(),
        }
    }

    /// Which elements are clocks or enables.
    pub fn clocking(&self, alloc: Global) -> Result<Vec<bool>, Memory> {
        let mut marks = Vec::new(alloc);
        for role in &self.roles {
            marks.push(role.is_clocking())?;
        }
        Ok(marks)
    }

    /// The class of the input with this net.
    pub fn class(&self, design: &Design, net: u32) -> Class {
        match design.nets.get(net as usize) {
            Some(net) if is_logic(net.shape) => self.role(net.first).class(),
            _ => Class::Data,
        }
    }
}
