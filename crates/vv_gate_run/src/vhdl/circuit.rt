//! A file of gates as its nets and processes.
ghost use Rattle.std.specs.Prelude.{◌≡◌, ◌∷◌, [], map, Some, option_map, slice_get, IfOk};
ghost use Rattle.vv_cycle.specs.Processes as processes;
ghost use Rattle.vv_cycle.specs.Turns as turns;
ghost use Rattle.vv_cycle.specs.Rows as rows;
ghost use Rattle.vv_gate.specs.Tree.{ports_of};
ghost use Rattle.vv_gate.specs.View.{file_of, operand_of, term_of, assignment_of};
ghost use Rattle.vv_gate_vhdl.specs.Design as design;
ghost use Rattle.vv_gate_run.specs.Circuit.{ports_in, assignments_in, design_of, is_idle, resolved, is_woken, woken_part, input_on};
ghost use Rattle.vv_gate_run.specs.Vhdl.{part_of, entry_of};

use crate::ports::{Port, net_of, ports};
use crate::vhdl::signals::resolution;
use crate::vhdl::{Entry, Part};
use std::alloc::{AllocError, Global};
use vv_bits::S9;
use vv_gate::tree::{Assignment, GateFile, Operand, Term};

/// The ports are the nets, and each assignment is a process.
#[derive(Drop)]
pub(crate) struct Circuit<'f, 'a> {
    pub ports: Vec<Port<'a>>,
    pub assignments: &'f [Assignment<'a>],
}

impl<'f, 'a> Circuit<'f, 'a> {
    pub(crate) fn new(alloc: Global, file: &'f GateFile<'a>) -> Result<Self, AllocError>
        ensures ports { IfOk result (λ c. ports_in c ≡ ports_of (file_of file.now)) }
        ensures assignments { IfOk result (λ c. assignments_in c ≡ (file_of file.now).assignments) }
        ensures design { IfOk result (λ c. design_of c ≡ design.gate_design (file_of file.now)) }
    {
        Ok(Circuit {
            ports: ports(alloc, file)?,
            assignments: &file.assignments,
        })
    }

    fn target(&self, assignment: &Assignment<'_>) -> usize
        ensures { result ≡ design.target_net (ports_in self.now) (assignment_of assignment.now) }
    {
        net_of(&self.ports, assignment.target.text)
    }

    /// Whether some assignment targets the net.
    pub(crate) fn is_assigned(&self, net: usize) -> bool
        ensures { result ≡ design.is_assigned (ports_in self.now) (assignments_in self.now) net }
    {
        for assignment in self.assignments {
            if self.target(assignment) == net {
                return true;
            }
        }
        false
    }

    /// Whether the net is an out port that no assignment targets.
    fn is_idle(&self, net: usize) -> bool
        ensures { result ≡ is_idle (ports_in self.now) (assignments_in self.now) net }
    {
        match self.ports.get(net) {
            Some(port) => !port.input && !self.is_assigned(net),
            None => false,
        }
    }

    /// The drivers of a net in all processes.
    fn drivers(&self, alloc: Global, parts: &[Part], net: usize) -> Result<Vec<S9>, AllocError>
        ensures { IfOk result (λ v. v.items ≡ processes.drivers_of (design_of self.now).processes (map part_of parts.now) net) }
    {
        let mut drivers = Vec::new(alloc);
        for (assignment, part) in self.assignments.iter().zip(parts) {
            if self.target(assignment) == net {
                drivers.push(part.driver)?;
            }
        }
        Ok(drivers)
    }

    /// The drivers of a net, and the constant source of an out port that no assignment targets.
    fn sources(&self, alloc: Global, parts: &[Part], net: usize) -> Result<Vec<S9>, AllocError>
        ensures { IfOk result (λ v. v.items ≡ processes.sources_of (design_of self.now) (map part_of parts.now) net) }
    {
        let mut sources = self.drivers(alloc, parts, net)?;
        if self.is_idle(net) {
            sources.push(S9::U)?;
        }
        Ok(sources)
    }

    fn has_source(&self, net: usize) -> bool
        ensures { result ≡ processes.has_source (design_of self.now) net }
    {
        self.is_assigned(net) || self.is_idle(net)
    }

    /// The resolution of the sources of a net, or this value where it has no source.
    fn resolved(
        &self,
        alloc: Global,
        parts: &[Part],
        net: usize,
        value: S9,
    ) -> Result<S9, AllocError>
        ensures { IfOk result (λ v. v ≡ resolved (design_of self.now) (map part_of parts.now) net value) }
    {
        if !self.has_source(net) {
            return Ok(value);
        }
        let sources = self.sources(alloc, parts, net)?;
        Ok(resolution(&sources))
    }

    /// Of each net the resolution of its sources, or this value where it has no source.
    pub(crate) fn resolutions(
        &self,
        alloc: Global,
        parts: &[Part],
        values: &[S9],
    ) -> Result<Vec<S9>, AllocError>
        ensures { IfOk result (λ v. v.items ≡ turns.resolutions (design_of self.now) (map part_of parts.now) 0 values.now) }
    {
        let mut resolved = Vec::new(alloc);
        for (net, value) in values.iter().enumerate() {
            resolved.push(self.resolved(alloc, parts, net, *value)?)?;
        }
        Ok(resolved)
    }

    /// Whether the operand has an event.
    fn has_event(&self, operand: &Operand<'_>, events: &[bool]) -> bool
        ensures { result ≡ turns.any_at (design.operand_nets (ports_in self.now) (operand_of operand.now) []) events.now }
    {
        match operand {
            Operand::Low | Operand::High => false,
            Operand::Port(ident) => {
                let net = net_of(&self.ports, ident.text);
                events.get(net).copied().unwrap_or(false)
            }
        }
    }

    /// Whether some operand has an event.
    fn any_event(&self, terms: &[Term<'_>], events: &[bool]) -> bool
        ensures { result ≡ turns.any_at (design.term_nets (ports_in self.now) (map term_of terms.now)) events.now }
    {
        for term in terms {
            if self.has_event(&term.operand, events) {
                return true;
            }
        }
        false
    }

    /// Whether the process with this number is sensitive to an event.
    fn is_woken(&self, process: usize, events: &[bool]) -> bool
        ensures { result ≡ is_woken (slice_get (design_of self.now).processes process) events.now }
    {
        match self.assignments.get(process) {
            Some(assignment) => self.any_event(&assignment.terms, events),
            None => false,
        }
    }

    /// The part of the process with this number, which an event makes ready.
    fn woken(&self, process: usize, part: Part, events: &[bool]) -> Part
        ensures { part_of result ≡ woken_part (part_of part) (is_woken (slice_get (design_of self.now).processes process) events.now) }
    {
        Part {
            ready: part.ready || self.is_woken(process, events),
            driver: part.driver,
        }
    }

    /// The processes that are sensitive to an event are ready.
    pub(crate) fn readied(
        &self,
        alloc: Global,
        parts: &[Part],
        events: &[bool],
    ) -> Result<Vec<Part>, AllocError>
        ensures { IfOk result (λ v. map part_of v.items ≡ turns.readied (design_of self.now).processes events.now (map part_of parts.now)) }
    {
        let mut readied = Vec::new(alloc);
        for (process, part) in parts.iter().enumerate() {
            readied.push(self.woken(process, *part, events))?;
        }
        Ok(readied)
    }

    /// Every process is ready once, and drives its target with U.
    pub(crate) fn first_parts(&self, alloc: Global) -> Result<Vec<Part>, AllocError>
        ensures { IfOk result (λ v. map part_of v.items ≡ rows.first_parts (design_of self.now).processes) }
    {
        let mut parts = Vec::new(alloc);
        for _assignment in self.assignments {
            parts.push(Part {
                ready: true,
                driver: S9::U,
            })?;
        }
        Ok(parts)
    }

    /// The initial value of each net.
    pub(crate) fn initial(&self, alloc: Global) -> Result<Vec<S9>, AllocError>
        ensures { IfOk result (λ v. v.items ≡ (design_of self.now).initial) }
    {
        let values = vec![in alloc; S9::U; self.ports.len()]?;
        Ok(values)
    }

    /// The net of an input.
    pub(crate) fn net_of_input(&self, input: usize) -> Option<usize>
        ensures { slice_get (design_of self.now).inputs input ≡ option_map input_on result }
    {
        let mut left = input;
        for (net, port) in self.ports.iter().enumerate() {
            if port.input {
                if left == 0 {
                    return Some(net);
                }
                left -= 1;
            }
        }
        None
    }

    /// The net of an entry's input takes the entry's value.
    fn enter(&self, values: &mut Vec<S9>, entry: Entry)
        ensures { values.new.items ≡ rows.put_input (slice_get (design_of self.now).inputs entry.input) (entry.value ∷ []) values.old.items }
    {
        if let Some(net) = self.net_of_input(entry.input) {
            if let Some(value) = values.get_mut(net) {
                *value = entry.value;
            }
        }
    }

    /// The values after the entries, one after another.
    pub(crate) fn entered(
        &self,
        alloc: Global,
        values: &[S9],
        entries: &[Entry],
    ) -> Result<Vec<S9>, AllocError>
        ensures { IfOk result (λ v. v.items ≡ rows.entered (design_of self.now) (map entry_of entries.now) values.now) }
    {
        let mut entered = Vec::from_slice(alloc, values)?;
        for entry in entries {
            self.enter(&mut entered, *entry);
        }
        Ok(entered)
    }
}
