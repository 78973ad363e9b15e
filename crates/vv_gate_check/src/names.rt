//! The names of the ports while a file of gates is gone through.
ghost use Rattle.std.specs.Prelude.{◌≡◌, ◌∷◌, [], IfOk, map, flat_map, None};
ghost use Rattle.vv_gate.specs.Tree.{ports_of_group};
ghost use Rattle.vv_gate.specs.View.{ident_of, group_of, term_of, assignment_of};
ghost use Rattle.vv_gate_check.specs.Places.{first, port_of, unknown_term};
ghost use Rattle.vv_gate_check.specs.Names.{inputs_in, names_in, Adds, Declares, Assigns, IsEmpty};

use std::alloc::{AllocError, Global};
use std::collections::HashSet;
use vv_gate::tree::{Assignment, Group, Ident, Operand, Term};
use vv_hash::{Seed, SeededState};

/// The names of the ports that may still stand in an assignment.
#[derive(Drop)]
pub(crate) struct Names<'a> {
    /// The in ports.
    inputs: HashSet<&'a [u8], SeededState>,
    /// The out ports that aren't assigned yet.
    outputs: HashSet<&'a [u8], SeededState>,
}

/// How many ports of a direction the groups have.
fn count(groups: &[Group<'_>], input: bool) -> usize {
    let mut ports: usize = 0;
    for group in groups {
        if group.input == input {
            ports = ports.saturating_add(group.idents.len());
        }
    }
    ports
}

fn draw_on(seed: &mut Seed, group: &Group<'_>) {
    for ident in &group.idents {
        seed.add(ident.text);
    }
}

/// The seed of the names of the groups.
fn seed(groups: &[Group<'_>]) -> Seed {
    let mut seed = Seed::new();
    for group in groups {
        draw_on(&mut seed, group);
    }
    seed
}

/// Adds a name, or answers its place if these names or the others have it.
fn add<'a>(
    names: &mut HashSet<&'a [u8], SeededState>,
    others: &HashSet<&'a [u8], SeededState>,
    ident: &Ident<'a>,
) -> Result<Option<usize>, AllocError>
    ensures { IfOk result (Adds (ident_of ident.now) (names_in others.now) (names_in names.old) (names_in names.new)) }
{
    if others.contains(ident.text) || !names.insert(ident.text)? {
        return Ok(Some(ident.at));
    }
    Ok(None)
}

impl<'a> Names<'a> {
    /// No names, with room for those of the groups.
    pub(crate) fn new(alloc: Global, groups: &[Group<'_>]) -> Result<Self, AllocError>
        ensures { IfOk result IsEmpty }
    {
        let state = seed(groups).state();
        Ok(Names {
            inputs: HashSet::with_capacity_and_hasher(alloc, count(groups, true), state)?,
            outputs: HashSet::with_capacity_and_hasher(alloc, count(groups, false), state)?,
        })
    }

    /// Adds a port, or answers its place if its name is there.
    fn declare(&mut self, ident: &Ident<'a>, input: bool) -> Result<Option<usize>, AllocError>
        ensures { IfOk result (Declares (port_of input (ident_of ident.now) ∷ []) self.old self.new) }
    {
        if input {
            return add(&mut self.inputs, &self.outputs, ident);
        }
        add(&mut self.outputs, &self.inputs, ident)
    }

    /// Adds the ports of a group, up to the first whose name is there.
    fn declare_group(&mut self, group: &Group<'a>) -> Result<Option<usize>, AllocError>
        ensures { IfOk result (Declares (ports_of_group (group_of group.now)) self.old self.new) }
    {
        for ident in &group.idents {
            let place = self.declare(ident, group.input)?;
            if place.is_some() {
                return Ok(place);
            }
        }
        Ok(None)
    }

    /// Adds all ports, up to the first whose name stood before.
    pub(crate) fn declare_all(&mut self, groups: &[Group<'a>]) -> Result<Option<usize>, AllocError>
        ensures { IfOk result (Declares (flat_map ports_of_group (map group_of groups.now)) self.old self.new) }
    {
        for group in groups {
            let place = self.declare_group(group)?;
            if place.is_some() {
                return Ok(place);
            }
        }
        Ok(None)
    }

    /// The place of a term whose operand is no in port.
    fn unknown(&self, term: &Term<'_>) -> Option<usize>
        ensures { result ≡ first (unknown_term (inputs_in self.now) (term_of term.now)) }
    {
        match term.operand {
            Operand::Low | Operand::High => None,
            Operand::Port(ident) => if self.inputs.contains(ident.text) {
                None
            } else {
                Some(ident.at)
            },
        }
    }

    fn first_unknown(&self, terms: &[Term<'_>]) -> Option<usize>
        ensures { result ≡ first (flat_map (unknown_term (inputs_in self.now)) (map term_of terms.now)) }
    {
        for term in terms {
            let place = self.unknown(term);
            if place.is_some() {
                return place;
            }
        }
        None
    }

    /// Takes out the target of an assignment, and answers the assignment's first broken place.
    fn assign(&mut self, assignment: &Assignment<'_>) -> Option<usize>
        ensures { Assigns (assignment_of assignment.now ∷ []) self.old self.new result }
    {
        if !self.outputs.remove(assignment.target.text) {
            return Some(assignment.target.at);
        }
        self.first_unknown(&assignment.terms)
    }

    /// Goes through the assignments, up to the first broken place.
    pub(crate) fn assign_all(&mut self, assignments: &[Assignment<'_>]) -> Option<usize>
        ensures { Assigns (map assignment_of assignments.now) self.old self.new result }
    {
        for assignment in assignments {
            let place = self.assign(assignment);
            if place.is_some() {
                return place;
            }
        }
        None
    }
}
