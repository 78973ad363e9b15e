//! Asynchronous controls, and which nets are derived ones.

use crate::inputs::Roles;
use std::alloc::Global;
use vv_base::fault::{Memory, Rule};
use vv_bits::S9;
use vv_design::{Arm, Design, Expr, Form, Net, Operator, Origin, Proc, Source, StmtForm};
use vv_reads::{
    Least, Level, Object, Template, add_statement_reads, is_logic, sole_if, start_of, whole_logic,
};
use vv_types::StdFn;

/// The sources of an element, as far as a derived control asks for them.
#[derive(Clone, Copy, Debug, PartialEq, Eq)]
enum Sources {
    None,
    /// One, of a process where it is a driver, that starts at this value.
    One {
        proc: Option<u32>,
        start: Option<S9>,
    },
    Several,
}

/// A net that a Comb process makes of another one, or of its opposite.
#[derive(Clone, Copy, Debug, PartialEq, Eq)]
struct Copied {
    to: u32,
    next: Option<u32>,
}

/// Which elements are derived controls, and the values at which elements with one source start.
#[derive(Drop)]
pub struct Derived {
    derived: Vec<bool>,
    sources: Vec<Sources>,
}

fn sources_of(alloc: Global, design: &Design, count: usize) -> Result<Vec<Sources>, Memory> {
    let mut sources = vec![in alloc; Sources::None; count]?;
    for source in design.sources.as_slice() {
        for elem in source.run.first..source.run.end() {
            if let Some(known) = sources.get_mut(elem as usize) {
                *known = with(*known, design, source, elem);
            }
        }
    }
    Ok(sources)
}

/// What is known of the sources of an element with one more.
fn with(known: Sources, design: &Design, source: &Source, elem: u32) -> Sources {
    if known != Sources::None {
        return Sources::Several;
    }
    let proc = match &source.from {
        Origin::Driver { proc, net: _ } => Some(*proc),
        Origin::Constant { net: _, values: _ } => None,
    };
    Sources::One {
        proc,
        start: start_of(design, source, elem),
    }
}

/// The elements of the scalar nets of `std_ulogic`.
fn scalars_of(alloc: Global, nets: &[Net], count: usize) -> Result<Vec<bool>, Memory> {
    let mut scalars = vec![in alloc; false; count]?;
    for net in nets {
        if is_logic(net.shape)
            && let Some(mark) = scalars.get_mut(net.first as usize)
        {
            *mark = true;
        }
    }
    Ok(scalars)
}

/// The element of the net whose value, or its opposite, is the one assignment of a process.
fn copied_by(nets: &[Net], proc: &Proc) -> Option<u32> {
    let [only] = proc.body.as_slice() else {
        return None;
    };
    let StmtForm::Signal { target: _, value } = &only.form else {
        return None;
    };
    Some(whole_logic(nets, positive(value))?.1)
}

/// The operand of a `not`, or the expression itself.
fn positive(e: &Expr) -> &Expr {
    match &e.form {
        Form::Apply {
            operator: Operator::Standard(StdFn::NotLogic),
            operands,
        } => operands.as_slice().first().unwrap_or(e),
        _ => e,
    }
}

/// Whether each of the controls is a scalar input of the top.
fn are_inputs(controls: &[Level], roles: &Roles) -> bool {
    for control in controls {
        if !roles.role(control.elem).input {
            return false;
        }
    }
    true
}

impl Derived {
    /// The derived controls of a design: scalar nets with one source, which is a Clocked process whose controls are inputs, or a Comb
    /// process that copies a derived control or its opposite, where the net starts at neither '0' nor '1'.
    pub fn of(
        alloc: Global,
        design: &Design,
        templates: &[Template],
        roles: &Roles,
    ) -> Result<Derived, Memory> {
        let nets = design.nets.as_slice();
        let count = roles.count();
        let mut made = Derived {
            derived: vec![in alloc; false; count]?,
            sources: sources_of(alloc, design, count)?,
        };
        let scalars = scalars_of(alloc, nets, count)?;
        let mut copies = Copies::new(alloc, count)?;
        let mut work = Vec::new(alloc);
        for (elem, sources) in made.sources.iter().enumerate() {
            if let Sources::One {
                proc: Some(proc),
                start,
            } = sources
                && scalars.get(elem) == Some(&true)
                && let Ok(elem) = u32::try_from(elem)
            {
                match templates.get(*proc as usize) {
                    Some(Template::Waits(_)) => work.push(elem)?,
                    Some(Template::Clocked { edge: _, controls }) => {
                        if are_inputs(controls.as_slice(), roles) {
                            work.push(elem)?;
                        }
                    }
                    Some(Template::Comb) if !is_level(*start) => {
                        if let Some(proc) = design.procs.get(*proc as usize)
                            && let Some(from) = copied_by(nets, proc)
                        {
                            copies.add(from, elem)?;
                        }
                    }
                    _ => {}
                }
            }
        }
        made.spread(&copies, work)?;
        Ok(made)
    }

    /// Marks elements, and the copies of marked ones.
    fn spread(&mut self, copies: &Copies, work: Vec<u32>) -> Result<(), Memory> {
        let mut work = work;
        for at in 0..self.derived.len() {
            let Some(elem) = work.get(at).copied() else {
                break;
            };
            if let Some(mark) = self.derived.get_mut(elem as usize) {
                *mark = true;
            }
            copies.add_to(elem, &mut work)?;
        }
        Ok(())
    }

    pub fn is_derived(&self, elem: u32) -> bool {
        self.derived.get(elem as usize) == Some(&true)
    }

    /// Whether an element with one source starts at a level.
    fn starts_at(&self, elem: u32, high: bool) -> bool {
        match self.sources.get(elem as usize) {
            Some(Sources::One { proc: _, start }) => {
                *start == Some(if high { S9::One } else { S9::Zero })
            }
            _ => false,
        }
    }
}

fn is_level(start: Option<S9>) -> bool {
    start == Some(S9::Zero) || start == Some(S9::One)
}

/// Which elements are copies of each element, as lists that are linked by number.
#[derive(Drop)]
struct Copies {
    firsts: Vec<Option<u32>>,
    all: Vec<Copied>,
}

impl Copies {
    fn new(alloc: Global, count: usize) -> Result<Copies, Memory> {
        Ok(Copies {
            firsts: vec![in alloc; None; count]?,
            all: Vec::new(alloc),
        })
    }

    fn add(&mut self, from: u32, to: u32) -> Result<(), Memory> {
        let number = u32::try_from(self.all.len()).map_err(|_| Memory)?;
        if let Some(first) = self.firsts.get_mut(from as usize) {
            let next = *first;
            *first = Some(number);
            self.all.push(Copied { to, next })?;
        }
        Ok(())
    }

    /// Adds the copies of an element.
    fn add_to(&self, from: u32, work: &mut Vec<u32>) -> Result<(), Memory> {
        let mut next = self.firsts.get(from as usize).copied().unwrap_or(None);
        for _ in 0..self.all.len() {
            let Some(number) = next else {
                break;
            };
            let Some(copied) = self.all.get(number as usize) else {
                break;
            };
            work.push(copied.to)?;
            next = copied.next;
        }
        Ok(())
    }
}

/// Notes the controls that cannot be ones.
pub fn check_controls(
    alloc: Global,
    design: &Design,
    templates: &[Template],
    roles: &Roles,
    derived: &Derived,
    least: &mut Least,
) -> Result<(), Memory> {
    for (proc, template) in design.procs.as_slice().iter().zip(templates) {
        match template {
            Template::Unfit | Template::Comb | Template::Waits(_) => {}
            Template::Clocked { edge: _, controls } => {
                check_levels(controls.as_slice(), roles, derived, least);
            }
            Template::Latch {
                enable: _,
                controls,
            } => {
                check_levels(controls.as_slice(), roles, derived, least);
                let arms = sole_if(proc.body.as_slice()).unwrap_or(&[]);
                check_arms(
                    alloc,
                    design,
                    controls.as_slice(),
                    arms,
                    roles,
                    derived,
                    least,
                )?;
            }
        }
    }
    Ok(())
}

/// Whether a control is a derived one, and no input.
fn is_inner(control: Level, roles: &Roles, derived: &Derived) -> bool {
    derived.is_derived(control.elem) && !roles.role(control.elem).input
}

fn check_levels(controls: &[Level], roles: &Roles, derived: &Derived, least: &mut Least) {
    let mut second = false;
    for control in controls {
        let role = roles.role(control.elem);
        let inner = is_inner(*control, roles, derived);
        let broken = !(role.input || inner)
            || role.control.both()
            || role.is_clocking()
            || inner && (second || derived.starts_at(control.elem, control.high));
        if broken {
            least.note(Rule::D4, control.span);
        }
        second = second || inner;
    }
}

/// Notes the derived controls of a latch whose arm reads a net.
fn check_arms(
    alloc: Global,
    design: &Design,
    controls: &[Level],
    arms: &[Arm],
    roles: &Roles,
    derived: &Derived,
    least: &mut Least,
) -> Result<(), Memory> {
    let nets = design.nets.as_slice();
    let mut reads = Vec::new(alloc);
    for (control, arm) in controls.iter().zip(arms) {
        if is_inner(*control, roles, derived) {
            add_statement_reads(nets, arm.body.as_slice(), &mut reads)?;
            for read in &reads {
                if let Object::Net(_) = read.object {
                    least.note(Rule::D4, control.span);
                }
            }
            reads.clear();
        }
    }
    Ok(())
}
