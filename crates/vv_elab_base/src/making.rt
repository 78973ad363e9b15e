//! A design that is being made.

use crate::drivers::Marks;
use crate::keys::KeyPart;
use crate::known::{Known, NOTHING, Object};
use crate::specialisations::Special;
use crate::sub::{Sub, shape_of};
use crate::wanted::Wanted;
use sqlite_items::Items;
use std::alloc::Global;
use vv_base::fault::{Fault, Memory, Rule, Span};
use vv_design::{Design, Expr, Form, LocalList, VarList};
use vv_held::held::{misfit, narrow, ordinal, refused};
use vv_held::{Entry, Env, Held, Shape as Extent};
use vv_static::{fold, fold_links};
use vv_typed::{TypeMark, Typed, Units};
use vv_types::{BaseType, Bounds, Value};

/// The most elements of nets and variables, and the steps of static evaluation.
pub const MOST_ELEMENTS: u32 = 1048576;

/// The most statements and expressions.
pub const MOST_NODES: u32 = 4194304;

/// Arrays with more scalars than these stand in the list of constants.
const SMALL: u32 = 64;

/// An expression of the design with its subtype.
#[derive(Drop)]
pub struct Made {
    pub expr: Expr,
    pub sub: Sub,
}

/// What is known of a function by itself: whether it is plain, whether it names only what packages have, and which functions it calls.
#[derive(Drop)]
pub struct Plainness {
    pub is_plain: bool,
    pub is_closed: bool,
    pub callees: Vec<u32>,
}

/// A function that is elaborated: what tells it apart, its number in the design, its nodes and its result.
#[derive(Drop)]
pub struct Elaborated {
    pub region: u32,
    pub key: Vec<KeyPart>,
    pub number: u32,
    pub nodes: u32,
    pub result: Sub,
}

/// A function that is being elaborated: the subtype of its result, what its first return gave, and its variables.
#[derive(Drop)]
pub struct Frame {
    pub result: Sub,
    pub returned: Option<Sub>,
    pub locals: LocalList,
}

/// The state of elaboration. `marks` tells for each net what drives its elements, as far as something drives one. `place` is the
/// innermost statement or declaration. `tries` counts how often processes were begun. `wanted` is a function for which a process or a
/// function waits. `region` tells the regions apart that are elaborated. `variables` is the number of the next
/// variable, and `variable_elements` how many elements the variables have.
#[derive(Drop)]
pub struct Making<'u> {
    pub alloc: Global,
    pub units: &'u Units,
    pub env: Env<'u>,
    pub known: Vec<Known>,
    pub plain: Vec<Plainness>,
    pub elaborated: Vec<Vec<Elaborated>>,
    pub specials: Vec<Special>,
    pub design: Design,
    pub marks: Vec<Marks>,
    pub variable_elements: u32,
    pub nodes: u32,
    pub steps: u32,
    pub place: Span,
    pub region: u32,
    pub regions: u32,
    pub path: Vec<u8>,
    pub inst: u32,
    pub round: Vec<u32>,
    pub variables: u32,
    pub vars: VarList,
    pub frame: Option<Frame>,
    pub wanted: Option<Wanted>,
    pub tries: u32,
}

/// The number of a thing that is about to be pushed.
pub fn next_number(len: usize) -> Result<u32, Memory> {
    narrow(len)
}

impl<'u> Making<'u> {
    pub fn new(alloc: Global, units: &'u Units) -> Making<'u> {
        Making {
            alloc,
            units,
            env: Env {
                entries: Items::new(alloc),
                bodies: units.functions.as_slice(),
            },
            known: Vec::new(alloc),
            plain: Vec::new(alloc),
            elaborated: Vec::new(alloc),
            specials: Vec::new(alloc),
            design: Design {
                insts: Items::new(alloc),
                nets: Items::new(alloc),
                sources: Items::new(alloc),
                constants: Items::new(alloc),
                functions: Items::new(alloc),
                procs: Items::new(alloc),
                top: Items::new(alloc),
                elements: 0,
            },
            marks: Vec::new(alloc),
            variable_elements: 0,
            nodes: 0,
            steps: MOST_ELEMENTS,
            place: Span {
                file: 0,
                at: 0,
                len: 0,
            },
            region: 0,
            regions: 0,
            path: Vec::new(alloc),
            inst: 0,
            round: Vec::new(alloc),
            variables: 0,
            vars: Items::new(alloc),
            frame: None,
            wanted: None,
            tries: 0,
        }
    }

    // ---- declarations

    /// What is known of a declaration.
    pub fn known(&self, decl: u32) -> Known {
        match self.known.get(decl as usize) {
            Some(known) => *known,
            None => NOTHING,
        }
    }

    /// Notes what is known of a declaration, and what it stands for.
    pub fn note(&mut self, decl: u32, known: Known, entry: Entry) -> Result<(), Memory> {
        let place = decl as usize;
        for _ in self.known.len()..place.saturating_add(1) {
            self.known.push(NOTHING)?;
        }
        for _ in self.env.entries.len()..place.saturating_add(1) {
            self.env.entries.push(Entry::Unknown)?;
        }
        if place < self.known.len() {
            self.known[place] = known;
        }
        if place < self.env.entries.len() {
            self.env.entries.set(place, entry);
        }
        Ok(())
    }

    /// Notes an object with a static value. `range` is that of its subtype where it is a scalar.
    pub fn note_constant(
        &mut self,
        decl: u32,
        sub: Sub,
        held: Held,
        turn: bool,
    ) -> Result<(), Memory> {
        let mut known = NOTHING;
        known.sub = sub;
        known.turn = turn;
        known.package = self.region == 0;
        self.note(decl, known, Entry::Constant(held))
    }

    /// Notes an object without a static value.
    pub fn note_object(&mut self, decl: u32, sub: Sub, object: Object) -> Result<(), Memory> {
        let mut known = NOTHING;
        known.sub = sub;
        known.object = object;
        self.note(decl, known, Entry::Signal(sub.extent))
    }

    /// The subtype of a type mark.
    pub fn mark(&self, mark: TypeMark) -> Sub {
        self.known(mark.decl).sub
    }

    /// A new region.
    pub fn new_region(&mut self) -> u32 {
        self.regions = self.regions.saturating_add(1);
        self.regions
    }

    // ---- limits

    /// Counts a statement or an expression.
    pub fn node(&mut self) -> Result<(), Fault> {
        self.more_nodes(1)
    }

    pub fn more_nodes(&mut self, n: u32) -> Result<(), Fault> {
        self.nodes = self.nodes.saturating_add(n);
        if self.nodes > MOST_NODES {
            return Err(refused(Rule::E7, self.place));
        }
        Ok(())
    }

    /// Counts elements of a net, and gives the number of the first.
    pub fn claim_net(&mut self, n: u32, span: Span) -> Result<u32, Fault> {
        let first = self.design.elements;
        self.design.elements = first.saturating_add(n);
        self.few_elements(span)?;
        Ok(first)
    }

    /// Counts elements of a variable.
    pub fn claim_variable(&mut self, n: u32, span: Span) -> Result<(), Fault> {
        self.variable_elements = self.variable_elements.saturating_add(n);
        self.few_elements(span)
    }

    fn few_elements(&self, span: Span) -> Result<(), Fault> {
        if self.design.elements.saturating_add(self.variable_elements) > MOST_ELEMENTS {
            return Err(refused(Rule::E7, span));
        }
        Ok(())
    }

    /// Takes a step.
    pub fn spend(&mut self, span: Span) -> Result<(), Fault> {
        match self.steps.checked_sub(1) {
            Some(left) => {
                self.steps = left;
                Ok(())
            }
            None => Err(refused(Rule::E3, span)),
        }
    }

    // ---- static values

    /// The value of a static expression.
    pub fn fold(&mut self, e: &Typed, wanted: Option<Extent>) -> Result<Held, Fault> {
        let mut steps = self.steps;
        let outcome = fold(self.alloc, e, wanted, &self.env, &mut steps);
        self.steps = steps;
        outcome
    }

    /// The value of the first operand with the first links.
    pub fn fold_links(&mut self, e: &Typed, links: usize) -> Result<Held, Fault> {
        let mut steps = self.steps;
        let outcome = fold_links(self.alloc, e, links, &self.env, &mut steps);
        self.steps = steps;
        outcome
    }

    /// The subtype of a value of a base type. A scalar has the range of its value alone.
    pub fn sub_of(&self, base: BaseType, held: &Held) -> Sub {
        match base {
            BaseType::Array(decl) => {
                let mark = self.known(decl).sub;
                let mut extent = mark.extent;
                extent.outer = held.outer;
                if extent.levels > 1 && held.inner.is_some() {
                    extent.inner = held.inner;
                }
                Sub { base, extent }
            }
            _ => match ordinal(&held.value) {
                Some(n) => Sub::scalar(base, crate::sub::only(n)),
                None => Sub::scalar(base, crate::sub::whole_range(self, base)),
            },
        }
    }

    /// An expression that is a value.
    pub fn value(&self, held: Held, base: BaseType, span: Span) -> Made {
        let sub = self.sub_of(base, &held);
        Made {
            expr: Expr {
                form: Form::Value(held.value),
                shape: shape_of(self, sub),
                span,
            },
            sub,
        }
    }

    /// An expression that is a number.
    pub fn number(&self, n: i32, span: Span) -> Made {
        self.value(Held::scalar(Value::Int(n)), BaseType::Int, span)
    }

    /// A named constant. A large one stands in the list of constants.
    pub fn constant(&mut self, decl: u32, base: BaseType, span: Span) -> Result<Made, Fault> {
        let (held, known) = match self.env.entry(decl) {
            Some(Entry::Constant(held)) => (held, self.known(decl)),
            _ => return Err(misfit()),
        };
        let sub = self.sub_of(base, held);
        if sub.size() <= SMALL {
            let held = held.copy(self.alloc)?;
            return Ok(self.value(held, base, span));
        }
        let number = match known.constant {
            Some(number) => number,
            None => {
                let value = held.value.copy(self.alloc)?;
                let number = next_number(self.design.constants.len())?;
                self.design.constants.push(value)?;
                if (decl as usize) < self.known.len() {
                    self.known[decl as usize].constant = Some(number);
                }
                number
            }
        };
        Ok(Made {
            expr: Expr {
                form: Form::Constant(number),
                shape: shape_of(self, sub),
                span,
            },
            sub,
        })
    }
}

/// The bounds of an array, which has some.
pub fn outer_of(sub: Sub) -> Result<Bounds, Fault> {
    match sub.extent.outer {
        Some(bounds) => Ok(bounds),
        None => Err(misfit()),
    }
}
