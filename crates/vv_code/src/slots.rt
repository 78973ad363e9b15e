//! Code that is being made, with the slots of what a function declares.

use crate::code::{Instr, MarkAt};
use std::alloc::Global;
use vv_base::fault::Memory;
use vv_held::held::narrow;
use vv_held::{Entry, Env, Shape};
use vv_typed::TypeMark;
use vv_types::BaseType;

/// A loop that is open: where its next turn begins, and where jumps to its end stand.
#[derive(Drop)]
pub struct Open {
    pub next: usize,
    pub holes: Vec<usize>,
}

/// A type that the function declares, with the type of its scalars: its own, or that of the elements of an array.
#[derive(Clone, Copy)]
pub struct LocalMark {
    pub decl: u32,
    pub base: BaseType,
}

/// Code that is being made.
#[derive(Drop)]
pub struct Coding<'t> {
    pub alloc: Global,
    pub env: &'t Env<'t>,
    pub instrs: Vec<Instr<'t>>,
    pub names: Vec<u32>,
    pub marks: Vec<LocalMark>,
    pub loops: Vec<Open>,
}

impl<'t> Coding<'t> {
    pub fn new(alloc: Global, env: &'t Env<'t>) -> Coding<'t> {
        Coding {
            alloc,
            env,
            instrs: Vec::new(alloc),
            names: Vec::new(alloc),
            marks: Vec::new(alloc),
            loops: Vec::new(alloc),
        }
    }

    pub fn push(&mut self, instr: Instr<'t>) -> Result<(), Memory> {
        self.instrs.push(instr)?;
        Ok(())
    }

    /// The place of the next instruction.
    pub fn here(&self) -> usize {
        self.instrs.len()
    }

    /// Puts an instruction into a place that is already there.
    pub fn put(&mut self, place: usize, instr: Instr<'t>) {
        if place < self.instrs.len() {
            self.instrs[place] = instr;
        }
    }

    /// The slot of a declaration of the function.
    pub fn slot(&self, decl: u32) -> Option<u32> {
        for (k, name) in self.names.iter().enumerate() {
            if *name == decl {
                return u32::try_from(k).ok();
            }
        }
        None
    }

    /// The shape of an object without a value that no function declares.
    pub fn signal(&self, decl: u32) -> Option<Shape> {
        match (self.slot(decl), self.env.entry(decl)) {
            (None, Some(Entry::Signal(shape))) => Some(*shape),
            _ => None,
        }
    }

    /// A new slot for a declaration.
    pub fn add(&mut self, decl: u32) -> Result<u32, Memory> {
        let slot = narrow(self.names.len())?;
        self.names.push(decl)?;
        Ok(slot)
    }

    /// A new slot for a type that the function declares.
    pub fn add_mark(&mut self, decl: u32, base: BaseType) -> Result<u32, Memory> {
        self.marks.push(LocalMark { decl, base })?;
        self.add(decl)
    }

    /// The type of the scalars of a mark: its own, or that of the elements of an array.
    pub fn scalar_base(&self, mark: TypeMark) -> BaseType {
        for known in self.marks.as_slice() {
            if known.decl == mark.decl {
                return known.base;
            }
        }
        match self.env.entry(mark.decl) {
            Some(Entry::Mark(shape)) => shape.base,
            _ => BaseType::Logic,
        }
    }

    /// Where the shape of a mark is.
    pub fn mark(&self, mark: TypeMark) -> MarkAt {
        match self.slot(mark.decl) {
            Some(slot) => MarkAt::Slot(slot),
            None => match self.env.shape(mark) {
                Some(shape) => MarkAt::Fixed(shape),
                None => MarkAt::Unknown,
            },
        }
    }

    /// Where the shape of an array type is.
    pub fn mark_of(&self, base: BaseType) -> MarkAt {
        match base {
            BaseType::Array(decl) => self.mark(TypeMark { decl }),
            _ => MarkAt::Unknown,
        }
    }

    /// The type of the elements of an array type.
    pub fn element_base(&self, base: BaseType) -> BaseType {
        match base {
            BaseType::Array(decl) => self.scalar_base(TypeMark { decl }),
            _ => base,
        }
    }
}
