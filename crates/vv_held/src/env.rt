//! What static evaluation knows of declarations.

use crate::held::Held;
use crate::shape::Shape;
use sqlite_items::{Items, at};
use vv_typed::{FnBody, TypeMark};

/// What a declaration stands for. A function has its place among the bodies.
#[derive(Drop)]
pub enum Entry {
    Unknown,
    Constant(Held),
    Signal(Shape),
    Mark(Shape),
    Function(u32),
}

/// The entries of declarations by their numbers, and the bodies of functions.
#[derive(Drop)]
pub struct Env<'u> {
    pub entries: Items<Entry>,
    pub bodies: &'u [FnBody],
}

impl<'u> Env<'u> {
    /// What a declaration stands for.
    pub fn entry(&self, decl: u32) -> Option<&Entry> {
        self.entries.get(decl as usize)
    }

    /// The body of a function.
    pub fn body(&self, decl: u32) -> Option<&'u FnBody> {
        match self.entry(decl) {
            Some(Entry::Function(place)) => at(self.bodies, *place as usize),
            _ => None,
        }
    }

    /// The shape of a type mark that no function declares.
    pub fn shape(&self, mark: TypeMark) -> Option<Shape> {
        match self.entry(mark.decl) {
            Some(Entry::Mark(shape)) => Some(*shape),
            _ => None,
        }
    }
}
