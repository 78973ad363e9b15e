//! How statements assign the registers of a process: which ones, whether a path assigns a scalar twice, and whether the first
//! assignment is to all of it.

use crate::drivers::Driven;
use sqlite_items::Items;
use std::alloc::Global;
use vv_base::fault::Memory;
use vv_design::{Part, Stmt, StmtForm, Target};

/// How a register is assigned.
#[derive(Clone, Copy)]
pub struct Assigned {
    pub used: bool,
    pub twice: bool,
    pub begins_whole: bool,
}

pub type AssignedList = Vec<Assigned>;

/// How statements assign registers of these spans, which stand in order of their nets.
pub fn assigned_by(
    alloc: Global,
    spans: &[Driven],
    stmts: &[Stmt],
) -> Result<AssignedList, Memory> {
    let none = Assigned {
        used: false,
        twice: false,
        begins_whole: false,
    };
    let mut offsets = Items::new(alloc);
    let mut size = 0u32;
    for span in spans {
        offsets.push(size)?;
        size = size.saturating_add(span.count);
    }
    let mut search = Search {
        alloc,
        spans,
        offsets,
        marks: vec![in alloc; false; size as usize]?,
        seen: Items::new(alloc),
        found: vec![in alloc; none; spans.len()]?,
    };
    search.stmts(stmts, false)?;
    let Search { found, .. } = search;
    Ok(found)
}

/// Scalars of a register, by its number.
#[derive(Clone, Copy)]
struct Reached {
    register: usize,
    first: u32,
    count: u32,
}

/// What the statements before may have assigned on this path, also as a mark for each scalar of each register, and what is found.
#[derive(Drop)]
struct Search<'d> {
    alloc: Global,
    spans: &'d [Driven],
    offsets: Items<u32>,
    marks: Vec<bool>,
    seen: Items<Reached>,
    found: Vec<Assigned>,
}

impl Search<'_> {
    #[cycle(search)]
    fn stmts(&mut self, stmts: &[Stmt], nested: bool) -> Result<(), Memory> {
        for stmt in stmts {
            self.stmt(stmt, nested)?;
        }
        Ok(())
    }

    #[cycle(search)]
    fn stmt(&mut self, stmt: &Stmt, nested: bool) -> Result<(), Memory> {
        let before = self.seen.len();
        let mut later = Items::new(self.alloc);
        match &stmt.form {
            StmtForm::Signal { target, value: _ } => return self.assignment(target, nested),
            StmtForm::If { arms, otherwise } => {
                for arm in arms.as_slice() {
                    self.stmts(arm.body.as_slice(), true)?;
                    self.put_aside(before, &mut later)?;
                }
                self.stmts(otherwise.as_slice(), true)?;
            }
            StmtForm::Case {
                selector: _,
                alternatives,
            } => {
                for alternative in alternatives.as_slice() {
                    self.stmts(alternative.body.as_slice(), true)?;
                    self.put_aside(before, &mut later)?;
                }
            }
            StmtForm::Variable {
                target: _,
                value: _,
            }
            | StmtForm::Return(_)
            | StmtForm::WaitUntil(_) => {}
        }
        self.put_aside(before, &mut later)?;
        self.take_up(later)
    }

    /// Puts aside what was assigned behind the first `before` ones.
    fn put_aside(&mut self, before: usize, later: &mut Items<Reached>) -> Result<(), Memory> {
        for _ in before..self.seen.len() {
            if let Some(reached) = self.seen.pop() {
                self.mark(reached, false);
                later.push(reached)?;
            }
        }
        Ok(())
    }

    /// Takes up what was put aside.
    fn take_up(&mut self, later: Items<Reached>) -> Result<(), Memory> {
        for reached in later.as_slice() {
            self.mark(*reached, true);
        }
        Ok(self.seen.append(later)?)
    }

    /// Notes an assignment.
    fn assignment(&mut self, target: &Target, nested: bool) -> Result<(), Memory> {
        let Some(reached) = self.reached(target) else {
            return Ok(());
        };
        let again = self.is_marked(reached);
        if let Some(found) = self.found.get_mut(reached.register) {
            if !found.used {
                found.begins_whole = !nested && target.parts.is_empty();
            }
            found.used = true;
            found.twice = found.twice || again;
        }
        if !again {
            self.mark(reached, true);
            self.seen.push(reached)?;
        }
        Ok(())
    }

    /// The scalars that an assignment may change.
    fn reached(&self, target: &Target) -> Option<Reached> {
        let register = self
            .spans
            .binary_search_by_key(&target.object, |span| span.net)
            .ok()?;
        let span = self.spans.get(register)?;
        let mut first = 0u32;
        let mut count = target.whole.size();
        for part in target.parts.as_slice() {
            match part {
                Part::Elements { first: more, shape } => {
                    first = first.saturating_add(*more);
                    count = shape.size();
                }
                Part::Element { .. } => {
                    return Some(Reached {
                        register,
                        first: first.saturating_sub(span.first),
                        count,
                    });
                }
            }
        }
        Some(Reached {
            register,
            first: first.saturating_sub(span.first),
            count,
        })
    }

    /// The positions of the marks of scalars.
    fn positions(&self, reached: Reached) -> (usize, usize) {
        let offset = self.offsets.get(reached.register).copied().unwrap_or(0) as usize;
        let from = offset.saturating_add(reached.first as usize);
        (
            from,
            from.saturating_add(reached.count as usize)
                .min(self.marks.len()),
        )
    }

    fn is_marked(&self, reached: Reached) -> bool {
        let (from, to) = self.positions(reached);
        for at in from..to {
            if self.marks.get(at).copied().unwrap_or(false) {
                return true;
            }
        }
        false
    }

    fn mark(&mut self, reached: Reached, on: bool) {
        let (from, to) = self.positions(reached);
        for at in from..to {
            if let Some(mark) = self.marks.get_mut(at) {
                *mark = on;
            }
        }
    }
}
