//! What is assigned on each path.

use crate::cells::Cells;
use std::alloc::Global;
use vv_base::fault::{Memory, Rule};
use vv_design::{Alternative, Arm, Expr, Form, Net, Run, Stmt, StmtForm, Target};
use vv_reads::{Changed, Least, Object, Read, add_reads, add_target_reads, part_of_target};
use vv_types::Value;

/// Cells of one word, by its number, as bits.
#[derive(Clone, Copy, Debug, PartialEq, Eq)]
struct Word {
    at: usize,
    bits: u64,
}

/// A way through statements. `done` has a bit for each cell that was assigned on it, and `trail` what was added, in order, so that it
/// can be taken back at the end of a branch.
#[derive(Drop)]
pub struct Paths<'d> {
    alloc: Global,
    nets: &'d [Net],
    cells: &'d Cells,
    done: Vec<u64>,
    trail: Vec<Word>,
    reads: Vec<Read>,
}

/// The bits of the word with this number that a run of cells has.
fn bits_of(run: Run, at: usize) -> u64 {
    let first = run.first as usize;
    let end = run.end() as usize;
    let begin = at.saturating_mul(64);
    let low = first.saturating_sub(begin).min(64);
    let high = end.saturating_sub(begin).min(64);
    below(high) & !below(low)
}

/// The lowest `n` bits of a word.
fn below(n: usize) -> u64 {
    if n >= 64 { u64::MAX } else { (1u64 << n) - 1 }
}

/// The numbers of the words in which a run of cells lies: from the first on, to before the second.
fn words_of(run: Run) -> (usize, usize) {
    if run.is_empty() {
        return (0, 0);
    }
    let last = run.end().saturating_sub(1) as usize;
    (run.first as usize / 64, last / 64 + 1)
}

impl<'d> Paths<'d> {
    /// A way on which nothing was assigned.
    pub fn new(alloc: Global, nets: &'d [Net], cells: &'d Cells) -> Result<Paths<'d>, Memory> {
        let words = cells.count() as usize / 64 + 1;
        Ok(Paths {
            alloc,
            nets,
            cells,
            done: vec![in alloc; 0u64; words]?,
            trail: Vec::new(alloc),
            reads: Vec::new(alloc),
        })
    }

    fn word(&self, at: usize) -> u64 {
        self.done.get(at).copied().unwrap_or(0)
    }

    /// Adds cells of one word.
    fn add(&mut self, at: usize, bits: u64) -> Result<(), Memory> {
        if let Some(word) = self.done.get_mut(at) {
            let added = bits & !*word;
            if added != 0 {
                *word |= added;
                self.trail.push(Word { at, bits: added })?;
            }
        }
        Ok(())
    }

    fn assign(&mut self, run: Run) -> Result<(), Memory> {
        let (first, end) = words_of(run);
        for at in first..end {
            self.add(at, bits_of(run, at))?;
        }
        Ok(())
    }

    /// Whether each cell of a run was assigned.
    fn has(&self, run: Run) -> bool {
        let (first, end) = words_of(run);
        for at in first..end {
            let bits = bits_of(run, at);
            if self.word(at) & bits != bits {
                return false;
            }
        }
        true
    }

    /// Takes back what was added since the trail had this length.
    fn take_back(&mut self, len: usize) {
        for change in since(self.trail.as_slice(), len) {
            if let Some(word) = self.done.get_mut(change.at) {
                *word &= !change.bits;
            }
        }
        self.trail.truncate(len);
    }

    /// Begins anew: on this way nothing was assigned.
    pub fn clear(&mut self) {
        self.take_back(0);
    }

    /// Notes the elements of variables that are read and that were not assigned.
    fn check_reads(&self, least: &mut Least) {
        for read in &self.reads {
            if let Object::Variable(_) = read.object {
                let cells = self.cells.of_run(read.object, read.run);
                if !self.has(cells) {
                    least.note(Rule::C3, read.span);
                }
            }
        }
    }

    /// Goes past an expression.
    fn expression(&mut self, e: &Expr, least: &mut Least) -> Result<(), Memory> {
        add_reads(self.nets, e, &mut self.reads)?;
        self.check_reads(least);
        self.reads.clear();
        Ok(())
    }

    /// Goes past an assignment.
    fn assignment(
        &mut self,
        signal: bool,
        target: &Target,
        value: &Expr,
        least: &mut Least,
    ) -> Result<(), Memory> {
        add_target_reads(self.nets, target, &mut self.reads)?;
        add_reads(self.nets, value, &mut self.reads)?;
        self.check_reads(least);
        self.reads.clear();
        match part_of_target(self.nets, signal, target) {
            Some(place) if place.fixed => self.assign(self.cells.of_place(place)),
            _ => Ok(()),
        }
    }

    /// Notes the targets of which a cell may be changed and was not assigned.
    pub fn check_targets(
        &self,
        may: &Paths<'d>,
        targets: &[Changed],
        least: &mut Least,
    ) -> Result<(), Memory> {
        let mut missing = Vec::new(self.alloc);
        let mut some = false;
        for (at, word) in may.done.iter().enumerate() {
            let bits = *word & !self.word(at);
            some = some || bits != 0;
            missing.push(bits)?;
        }
        if some {
            for target in targets {
                if meets(missing.as_slice(), self.cells.of_place(target.place)) {
                    least.note(Rule::C6, target.span);
                }
            }
        }
        Ok(())
    }

    /// Adds what the targets may change.
    pub fn add_all(&mut self, targets: &[Changed]) -> Result<(), Memory> {
        for target in targets {
            self.assign(self.cells.of_place(target.place))?;
        }
        Ok(())
    }
}

/// What stands in a list behind the first items, of which there are this many.
fn since(words: &[Word], len: usize) -> &[Word] {
    match words.get(len..) {
        Some(words) => words,
        None => &[],
    }
}

/// Whether a run has one of some cells.
fn meets(words: &[u64], run: Run) -> bool {
    let (first, end) = words_of(run);
    for at in first..end {
        if words.get(at).copied().unwrap_or(0) & bits_of(run, at) != 0 {
            return true;
        }
    }
    false
}

/// What each of the branches gone so far has added, or nothing where none was gone.
#[derive(Drop)]
struct Common {
    words: Option<Vec<Word>>,
}

impl Common {
    fn none() -> Common {
        Common { words: None }
    }

    /// Ends a branch that began where the trail had this length.
    fn end_branch(&mut self, way: &mut Paths<'_>, len: usize) -> Result<(), Memory> {
        let mut kept = Vec::new(way.alloc);
        match &self.words {
            None => {
                for word in since(way.trail.as_slice(), len) {
                    kept.push(*word)?;
                }
            }
            Some(words) => {
                for word in words {
                    let bits = word.bits & way.word(word.at);
                    if bits != 0 {
                        kept.push(Word { at: word.at, bits })?;
                    }
                }
            }
        }
        self.words = Some(kept);
        way.take_back(len);
        Ok(())
    }

    /// Goes on behind the branches.
    fn join(self, way: &mut Paths<'_>) -> Result<(), Memory> {
        let Common { words } = self;
        if let Some(words) = words {
            for word in &words {
                way.add(word.at, word.bits)?;
            }
        }
        Ok(())
    }
}

/// Whether a condition is the constant TRUE.
fn is_true(e: &Expr) -> bool {
    match &e.form {
        Form::Value(Value::Bool(true)) => true,
        _ => false,
    }
}

/// Goes through statements.
#[cycle(paths)]
pub fn statements(way: &mut Paths<'_>, stmts: &[Stmt], least: &mut Least) -> Result<(), Memory> {
    for stmt in stmts {
        match &stmt.form {
            StmtForm::Signal { target, value } => way.assignment(true, target, value, least)?,
            StmtForm::Variable { target, value } => way.assignment(false, target, value, least)?,
            StmtForm::If { arms, otherwise } => {
                let len = way.trail.len();
                let mut common = Common::none();
                if branches(way, arms.as_slice(), len, &mut common, least)? {
                    statements(way, otherwise.as_slice(), least)?;
                    common.end_branch(way, len)?;
                }
                common.join(way)?;
            }
            StmtForm::Case {
                selector,
                alternatives,
            } => {
                way.expression(selector, least)?;
                cases(way, alternatives.as_slice(), least)?;
            }
            StmtForm::Return(e) | StmtForm::WaitUntil(e) => way.expression(e, least)?,
        }
    }
    Ok(())
}

/// Goes through the arms of an `if`, each as a branch of its own, and answers whether a path leads past them.
#[cycle(paths)]
fn branches(
    way: &mut Paths<'_>,
    arms: &[Arm],
    len: usize,
    common: &mut Common,
    least: &mut Least,
) -> Result<bool, Memory> {
    for arm in arms {
        way.expression(&arm.condition, least)?;
        statements(way, arm.body.as_slice(), least)?;
        common.end_branch(way, len)?;
        if is_true(&arm.condition) {
            return Ok(false);
        }
    }
    Ok(true)
}

#[cycle(paths)]
fn cases(
    way: &mut Paths<'_>,
    alternatives: &[Alternative],
    least: &mut Least,
) -> Result<(), Memory> {
    let len = way.trail.len();
    let mut common = Common::none();
    for alternative in alternatives {
        statements(way, alternative.body.as_slice(), least)?;
        common.end_branch(way, len)?;
    }
    common.join(way)
}
