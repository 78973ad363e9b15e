//! How often own objects are read.

use std::alloc::Global;
use vv_base::fault::Memory;
use vv_lpart::own_number;
use vv_vtree::{VBlock, VExpr, VItem, VName, VPart, VReference, VSelect, VStmt};

/// The reads of an own object: how many there are; whether one is of a part; whether one is by an index, an event or an assignment, so
/// that it keeps its name.
#[derive(Clone, Copy)]
pub struct Reads {
    pub count: u32,
    pub part: bool,
    pub name: bool,
}

/// The reads of all own objects.
#[derive(Drop)]
pub struct Counts {
    pub reads: Vec<Reads>,
}

impl Counts {
    /// No reads of `n` own objects.
    pub fn new(alloc: Global, n: usize) -> Result<Counts, Memory> {
        let none = Reads {
            count: 0,
            part: false,
            name: false,
        };
        Ok(Counts {
            reads: vec![in alloc; none; n]?,
        })
    }

    /// The reads of an own object.
    pub fn of(&self, number: usize) -> Reads {
        match self.reads.get(number) {
            Some(reads) => *reads,
            None => Reads {
                count: 0,
                part: false,
                name: false,
            },
        }
    }

    fn note(&mut self, name: &VName, part: bool, keeps: bool) {
        if let Some(number) = own_number(name.text.as_slice()) {
            if let Some(reads) = self.reads.get_mut(number) {
                reads.count = reads.count.saturating_add(1);
                reads.part = reads.part || part;
                reads.name = reads.name || keeps;
            }
        }
    }

    pub fn select(&mut self, select: &VSelect) {
        self.note(&select.name, !matches!(select.part, VPart::Whole), false);
    }

    #[cycle(reads)]
    fn reference(&mut self, reference: &VReference) {
        match reference {
            VReference::Select(select) => self.select(select),
            VReference::Indexed {
                name,
                index,
                count: _,
            } => {
                self.note(name, true, true);
                self.expr(index.get());
            }
        }
    }

    /// The target of an assignment.
    fn target(&mut self, reference: &VReference) {
        match reference {
            VReference::Select(select) => self.note(&select.name, true, true),
            VReference::Indexed {
                name,
                index,
                count: _,
            } => {
                self.note(name, true, true);
                self.expr(index.get());
            }
        }
    }

    #[cycle(reads)]
    pub fn expr(&mut self, e: &VExpr) {
        match e {
            VExpr::Reference(reference) => self.reference(reference),
            VExpr::Bits(_) => {}
            VExpr::Concatenation { parts, at: _ } => self.exprs(parts.as_slice()),
            VExpr::Repetition {
                count: _,
                part,
                at: _,
            } => self.expr(part.get()),
            VExpr::Call { name: _, args } => self.exprs(args.as_slice()),
            VExpr::Unary {
                op: _,
                operand,
                at: _,
            } => self.expr(operand.get()),
            VExpr::Binary {
                left,
                op: _,
                right,
                at: _,
            } => {
                self.expr(left.get());
                self.expr(right.get());
            }
            VExpr::Conditional {
                condition,
                yes,
                no,
                at: _,
            } => {
                self.expr(condition.get());
                self.expr(yes.get());
                self.expr(no.get());
            }
        }
    }

    #[cycle(reads)]
    fn exprs(&mut self, exprs: &[VExpr]) {
        for e in exprs {
            self.expr(e);
        }
    }

    #[cycle(read_stmts)]
    pub fn stmts(&mut self, stmts: &[VStmt]) {
        for stmt in stmts {
            self.stmt(stmt);
        }
    }

    #[cycle(read_stmts)]
    fn block(&mut self, block: &VBlock) {
        self.stmts(block.stmts.as_slice());
    }

    #[cycle(read_stmts)]
    fn stmt(&mut self, stmt: &VStmt) {
        match stmt {
            VStmt::Assignment {
                target,
                sign: _,
                value,
                at: _,
            } => {
                self.target(target);
                self.expr(value);
            }
            VStmt::If {
                arms,
                otherwise,
                at: _,
            } => {
                for arm in arms.as_slice() {
                    self.expr(&arm.condition);
                    self.block(&arm.block);
                }
                if let Some(block) = otherwise {
                    self.block(block);
                }
            }
            VStmt::Case {
                selector,
                alternatives,
                default,
                at: _,
            } => {
                self.expr(selector);
                for alternative in alternatives.as_slice() {
                    self.block(&alternative.block);
                }
                if let Some(block) = default {
                    self.block(block);
                }
            }
        }
    }

    pub fn item(&mut self, item: &VItem) {
        match item {
            VItem::Assign {
                target,
                value,
                at: _,
            } => {
                self.note(&target.name, true, true);
                self.expr(value);
            }
            VItem::Always(always) => {
                for event in always.events.as_slice() {
                    self.note(&event.name, false, true);
                }
                self.block(&always.block);
            }
            VItem::Instance(instance) => {
                for connection in instance.connections.as_slice() {
                    if let Some(actual) = &connection.actual {
                        self.note(&actual.name, true, true);
                    }
                }
            }
            VItem::Wire(_) | VItem::Reg { .. } | VItem::Function(_) => {}
        }
    }
}
