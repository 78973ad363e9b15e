//! Statements in single-assignment form: each assignment is a wire, and where paths join, the wires are chosen from.

use crate::drivers::{Driven, spans_of};
use crate::registers::{hint_of, start_of};
use crate::ways::WayList;
use sqlite_items::Items;
use vv_base::fault::{Memory, cannot_come};
use vv_design::{Alternative, Arm, Choice, Expr, Part as TargetPart, Stmt, StmtForm, Target};
use vv_lexpr::{Selector, chosen, selector_of, target_spot, value, value_at};
use vv_lpart::{Part, Run, digits, name_of, put_name};
use vv_lrows::{Held, Pool, Spot, moved};
use vv_lstate::{Lowering, Object, Piece, Put, copied_present, push_piece};
use vv_vtree::{VExpr, VExprList};

/// What writes statements in single-assignment form. `nets` are the nets that are assigned, in order; their objects stand behind the
/// `vars` variables.
#[derive(Drop)]
pub struct Single<'l, 'd> {
    pub low: &'l mut Lowering<'d>,
    nets: Items<u32>,
    vars: usize,
}

impl<'l, 'd> Single<'l, 'd> {
    /// Nothing is assigned yet.
    pub fn new(low: &'l mut Lowering<'d>, driven: &[Driven]) -> Result<Single<'l, 'd>, Memory> {
        let vars = low.objects.len();
        let mut nets: Items<u32> = Items::new(low.alloc);
        let spans = spans_of(low.alloc, driven)?;
        for span in spans.as_slice() {
            nets.push(span.net)?;
            push_net(low, span.net)?;
        }
        let mut single = Single { low, nets, vars };
        single.begin()?;
        Ok(single)
    }

    /// Makes all objects unassigned.
    pub fn begin(&mut self) -> Result<(), Memory> {
        let alloc = self.low.alloc;
        let mut present = Items::new(alloc);
        for object in self.low.objects.as_slice() {
            let mut pieces = Items::new(alloc);
            pieces.push(Piece {
                own: None,
                low: 0,
                bits: object.width(),
            })?;
            present.push(pieces)?;
        }
        self.low.present = present;
        Ok(())
    }

    /// The object of a net.
    pub fn object_of(&self, net: u32) -> Result<u32, Memory> {
        match self.nets.as_slice().binary_search(&net) {
            Ok(at) => Ok(at.saturating_add(self.vars).min(0xffff_ffff) as u32),
            Err(_) => Err(cannot_come()),
        }
    }

    /// What a piece of a net reads, which begins at its bit `begin`. Where it is not assigned it keeps its initial value.
    pub fn value_of(&self, net: u32, begin: u32, piece: Piece) -> Result<Part, Memory> {
        match piece.own {
            Some(_) => self.low.read_piece(piece),
            None => Ok(Part::bits(start_of(self.low, net, begin, piece.bits)?)),
        }
    }

    #[cycle(single)]
    pub fn stmts(&mut self, stmts: &[Stmt]) -> Result<(), Memory> {
        for stmt in stmts {
            self.stmt(stmt)?;
        }
        Ok(())
    }

    #[cycle(single)]
    fn stmt(&mut self, stmt: &Stmt) -> Result<(), Memory> {
        match &stmt.form {
            StmtForm::Signal { target, value } => {
                let object = self.object_of(target.object)?;
                self.assignment(object, target, value)
            }
            StmtForm::Variable { target, value } => {
                self.assignment(target.object, target, value)
            }
            StmtForm::If { arms, otherwise } => {
                let ways = self.arms(arms.as_slice())?;
                self.stmts(otherwise.as_slice())?;
                self.join(ways)
            }
            StmtForm::Case {
                selector,
                alternatives,
            } => {
                let ways = self.alternatives(alternatives.as_slice(), selector)?;
                self.join(ways)
            }
            StmtForm::Return(_) | StmtForm::WaitUntil(_) => Ok(()),
        }
    }

    /// The ways of arms.
    #[cycle(single)]
    fn arms(&mut self, arms: &[Arm]) -> Result<WayList, Memory> {
        let conditions = self.conditions(arms)?;
        let start = copied_present(self.low.alloc, self.low.present.as_slice())?;
        let mut ways = Items::new(self.low.alloc);
        let mut at = 0usize;
        for arm in arms {
            let condition = conditions.get(at).copied().unwrap_or(0);
            self.stmts(arm.body.as_slice())?;
            self.end_way(condition, &start, &mut ways)?;
            at = at.saturating_add(1);
        }
        Ok(ways)
    }

    /// The wires of the conditions.
    fn conditions(&mut self, arms: &[Arm]) -> Result<Items<u32>, Memory> {
        let mut conditions = Items::new(self.low.alloc);
        for arm in arms {
            let condition = self.own_value(&arm.condition)?;
            conditions.push(condition)?;
        }
        Ok(conditions)
    }

    /// An own object with the value of an expression.
    fn own_value(&mut self, e: &Expr) -> Result<u32, Memory> {
        let part = value(e, self.low)?;
        self.low.owned(part, b"")
    }

    /// The bits of an expression, which get a name.
    fn run_of_value(&mut self, e: &Expr) -> Result<Run, Memory> {
        let part = value(e, self.low)?;
        self.low.named(part, b"")
    }

    /// An own object that is 1 where a choice is made.
    fn own_test(&mut self, run: &Run, known: Selector, choices: &[Choice]) -> Result<u32, Memory> {
        let test = chosen(self.low, run, known, choices)?;
        self.low.owned(test, b"")
    }

    /// The ways of the alternatives of a `case` but of the last one, which is taken where no other one is.
    #[cycle(single)]
    fn alternatives(
        &mut self,
        alternatives: &[Alternative],
        selector: &Expr,
    ) -> Result<WayList, Memory> {
        let known = selector_of(selector, self.low);
        let run = self.run_of_value(selector)?;
        let start = copied_present(self.low.alloc, self.low.present.as_slice())?;
        let mut ways = Items::new(self.low.alloc);
        let mut left = alternatives.len();
        for alternative in alternatives {
            left = left.saturating_sub(1);
            if left == 0 {
                self.stmts(alternative.body.as_slice())?;
            } else {
                let condition = self.own_test(&run, known, alternative.choices.as_slice())?;
                self.stmts(alternative.body.as_slice())?;
                self.end_way(condition, &start, &mut ways)?;
            }
        }
        Ok(ways)
    }

    fn assignment(&mut self, object: u32, target: &Target, value: &Expr) -> Result<(), Memory> {
        let found = self.low.object(object)?;
        let scalar = found.layout.width();
        let size = found.size;
        let (low, bits) = static_part(target.parts.as_slice(), size, scalar);
        let mut pool = Pool::new(self.low.alloc);
        let changed = self.changed(object, target, &mut pool)?;
        let value = self.held_value(value, scalar, &mut pool)?;
        match changed.offset {
            None => self.put_static(object, changed, value, &mut pool),
            Some(offset) => {
                let place = Written {
                    object,
                    low,
                    bits,
                    count: changed.bits,
                };
                let from = changed.low.saturating_sub(low);
                let index = self.index_of(offset, from, bits, &mut pool)?;
                self.put(place, index, value, &mut pool)
            }
        }
    }

    /// What an assignment to an object changes.
    fn changed(
        &mut self,
        object: u32,
        target: &Target,
        pool: &mut Pool,
    ) -> Result<Changed, Memory> {
        let found = self.low.object(object)?;
        let size = found.size;
        let width = found.width();
        let all = Run::whole(self.low.object_hint(object)?, width);
        let spot = target_spot(target.parts.as_slice(), all, size, self.low)?;
        let Spot {
            low,
            bits,
            offset,
            ..
        } = spot;
        let offset = match offset {
            Some(offset) => Some(pool.hold(offset)?),
            None => None,
        };
        Ok(Changed { low, bits, offset })
    }

    /// An expression in a pool, whose scalars get `width` bits each.
    fn held_value(&mut self, e: &Expr, width: u32, pool: &mut Pool) -> Result<Held, Memory> {
        let part = value_at(e, width, self.low)?;
        pool.hold(part)
    }

    /// The index among `bits` bits of an offset from one of them on.
    fn index_of(
        &mut self,
        offset: Held,
        from: u32,
        bits: u32,
        pool: &mut Pool,
    ) -> Result<Held, Memory> {
        let width = digits(u64::from(bits.saturating_sub(1)));
        let offset = pool.taken(offset)?;
        let index = moved(self.low, offset, from, width)?;
        pool.hold(index)
    }

    /// Puts a value into a fixed part of an object.
    fn put_static(
        &mut self,
        object: u32,
        changed: Changed,
        value: Held,
        pool: &mut Pool,
    ) -> Result<(), Memory> {
        let hint = self.low.object_hint(object)?;
        let own = pool.owned(self.low, value, hint.as_slice())?;
        let piece = Piece {
            own: Some(own),
            low: 0,
            bits: changed.bits,
        };
        self.low
            .put_pieces(object, changed.low, changed.bits, &[piece])
    }

    /// Puts a value into a part of an object, at an index, piece by piece.
    fn put(
        &mut self,
        place: Written,
        index: Held,
        value: Held,
        pool: &mut Pool,
    ) -> Result<(), Memory> {
        let hint = self.low.object_hint(place.object)?;
        let pieces = self.low.object_pieces(place.object, place.low, place.bits)?;
        let index = named_or_known(self.low, pool, index)?;
        let value = named_or_known(self.low, pool, value)?;
        let mut operands = Operands { index, value };
        let mut end = place.bits;
        let mut after = Items::new(self.low.alloc);
        for piece in pieces.as_slice() {
            let begin = end.saturating_sub(piece.bits);
            let mut now = *piece;
            if piece.own.is_some() {
                let (call, kept) = self.put_call(place, begin, *piece, operands, pool)?;
                operands = kept;
                now = Piece {
                    own: Some(pool.owned(self.low, call, hint.as_slice())?),
                    low: 0,
                    bits: piece.bits,
                };
            }
            push_piece(&mut after, now)?;
            end = begin;
        }
        self.low
            .put_pieces(place.object, place.low, place.bits, after.as_slice())
    }

    /// A call of the function that puts bits into a piece, which begins at the bit `begin` of the part, and the operands again.
    fn put_call(
        &mut self,
        place: Written,
        begin: u32,
        piece: Piece,
        operands: Operands,
        pool: &mut Pool,
    ) -> Result<(Held, Operands), Memory> {
        let number = self.low.put_number(Put {
            total: place.bits,
            low: begin,
            bits: piece.bits,
            count: place.count,
            index: operands.index.width,
        })?;
        let old = self.held_piece(piece, pool)?;
        let (index, index_copy) = pool.twice(self.low, operands.index)?;
        let (value, value_copy) = pool.twice(self.low, operands.value)?;
        let mut args = Items::new(self.low.alloc);
        push_held(pool, old, &mut args)?;
        push_held(pool, index_copy, &mut args)?;
        push_held(pool, value_copy, &mut args)?;
        let name = name_of(put_name(self.low.alloc, number)?);
        let call = pool.hold(Part {
            expr: VExpr::Call { name, args },
            width: piece.bits,
            depth: index.depth.saturating_add(1),
        })?;
        Ok((call, Operands { index, value }))
    }
}

/// The part, or where it is neither written bits nor a fixed part of an object, an own object with its value.
fn named_or_known(low: &mut Lowering<'_>, pool: &mut Pool, part: Held) -> Result<Held, Memory> {
    if part.known {
        Ok(part)
    } else {
        pool.named(low, part)
    }
}

/// Appends a part of a pool to arguments.
fn push_held(pool: &mut Pool, part: Held, args: &mut VExprList) -> Result<(), Memory> {
    let part = pool.taken(part)?;
    Ok(args.push(part.expr)?)
}

/// An index and a value that is put there.
#[derive(Clone, Copy)]
struct Operands {
    index: Held,
    value: Held,
}

/// What an assignment changes of an object: `bits` bits from `low` on, and further on by as many as `offset` tells.
#[derive(Clone, Copy)]
struct Changed {
    low: u32,
    bits: u32,
    offset: Option<Held>,
}

/// The part of an object that an assignment by an index may change, and how many bits it changes.
#[derive(Clone, Copy)]
struct Written {
    object: u32,
    low: u32,
    bits: u32,
    count: u32,
}

/// The bits of the part of a target before its first index that is not static.
fn static_part(parts: &[TargetPart], size: u32, scalar: u32) -> (u32, u32) {
    let mut low = 0u32;
    let mut now = size;
    for part in parts {
        match part {
            TargetPart::Elements { first, shape } => {
                let behind = now.saturating_sub(*first).saturating_sub(shape.size());
                low = low.saturating_add(behind.saturating_mul(scalar));
                now = shape.size();
            }
            TargetPart::Element { .. } => return (low, now.saturating_mul(scalar)),
        }
    }
    (low, now.saturating_mul(scalar))
}

/// Adds the object of a net.
fn push_net(low: &mut Lowering<'_>, net: u32) -> Result<(), Memory> {
    let layout = low.net_layout(net)?;
    let size = low.design.net(net)?.shape.size();
    let hint = hint_of(low, net)?;
    low.objects.push(Object {
        layout,
        size,
        name: None,
        hint,
    })?;
    Ok(())
}
