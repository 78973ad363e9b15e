//! Chains of numbers: how many bits each operand is written with.

use crate::operands::{Known, known_of, wanted_by};
use crate::ranges::{range, range_of_chain};
use sqlite_items::Items;
use vv_base::fault::Memory;
use vv_design::{Expr, Form, Link, Operator};
use vv_lpart::Range;
use vv_lrows::{power_of_two, step_needed};
use vv_lstate::Lowering;
use vv_types::Op;

/// How a link is written: at `width` bits, of as many bits as `left` of what is before it. These are numbers of `range`, and where the
/// right operand is a power of two, `places` is its exponent.
#[derive(Clone, Copy)]
pub struct Step {
    pub op: Op,
    pub width: u32,
    pub left: u32,
    pub range: Range,
    pub places: Option<u32>,
}

/// Whether the last bits of what an operator gives rest on the last bits of its operands.
pub fn is_modular(op: Op) -> bool {
    matches!(op, Op::Plus | Op::Minus | Op::Times)
}

/// How a chain is written: from its first operand or a number at `width` bits, by steps, of which the first stands for the link with
/// the number `skipped`. All together is a number of `range`.
#[derive(Drop)]
pub struct ChainPlan {
    pub number: Option<i64>,
    pub width: u32,
    pub skipped: usize,
    pub steps: Items<Step>,
    pub range: Range,
}

impl ChainPlan {
    /// The step of the link with a number.
    pub fn step(&self, link: usize) -> Option<Step> {
        let at = link.checked_sub(self.skipped)?;
        Some(*self.steps.get(at)?)
    }
}

/// An operator between numbers, the range of what is before it, and whether it and the one before it are written at one width.
#[derive(Clone, Copy)]
struct Fact {
    op: Op,
    range: Range,
    places: Option<u32>,
    joined: bool,
}

/// How the first operand of a chain and as many links as `count` are written, of whose number `width` bits are wanted.
pub fn plan_of_chain(
    e: &Expr,
    count: usize,
    width: u32,
    state: &Lowering<'_>,
) -> Result<ChainPlan, Memory> {
    let all = range_of_chain(e, count, state);
    let mut plan = ChainPlan {
        number: None,
        width: all.width().min(width),
        skipped: count,
        steps: Items::new(state.alloc),
        range: all,
    };
    if all.is_point() {
        plan.number = Some(all.low);
        plan.width = width;
        return Ok(plan);
    }
    let facts = facts_of(e, count, state)?;
    let mut turned = Items::new(state.alloc);
    for fact in facts.as_slice().iter().rev() {
        if plan.number.is_none() {
            turned.push(plan_link(*fact, &mut plan))?;
        }
    }
    for step in turned.as_slice().iter().rev() {
        plan.steps.push(*step)?;
    }
    Ok(plan)
}

/// The step of a link, and in the plan what is wanted of what is before it.
fn plan_link(fact: Fact, plan: &mut ChainPlan) -> Step {
    let width = plan.width;
    let left = step_needed(fact.op, fact.range, fact.places, width);
    plan.skipped = plan.skipped.saturating_sub(1);
    if fact.joined {
        plan.width = left;
    } else if fact.range.is_point() {
        plan.number = Some(fact.range.low);
        plan.width = left;
    } else {
        plan.width = fact.range.width().min(left);
    }
    Step {
        op: fact.op,
        width,
        left,
        range: fact.range,
        places: fact.places,
    }
}

/// What is known of the first `count` links.
fn facts_of(e: &Expr, count: usize, state: &Lowering<'_>) -> Result<Items<Fact>, Memory> {
    let mut facts = Items::new(state.alloc);
    let Form::Chain { first, links } = &e.form else {
        return Ok(facts);
    };
    let mut before = range(first.get(), state);
    let mut joined = false;
    let mut at = 0usize;
    for link in links.as_slice() {
        if let Operator::Integer(op) = link.operator {
            if at < count {
                let right = range(&link.right, state);
                facts.push(Fact {
                    op,
                    range: before,
                    places: power_of_two(right),
                    joined: joined && is_modular(op),
                })?;
                before = before.under(op, right);
                joined = is_modular(op);
            }
        }
        at = at.saturating_add(1);
    }
    Ok(facts)
}

/// How many links from the first on are between numbers.
pub fn leading_numbers(links: &[Link]) -> usize {
    let mut count = 0usize;
    for link in links {
        if !matches!(link.operator, Operator::Integer(_)) {
            return count;
        }
        count = count.saturating_add(1);
    }
    count
}

/// What is known of the first operand of a chain and as many links between numbers as `count`.
pub fn known_of_chain(e: &Expr, count: usize, state: &Lowering<'_>) -> Known {
    if count > 0 {
        return Known::number(range_of_chain(e, count, state));
    }
    match &e.form {
        Form::Chain { first, links: _ } => known_of(first.get(), state),
        _ => known_of(e, state),
    }
}

/// How many bits the first link that is not between numbers wants of each scalar before it.
pub fn wanted_of_first(links: &[Link], count: usize, before: Known, state: &Lowering<'_>) -> u32 {
    match links.get(count) {
        Some(link) => {
            let right = known_of(&link.right, state);
            wanted_by(link.operator, before, right, link.shape.size()).left
        }
        None => before.width,
    }
}
