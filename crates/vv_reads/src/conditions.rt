//! The forms of conditions that make templates.

use crate::values::is_logic;
use std::alloc::Global;
use vv_base::fault::{Memory, Span};
use vv_bits::S9;
use vv_design::{Expr, Form, Link, Net, Operator};
use vv_types::{StdFn, Value};

/// A condition that a net has a level: '1' where `high` is true, and else '0'. The span is that of the net's name in it.
#[derive(Clone, Copy, Debug, PartialEq, Eq)]
pub struct Level {
    pub net: u32,
    pub elem: u32,
    pub high: bool,
    pub span: Span,
}

/// An edge of a net, by a call or by two conjuncts. `span` is that of the whole form, `name` that of the net's name where it stands
/// first, and `conjuncts` how many conjuncts the form has.
#[derive(Clone, Copy, Debug, PartialEq, Eq)]
pub struct EdgeForm {
    pub net: u32,
    pub elem: u32,
    pub rising: bool,
    pub span: Span,
    pub name: Span,
    pub conjuncts: usize,
}

/// The number and the element of a whole scalar net of `std_ulogic` that an expression names.
pub fn whole_logic(nets: &[Net], e: &Expr) -> Option<(u32, u32)> {
    let Form::Net(number) = &e.form else {
        return None;
    };
    let net = nets.get(*number as usize)?;
    if is_logic(net.shape) {
        Some((*number, net.first))
    } else {
        None
    }
}

/// The conjuncts that `and` joins to a condition, from the left.
pub fn conjuncts<'d>(alloc: Global, e: &'d Expr) -> Result<Vec<&'d Expr>, Memory> {
    let mut found = Vec::new(alloc);
    add_conjuncts(e, &mut found)?;
    Ok(found)
}

#[cycle(conjuncts)]
fn add_conjuncts<'d>(e: &'d Expr, into: &mut Vec<&'d Expr>) -> Result<(), Memory> {
    match &e.form {
        Form::Chain { first, links } if are_ands(links.as_slice()) => {
            add_conjuncts(first.get(), into)?;
            add_link_conjuncts(links.as_slice(), into)
        }
        _ => {
            into.push(e)?;
            Ok(())
        }
    }
}

#[cycle(conjuncts)]
fn add_link_conjuncts<'d>(links: &'d [Link], into: &mut Vec<&'d Expr>) -> Result<(), Memory> {
    for link in links {
        add_conjuncts(&link.right, into)?;
    }
    Ok(())
}

fn are_ands(links: &[Link]) -> bool {
    for link in links {
        if link.operator != Operator::Standard(StdFn::AndBool) {
            return false;
        }
    }
    true
}

/// The level of a condition `s = '0'` or `s = '1'`.
pub fn level_of(nets: &[Net], e: &Expr) -> Option<Level> {
    let Form::Apply {
        operator: Operator::Standard(StdFn::EqualLogic),
        operands,
    } = &e.form
    else {
        return None;
    };
    let left = operands.as_slice().first()?;
    let (net, elem) = whole_logic(nets, left)?;
    let high = match &operands.as_slice().get(1)?.form {
        Form::Value(Value::Logic(S9::One)) => true,
        Form::Value(Value::Logic(S9::Zero)) => false,
        _ => return None,
    };
    Some(Level {
        net,
        elem,
        high,
        span: left.span,
    })
}

/// The number and the element of the net in `s'event`, and the span of the name.
fn event_of(nets: &[Net], e: &Expr) -> Option<(u32, u32, Span)> {
    let Form::Event(of) = &e.form else {
        return None;
    };
    let (net, elem) = whole_logic(nets, of.get())?;
    Some((net, elem, of.get().span))
}

/// An edge call.
fn call_of(nets: &[Net], e: &Expr) -> Option<EdgeForm> {
    let Form::Edge { rising, of } = &e.form else {
        return None;
    };
    let (net, elem) = whole_logic(nets, of.get())?;
    Some(EdgeForm {
        net,
        elem,
        rising: *rising,
        span: e.span,
        name: of.get().span,
        conjuncts: 1,
    })
}

/// Two conjuncts in the order of the text, one for the event and one for the level behind it.
fn pair_of(nets: &[Net], a: &Expr, b: &Expr) -> Option<EdgeForm> {
    let (event, level, name) = match event_of(nets, a) {
        Some(event) => (event, level_of(nets, b)?, event.2),
        None => {
            let level = level_of(nets, a)?;
            (event_of(nets, b)?, level, level.span)
        }
    };
    if event.0 != level.net {
        return None;
    }
    Some(EdgeForm {
        net: level.net,
        elem: level.elem,
        rising: level.high,
        span: joined(a.span, b.span),
        name,
        conjuncts: 2,
    })
}

/// The bytes from the beginning of one span to the end of another.
fn joined(a: Span, b: Span) -> Span {
    Span {
        file: a.file,
        at: a.at,
        len: b.at.saturating_add(b.len).saturating_sub(a.at),
    }
}

/// The edge with which conjuncts begin.
pub fn edge_of(nets: &[Net], conjuncts: &[&Expr]) -> Option<EdgeForm> {
    let first = conjuncts.first()?;
    match call_of(nets, first) {
        Some(edge) => Some(edge),
        None => pair_of(nets, first, conjuncts.get(1)?),
    }
}
