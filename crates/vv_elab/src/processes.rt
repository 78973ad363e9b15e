//! Processes.

use crate::reads::{hear, of_statements, of_wait};
use sqlite_items::Items;
use std::mem;
use vv_base::fault::{Fault, Memory, Rule, Span};
use vv_design::{Proc, Run, merged};
use vv_elab_base::known::Object;
use vv_elab_base::making::{Making, outer_of};
use vv_elab_base::sub::{Sub, element_of};
use vv_elab_made::parts::{place_of, slice};
use vv_elab_stmt::declarations::declarations;
use vv_elab_stmt::functions::elaborate_wanted;
use vv_elab_stmt::statements::statements;
use vv_elab_types::ranges::must_number;
use vv_held::held::{misfit, refused};
use vv_held::shape::place_in;
use vv_typed::{Form, Label, Suffix, TDeclList, TSens, TStmtList, Typed};

/// A part of a net.
#[derive(Clone, Copy)]
pub struct Piece {
    pub net: u32,
    pub first: u32,
    pub sub: Sub,
}

/// The net that a static name names, or a part of it. None where it is no name of a net.
pub fn piece_of<'u>(making: &mut Making<'u>, e: &Typed) -> Result<Option<Piece>, Fault> {
    match &e.form {
        Form::Object(decl) => {
            let known = making.known(*decl);
            match known.object {
                Object::Net(net) => Ok(Some(Piece {
                    net,
                    first: 0,
                    sub: known.sub,
                })),
                _ => Ok(None),
            }
        }
        Form::Part { prefix, suffixes } => match piece_of(making, prefix.get())? {
            Some(of) => Ok(Some(part(making, of, suffixes.as_slice())?)),
            None => Ok(None),
        },
        Form::Parenthesis(inner) => piece_of(making, inner.get()),
        _ => Ok(None),
    }
}

/// A part of a net by static suffixes.
fn part<'u>(making: &mut Making<'u>, of: Piece, suffixes: &[Suffix]) -> Result<Piece, Fault> {
    let mut of = of;
    for suffix in suffixes {
        let bounds = outer_of(of.sub)?;
        let width = of.sub.element_size();
        let place = match suffix {
            Suffix::Index {
                index,
                base: _,
                span: _,
            } => {
                let n = must_number(making, index)?;
                of.sub = element_of(making, of.sub);
                match place_in(bounds, n) {
                    Some(place) => place_of(place)?,
                    None => return Err(refused(Rule::E2, index.span)),
                }
            }
            Suffix::Slice { range, span } => {
                let (own, first) = slice(making, range, bounds, *span)?;
                of.sub = of.sub.with_outer(Some(own));
                first
            }
        };
        of.first = of.first.saturating_add(place.saturating_mul(width));
    }
    Ok(of)
}

/// A concurrent statement that is a process, with the parts of its form.
#[derive(Clone, Copy)]
pub struct Written<'u> {
    pub label: Label,
    pub span: Span,
    pub sens: &'u TSens,
    pub decls: &'u TDeclList,
    pub body: &'u TStmtList,
}

/// A process. It is tried until all the functions are there that it calls.
pub fn process<'u>(making: &mut Making<'u>, of: Written<'u>) -> Result<(), Fault> {
    let mut start = making.start();
    for _ in 0..u64::MAX {
        match tried(making, of) {
            Ok(()) => return Ok(()),
            Err(fault) => match making.wanted.take() {
                Some(wanted) => elaborate_wanted(making, wanted, &mut start)?,
                None => return Err(fault),
            },
        }
        making.back_to(start);
    }
    Err(Fault::Memory)
}

/// One try of a process.
fn tried<'u>(making: &mut Making<'u>, of: Written<'u>) -> Result<(), Fault> {
    let len = making.path.len();
    let region = making.region;
    making.region = making.new_region();
    making.down_to_label(of.label)?;
    making.place = of.span;
    making.frame = None;
    making.tries = making.tries.saturating_add(1);
    making.variables = 0;
    making.vars = Items::new(making.alloc);
    let mut listens = Vec::new(making.alloc);
    if let TSens::Listed(names) = of.sens {
        for name in names.as_slice() {
            listed(making, name, &mut listens)?;
        }
    }
    declarations(making, of.decls.as_slice())?;
    let mut list = Items::new(making.alloc);
    statements(making, of.body.as_slice(), &mut list)?;
    let is_listed = match of.sens {
        TSens::Absent => {
            of_wait(making, list.as_slice(), &mut listens)?;
            false
        }
        TSens::Listed(_) => true,
        TSens::All => {
            of_statements(making, list.as_slice(), &mut listens)?;
            true
        }
    };
    let vars = mem::replace(&mut making.vars, Items::new(making.alloc));
    let proc = Proc {
        path: making.here()?,
        span: of.span,
        inst: making.inst,
        listed: is_listed,
        listens: merged(making.alloc, listens.as_slice())?,
        vars,
        body: list,
    };
    making.design.procs.push(proc)?;
    making.up_to(len);
    making.region = region;
    Ok(())
}

/// A name of a sensitivity list.
fn listed<'u>(making: &mut Making<'u>, name: &Typed, into: &mut Vec<Run>) -> Result<(), Fault> {
    match piece_of(making, name)? {
        Some(of) => Ok(hear(making, of.net, of.first, of.sub.size(), into)?),
        None => Err(misfit()),
    }
}
