//! Expressions with what each part of them may mean.

use crate::cands::Cands;
use sqlite_items::Items;
use std::alloc::Global;
use vv_base::fault::{Memory, Name, Span};
use vv_base::names::Names;
use vv_types::{BaseType, Op};
use vv_visible::types::Library;

/// Where an expression stands.
#[derive(Clone, Copy)]
pub struct Scene<'l, 'n, 'a> {
    pub alloc: Global,
    pub lib: &'l Library<'a>,
    pub names: &'n Names,
    pub scope: u32,
}

/// An attribute by its name.
#[derive(Clone, Copy, Debug, PartialEq, Eq)]
pub enum Attribute {
    Length,
    Range,
    ReverseRange,
    Left,
    Right,
    High,
    Low,
    Pos,
    Val,
    Event,
    Unknown,
}

/// What a part of an expression is.
#[derive(Clone, Copy)]
pub enum Kind<'t> {
    Integer(i32),
    Character,
    Text(&'t [u8]),
    BitText(&'t [u8]),
    /// A name whose first identifiers, up to `head`, name declarations. Its parts are those behind them.
    Name { head: Span },
    /// Indexes, a slice or arguments, as a part of a name.
    Arguments,
    Attribute(Attribute),
    /// The operand of a qualified expression, as a part of a name.
    Qualified,
    /// An identifier behind a dot that belongs to no selected name.
    Selected,
    /// An argument with the name of its formal.
    Named(Name),
    /// A range: its left and its right bound.
    Bounds { down: bool },
    Others,
    Parentheses,
    /// The parts are elements.
    Aggregate,
    /// The parts are the value and then the choices.
    Element,
    Unary(Op),
    Binary(Op),
    /// The parts are the first operand and then links.
    Chain,
    /// An operator and, as its part, the operand behind it.
    Link(Op),
}

/// A part of an expression. A declaration that may be meant in several ways stands twice in its set.
#[derive(Drop)]
pub struct Noted<'t> {
    pub kind: Kind<'t>,
    pub span: Span,
    /// The functions that an operator may mean, or a name with the arguments behind it. The literals that a character may mean.
    pub here: Cands,
    /// What a name may mean by itself, so that all parts behind it are parts of what it means.
    pub bare: Cands,
    /// The type of its values where it is a range and no value: a mark, or an attribute that gives a range.
    pub range: Option<BaseType>,
    /// Whether it asks for an attribute that its prefix lacks.
    pub stray: bool,
    pub parts: Items<Noted<'t>>,
}

impl<'t> Noted<'t> {
    /// A part with nothing that it may mean.
    pub fn new(alloc: Global, kind: Kind<'t>, span: Span, parts: Items<Noted<'t>>) -> Noted<'t> {
        Noted {
            kind,
            span,
            here: Cands::new(alloc),
            bare: Cands::new(alloc),
            range: None,
            stray: false,
            parts,
        }
    }

    /// A part that has no parts.
    pub fn leaf(alloc: Global, kind: Kind<'t>, span: Span) -> Noted<'t> {
        Noted::new(alloc, kind, span, Items::new(alloc))
    }

    /// A part with one part.
    pub fn around(
        alloc: Global,
        kind: Kind<'t>,
        span: Span,
        part: Noted<'t>,
    ) -> Result<Noted<'t>, Memory> {
        let mut parts = Items::new(alloc);
        parts.push(part)?;
        Ok(Noted::new(alloc, kind, span, parts))
    }
}

/// The part that tells what an expression may mean: what stands in parentheses, and the last link of a chain.
pub fn core<'n, 't>(noted: &'n Noted<'t>) -> &'n Noted<'t> {
    match noted.kind {
        Kind::Parentheses => match noted.parts.as_slice().first() {
            Some(inner) => core(inner),
            None => noted,
        },
        Kind::Chain => match noted.parts.as_slice().last() {
            Some(last) => core(last),
            None => noted,
        },
        _ => noted,
    }
}

/// The first place at which a name asks for an attribute that its prefix lacks.
#[cycle(stray)]
pub fn stray_in(noted: &Noted<'_>) -> Option<Span> {
    if noted.stray {
        return Some(noted.span);
    }
    stray_among(noted.parts.as_slice())
}

#[cycle(stray)]
fn stray_among(parts: &[Noted<'_>]) -> Option<Span> {
    let mut first: Option<Span> = None;
    for part in parts {
        if let Some(span) = stray_in(part) {
            first = match first {
                Some(other) => Some(if span.at < other.at { span } else { other }),
                None => Some(span),
            };
        }
    }
    first
}

/// Whether it stands for a range: it takes a part of an array, and no element.
pub fn is_range(noted: &Noted<'_>) -> bool {
    match noted.kind {
        Kind::Bounds { .. } => true,
        _ => noted.range.is_some(),
    }
}

/// From the start of one span to the end of another.
pub fn joined(first: Span, last: Span) -> Span {
    Span {
        file: first.file,
        at: first.at,
        len: last.at.saturating_add(last.len).saturating_sub(first.at),
    }
}
