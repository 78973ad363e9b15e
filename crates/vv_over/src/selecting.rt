//! The one interpretation at a type, downwards. Each function that adds one appends it to the list that is lent.

use crate::node::{put_attribute, put_call};
use sqlite_items::Items;
use vv_base::fault::{Memory, Span, cannot_come};
use vv_meant::calls::{edge_of, formal_at, param_at};
use vv_meant::count::{Ask, find, profile, result_of};
use vv_meant::literals::{bit_positions, literal_base, position, text_positions};
use vv_meant::noted::{Attribute, Kind, Noted, Scene, is_range, joined};
use vv_meant::types::{bare_base, called_base, only, suffix_base};
use vv_typed::{
    ElementList, Form, LinkList, SuffixList, TRange, TRangeList, TypeMark, Typed, TypedList,
};
use vv_typed_nodes::callees::operator_callee;
use vv_typed_nodes::node::{
    Mark, OfType, put, put_between, put_binary, put_chain, put_edge, put_element, put_index,
    put_link, put_of_type, put_parenthesis, put_part, put_slice, put_unary, put_whole, taken,
    taken_range,
};
use vv_types::{BaseType, Op, What};

/// The interpretation of an expression at a type.
pub(crate) fn select(
    scene: &Scene<'_, '_, '_>,
    noted: &Noted<'_>,
    base: BaseType,
) -> Result<Typed, Memory> {
    let mut list = Items::new(scene.alloc);
    add(noted, scene, base, &mut list)?;
    taken(&mut list)
}

/// The interpretation of a range of values of a type, or of a choice.
pub(crate) fn select_range(
    scene: &Scene<'_, '_, '_>,
    noted: &Noted<'_>,
    base: BaseType,
) -> Result<TRange, Memory> {
    let mut list = Items::new(scene.alloc);
    add_range(noted, scene, base, &mut list)?;
    taken_range(&mut list)
}

#[cycle(selecting)]
fn add(
    noted: &Noted<'_>,
    scene: &Scene<'_, '_, '_>,
    base: BaseType,
    into: &mut TypedList,
) -> Result<(), Memory> {
    match noted.kind {
        Kind::Parentheses => match noted.parts.as_slice().first() {
            Some(inner) => {
                add(inner, scene, base, into)?;
                put_parenthesis(scene.alloc, at(noted, base), into)
            }
            None => Err(cannot_come()),
        },
        Kind::Aggregate => add_aggregate(noted, scene, base, into),
        Kind::Unary(op) => add_unary(noted, scene, op, base, into),
        Kind::Binary(op) => add_binary(noted, scene, op, base, into),
        Kind::Chain => add_chain(noted, scene, base, into),
        Kind::Name { .. } => add_name(noted, scene, base, into),
        _ => add_literal(noted, scene, base, into),
    }
}

/// The place of a part, with the type that it has.
fn at(noted: &Noted<'_>, base: BaseType) -> Mark {
    Mark {
        base,
        span: noted.span,
    }
}

/// The interpretation of a literal at a type.
fn add_literal(
    noted: &Noted<'_>,
    scene: &Scene<'_, '_, '_>,
    base: BaseType,
    into: &mut TypedList,
) -> Result<(), Memory> {
    let form = match noted.kind {
        Kind::Integer(value) => Form::Integer(value),
        Kind::Text(bytes) => Form::String(text_positions(scene, base, bytes)?),
        Kind::BitText(bytes) => Form::BitString(bit_positions(scene, base, bytes)?),
        _ => {
            let decl = literal_at(scene, noted, base).ok_or(cannot_come())?;
            Form::Character {
                decl,
                position: position(scene.lib, decl)?,
            }
        }
    };
    put(form, at(noted, base), into)
}

/// The literal of a type among those that a character may mean.
fn literal_at(scene: &Scene<'_, '_, '_>, noted: &Noted<'_>, base: BaseType) -> Option<u32> {
    for decl in noted.here.as_slice() {
        if literal_base(scene.lib, *decl) == Some(base) {
            return Some(*decl);
        }
    }
    None
}

/// The function with this result among those that an operator may mean.
fn operator_at(
    scene: &Scene<'_, '_, '_>,
    noted: &Noted<'_>,
    base: BaseType,
) -> Result<u32, Memory> {
    for decl in noted.here.as_slice() {
        if result_of(scene.lib, *decl) == Some(base) {
            return Ok(*decl);
        }
    }
    Err(cannot_come())
}

/// An operator before its operand.
#[cycle(selecting)]
fn add_unary(
    noted: &Noted<'_>,
    scene: &Scene<'_, '_, '_>,
    op: Op,
    base: BaseType,
    into: &mut TypedList,
) -> Result<(), Memory> {
    let decl = operator_at(scene, noted, base)?;
    let (params, result) = profile(scene.lib, decl).ok_or(cannot_come())?;
    match (params, noted.parts.as_slice()) {
        ([param], [operand]) => {
            add(operand, scene, *param, into)?;
            let callee = operator_callee(scene.lib, decl, op, params, result);
            put_unary(scene.alloc, op, callee, at(noted, base), into)
        }
        _ => Err(cannot_come()),
    }
}

/// An operator between two operands.
#[cycle(selecting)]
fn add_binary(
    noted: &Noted<'_>,
    scene: &Scene<'_, '_, '_>,
    op: Op,
    base: BaseType,
    into: &mut TypedList,
) -> Result<(), Memory> {
    let decl = operator_at(scene, noted, base)?;
    let (params, result) = profile(scene.lib, decl).ok_or(cannot_come())?;
    match (params, noted.parts.as_slice()) {
        ([first, second], [left, right]) => {
            add(left, scene, *first, into)?;
            add(right, scene, *second, into)?;
            let callee = operator_callee(scene.lib, decl, op, params, result);
            put_binary(scene.alloc, op, callee, at(noted, base), into)
        }
        _ => Err(cannot_come()),
    }
}

/// Operands that operators join. The functions are chosen from the last operator to the first, and the operands then from the left.
#[cycle(selecting)]
fn add_chain(
    noted: &Noted<'_>,
    scene: &Scene<'_, '_, '_>,
    base: BaseType,
    into: &mut TypedList,
) -> Result<(), Memory> {
    let Some((first, links)) = noted.parts.as_slice().split_first() else {
        return Err(cannot_come());
    };
    let (start, mut decls) = chosen(scene, links, base)?;
    add(first, scene, start, into)?;
    let mut rest = Items::new(scene.alloc);
    for link in links {
        let decl = decls.pop().ok_or(cannot_come())?;
        add_link(link, scene, decl, into, &mut rest)?;
    }
    put_chain(
        scene.alloc,
        first_operator(links),
        rest,
        at(noted, base),
        into,
    )
}

/// The first operator of a chain. A chain without links stands for its first operand.
fn first_operator(links: &[Noted<'_>]) -> Op {
    match links.first() {
        Some(link) => match link.kind {
            Kind::Link(op) => op,
            _ => Op::And,
        },
        None => Op::And,
    }
}

/// The function of each link, the last one first, and the type of the first operand.
fn chosen(
    scene: &Scene<'_, '_, '_>,
    links: &[Noted<'_>],
    base: BaseType,
) -> Result<(BaseType, Vec<u32>), Memory> {
    let mut decls = Vec::new(scene.alloc);
    let mut now = base;
    for link in links.iter().rev() {
        let decl = operator_at(scene, link, now)?;
        decls.push(decl)?;
        now = match profile(scene.lib, decl) {
            Some(([left, _], _)) => *left,
            _ => return Err(cannot_come()),
        };
    }
    Ok((now, decls))
}

/// An operator with its right operand, which stands in `held` meanwhile.
#[cycle(selecting)]
fn add_link(
    noted: &Noted<'_>,
    scene: &Scene<'_, '_, '_>,
    decl: u32,
    held: &mut TypedList,
    into: &mut LinkList,
) -> Result<(), Memory> {
    let (params, result) = profile(scene.lib, decl).ok_or(cannot_come())?;
    let Kind::Link(op) = noted.kind else {
        return Err(cannot_come());
    };
    match (params, noted.parts.as_slice()) {
        ([_, second], [right]) => {
            add(right, scene, *second, held)?;
            let callee = operator_callee(scene.lib, decl, op, params, result);
            put_link(callee, at(noted, result), held, into)
        }
        _ => Err(cannot_come()),
    }
}

#[cycle(selecting)]
fn add_aggregate(
    noted: &Noted<'_>,
    scene: &Scene<'_, '_, '_>,
    base: BaseType,
    into: &mut TypedList,
) -> Result<(), Memory> {
    let (index, element) = scene.lib.parts(base).ok_or(cannot_come())?;
    let mut elements = Items::new(scene.alloc);
    for part in noted.parts.as_slice() {
        add_element(part, scene, index, element, into, &mut elements)?;
    }
    put(Form::Aggregate(elements), at(noted, base), into)
}

/// An element of an aggregate with its choices. Its value stands in `held` meanwhile.
#[cycle(selecting)]
fn add_element(
    noted: &Noted<'_>,
    scene: &Scene<'_, '_, '_>,
    index: BaseType,
    element: BaseType,
    held: &mut TypedList,
    into: &mut ElementList,
) -> Result<(), Memory> {
    let Some((value, choices)) = noted.parts.as_slice().split_first() else {
        return Err(cannot_come());
    };
    add(value, scene, element, held)?;
    let mut ranges = Items::new(scene.alloc);
    for choice in choices {
        add_range(choice, scene, index, &mut ranges)?;
    }
    put_element(ranges, held, into)
}

/// A range of values of a type, or a choice.
#[cycle(selecting)]
fn add_range(
    noted: &Noted<'_>,
    scene: &Scene<'_, '_, '_>,
    base: BaseType,
    into: &mut TRangeList,
) -> Result<(), Memory> {
    let mut held = Items::new(scene.alloc);
    match noted.kind {
        Kind::Others => {
            into.push(TRange::Others(noted.span))?;
            Ok(())
        }
        Kind::Bounds { down } => match noted.parts.as_slice() {
            [left, right] => {
                add(left, scene, base, &mut held)?;
                add(right, scene, base, &mut held)?;
                put_between(down, &mut held, into)
            }
            _ => Err(cannot_come()),
        },
        _ => {
            if is_range(noted) {
                let decl = *noted.bare.as_slice().first().ok_or(cannot_come())?;
                add_bare(noted, scene, decl, base, &mut held)?;
            } else {
                add(noted, scene, base, &mut held)?;
            }
            put_whole(&mut held, into)
        }
    }
}

/// A name.
#[cycle(selecting)]
fn add_name(
    noted: &Noted<'_>,
    scene: &Scene<'_, '_, '_>,
    base: BaseType,
    into: &mut TypedList,
) -> Result<(), Memory> {
    for decl in noted.here.as_slice() {
        if called_base(scene.lib, noted, *decl) == Some(base) {
            return add_called(noted, scene, *decl, into);
        }
    }
    for decl in noted.bare.as_slice() {
        if bare_base(scene.lib, noted, *decl) == Some(base) {
            return add_bare(noted, scene, *decl, base, into);
        }
    }
    Err(cannot_come())
}

/// A name that calls a function with the arguments behind it.
#[cycle(selecting)]
fn add_called(
    noted: &Noted<'_>,
    scene: &Scene<'_, '_, '_>,
    decl: u32,
    into: &mut TypedList,
) -> Result<(), Memory> {
    let Some((first, rest)) = noted.parts.as_slice().split_first() else {
        return Err(cannot_come());
    };
    let (_, base) = profile(scene.lib, decl).ok_or(cannot_come())?;
    let mark = Mark {
        base,
        span: joined(noted.span, first.span),
    };
    add_call(first, scene, decl, mark, into)?;
    add_suffixes(rest, scene, mark, noted.span, into)
}

/// Whether a function is an edge call, and if so whether of a rising edge.
fn edge(scene: &Scene<'_, '_, '_>, decl: u32) -> Option<bool> {
    match scene.lib.declared(decl) {
        Some(declared) => edge_of(declared),
        None => None,
    }
}

/// A call with these arguments.
#[cycle(selecting)]
fn add_call(
    noted: &Noted<'_>,
    scene: &Scene<'_, '_, '_>,
    decl: u32,
    mark: Mark,
    into: &mut TypedList,
) -> Result<(), Memory> {
    let written = noted.parts.as_slice();
    let (params, _) = profile(scene.lib, decl).ok_or(cannot_come())?;
    if let Some(rising) = edge(scene, decl) {
        return match written {
            [argument] => {
                add_actual(argument, scene, BaseType::Logic, into)?;
                put_edge(scene.alloc, rising, mark, into)
            }
            _ => Err(cannot_come()),
        };
    }
    let mut args = Items::new(scene.alloc);
    for (k, argument) in written.iter().enumerate() {
        let formal = formal_at(scene.lib, decl, params.len(), written, k);
        let param = param_at(params, formal).ok_or(cannot_come())?;
        add_actual(argument, scene, param, &mut args)?;
    }
    put_call(scene, decl, params, written, args, mark, into)
}

/// The actual of an argument.
#[cycle(selecting)]
fn add_actual(
    argument: &Noted<'_>,
    scene: &Scene<'_, '_, '_>,
    base: BaseType,
    into: &mut TypedList,
) -> Result<(), Memory> {
    match argument.kind {
        Kind::Named(_) => match argument.parts.as_slice().first() {
            Some(actual) => add(actual, scene, base, into),
            None => Err(cannot_come()),
        },
        _ => add(argument, scene, base, into),
    }
}

/// Parts of the last expression. `whole` begins where the name begins.
#[cycle(selecting)]
fn add_suffixes(
    parts: &[Noted<'_>],
    scene: &Scene<'_, '_, '_>,
    mark: Mark,
    whole: Span,
    into: &mut TypedList,
) -> Result<(), Memory> {
    let mut now = mark;
    let mut suffixes = Items::new(scene.alloc);
    for part in parts {
        let next = Mark {
            base: suffix_base(scene.lib, now.base, part).ok_or(cannot_come())?,
            span: joined(whole, part.span),
        };
        add_suffix(part, scene, now.base, next, into, &mut suffixes)?;
        now = next;
    }
    put_part(scene.alloc, suffixes, now, into)
}

/// An index or a slice of a value of a type. An index stands in `held` meanwhile.
#[cycle(selecting)]
fn add_suffix(
    noted: &Noted<'_>,
    scene: &Scene<'_, '_, '_>,
    base: BaseType,
    next: Mark,
    held: &mut TypedList,
    into: &mut SuffixList,
) -> Result<(), Memory> {
    let (index, _) = scene.lib.parts(base).ok_or(cannot_come())?;
    match noted.parts.as_slice() {
        [argument] => if is_range(argument) {
            let mut ranges = Items::new(scene.alloc);
            add_range(argument, scene, index, &mut ranges)?;
            put_slice(next, &mut ranges, into)
        } else {
            add(argument, scene, index, held)?;
            put_index(next, held, into)
        },
        _ => Err(cannot_come()),
    }
}

/// A name all of whose parts are parts of what a declaration gives.
#[cycle(selecting)]
fn add_bare(
    noted: &Noted<'_>,
    scene: &Scene<'_, '_, '_>,
    decl: u32,
    base: BaseType,
    into: &mut TypedList,
) -> Result<(), Memory> {
    let Kind::Name { head } = noted.kind else {
        return Err(cannot_come());
    };
    let declared = scene.lib.declared(decl).ok_or(cannot_come())?;
    match &declared.what {
        What::Function { params, result } => {
            let mark = Mark {
                base: *result,
                span: head,
            };
            let args = Items::new(scene.alloc);
            put_call(scene, decl, params.as_slice(), &[], args, mark, into)?;
            add_suffixes(noted.parts.as_slice(), scene, mark, noted.span, into)
        }
        What::Object { base: of, .. } => {
            let mark = Mark {
                base: *of,
                span: head,
            };
            put(Form::Object(decl), mark, into)?;
            add_object(noted, scene, mark, base, into)
        }
        What::Mark(of) => add_mark(noted, scene, decl, *of, base, into),
        What::Literal(_) => {
            let position = position(scene.lib, decl)?;
            put(Form::Literal { decl, position }, at(noted, base), into)
        }
        What::Other => Err(cannot_come()),
    }
}

/// A part of the last expression, which is an object, or an attribute of such a part.
#[cycle(selecting)]
fn add_object(
    noted: &Noted<'_>,
    scene: &Scene<'_, '_, '_>,
    object: Mark,
    base: BaseType,
    into: &mut TypedList,
) -> Result<(), Memory> {
    let parts = noted.parts.as_slice();
    match parts {
        [before @ .., last] => match last.kind {
            Kind::Attribute(attribute) => {
                add_suffixes(before, scene, object, noted.span, into)?;
                put_attribute(scene.alloc, attribute, at(noted, base), into)
            }
            _ => add_suffixes(parts, scene, object, noted.span, into),
        },
        [] => Ok(()),
    }
}

/// A type as a range, a conversion, a qualified expression or an attribute of a type.
#[cycle(selecting)]
fn add_mark(
    noted: &Noted<'_>,
    scene: &Scene<'_, '_, '_>,
    decl: u32,
    of: BaseType,
    base: BaseType,
    into: &mut TypedList,
) -> Result<(), Memory> {
    let mark = at(noted, base);
    match noted.parts.as_slice() {
        [] => put_mark(noted, decl, of, into),
        [part] => match part.kind {
            Kind::Attribute(attribute) => {
                put_mark(noted, decl, of, into)?;
                put_attribute(scene.alloc, attribute, mark, into)
            }
            Kind::Qualified => {
                add_only(part, scene, base, into)?;
                put_of_type(scene.alloc, OfType::Qualified, decl, mark, into)
            }
            _ => {
                let operand = only(part).ok_or(cannot_come())?;
                let found = find(scene, operand, Ask::Related(base));
                add_only(part, scene, found.base.ok_or(cannot_come())?, into)?;
                put_of_type(scene.alloc, OfType::Conversion, decl, mark, into)
            }
        },
        [part, argument] => match part.kind {
            Kind::Attribute(Attribute::Pos) => {
                add_only(argument, scene, of, into)?;
                put_of_type(scene.alloc, OfType::Pos, decl, mark, into)
            }
            _ => {
                add_only(argument, scene, BaseType::Int, into)?;
                put_of_type(scene.alloc, OfType::Val, decl, mark, into)
            }
        },
        _ => Err(cannot_come()),
    }
}

/// A type by its name alone.
fn put_mark(
    noted: &Noted<'_>,
    decl: u32,
    of: BaseType,
    into: &mut TypedList,
) -> Result<(), Memory> {
    let Kind::Name { head } = noted.kind else {
        return Err(cannot_come());
    };
    let mark = Mark {
        base: of,
        span: head,
    };
    put(Form::Mark(TypeMark { decl }), mark, into)
}

/// The only expression in parentheses behind a type.
#[cycle(selecting)]
fn add_only(
    noted: &Noted<'_>,
    scene: &Scene<'_, '_, '_>,
    base: BaseType,
    into: &mut TypedList,
) -> Result<(), Memory> {
    match noted.parts.as_slice() {
        [operand] => add(operand, scene, base, into),
        _ => Err(cannot_come()),
    }
}
