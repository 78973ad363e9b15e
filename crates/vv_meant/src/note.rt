//! From an expression as it is written to what each part of it may mean, upwards.

use crate::literals::{attribute_of, literal, op_of};
use crate::names::{denote, denoted};
use crate::noted::{Attribute, Kind, Noted, Scene};
use crate::operators::{binary, link, unary};
use sqlite_items::Items;
use vv_base::fault::{Memory, Span};
use vv_tree::expression::{Argument, Choice, Element, Expr, ExprKind, Operand, Part, Range};
use vv_tree::leaf::{Direction, Ident};
use vv_types::Op;

/// What an expression may mean.
#[cycle(note)]
pub fn note<'a>(scene: &Scene<'_, '_, '_>, e: Expr<'a>) -> Result<Noted<'a>, Memory> {
    match e.kind() {
        ExprKind::Name {
            identifier,
            parts,
            span,
        } => note_name(scene, *identifier, parts, *span),
        ExprKind::Literal(written) => literal(scene, written),
        ExprKind::Parentheses { inner, span } => {
            let inner = note(scene, *inner)?;
            Noted::around(scene.alloc, Kind::Parentheses, *span, inner)
        }
        ExprKind::Aggregate { elements, span } => note_aggregate(scene, elements, *span),
        ExprKind::Power {
            base,
            exponent,
            span,
        } => {
            let left = note(scene, *base)?;
            let right = note(scene, *exponent)?;
            binary(scene, Op::Power, left, right, *span)
        }
        ExprKind::Abs { operand, span } => {
            let operand = note(scene, *operand)?;
            unary(scene, Op::Absolute, operand, *span)
        }
        ExprKind::Not { operand, span } => {
            let operand = note(scene, *operand)?;
            unary(scene, Op::Not, operand, *span)
        }
        ExprKind::Signed {
            sign,
            operand,
            span,
        } => {
            let operand = note(scene, *operand)?;
            unary(scene, op_of(sign.symbol), operand, *span)
        }
        ExprKind::Shift {
            left,
            operator,
            right,
            span,
        }
        | ExprKind::Relation {
            left,
            operator,
            right,
            span,
        } => {
            let left = note(scene, *left)?;
            let right = note(scene, *right)?;
            binary(scene, op_of(operator.symbol), left, right, *span)
        }
        ExprKind::Product {
            first,
            others,
            span,
        }
        | ExprKind::Sum {
            first,
            others,
            span,
        }
        | ExprKind::Logic {
            first,
            others,
            span,
        } => {
            let first = note(scene, *first)?;
            note_chain(scene, others, first, *span)
        }
    }
}

/// Operands that operators join, from the left.
#[cycle(note)]
fn note_chain<'a>(
    scene: &Scene<'_, '_, '_>,
    others: &'a [Operand<'a>],
    first: Noted<'a>,
    span: Span,
) -> Result<Noted<'a>, Memory> {
    let mut parts = Items::new(scene.alloc);
    parts.push(first)?;
    for other in others {
        let right = note(scene, other.operand)?;
        link(
            scene,
            &mut parts,
            op_of(other.operator.symbol),
            right,
            other.span,
        )?;
    }
    Ok(Noted::new(scene.alloc, Kind::Chain, span, parts))
}

#[cycle(note)]
fn note_aggregate<'a>(
    scene: &Scene<'_, '_, '_>,
    elements: &'a [Element<'a>],
    span: Span,
) -> Result<Noted<'a>, Memory> {
    let mut parts = Items::new(scene.alloc);
    for element in elements {
        let noted = match element {
            Element::Positional(value) => {
                let value = note(scene, *value)?;
                let span = value.span;
                Noted::around(scene.alloc, Kind::Element, span, value)?
            }
            Element::Bound {
                choices,
                value,
                span,
            } => {
                let value = note(scene, *value)?;
                note_element(scene, choices, value, *span)?
            }
        };
        parts.push(noted)?;
    }
    Ok(Noted::new(scene.alloc, Kind::Aggregate, span, parts))
}

/// An element of an aggregate behind its choices.
#[cycle(note)]
fn note_element<'a>(
    scene: &Scene<'_, '_, '_>,
    choices: &'a [Choice<'a>],
    value: Noted<'a>,
    span: Span,
) -> Result<Noted<'a>, Memory> {
    let mut parts = Items::new(scene.alloc);
    parts.push(value)?;
    for choice in choices {
        let noted = match choice {
            Choice::Range(range) => note_range(scene, *range)?,
            Choice::Others(span) => Noted::leaf(scene.alloc, Kind::Others, *span),
        };
        parts.push(noted)?;
    }
    Ok(Noted::new(scene.alloc, Kind::Element, span, parts))
}

/// What a range may mean, or a value where a range can stand.
#[cycle(note)]
pub fn note_range<'a>(scene: &Scene<'_, '_, '_>, range: Range<'a>) -> Result<Noted<'a>, Memory> {
    match range {
        Range::Value(value) => note(scene, value),
        Range::Bounds {
            left,
            direction,
            right,
            span,
        } => {
            let mut parts = Items::new(scene.alloc);
            parts.push(note(scene, left)?)?;
            parts.push(note(scene, right)?)?;
            let down = match direction {
                Direction::To(_) => false,
                Direction::Downto(_) => true,
            };
            Ok(Noted::new(scene.alloc, Kind::Bounds { down }, span, parts))
        }
    }
}

#[cycle(note)]
fn note_name<'a>(
    scene: &Scene<'_, '_, '_>,
    identifier: Ident,
    parts: &'a [Part<'a>],
    span: Span,
) -> Result<Noted<'a>, Memory> {
    let mut behind = Items::new(scene.alloc);
    for part in parts {
        match part {
            Part::Selected(other) => {
                if !behind.is_empty() {
                    behind.push(Noted::leaf(scene.alloc, Kind::Selected, other.span))?;
                }
            }
            Part::Arguments { arguments, span } => {
                behind.push(note_arguments(scene, arguments, *span)?)?;
            }
            Part::Attribute { attribute, span } => {
                let attribute = attribute_of(scene.names, attribute.name);
                behind.push(Noted::leaf(scene.alloc, Kind::Attribute(attribute), *span))?;
            }
            Part::RangeAttribute(span) => {
                behind.push(Noted::leaf(scene.alloc, Kind::Attribute(Attribute::Range), *span))?;
            }
            Part::Qualified { operand, span } => {
                let operand = match operand.kind() {
                    ExprKind::Parentheses { inner, span: _ } => note(scene, *inner)?,
                    _ => note(scene, *operand)?,
                };
                behind.push(Noted::around(scene.alloc, Kind::Qualified, *span, operand)?)?;
            }
        }
    }
    let (decls, head) = denoted(scene, identifier, parts);
    denote(
        scene,
        decls,
        Noted::new(scene.alloc, Kind::Name { head }, span, behind),
    )
}

#[cycle(note)]
fn note_arguments<'a>(
    scene: &Scene<'_, '_, '_>,
    arguments: &'a [Argument<'a>],
    span: Span,
) -> Result<Noted<'a>, Memory> {
    let mut parts = Items::new(scene.alloc);
    for argument in arguments {
        let noted = match argument {
            Argument::Positional(range) => note_range(scene, *range)?,
            Argument::Named {
                formal,
                actual,
                span,
            } => {
                let actual = note_range(scene, *actual)?;
                Noted::around(scene.alloc, Kind::Named(formal.name), *span, actual)?
            }
        };
        parts.push(noted)?;
    }
    Ok(Noted::new(scene.alloc, Kind::Arguments, span, parts))
}
