//! Expressions, names and ranges of the nodes that stand for them.

ghost use Rattle.std.specs.Prelude.{◌≡◌, IfOk};
ghost use Rattle.vv_nodes.specs.Nodes.{node_tree};
ghost use Rattle.vv_tree.specs.View as v;

use bumpalo::Bump;
use bumpalo::collections::into_bump_slice;
use std::alloc::Global;
use vv_base::fault::Memory;
use vv_grammar::form::Form;
use vv_leaves::leaf::{direction, ident, literal, operator};
use vv_nodes::node::{Node, NodeKind};
use vv_tree::expression::{Argument, Choice, Element, Expr, ExprKind, Operand, Part, Range};

/// An expression.
#[cycle(expressions)]
pub fn expr<'a>(arena: &'a Bump<Global>, node: Node<'_>) -> Result<Expr<'a>, Memory>
    ensures { IfOk result (λ expression. v.expr_tree expression ≡ node_tree node.entry) }
{
    expr_kind(arena, node)?.keep(arena)
}

/// What an expression is.
#[tactic(auto, using(vv_tree::proofs::Expressions::literal_is))]
#[cycle(expressions)]
fn expr_kind<'a>(arena: &'a Bump<Global>, node: Node<'_>) -> Result<ExprKind<'a>, Memory>
    ensures { IfOk result (λ kind. v.expr_kind_tree kind ≡ node_tree node.entry) }
{
    match node.form() {
        None => Ok(ExprKind::Literal(literal(arena, node)?)),
        Some(Form::Parentheses | Form::Aggregate | Form::Abs | Form::Not) => around(arena, node),
        Some(Form::Shift | Form::Relation) => between(arena, node),
        Some(Form::Name | Form::Power | Form::Signed) => behind(arena, node),
        Some(_) => chain(arena, node),
    }
}

/// What stands round one expression or one list.
#[tactic(auto, using(vv_tree::proofs::Expressions::parentheses_is, vv_tree::proofs::Expressions::aggregate_is, vv_tree::proofs::Expressions::abs_is, vv_tree::proofs::Expressions::not_is))]
#[cycle(expressions)]
fn around<'a>(arena: &'a Bump<Global>, node: Node<'_>) -> Result<ExprKind<'a>, Memory>
    ensures { IfOk result (λ kind. v.expr_kind_tree kind ≡ node_tree node.entry) }
{
    match node.form() {
        Some(Form::Parentheses) => {
            let (inner, span) = node.one(Form::Parentheses)?;
            let inner = expr(arena, inner)?;
            Ok(ExprKind::Parentheses { inner, span })
        }
        Some(Form::Aggregate) => {
            let (list, span) = node.one(Form::Aggregate)?;
            let elements = elements(arena, list)?;
            Ok(ExprKind::Aggregate { elements, span })
        }
        Some(Form::Abs) => {
            let (operand, span) = node.one(Form::Abs)?;
            let operand = expr(arena, operand)?;
            Ok(ExprKind::Abs { operand, span })
        }
        _ => {
            let (operand, span) = node.one(Form::Not)?;
            let operand = expr(arena, operand)?;
            Ok(ExprKind::Not { operand, span })
        }
    }
}

/// A name with its parts, a power, or a sign with its term.
#[tactic(auto, using(vv_tree::proofs::Expressions::name_is, vv_tree::proofs::Expressions::power_is, vv_tree::proofs::Expressions::signed_is))]
#[cycle(expressions)]
fn behind<'a>(arena: &'a Bump<Global>, node: Node<'_>) -> Result<ExprKind<'a>, Memory>
    ensures { IfOk result (λ kind. v.expr_kind_tree kind ≡ node_tree node.entry) }
{
    match node.form() {
        Some(Form::Name) => {
            let (first, list, span) = node.two(Form::Name)?;
            Ok(ExprKind::Name {
                identifier: ident(first)?,
                parts: parts(arena, list)?,
                span,
            })
        }
        Some(Form::Power) => {
            let (base, exponent, span) = node.two(Form::Power)?;
            Ok(ExprKind::Power {
                base: expr(arena, base)?,
                exponent: expr(arena, exponent)?,
                span,
            })
        }
        _ => {
            let (sign, term, span) = node.two(Form::Signed)?;
            Ok(ExprKind::Signed {
                sign: operator(sign)?,
                operand: expr(arena, term)?,
                span,
            })
        }
    }
}

/// Operands that operators join.
#[tactic(auto, using(vv_tree::proofs::Expressions::product_is, vv_tree::proofs::Expressions::sum_is, vv_tree::proofs::Expressions::logic_is))]
#[cycle(expressions)]
fn chain<'a>(arena: &'a Bump<Global>, node: Node<'_>) -> Result<ExprKind<'a>, Memory>
    ensures { IfOk result (λ kind. v.expr_kind_tree kind ≡ node_tree node.entry) }
{
    match node.form() {
        Some(Form::Product) => {
            let (first, list, span) = node.two(Form::Product)?;
            Ok(ExprKind::Product {
                first: expr(arena, first)?,
                others: operands(arena, list)?,
                span,
            })
        }
        Some(Form::Sum) => {
            let (first, list, span) = node.two(Form::Sum)?;
            Ok(ExprKind::Sum {
                first: expr(arena, first)?,
                others: operands(arena, list)?,
                span,
            })
        }
        _ => {
            let (first, list, span) = node.two(Form::Logic)?;
            Ok(ExprKind::Logic {
                first: expr(arena, first)?,
                others: operands(arena, list)?,
                span,
            })
        }
    }
}

/// An operator between two operands.
#[tactic(auto, using(vv_tree::proofs::Expressions::shift_is, vv_tree::proofs::Expressions::relation_is))]
#[cycle(expressions)]
fn between<'a>(arena: &'a Bump<Global>, node: Node<'_>) -> Result<ExprKind<'a>, Memory>
    ensures { IfOk result (λ kind. v.expr_kind_tree kind ≡ node_tree node.entry) }
{
    match node.form() {
        Some(Form::Shift) => {
            let (left, sign, right, span) = node.three(Form::Shift)?;
            Ok(ExprKind::Shift {
                left: expr(arena, left)?,
                operator: operator(sign)?,
                right: expr(arena, right)?,
                span,
            })
        }
        _ => {
            let (left, sign, right, span) = node.three(Form::Relation)?;
            Ok(ExprKind::Relation {
                left: expr(arena, left)?,
                operator: operator(sign)?,
                right: expr(arena, right)?,
                span,
            })
        }
    }
}

/// An operator and the operand behind it.
#[cycle(expressions)]
fn operand<'a>(arena: &'a Bump<Global>, node: Node<'_>) -> Result<Operand<'a>, Memory>
    ensures { IfOk result (λ operand. v.operand_tree operand ≡ node_tree node.entry) }
{
    let (sign, right, span) = node.two(Form::Operand)?;
    Ok(Operand {
        operator: operator(sign)?,
        operand: expr(arena, right)?,
        span,
    })
}

/// Operators with the operands behind them.
#[cycle(expressions)]
fn operands<'a>(arena: &'a Bump<Global>, node: Node<'_>) -> Result<&'a [Operand<'a>], Memory>
    ensures { IfOk result (λ operands. v.trees_of v.operand_tree operands.now ≡ node_tree node.entry) }
{
    let nodes = node.items()?;
    let mut all = Vec::with_capacity(arena, nodes.len())?;
    for each in nodes {
        all.push(operand(arena, *each)?)?;
    }
    Ok(into_bump_slice(all))
}

/// A part of a name.
#[tactic(auto, using(vv_tree::proofs::Expressions::selected_is, vv_tree::proofs::Expressions::arguments_is, vv_tree::proofs::Expressions::attribute_is, vv_tree::proofs::Expressions::range_attribute_is, vv_tree::proofs::Expressions::qualified_is))]
#[cycle(expressions)]
fn part<'a>(arena: &'a Bump<Global>, node: Node<'_>) -> Result<Part<'a>, Memory>
    ensures { IfOk result (λ part. v.part_tree part ≡ node_tree node.entry) }
{
    match node.form() {
        None => Ok(Part::Selected(ident(node)?)),
        Some(Form::RangeAttribute) => Ok(Part::RangeAttribute(node.none(Form::RangeAttribute)?)),
        Some(Form::Arguments) => {
            let (list, span) = node.one(Form::Arguments)?;
            let arguments = arguments(arena, list)?;
            Ok(Part::Arguments { arguments, span })
        }
        Some(Form::Attribute) => {
            let (attribute, span) = node.one(Form::Attribute)?;
            let attribute = ident(attribute)?;
            Ok(Part::Attribute { attribute, span })
        }
        Some(_) => {
            let (operand, span) = node.one(Form::Qualified)?;
            let operand = expr(arena, operand)?;
            Ok(Part::Qualified { operand, span })
        }
    }
}

/// The parts of a name.
#[cycle(expressions)]
fn parts<'a>(arena: &'a Bump<Global>, node: Node<'_>) -> Result<&'a [Part<'a>], Memory>
    ensures { IfOk result (λ parts. v.trees_of v.part_tree parts.now ≡ node_tree node.entry) }
{
    let nodes = node.items()?;
    let mut all = Vec::with_capacity(arena, nodes.len())?;
    for each in nodes {
        all.push(part(arena, *each)?)?;
    }
    Ok(into_bump_slice(all))
}

/// An argument.
#[tactic(auto, using(vv_tree::proofs::Expressions::positional_is, vv_tree::proofs::Expressions::named_is))]
#[cycle(expressions)]
fn argument<'a>(arena: &'a Bump<Global>, node: Node<'_>) -> Result<Argument<'a>, Memory>
    ensures { IfOk result (λ argument. v.argument_tree argument ≡ node_tree node.entry) }
{
    if let Some(Form::Named) = node.form() {
        let (formal, actual, span) = node.two(Form::Named)?;
        return Ok(Argument::Named {
            formal: ident(formal)?,
            actual: range(arena, actual)?,
            span,
        });
    }
    Ok(Argument::Positional(range(arena, node)?))
}

/// The arguments of a call, or indexes.
#[cycle(expressions)]
fn arguments<'a>(arena: &'a Bump<Global>, node: Node<'_>) -> Result<&'a [Argument<'a>], Memory>
    ensures { IfOk result (λ arguments. v.trees_of v.argument_tree arguments.now ≡ node_tree node.entry) }
{
    let nodes = node.items()?;
    let mut all = Vec::with_capacity(arena, nodes.len())?;
    for each in nodes {
        all.push(argument(arena, *each)?)?;
    }
    Ok(into_bump_slice(all))
}

/// An element of an aggregate.
#[tactic(auto, using(vv_tree::proofs::Expressions::element_is, vv_tree::proofs::Expressions::bound_is))]
#[cycle(expressions)]
fn element<'a>(arena: &'a Bump<Global>, node: Node<'_>) -> Result<Element<'a>, Memory>
    ensures { IfOk result (λ element. v.element_tree element ≡ node_tree node.entry) }
{
    if let Some(Form::BoundElement) = node.form() {
        let (list, value, span) = node.two(Form::BoundElement)?;
        return Ok(Element::Bound {
            choices: choices(arena, list)?,
            value: expr(arena, value)?,
            span,
        });
    }
    Ok(Element::Positional(expr(arena, node)?))
}

/// The elements of an aggregate.
#[cycle(expressions)]
fn elements<'a>(arena: &'a Bump<Global>, node: Node<'_>) -> Result<&'a [Element<'a>], Memory>
    ensures { IfOk result (λ elements. v.trees_of v.element_tree elements.now ≡ node_tree node.entry) }
{
    let nodes = node.items()?;
    let mut all = Vec::with_capacity(arena, nodes.len())?;
    for each in nodes {
        all.push(element(arena, *each)?)?;
    }
    Ok(into_bump_slice(all))
}

/// A choice.
#[tactic(auto, using(vv_tree::proofs::Expressions::single_is, vv_tree::proofs::Expressions::others_is))]
#[cycle(expressions)]
fn choice<'a>(arena: &'a Bump<Global>, node: Node<'_>) -> Result<Choice<'a>, Memory>
    ensures { IfOk result (λ choice. v.choice_tree choice ≡ node_tree node.entry) }
{
    if let Some(Form::Others) = node.form() {
        return Ok(Choice::Others(node.none(Form::Others)?));
    }
    Ok(Choice::Range(range(arena, node)?))
}

/// Choices.
#[cycle(expressions)]
pub fn choices<'a>(arena: &'a Bump<Global>, node: Node<'_>) -> Result<&'a [Choice<'a>], Memory>
    ensures { IfOk result (λ choices. v.trees_of v.choice_tree choices.now ≡ node_tree node.entry) }
{
    let nodes = node.items()?;
    let mut all = Vec::with_capacity(arena, nodes.len())?;
    for each in nodes {
        all.push(choice(arena, *each)?)?;
    }
    Ok(into_bump_slice(all))
}

/// A range, or one value where a range can stand.
#[tactic(auto, using(vv_tree::proofs::Expressions::value_is, vv_tree::proofs::Expressions::bounds_is))]
#[cycle(expressions)]
pub fn range<'a>(arena: &'a Bump<Global>, node: Node<'_>) -> Result<Range<'a>, Memory>
    ensures { IfOk result (λ range. v.range_tree range ≡ node_tree node.entry) }
{
    if let Some(Form::Range) = node.form() {
        let (left, sign, right, span) = node.three(Form::Range)?;
        return Ok(Range::Bounds {
            left: expr(arena, left)?,
            direction: direction(sign)?,
            right: expr(arena, right)?,
            span,
        });
    }
    Ok(Range::Value(expr(arena, node)?))
}

/// An expression that may be left out.
pub fn optional_expr<'a>(
    arena: &'a Bump<Global>,
    node: Node<'_>,
) -> Result<Option<Expr<'a>>, Memory>
    ensures { IfOk result (λ expression. v.tree_or_absent v.expr_tree expression ≡ node_tree node.entry) }
{
    match node.kind() {
        NodeKind::Absent => Ok(None),
        _ => Ok(Some(expr(arena, node)?)),
    }
}

/// Expressions.
pub fn exprs<'a>(arena: &'a Bump<Global>, node: Node<'_>) -> Result<&'a [Expr<'a>], Memory>
    ensures { IfOk result (λ exprs. v.trees_of v.expr_tree exprs.now ≡ node_tree node.entry) }
{
    let nodes = node.items()?;
    let mut all = Vec::with_capacity(arena, nodes.len())?;
    for each in nodes {
        all.push(expr(arena, *each)?)?;
    }
    Ok(into_bump_slice(all))
}
