//! Concurrent statements.

ghost use Rattle.std.specs.Prelude.{◌≡◌, IfOk};
ghost use Rattle.vv_nodes.specs.Nodes.{node_tree};
ghost use Rattle.vv_tree.specs.View as v;

use bumpalo::Bump;
use bumpalo::collections::into_bump_slice;
use std::alloc::Global;
use vv_base::fault::Memory;
use vv_grammar::form::Form;
use vv_leaves::leaf::{ident, optional_ident};
use vv_nodes::node::{Node, NodeKind};
use vv_nodes::values::misfit;
use vv_pdecl::declaration::declarations;
use vv_pexpr::expression::{choices, expr, exprs};
use vv_pinstance::instance::instance;
use vv_pseq::statement::{assertion, statements};
use vv_psubtype::subtype::discrete_range;
use vv_tree::concurrent::{Conc, ConcKind, Selection, Sensitivity, Waveform};

/// To which signals a process is sensitive.
fn sensitivity<'a>(arena: &'a Bump<Global>, node: Node<'_>) -> Result<Sensitivity<'a>, Memory>
    ensures { IfOk result (λ sensitivity. v.sensitivity_tree sensitivity ≡ node_tree node.entry) }
{
    match node.kind() {
        NodeKind::Absent => Ok(Sensitivity::Absent),
        NodeKind::Made {
            form: Form::Listed,
            parts: [names],
            span,
        } => Ok(Sensitivity::Listed(exprs(arena, *names)?, *span)),
        NodeKind::Made {
            form: Form::AllSignals,
            parts: [],
            span,
        } => Ok(Sensitivity::All(*span)),
        _ => Err(misfit()),
    }
}

/// A process.
fn process<'a>(arena: &'a Bump<Global>, node: Node<'_>) -> Result<ConcKind<'a>, Memory>
    ensures { IfOk result (λ kind. v.conc_kind_tree kind ≡ node_tree node.entry) }
{
    let (signals, inner, list, end, span) = node.four(Form::Process)?;
    Ok(ConcKind::Process {
        sensitivity: sensitivity(arena, signals)?,
        declarations: declarations(arena, inner)?,
        statements: statements(arena, list)?,
        end: optional_ident(end)?,
        span,
    })
}

/// A value of a conditional assignment.
fn waveform<'a>(arena: &'a Bump<Global>, node: Node<'_>) -> Result<Waveform<'a>, Memory>
    ensures { IfOk result (λ waveform. v.waveform_tree waveform ≡ node_tree node.entry) }
{
    if let Some(Form::ConditionalWaveform) = node.form() {
        let (value, condition, span) = node.two(Form::ConditionalWaveform)?;
        return Ok(Waveform::When {
            value: expr(arena, value)?,
            condition: expr(arena, condition)?,
            span,
        });
    }
    Ok(Waveform::Always(expr(arena, node)?))
}

/// The values of a conditional assignment.
fn waveforms<'a>(arena: &'a Bump<Global>, node: Node<'_>) -> Result<&'a [Waveform<'a>], Memory>
    ensures { IfOk result (λ waveforms. v.trees_of v.waveform_tree waveforms.now ≡ node_tree node.entry) }
{
    let nodes = node.items()?;
    let mut all = Vec::with_capacity(arena, nodes.len())?;
    for each in nodes {
        all.push(waveform(arena, *each)?)?;
    }
    Ok(into_bump_slice(all))
}

/// A conditional assignment.
fn conditional<'a>(arena: &'a Bump<Global>, node: Node<'_>) -> Result<ConcKind<'a>, Memory>
    ensures { IfOk result (λ kind. v.conc_kind_tree kind ≡ node_tree node.entry) }
{
    let (target, values, span) = node.two(Form::Conditional)?;
    Ok(ConcKind::Conditional {
        target: expr(arena, target)?,
        waveforms: waveforms(arena, values)?,
        span,
    })
}

/// A value of a selected assignment with its choices.
fn selection<'a>(arena: &'a Bump<Global>, node: Node<'_>) -> Result<Selection<'a>, Memory>
    ensures { IfOk result (λ selection. v.selection_tree selection ≡ node_tree node.entry) }
{
    let (value, list, span) = node.two(Form::Selection)?;
    Ok(Selection {
        value: expr(arena, value)?,
        choices: choices(arena, list)?,
        span,
    })
}

/// The values of a selected assignment.
fn selections<'a>(arena: &'a Bump<Global>, node: Node<'_>) -> Result<&'a [Selection<'a>], Memory>
    ensures { IfOk result (λ selections. v.trees_of v.selection_tree selections.now ≡ node_tree node.entry) }
{
    let nodes = node.items()?;
    let mut all = Vec::with_capacity(arena, nodes.len())?;
    for each in nodes {
        all.push(selection(arena, *each)?)?;
    }
    Ok(into_bump_slice(all))
}

/// A selected assignment.
fn selected<'a>(arena: &'a Bump<Global>, node: Node<'_>) -> Result<ConcKind<'a>, Memory>
    ensures { IfOk result (λ kind. v.conc_kind_tree kind ≡ node_tree node.entry) }
{
    let (selector, target, values, span) = node.three(Form::Select)?;
    Ok(ConcKind::Selected {
        selector: expr(arena, selector)?,
        target: expr(arena, target)?,
        selections: selections(arena, values)?,
        span,
    })
}

/// An assertion.
#[tactic(auto, using(vv_tree::proofs::Concurrents::assertion_is))]
fn asserted<'a>(arena: &'a Bump<Global>, node: Node<'_>) -> Result<ConcKind<'a>, Memory>
    ensures { IfOk result (λ kind. v.conc_kind_tree kind ≡ node_tree node.entry) }
{
    Ok(ConcKind::Assertion(assertion(arena, node)?))
}

/// What a statement is that holds no others.
fn plain<'a>(arena: &'a Bump<Global>, node: Node<'_>) -> Result<ConcKind<'a>, Memory>
    ensures { IfOk result (λ kind. v.conc_kind_tree kind ≡ node_tree node.entry) }
{
    match node.form() {
        Some(Form::Process) => process(arena, node),
        Some(Form::Conditional) => conditional(arena, node),
        Some(Form::Select) => selected(arena, node),
        Some(Form::Assertion) => asserted(arena, node),
        _ => instance(arena, node),
    }
}

/// A concurrent statement.
#[cycle(concurrents)]
fn concurrent<'a>(arena: &'a Bump<Global>, node: Node<'_>) -> Result<Conc<'a>, Memory>
    ensures { IfOk result (λ statement. v.conc_tree statement ≡ node_tree node.entry) }
{
    concurrent_kind(arena, node)?.keep(arena)
}

/// What a concurrent statement is.
#[cycle(concurrents)]
fn concurrent_kind<'a>(arena: &'a Bump<Global>, node: Node<'_>) -> Result<ConcKind<'a>, Memory>
    ensures { IfOk result (λ kind. v.conc_kind_tree kind ≡ node_tree node.entry) }
{
    match node.form() {
        Some(Form::Labelled) => labelled(arena, node),
        Some(Form::ForGenerate) => for_generate(arena, node),
        Some(Form::IfGenerate) => if_generate(arena, node),
        _ => plain(arena, node),
    }
}

/// A statement behind its label.
#[cycle(concurrents)]
fn labelled<'a>(arena: &'a Bump<Global>, node: Node<'_>) -> Result<ConcKind<'a>, Memory>
    ensures { IfOk result (λ kind. v.conc_kind_tree kind ≡ node_tree node.entry) }
{
    let (label, inner, span) = node.two(Form::Labelled)?;
    Ok(ConcKind::Labelled {
        label: ident(label)?,
        statement: concurrent(arena, inner)?,
        span,
    })
}

/// Statements that are repeated over a range.
#[cycle(concurrents)]
fn for_generate<'a>(arena: &'a Bump<Global>, node: Node<'_>) -> Result<ConcKind<'a>, Memory>
    ensures { IfOk result (λ kind. v.conc_kind_tree kind ≡ node_tree node.entry) }
{
    let (identifier, range, inner, list, end, span) = node.five(Form::ForGenerate)?;
    Ok(ConcKind::ForGenerate {
        identifier: ident(identifier)?,
        range: discrete_range(arena, range)?,
        declarations: declarations(arena, inner)?,
        statements: concurrents(arena, list)?,
        end: optional_ident(end)?,
        span,
    })
}

/// Statements that stand where a condition holds.
#[cycle(concurrents)]
fn if_generate<'a>(arena: &'a Bump<Global>, node: Node<'_>) -> Result<ConcKind<'a>, Memory>
    ensures { IfOk result (λ kind. v.conc_kind_tree kind ≡ node_tree node.entry) }
{
    let (condition, inner, list, end, span) = node.four(Form::IfGenerate)?;
    Ok(ConcKind::IfGenerate {
        condition: expr(arena, condition)?,
        declarations: declarations(arena, inner)?,
        statements: concurrents(arena, list)?,
        end: optional_ident(end)?,
        span,
    })
}

/// Concurrent statements.
#[cycle(concurrents)]
pub fn concurrents<'a>(arena: &'a Bump<Global>, node: Node<'_>) -> Result<&'a [Conc<'a>], Memory>
    ensures { IfOk result (λ statements. v.trees_of v.conc_tree statements.now ≡ node_tree node.entry) }
{
    let nodes = node.items()?;
    let mut all = Vec::with_capacity(arena, nodes.len())?;
    for each in nodes {
        all.push(concurrent(arena, *each)?)?;
    }
    Ok(into_bump_slice(all))
}
