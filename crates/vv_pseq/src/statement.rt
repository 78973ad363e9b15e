//! Sequential statements.

ghost use Rattle.std.specs.Prelude.{◌≡◌, IfOk};
ghost use Rattle.vv_nodes.specs.Nodes.{node_tree};
ghost use Rattle.vv_tree.specs.View as v;

use bumpalo::Bump;
use bumpalo::collections::into_bump_slice;
use std::alloc::Global;
use vv_base::fault::Memory;
use vv_grammar::form::Form;
use vv_leaves::leaf::{assignment_sign, ident, optional_ident};
use vv_nodes::node::{Node, NodeKind};
use vv_pexpr::expression::{choices, expr, optional_expr};
use vv_psubtype::subtype::discrete_range;
use vv_tree::statement::{Assertion, CaseArm, IfArm, Stmt, StmtKind};

/// An assertion.
pub fn assertion<'a>(arena: &'a Bump<Global>, node: Node<'_>) -> Result<Assertion<'a>, Memory>
    ensures { IfOk result (λ assertion. v.assertion_tree assertion ≡ node_tree node.entry) }
{
    let (condition, report, severity, span) = node.three(Form::Assertion)?;
    Ok(Assertion {
        condition: expr(arena, condition)?,
        report: optional_expr(arena, report)?,
        severity: optional_expr(arena, severity)?,
        span,
    })
}

/// A statement that holds no others.
#[tactic(auto, using(vv_tree::proofs::Statements::exit_is, vv_tree::proofs::Statements::next_is, vv_tree::proofs::Statements::return_is, vv_tree::proofs::Statements::null_is, vv_tree::proofs::Statements::wait_is))]
fn short<'a>(arena: &'a Bump<Global>, node: Node<'_>) -> Result<StmtKind<'a>, Memory>
    ensures { IfOk result (λ kind. v.stmt_kind_tree kind ≡ node_tree node.entry) }
{
    match node.form() {
        Some(Form::Exit) => {
            let (label, condition, span) = node.two(Form::Exit)?;
            Ok(StmtKind::Exit {
                label: optional_ident(label)?,
                condition: optional_expr(arena, condition)?,
                span,
            })
        }
        Some(Form::Next) => {
            let (label, condition, span) = node.two(Form::Next)?;
            Ok(StmtKind::Next {
                label: optional_ident(label)?,
                condition: optional_expr(arena, condition)?,
                span,
            })
        }
        Some(Form::Return) => {
            let (value, span) = node.one(Form::Return)?;
            Ok(StmtKind::Return {
                value: expr(arena, value)?,
                span,
            })
        }
        Some(Form::Null) => { Ok(StmtKind::Null(node.none(Form::Null)?)) }
        _ => {
            let (condition, span) = node.one(Form::Wait)?;
            Ok(StmtKind::Wait {
                condition: expr(arena, condition)?,
                span,
            })
        }
    }
}

/// A report without a condition.
#[tactic(auto, using(vv_tree::proofs::Statements::report_is))]
fn report<'a>(arena: &'a Bump<Global>, node: Node<'_>) -> Result<StmtKind<'a>, Memory>
    ensures { IfOk result (λ kind. v.stmt_kind_tree kind ≡ node_tree node.entry) }
{
    let (message, severity, span) = node.two(Form::ReportStatement)?;
    Ok(StmtKind::Report {
        message: expr(arena, message)?,
        severity: optional_expr(arena, severity)?,
        span,
    })
}

/// An assignment.
#[tactic(auto, using(vv_tree::proofs::Statements::assignment_is))]
fn assignment<'a>(arena: &'a Bump<Global>, node: Node<'_>) -> Result<StmtKind<'a>, Memory>
    ensures { IfOk result (λ kind. v.stmt_kind_tree kind ≡ node_tree node.entry) }
{
    let (target, sign, value, span) = node.three(Form::Assignment)?;
    Ok(StmtKind::Assignment {
        target: expr(arena, target)?,
        sign: assignment_sign(sign)?,
        value: expr(arena, value)?,
        span,
    })
}

/// A statement.
#[cycle(statements)]
fn statement<'a>(arena: &'a Bump<Global>, node: Node<'_>) -> Result<Stmt<'a>, Memory>
    ensures { IfOk result (λ statement. v.stmt_tree statement ≡ node_tree node.entry) }
{
    statement_kind(arena, node)?.keep(arena)
}

/// What a statement is.
#[tactic(auto, using(vv_tree::proofs::Statements::assertion_is))]
#[cycle(statements)]
fn statement_kind<'a>(arena: &'a Bump<Global>, node: Node<'_>) -> Result<StmtKind<'a>, Memory>
    ensures { IfOk result (λ kind. v.stmt_kind_tree kind ≡ node_tree node.entry) }
{
    match node.form() {
        Some(Form::LabelledStatement) => labelled(arena, node),
        Some(Form::Assignment) => assignment(arena, node),
        Some(Form::If) => conditional(arena, node),
        Some(Form::Case) => case(arena, node),
        Some(Form::For | Form::While | Form::Loop) => repeated(arena, node),
        Some(Form::Assertion) => Ok(StmtKind::Assertion(assertion(arena, node)?)),
        Some(Form::ReportStatement) => report(arena, node),
        _ => short(arena, node),
    }
}

/// A statement behind its label.
#[tactic(auto, using(vv_tree::proofs::Statements::labelled_is))]
#[cycle(statements)]
fn labelled<'a>(arena: &'a Bump<Global>, node: Node<'_>) -> Result<StmtKind<'a>, Memory>
    ensures { IfOk result (λ kind. v.stmt_kind_tree kind ≡ node_tree node.entry) }
{
    let (label, inner, span) = node.two(Form::LabelledStatement)?;
    Ok(StmtKind::Labelled {
        label: ident(label)?,
        statement: statement(arena, inner)?,
        span,
    })
}

/// Statements.
#[cycle(statements)]
pub fn statements<'a>(arena: &'a Bump<Global>, node: Node<'_>) -> Result<&'a [Stmt<'a>], Memory>
    ensures { IfOk result (λ statements. v.trees_of v.stmt_tree statements.now ≡ node_tree node.entry) }
{
    let nodes = node.items()?;
    let mut all = Vec::with_capacity(arena, nodes.len())?;
    for each in nodes {
        all.push(statement(arena, *each)?)?;
    }
    Ok(into_bump_slice(all))
}

/// Statements that may be left out.
#[cycle(statements)]
fn optional_statements<'a>(
    arena: &'a Bump<Global>,
    node: Node<'_>,
) -> Result<Option<&'a [Stmt<'a>]>, Memory>
    ensures { IfOk result (λ o. v.tree_or_absent (λ statements. v.trees_of v.stmt_tree statements.now) o ≡ node_tree node.entry) }
{
    match node.kind() {
        NodeKind::Absent => Ok(None),
        _ => Ok(Some(statements(arena, node)?)),
    }
}

/// A condition with its statements.
#[cycle(statements)]
fn if_arm<'a>(arena: &'a Bump<Global>, node: Node<'_>) -> Result<IfArm<'a>, Memory>
    ensures { IfOk result (λ arm. v.if_arm_tree arm ≡ node_tree node.entry) }
{
    let (condition, list, span) = node.two(Form::IfArm)?;
    Ok(IfArm {
        condition: expr(arena, condition)?,
        statements: statements(arena, list)?,
        span,
    })
}

/// Conditions with their statements.
#[cycle(statements)]
fn if_arms<'a>(arena: &'a Bump<Global>, node: Node<'_>) -> Result<&'a [IfArm<'a>], Memory>
    ensures { IfOk result (λ arms. v.trees_of v.if_arm_tree arms.now ≡ node_tree node.entry) }
{
    let nodes = node.items()?;
    let mut all = Vec::with_capacity(arena, nodes.len())?;
    for each in nodes {
        all.push(if_arm(arena, *each)?)?;
    }
    Ok(into_bump_slice(all))
}

/// An if statement.
#[tactic(auto, using(vv_tree::proofs::Statements::if_is))]
#[cycle(statements)]
fn conditional<'a>(arena: &'a Bump<Global>, node: Node<'_>) -> Result<StmtKind<'a>, Memory>
    ensures { IfOk result (λ kind. v.stmt_kind_tree kind ≡ node_tree node.entry) }
{
    let (arms, otherwise, end, span) = node.three(Form::If)?;
    Ok(StmtKind::If {
        arms: if_arms(arena, arms)?,
        otherwise: optional_statements(arena, otherwise)?,
        end: optional_ident(end)?,
        span,
    })
}

/// Choices with their statements.
#[cycle(statements)]
fn case_arm<'a>(arena: &'a Bump<Global>, node: Node<'_>) -> Result<CaseArm<'a>, Memory>
    ensures { IfOk result (λ arm. v.case_arm_tree arm ≡ node_tree node.entry) }
{
    let (list, inner, span) = node.two(Form::CaseArm)?;
    Ok(CaseArm {
        choices: choices(arena, list)?,
        statements: statements(arena, inner)?,
        span,
    })
}

/// Several choices with their statements.
#[cycle(statements)]
fn case_arms<'a>(arena: &'a Bump<Global>, node: Node<'_>) -> Result<&'a [CaseArm<'a>], Memory>
    ensures { IfOk result (λ arms. v.trees_of v.case_arm_tree arms.now ≡ node_tree node.entry) }
{
    let nodes = node.items()?;
    let mut all = Vec::with_capacity(arena, nodes.len())?;
    for each in nodes {
        all.push(case_arm(arena, *each)?)?;
    }
    Ok(into_bump_slice(all))
}

/// A case statement.
#[tactic(auto, using(vv_tree::proofs::Statements::case_is))]
#[cycle(statements)]
fn case<'a>(arena: &'a Bump<Global>, node: Node<'_>) -> Result<StmtKind<'a>, Memory>
    ensures { IfOk result (λ kind. v.stmt_kind_tree kind ≡ node_tree node.entry) }
{
    let (selector, arms, end, span) = node.three(Form::Case)?;
    Ok(StmtKind::Case {
        selector: expr(arena, selector)?,
        arms: case_arms(arena, arms)?,
        end: optional_ident(end)?,
        span,
    })
}

/// A loop.
#[tactic(auto, using(vv_tree::proofs::Statements::for_is, vv_tree::proofs::Statements::while_is, vv_tree::proofs::Statements::loop_is))]
#[cycle(statements)]
fn repeated<'a>(arena: &'a Bump<Global>, node: Node<'_>) -> Result<StmtKind<'a>, Memory>
    ensures { IfOk result (λ kind. v.stmt_kind_tree kind ≡ node_tree node.entry) }
{
    match node.form() {
        Some(Form::For) => {
            let (identifier, range, list, end, span) = node.four(Form::For)?;
            Ok(StmtKind::For {
                identifier: ident(identifier)?,
                range: discrete_range(arena, range)?,
                statements: statements(arena, list)?,
                end: optional_ident(end)?,
                span,
            })
        }
        Some(Form::While) => {
            let (condition, list, end, span) = node.three(Form::While)?;
            Ok(StmtKind::While {
                condition: expr(arena, condition)?,
                statements: statements(arena, list)?,
                end: optional_ident(end)?,
                span,
            })
        }
        _ => {
            let (list, end, span) = node.two(Form::Loop)?;
            Ok(StmtKind::Loop {
                statements: statements(arena, list)?,
                end: optional_ident(end)?,
                span,
            })
        }
    }
}
