//! Sequential statements.

use crate::tables::{Tables, fault};
use sqlite_items::Items;
use vv_base::fault::{Fault, Memory, Name, Rule, Span, cannot_come};
use vv_rules::{BOUNDED, PLAIN, broken_parts, kind_of};
use vv_tree::declaration::DiscreteRange;
use vv_tree::expression::{Choice, Expr};
use vv_tree::leaf::{AssignmentSign, Ident};
use vv_tree::statement::{CaseArm, IfArm, Stmt, StmtKind};
use vv_typed::{
    Alternative, AlternativeList, Arm, ArmList, Form, StmtForm, TRange, TRangeList, TStmt,
    TStmtList, Typed, TypedList,
};
use vv_types::{BaseType, ObjectKind};

/// What statements stand in.
#[derive(Clone, Copy)]
pub enum Body {
    Process,
    /// A function with this result, whose mark has bounds or has none.
    Function { gives: BaseType, bounded: bool },
}

/// The loops round a statement by their labels, the innermost one first.
#[derive(Clone, Copy)]
pub struct Loops<'o> {
    pub label: Option<Name>,
    pub outer: Option<&'o Loops<'o>>,
}

/// Where a statement stands.
#[derive(Clone, Copy)]
pub struct Position<'o> {
    pub body: Body,
    pub loops: Option<&'o Loops<'o>>,
}

/// The statements of a list. Assertions and reports are dropped.
pub fn statements(
    tables: &Tables<'_, '_, '_, '_>,
    list: &[Stmt<'_>],
    position: Position<'_>,
) -> Result<TStmtList, Fault> {
    let mut all = Items::new(tables.alloc);
    add_all(list, tables, position, &mut all)?;
    Ok(all)
}

#[cycle(check)]
fn add_all(
    list: &[Stmt<'_>],
    tables: &Tables<'_, '_, '_, '_>,
    position: Position<'_>,
    into: &mut TStmtList,
) -> Result<(), Fault> {
    for statement in list {
        add(*statement, tables, position, None, statement.span(), into)?;
    }
    Ok(())
}

/// Appends a statement.
pub fn put_statement(form: StmtForm, span: Span, into: &mut TStmtList) -> Result<(), Fault> {
    into.push(TStmt { form, span })?;
    Ok(())
}

/// Appends a statement unless it is dropped. Its place is that with its label.
#[cycle(check)]
fn add(
    statement: Stmt<'_>,
    tables: &Tables<'_, '_, '_, '_>,
    position: Position<'_>,
    label: Option<Name>,
    whole: Span,
    into: &mut TStmtList,
) -> Result<(), Fault> {
    match statement.kind() {
        StmtKind::Labelled {
            label,
            statement,
            ..
        } => add(*statement, tables, position, Some(label.name), whole, into),
        StmtKind::If {
            arms,
            otherwise,
            ..
        } => {
            let mut list = Items::new(tables.alloc);
            add_arms(arms, tables, position, &mut list)?;
            match otherwise {
                Some(all) => add_otherwise(all, tables, position, list, whole, into),
                None => put_without_else(list, whole, into),
            }
        }
        StmtKind::Case { selector, arms, .. } => {
            add_case(arms, tables, position, *selector, whole, into)
        }
        StmtKind::For {
            identifier,
            range,
            statements,
            ..
        } => {
            let turn = Turn {
                identifier: *identifier,
                range: *range,
                label,
            };
            add_for(statements, tables, position, turn, whole, into)
        }
        StmtKind::While {
            condition,
            statements,
            span,
            ..
        } => {
            let round = Round {
                condition: Some(*condition),
                label,
                span: *span,
            };
            add_while(statements, tables, position, round, whole, into)
        }
        StmtKind::Loop {
            statements,
            span,
            ..
        } => {
            let round = Round {
                condition: None,
                label,
                span: *span,
            };
            add_while(statements, tables, position, round, whole, into)
        }
        _ => simple(statement, tables, position, whole, into),
    }
}

/// Appends a statement that contains no others, unless it is dropped.
fn simple(
    statement: Stmt<'_>,
    tables: &Tables<'_, '_, '_, '_>,
    position: Position<'_>,
    whole: Span,
    into: &mut TStmtList,
) -> Result<(), Fault> {
    match statement.kind() {
        StmtKind::Assignment {
            target,
            sign,
            value,
            ..
        } => put_statement(assignment(tables, *target, *sign, *value)?, whole, into),
        StmtKind::Exit {
            label,
            condition,
            span,
        } => {
            let outer = left_by(position, *label, *span)?;
            let condition = condition_or_true(tables, *condition, *span)?;
            put_statement(StmtForm::Exit { outer, condition }, whole, into)
        }
        StmtKind::Next {
            label,
            condition,
            span,
        } => {
            let outer = left_by(position, *label, *span)?;
            let condition = condition_or_true(tables, *condition, *span)?;
            put_statement(StmtForm::Next { outer, condition }, whole, into)
        }
        StmtKind::Return { value, span } => {
            put_statement(return_form(tables, position, *value, *span)?, whole, into)
        }
        StmtKind::Null(_) => put_statement(StmtForm::Null, whole, into),
        StmtKind::Wait { condition, span } => {
            put_statement(wait_form(tables, position, *condition, *span)?, whole, into)
        }
        _ => Ok(()),
    }
}

/// Whether an object of a kind can be assigned by a sign.
fn can_assign(kind: ObjectKind, sign: AssignmentSign) -> bool {
    match kind {
        ObjectKind::Signal | ObjectKind::OutPort | ObjectKind::InoutPort => match sign {
            AssignmentSign::Signal(_) => true,
            AssignmentSign::Variable(_) => false,
        },
        ObjectKind::Variable => match sign {
            AssignmentSign::Signal(_) => false,
            AssignmentSign::Variable(_) => true,
        },
        ObjectKind::Constant
        | ObjectKind::Generic
        | ObjectKind::InPort
        | ObjectKind::Parameter
        | ObjectKind::Turn => false,
    }
}

/// The object that a name names, or names a part of.
pub fn object_of(e: &Typed) -> Option<u32> {
    match &e.form {
        Form::Object(decl) => Some(*decl),
        Form::Part { prefix, .. } => match prefix.get().form {
            Form::Object(decl) => Some(decl),
            _ => None,
        },
        _ => None,
    }
}

/// The target of an assignment.
pub fn target(
    tables: &Tables<'_, '_, '_, '_>,
    e: Expr<'_>,
    sign: AssignmentSign,
) -> Result<Typed, Fault> {
    let span = e.span();
    let typed = tables.named(e, span, None)?;
    let Some(decl) = object_of(&typed) else {
        return Err(fault(Rule::N6, span));
    };
    match kind_of(tables.lib, decl) {
        Some(kind) if can_assign(kind, sign) => {}
        _ => return Err(fault(Rule::T3, span)),
    }
    match broken_parts(&typed, tables.lib) {
        Some(refusal) => Err(Fault::Refused(refusal)),
        None => Ok(typed),
    }
}

fn assignment(
    tables: &Tables<'_, '_, '_, '_>,
    e: Expr<'_>,
    sign: AssignmentSign,
    value: Expr<'_>,
) -> Result<StmtForm, Fault> {
    let target = target(tables, e, sign)?;
    let value = tables.typed(value, value.span(), Some(target.base), BOUNDED)?;
    Ok(match sign {
        AssignmentSign::Signal(_) => StmtForm::SignalAssignment { target, value },
        AssignmentSign::Variable(_) => StmtForm::VariableAssignment { target, value },
    })
}

/// A condition.
pub fn condition(tables: &Tables<'_, '_, '_, '_>, e: Expr<'_>) -> Result<Typed, Fault> {
    tables.typed(e, e.span(), Some(BaseType::Bool), PLAIN)
}

/// Appends a condition.
pub fn add_condition(
    tables: &Tables<'_, '_, '_, '_>,
    e: Expr<'_>,
    into: &mut TypedList,
) -> Result<(), Fault> {
    into.push(condition(tables, e)?)?;
    Ok(())
}

/// A condition, which is TRUE where none is written.
fn condition_or_true(
    tables: &Tables<'_, '_, '_, '_>,
    e: Option<Expr<'_>>,
    at: Span,
) -> Result<Typed, Fault> {
    match e {
        Some(e) => condition(tables, e),
        None => Ok(Typed {
            form: Form::Literal {
                decl: tables.truth,
                position: 1,
            },
            base: BaseType::Bool,
            span: at,
        }),
    }
}

/// The arms of an `if`.
#[cycle(check)]
fn add_arms(
    arms: &[IfArm<'_>],
    tables: &Tables<'_, '_, '_, '_>,
    position: Position<'_>,
    into: &mut ArmList,
) -> Result<(), Fault> {
    for arm in arms {
        add_arm(*arm, tables, position, into)?;
    }
    Ok(())
}

/// Appends an `if` that has no `else`.
pub fn put_without_else(arms: ArmList, span: Span, into: &mut TStmtList) -> Result<(), Fault> {
    let form = StmtForm::If {
        arms,
        otherwise: None,
    };
    put_statement(form, span, into)
}

/// An `if` with the statements behind `else`.
#[cycle(check)]
fn add_otherwise(
    list: &[Stmt<'_>],
    tables: &Tables<'_, '_, '_, '_>,
    position: Position<'_>,
    arms: ArmList,
    span: Span,
    into: &mut TStmtList,
) -> Result<(), Fault> {
    let mut body = Items::new(tables.alloc);
    add_all(list, tables, position, &mut body)?;
    put_if(arms, body, span, into)
}

/// Appends an `if` with the statements behind `else`.
pub fn put_if(
    arms: ArmList,
    otherwise: TStmtList,
    span: Span,
    into: &mut TStmtList,
) -> Result<(), Fault> {
    let form = StmtForm::If {
        arms,
        otherwise: Some(otherwise),
    };
    put_statement(form, span, into)
}

#[cycle(check)]
fn add_arm(
    arm: IfArm<'_>,
    tables: &Tables<'_, '_, '_, '_>,
    position: Position<'_>,
    into: &mut ArmList,
) -> Result<(), Fault> {
    let mut conditions = Items::new(tables.alloc);
    add_condition(tables, arm.condition, &mut conditions)?;
    let mut body = Items::new(tables.alloc);
    add_all(arm.statements, tables, position, &mut body)?;
    put_arm(&mut conditions, body, into)
}

/// Appends an arm, whose condition is the last one of a list.
pub fn put_arm(
    conditions: &mut TypedList,
    body: TStmtList,
    into: &mut ArmList,
) -> Result<(), Fault> {
    into.push(Arm {
        condition: last(conditions)?,
        body,
    })?;
    Ok(())
}

/// The last expression, which is taken off the list.
pub fn last(list: &mut TypedList) -> Result<Typed, Memory> {
    match list.pop() {
        Some(e) => Ok(e),
        None => Err(cannot_come()),
    }
}

/// Choices of a `case` or a selected assignment. `others` stands alone and last.
pub fn choices(
    tables: &Tables<'_, '_, '_, '_>,
    list: &[Choice<'_>],
    base: BaseType,
    is_last: bool,
) -> Result<TRangeList, Fault> {
    let mut all = Items::new(tables.alloc);
    for choice in list {
        let at = match choice {
            Choice::Range(range) => range.span(),
            Choice::Others(span) => {
                if !is_last || list.len() != 1 {
                    return Err(fault(Rule::T5, *span));
                }
                *span
            }
        };
        all.push(tables.choice(choice, at, base)?)?;
    }
    Ok(all)
}

/// A `case`.
#[cycle(check)]
fn add_case(
    arms: &[CaseArm<'_>],
    tables: &Tables<'_, '_, '_, '_>,
    position: Position<'_>,
    selector: Expr<'_>,
    span: Span,
    into: &mut TStmtList,
) -> Result<(), Fault> {
    let mut selectors = Items::new(tables.alloc);
    let base = add_selector(tables, selector, &mut selectors)?;
    let mut alternatives = Items::new(tables.alloc);
    let mut left = arms.len();
    for arm in arms {
        left = left.saturating_sub(1);
        add_alternative(*arm, tables, position, base, left == 0, &mut alternatives)?;
    }
    put_case(&mut selectors, alternatives, span, into)
}

/// Appends the selector of a `case`. The answer is its type.
pub fn add_selector(
    tables: &Tables<'_, '_, '_, '_>,
    selector: Expr<'_>,
    into: &mut TypedList,
) -> Result<BaseType, Fault> {
    let selector = tables.typed(selector, selector.span(), None, PLAIN)?;
    let base = selector.base;
    into.push(selector)?;
    Ok(base)
}

/// Appends a `case`, whose selector is the last one of a list.
pub fn put_case(
    selectors: &mut TypedList,
    alternatives: AlternativeList,
    span: Span,
    into: &mut TStmtList,
) -> Result<(), Fault> {
    let form = StmtForm::Case {
        selector: last(selectors)?,
        alternatives,
    };
    put_statement(form, span, into)
}

#[cycle(check)]
fn add_alternative(
    arm: CaseArm<'_>,
    tables: &Tables<'_, '_, '_, '_>,
    position: Position<'_>,
    base: BaseType,
    is_last: bool,
    into: &mut AlternativeList,
) -> Result<(), Fault> {
    let choices = choices(tables, arm.choices, base, is_last)?;
    let mut body = Items::new(tables.alloc);
    add_all(arm.statements, tables, position, &mut body)?;
    into.push(Alternative { choices, body })?;
    Ok(())
}

/// What is written before the statements of a loop over a range.
#[derive(Clone, Copy)]
struct Turn<'a> {
    identifier: Ident,
    range: DiscreteRange<'a>,
    label: Option<Name>,
}

/// A loop over a range.
#[cycle(check)]
fn add_for(
    list: &[Stmt<'_>],
    tables: &Tables<'_, '_, '_, '_>,
    position: Position<'_>,
    turn: Turn<'_>,
    span: Span,
    into: &mut TStmtList,
) -> Result<(), Fault> {
    let mut ranges = Items::new(tables.alloc);
    add_turn(tables, turn.range, &mut ranges)?;
    let decl = tables.ident(turn.identifier)?.decl;
    let mut body = Items::new(tables.alloc);
    add_turns(list, tables, position, turn.label, &mut body)?;
    put_for(decl, &mut ranges, body, span, into)
}

/// Appends the range of a parameter of a loop or a generate statement.
pub fn add_turn(
    tables: &Tables<'_, '_, '_, '_>,
    range: DiscreteRange<'_>,
    into: &mut TRangeList,
) -> Result<(), Fault> {
    let (range, _) = tables.discrete(&range, range.span(), None)?;
    into.push(range)?;
    Ok(())
}

/// Appends a loop, whose range is the last one of a list.
fn put_for(
    turn: u32,
    ranges: &mut TRangeList,
    body: TStmtList,
    span: Span,
    into: &mut TStmtList,
) -> Result<(), Fault> {
    let range = last_range(ranges)?;
    put_statement(StmtForm::For { turn, range, body }, span, into)
}

/// The last range, which is taken off the list.
pub fn last_range(list: &mut TRangeList) -> Result<TRange, Memory> {
    match list.pop() {
        Some(range) => Ok(range),
        None => Err(cannot_come()),
    }
}

/// What is written round the statements of a loop without a range. `span` is its place without its label.
#[derive(Clone, Copy)]
struct Round<'a> {
    condition: Option<Expr<'a>>,
    label: Option<Name>,
    span: Span,
}

/// Appends the condition of a loop without a range.
fn add_round(
    tables: &Tables<'_, '_, '_, '_>,
    round: Round<'_>,
    into: &mut TypedList,
) -> Result<(), Fault> {
    into.push(condition_or_true(tables, round.condition, round.span)?)?;
    Ok(())
}

/// A loop with `while`, or with neither `for` nor `while`.
#[cycle(check)]
fn add_while(
    list: &[Stmt<'_>],
    tables: &Tables<'_, '_, '_, '_>,
    position: Position<'_>,
    round: Round<'_>,
    span: Span,
    into: &mut TStmtList,
) -> Result<(), Fault> {
    if let Body::Process = position.body {
        return Err(fault(Rule::T9, round.span));
    }
    let mut conditions = Items::new(tables.alloc);
    add_round(tables, round, &mut conditions)?;
    let mut body = Items::new(tables.alloc);
    add_turns(list, tables, position, round.label, &mut body)?;
    put_while(&mut conditions, body, span, into)
}

/// Appends a loop, whose condition is the last one of a list.
fn put_while(
    conditions: &mut TypedList,
    body: TStmtList,
    span: Span,
    into: &mut TStmtList,
) -> Result<(), Fault> {
    let condition = last(conditions)?;
    put_statement(StmtForm::While { condition, body }, span, into)
}

/// The statements of a loop.
#[cycle(check)]
fn add_turns(
    list: &[Stmt<'_>],
    tables: &Tables<'_, '_, '_, '_>,
    position: Position<'_>,
    label: Option<Name>,
    into: &mut TStmtList,
) -> Result<(), Fault> {
    let inner = Loops {
        label,
        outer: position.loops,
    };
    let position = Position {
        body: position.body,
        loops: Some(&inner),
    };
    add_all(list, tables, position, into)
}

/// How many loops stand within the one that a label names, or None where it names none of those round a place.
fn loops_within(loops: &Loops<'_>, label: Option<Name>) -> Option<u32> {
    let Some(name) = label else {
        return Some(0);
    };
    if loops.label == Some(name) {
        return Some(0);
    }
    match loops.outer {
        Some(outer) => Some(loops_within(outer, label)?.saturating_add(1)),
        None => None,
    }
}

/// How many loops an `exit` or a `next` leaves beside the one that it ends or goes on with.
fn left_by(position: Position<'_>, label: Option<Ident>, span: Span) -> Result<u32, Fault> {
    if let Body::Process = position.body {
        return Err(fault(Rule::T9, span));
    }
    let Some(loops) = position.loops else {
        return Err(fault(Rule::T9, span));
    };
    let name = match label {
        Some(label) => Some(label.name),
        None => None,
    };
    match loops_within(loops, name) {
        Some(outer) => Ok(outer),
        None => Err(fault(Rule::T9, span)),
    }
}

fn return_form(
    tables: &Tables<'_, '_, '_, '_>,
    position: Position<'_>,
    value: Expr<'_>,
    span: Span,
) -> Result<StmtForm, Fault> {
    match position.body {
        Body::Process => Err(fault(Rule::T9, span)),
        Body::Function { gives, bounded } => {
            let context = if bounded { BOUNDED } else { PLAIN };
            Ok(StmtForm::Return(tables.typed(value, value.span(), Some(gives), context)?))
        }
    }
}

fn wait_form(
    tables: &Tables<'_, '_, '_, '_>,
    position: Position<'_>,
    e: Expr<'_>,
    span: Span,
) -> Result<StmtForm, Fault> {
    match position.body {
        Body::Process => Ok(StmtForm::WaitUntil(condition(tables, e)?)),
        Body::Function { .. } => Err(fault(Rule::T9, span)),
    }
}
