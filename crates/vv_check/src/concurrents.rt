//! Concurrent statements.

use crate::associations::{Formals, associations, formals_of};
use crate::declarations::{Gathered, declarations};
use sqlite_items::Items;
use vv_base::fault::{Fault, Rule, Span};
use vv_rules::{BOUNDED, PLAIN, kind_of};
use vv_tree::concurrent::{
    Association, Conc, ConcKind, InstanceUnit, Selection, Sensitivity, Waveform,
};
use vv_tree::declaration::{Decl, DiscreteRange};
use vv_tree::expression::Expr;
use vv_tree::leaf::{AssignmentSign, Ident};
use vv_tree::statement::Stmt;
use vv_typed::{
    Alternative, ArmList, ConcForm, Label, StmtForm, TConc, TConcList, TDeclList, TRangeList,
    TSens, TStmtList, TypedList,
};
use vv_types::ObjectKind;
use vv_typing::statements::{
    Body, Position, add_condition, add_selector, add_turn, choices, last, last_range, object_of,
    put_arm, put_case, put_if, put_statement, put_without_else, statements, target,
};
use vv_typing::tables::{Tables, fault};

/// The position of statements of a process.
const IN_PROCESS: Position<'static> = Position {
    body: Body::Process,
    loops: None,
};

/// How a statement is labelled.
#[derive(Clone, Copy)]
struct Labelled {
    label: Label,
    label_span: Span,
    span: Span,
}

/// Concurrent statements. Assertions are dropped and not counted.
pub(crate) fn concurrents(
    tables: &Tables<'_, '_, '_, '_>,
    list: &[Conc<'_>],
    gathered: &mut Gathered,
) -> Result<TConcList, Fault> {
    let mut all = Items::new(tables.alloc);
    add_all(list, tables, gathered, &mut all)?;
    Ok(all)
}

#[cycle(concurrents)]
fn add_all(
    list: &[Conc<'_>],
    tables: &Tables<'_, '_, '_, '_>,
    gathered: &mut Gathered,
    into: &mut TConcList,
) -> Result<(), Fault> {
    let mut unlabelled = 0u32;
    for statement in list {
        if !is_labelled(*statement) && !is_assertion(*statement) {
            unlabelled = unlabelled.saturating_add(1);
        }
        let named = named_by(None, unlabelled, statement.span());
        add(*statement, tables, named, gathered, into)?;
    }
    Ok(())
}

/// Appends a statement.
fn put(form: ConcForm, named: Labelled, into: &mut TConcList) -> Result<(), Fault> {
    into.push(TConc {
        label: named.label,
        label_span: named.label_span,
        span: named.span,
        form,
    })?;
    Ok(())
}

fn is_labelled(statement: Conc<'_>) -> bool {
    match statement.kind() {
        ConcKind::Labelled { .. } => true,
        _ => false,
    }
}

fn is_assertion(statement: Conc<'_>) -> bool {
    match statement.kind() {
        ConcKind::Assertion(_) => true,
        _ => false,
    }
}

/// How a statement is named: by its label or by its number.
fn named_by(label: Option<Ident>, number: u32, span: Span) -> Labelled {
    match label {
        Some(label) => Labelled {
            label: Label::Written(label.name),
            label_span: label.span,
            span,
        },
        None => Labelled {
            label: Label::Unlabelled(number),
            label_span: span,
            span,
        },
    }
}

/// Appends a statement unless it is dropped.
#[cycle(concurrents)]
fn add(
    statement: Conc<'_>,
    tables: &Tables<'_, '_, '_, '_>,
    named: Labelled,
    gathered: &mut Gathered,
    into: &mut TConcList,
) -> Result<(), Fault> {
    match statement.kind() {
        ConcKind::Labelled {
            label,
            statement,
            ..
        } => {
            let named = named_by(Some(*label), 0, statement.span());
            add(*statement, tables, named, gathered, into)
        }
        ConcKind::ForGenerate {
            identifier,
            range,
            declarations,
            statements,
            ..
        } => {
            let turn = Turn {
                identifier: *identifier,
                range: *range,
                decls: *declarations,
            };
            add_for(statements, tables, turn, named, gathered, into)
        }
        ConcKind::IfGenerate {
            condition,
            declarations,
            statements,
            ..
        } => {
            let guard = Guard {
                condition: *condition,
                decls: *declarations,
            };
            add_if(statements, tables, guard, named, gathered, into)
        }
        _ => simple(statement, tables, named, gathered, into),
    }
}

/// Appends a statement that contains no concurrent ones, unless it is dropped.
fn simple(
    statement: Conc<'_>,
    tables: &Tables<'_, '_, '_, '_>,
    named: Labelled,
    gathered: &mut Gathered,
    into: &mut TConcList,
) -> Result<(), Fault> {
    match statement.kind() {
        ConcKind::Process {
            sensitivity,
            declarations,
            statements,
            ..
        } => {
            let form = process(tables, sensitivity, declarations, statements, gathered)?;
            put(form, named, into)
        }
        ConcKind::Conditional {
            target,
            waveforms,
            span,
        } => {
            let mut body = Items::new(tables.alloc);
            conditional(tables, *target, waveforms, *span, &mut body)?;
            put(assigned(tables, body), named, into)
        }
        ConcKind::Selected {
            selector,
            target,
            selections,
            span,
        } => {
            let mut body = Items::new(tables.alloc);
            let written = Choosing {
                selector: *selector,
                target: *target,
                span: *span,
            };
            selected(tables, written, selections, &mut body)?;
            put(assigned(tables, body), named, into)
        }
        ConcKind::Instance {
            unit,
            generics,
            ports,
            ..
        } => put(
            instance(tables, unit, generics, ports, named.label_span)?,
            named,
            into,
        ),
        _ => Ok(()),
    }
}

/// The names of a sensitivity list.
fn sensitivity(tables: &Tables<'_, '_, '_, '_>, written: &Sensitivity<'_>) -> Result<TSens, Fault> {
    match written {
        Sensitivity::Absent => Ok(TSens::Absent),
        Sensitivity::All(_) => Ok(TSens::All),
        Sensitivity::Listed(names, _) => {
            let mut all = Items::new(tables.alloc);
            for name in *names {
                let span = name.span();
                let typed = tables.typed(*name, span, None, PLAIN)?;
                match object_of(&typed) {
                    Some(decl) if is_signal(kind_of(tables.lib, decl)) => {}
                    _ => return Err(fault(Rule::N6, span)),
                }
                all.push(typed)?;
            }
            Ok(TSens::Listed(all))
        }
    }
}

fn is_signal(kind: Option<ObjectKind>) -> bool {
    match kind {
        Some(
            ObjectKind::Signal | ObjectKind::InPort | ObjectKind::OutPort | ObjectKind::InoutPort,
        ) => true,
        _ => false,
    }
}

fn process(
    tables: &Tables<'_, '_, '_, '_>,
    written: &Sensitivity<'_>,
    decls: &[Decl<'_>],
    list: &[Stmt<'_>],
    gathered: &mut Gathered,
) -> Result<ConcForm, Fault> {
    let sens = sensitivity(tables, written)?;
    let decls = declarations(tables, decls, gathered)?;
    let body = statements(tables, list, IN_PROCESS)?;
    Ok(ConcForm::Process { sens, decls, body })
}

/// The process that a concurrent assignment stands for.
fn assigned(tables: &Tables<'_, '_, '_, '_>, body: TStmtList) -> ConcForm {
    ConcForm::Process {
        sens: TSens::All,
        decls: Items::new(tables.alloc),
        body,
    }
}

/// An assignment of a value to a target.
fn assignment(
    tables: &Tables<'_, '_, '_, '_>,
    e: Expr<'_>,
    value: Expr<'_>,
) -> Result<StmtForm, Fault> {
    let target = target(tables, e, AssignmentSign::Signal(e.span()))?;
    let value = tables.typed(value, value.span(), Some(target.base), BOUNDED)?;
    Ok(StmtForm::SignalAssignment { target, value })
}

/// A list of one assignment.
fn one(tables: &Tables<'_, '_, '_, '_>, e: Expr<'_>, value: Expr<'_>) -> Result<TStmtList, Fault> {
    let mut body = Items::new(tables.alloc);
    put_statement(assignment(tables, e, value)?, e.span(), &mut body)?;
    Ok(body)
}

/// Appends a conditional assignment.
fn conditional(
    tables: &Tables<'_, '_, '_, '_>,
    e: Expr<'_>,
    waveforms: &[Waveform<'_>],
    span: Span,
    into: &mut TStmtList,
) -> Result<(), Fault> {
    let mut arms = Items::new(tables.alloc);
    for waveform in waveforms {
        match waveform {
            Waveform::Always(value) => {
                return always(tables, e, *value, arms, span, into);
            }
            Waveform::When {
                value,
                condition,
                ..
            } => add_when(tables, e, *value, *condition, &mut arms)?,
        }
    }
    put_without_else(arms, span, into)
}

/// An assignment with its condition.
fn add_when(
    tables: &Tables<'_, '_, '_, '_>,
    e: Expr<'_>,
    value: Expr<'_>,
    written: Expr<'_>,
    into: &mut ArmList,
) -> Result<(), Fault> {
    let body = one(tables, e, value)?;
    let mut conditions = Items::new(tables.alloc);
    add_condition(tables, written, &mut conditions)?;
    put_arm(&mut conditions, body, into)
}

/// The last waveform, which has no condition.
fn always(
    tables: &Tables<'_, '_, '_, '_>,
    e: Expr<'_>,
    value: Expr<'_>,
    arms: ArmList,
    span: Span,
    into: &mut TStmtList,
) -> Result<(), Fault> {
    if arms.is_empty() {
        return put_statement(assignment(tables, e, value)?, span, into);
    }
    let body = one(tables, e, value)?;
    put_if(arms, body, span, into)
}

/// What is written before the selections of a selected assignment.
#[derive(Clone, Copy)]
struct Choosing<'a> {
    selector: Expr<'a>,
    target: Expr<'a>,
    span: Span,
}

/// Appends a selected assignment.
fn selected(
    tables: &Tables<'_, '_, '_, '_>,
    written: Choosing<'_>,
    selections: &[Selection<'_>],
    into: &mut TStmtList,
) -> Result<(), Fault> {
    let mut selectors = Items::new(tables.alloc);
    let base = add_selector(tables, written.selector, &mut selectors)?;
    let mut alternatives = Items::new(tables.alloc);
    let mut left = selections.len();
    for selection in selections {
        left = left.saturating_sub(1);
        let body = one(tables, written.target, selection.value)?;
        let choices = choices(tables, selection.choices, base, left == 0)?;
        alternatives.push(Alternative { choices, body })?;
    }
    put_case(&mut selectors, alternatives, written.span, into)
}

/// What is written before the statements of a generate statement with a parameter.
#[derive(Clone, Copy)]
struct Turn<'a> {
    identifier: Ident,
    range: DiscreteRange<'a>,
    decls: &'a [Decl<'a>],
}

#[cycle(concurrents)]
fn add_for(
    list: &[Conc<'_>],
    tables: &Tables<'_, '_, '_, '_>,
    turn: Turn<'_>,
    named: Labelled,
    gathered: &mut Gathered,
    into: &mut TConcList,
) -> Result<(), Fault> {
    let mut ranges = Items::new(tables.alloc);
    add_turn(tables, turn.range, &mut ranges)?;
    let decl = tables.ident(turn.identifier)?.decl;
    let decls = declarations(tables, turn.decls, gathered)?;
    let mut body = Items::new(tables.alloc);
    add_all(list, tables, gathered, &mut body)?;
    put_for(decl, &mut ranges, decls, body, named, into)
}

/// Appends a generate statement with a parameter, whose range is the last one of a list.
fn put_for(
    turn: u32,
    ranges: &mut TRangeList,
    decls: TDeclList,
    body: TConcList,
    named: Labelled,
    into: &mut TConcList,
) -> Result<(), Fault> {
    let range = last_range(ranges)?;
    let form = ConcForm::For {
        turn,
        range,
        decls,
        body,
    };
    put(form, named, into)
}

/// What is written before the statements of a generate statement with a condition.
#[derive(Clone, Copy)]
struct Guard<'a> {
    condition: Expr<'a>,
    decls: &'a [Decl<'a>],
}

#[cycle(concurrents)]
fn add_if(
    list: &[Conc<'_>],
    tables: &Tables<'_, '_, '_, '_>,
    guard: Guard<'_>,
    named: Labelled,
    gathered: &mut Gathered,
    into: &mut TConcList,
) -> Result<(), Fault> {
    let mut conditions = Items::new(tables.alloc);
    add_condition(tables, guard.condition, &mut conditions)?;
    let decls = declarations(tables, guard.decls, gathered)?;
    let mut body = Items::new(tables.alloc);
    add_all(list, tables, gathered, &mut body)?;
    put_guarded(&mut conditions, decls, body, named, into)
}

/// Appends a generate statement with a condition, which is the last one of a list.
fn put_guarded(
    conditions: &mut TypedList,
    decls: TDeclList,
    body: TConcList,
    named: Labelled,
    into: &mut TConcList,
) -> Result<(), Fault> {
    let condition = last(conditions)?;
    let form = ConcForm::If {
        condition,
        decls,
        body,
    };
    put(form, named, into)
}

/// An instance of an entity, or of a component.
fn instance(
    tables: &Tables<'_, '_, '_, '_>,
    unit: &InstanceUnit<'_>,
    generics: &[Association<'_>],
    ports: &[Association<'_>],
    label: Span,
) -> Result<ConcForm, Fault> {
    let formals: Formals<'_> = formals_of(tables, unit, label)?;
    let generics = associations(tables, formals.generics, generics, label)?;
    let ports = associations(tables, formals.ports, ports, label)?;
    Ok(ConcForm::Instance {
        entity: formals.entity,
        arch: formals.arch,
        component: formals.component,
        generics,
        ports,
    })
}
