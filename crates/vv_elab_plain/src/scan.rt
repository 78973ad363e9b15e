//! What function bodies name.

use std::alloc::Global;
use vv_base::fault::Memory;
use vv_typed::{
    Callee, Constraint, Element, FnBody, Form, Link, Objects, StmtForm, Suffix, TDecl, TRange,
    TStmt, TSub, TypeForm, TypeMark, Typed,
};

/// The functions that are called, the objects and marks that are named, and what is declared.
#[derive(Drop)]
pub struct Named {
    pub callees: Vec<u32>,
    pub named: Vec<u32>,
    pub declared: Vec<u32>,
}

impl Named {
    pub fn new(alloc: Global) -> Named {
        Named {
            callees: Vec::new(alloc),
            named: Vec::new(alloc),
            declared: Vec::new(alloc),
        }
    }

    fn callee(&mut self, callee: Callee) -> Result<(), Memory> {
        if let Callee::User(decl) = callee {
            self.callees.push(decl)?;
        }
        Ok(())
    }

    fn mark(&mut self, mark: TypeMark) -> Result<(), Memory> {
        self.named.push(mark.decl)?;
        Ok(())
    }
}

/// What a function names.
pub fn of_function(body: &FnBody, into: &mut Named) -> Result<(), Memory> {
    for objects in body.params.as_slice() {
        of_objects(objects, into)?;
    }
    into.mark(body.result)?;
    for decl in body.decls.as_slice() {
        match decl {
            TDecl::Objects(objects) => of_objects(objects, into)?,
            TDecl::Subtype {
                ident,
                subtype,
                resolved: _,
            } => {
                of_subtype(subtype, into)?;
                into.declared.push(ident.decl)?;
            }
            TDecl::Type {
                ident,
                base: _,
                form,
            } => {
                of_type(form, into)?;
                into.declared.push(ident.decl)?;
            }
        }
    }
    of_statements(body.body.as_slice(), into)
}

fn of_objects(objects: &Objects, into: &mut Named) -> Result<(), Memory> {
    of_subtype(&objects.subtype, into)?;
    if let Some(initial) = &objects.initial {
        of_expression(initial, into)?;
    }
    for ident in objects.idents.as_slice() {
        into.declared.push(ident.decl)?;
    }
    Ok(())
}

fn of_subtype(subtype: &TSub, into: &mut Named) -> Result<(), Memory> {
    into.mark(subtype.mark)?;
    match &subtype.constraint {
        Constraint::Absent => Ok(()),
        Constraint::Index(range) | Constraint::Range(range) => of_range(range, into),
    }
}

fn of_type(form: &TypeForm, into: &mut Named) -> Result<(), Memory> {
    match form {
        TypeForm::Unconstrained { index, element } => {
            into.mark(*index)?;
            of_subtype(element, into)
        }
        TypeForm::Constrained { index, element } => {
            of_range(index, into)?;
            of_subtype(element, into)
        }
        _ => Ok(()),
    }
}

#[cycle(scan)]
pub fn of_expression(e: &Typed, into: &mut Named) -> Result<(), Memory> {
    match &e.form {
        Form::Object(decl) => {
            into.named.push(*decl)?;
            Ok(())
        }
        Form::Mark(mark) => into.mark(*mark),
        Form::Call {
            callee,
            formals: _,
            args,
        } => {
            into.callee(*callee)?;
            of_expressions(args.as_slice(), into)
        }
        Form::Part { prefix, suffixes } => {
            of_expression(prefix.get(), into)?;
            of_suffixes(suffixes.as_slice(), into)
        }
        Form::Conversion { mark, operand }
        | Form::Qualified { mark, operand }
        | Form::Pos { mark, operand }
        | Form::Val { mark, operand } => {
            into.mark(*mark)?;
            of_expression(operand.get(), into)
        }
        Form::Length(of)
        | Form::Range(of)
        | Form::ReverseRange(of)
        | Form::Left(of)
        | Form::Right(of)
        | Form::High(of)
        | Form::Low(of)
        | Form::Event(of)
        | Form::Parenthesis(of)
        | Form::Edge {
            rising: _,
            signal: of,
        } => of_expression(of.get(), into),
        Form::Logical { first, rest } | Form::Sum { first, rest } | Form::Product { first, rest } =>
            {
                of_expression(first.get(), into)?;
                of_links(rest.as_slice(), into)
            }
        Form::Relation {
            left,
            callee,
            right,
        }
        | Form::Shift {
            left,
            callee,
            right,
        }
        | Form::Power {
            left,
            callee,
            right,
        } => {
            of_expression(left.get(), into)?;
            into.callee(*callee)?;
            of_expression(right.get(), into)
        }
        Form::Sign { callee, operand }
        | Form::Absolute { callee, operand }
        | Form::Not { callee, operand } => {
            into.callee(*callee)?;
            of_expression(operand.get(), into)
        }
        Form::Aggregate(elements) => of_elements(elements.as_slice(), into),
        _ => Ok(()),
    }
}

#[cycle(scan)]
fn of_expressions(list: &[Typed], into: &mut Named) -> Result<(), Memory> {
    for e in list {
        of_expression(e, into)?;
    }
    Ok(())
}

#[cycle(scan)]
fn of_links(links: &[Link], into: &mut Named) -> Result<(), Memory> {
    for link in links {
        into.callee(link.callee)?;
        of_expression(&link.right, into)?;
    }
    Ok(())
}

#[cycle(scan)]
fn of_elements(elements: &[Element], into: &mut Named) -> Result<(), Memory> {
    for element in elements {
        for choice in element.choices.as_slice() {
            of_range(choice, into)?;
        }
        of_expression(&element.value, into)?;
    }
    Ok(())
}

#[cycle(scan)]
fn of_suffixes(suffixes: &[Suffix], into: &mut Named) -> Result<(), Memory> {
    for suffix in suffixes {
        match suffix {
            Suffix::Index {
                index,
                base: _,
                span: _,
            } => of_expression(index, into)?,
            Suffix::Slice { range, span: _ } => of_range(range, into)?,
        }
    }
    Ok(())
}

#[cycle(scan)]
fn of_range(range: &TRange, into: &mut Named) -> Result<(), Memory> {
    match range {
        TRange::Whole(e) => of_expression(e, into),
        TRange::Between {
            left,
            right,
            down: _,
        } => {
            of_expression(left, into)?;
            of_expression(right, into)
        }
        TRange::Within { mark, range } => {
            into.mark(*mark)?;
            of_range(range.get(), into)
        }
        TRange::Others(_) => Ok(()),
    }
}

#[cycle(scan_statements)]
fn of_statements(list: &[TStmt], into: &mut Named) -> Result<(), Memory> {
    for s in list {
        of_statement(s, into)?;
    }
    Ok(())
}

#[cycle(scan_statements)]
fn of_statement(s: &TStmt, into: &mut Named) -> Result<(), Memory> {
    match &s.form {
        StmtForm::SignalAssignment { target, value }
        | StmtForm::VariableAssignment { target, value } => {
            of_expression(target, into)?;
            of_expression(value, into)
        }
        StmtForm::If { arms, otherwise } => {
            for arm in arms.as_slice() {
                of_expression(&arm.condition, into)?;
                of_statements(arm.body.as_slice(), into)?;
            }
            match otherwise {
                Some(list) => of_statements(list.as_slice(), into),
                None => Ok(()),
            }
        }
        StmtForm::Case {
            selector,
            alternatives,
        } => {
            of_expression(selector, into)?;
            for alternative in alternatives.as_slice() {
                for choice in alternative.choices.as_slice() {
                    of_range(choice, into)?;
                }
                of_statements(alternative.body.as_slice(), into)?;
            }
            Ok(())
        }
        StmtForm::For { turn, range, body } => {
            into.declared.push(*turn)?;
            of_range(range, into)?;
            of_statements(body.as_slice(), into)
        }
        StmtForm::While { condition, body } => {
            of_expression(condition, into)?;
            of_statements(body.as_slice(), into)
        }
        StmtForm::Exit {
            outer: _,
            condition,
        }
        | StmtForm::Next {
            outer: _,
            condition,
        } => of_expression(condition, into),
        StmtForm::Return(e) | StmtForm::WaitUntil(e) => of_expression(e, into),
        StmtForm::Null => Ok(()),
    }
}
