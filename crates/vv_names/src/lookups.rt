//! What names denote, and whether that can stand where they stand.

use crate::checking::{Bodies, Check};
use crate::paths::{of_ident, of_mark, of_name};
use crate::spans::lies_in;
use vv_base::fault::{Rule, Span};
use vv_tree::declaration::Mark;
use vv_tree::expression::Part;
use vv_tree::leaf::Ident;
use vv_types::{ObjectKind, What};
use vv_visible::declared::{Declared, Sort};
use vv_visible::types::{Found, Library, Path};

/// What can stand in a place of an expression.
#[derive(Clone, Copy, PartialEq, Eq)]
pub enum Role {
    Value,
    /// A value or a range, which the name of a type is too.
    Range,
    Target,
    /// A signal of a sensitivity list.
    Signal,
}

/// What can stand in the place of a mark.
#[derive(Clone, Copy)]
pub enum Wanted {
    Type,
    Component,
    Entity,
}

/// The first declaration that a name denotes in the scope of a place, or the rule that is broken.
fn first(check: &Check<'_, '_>, span: Span, path: Path) -> Result<u32, Rule> {
    let scope = check.library.scope_at(span.file, span.at);
    match check.library.find(scope, path) {
        Found::Several(list) => list.first().copied().ok_or(Rule::N1),
        Found::Nothing => Err(Rule::N1),
        Found::Clash => Err(Rule::N3),
        Found::Missing => Err(Rule::N4),
        Found::Misplaced => Err(Rule::N6),
    }
}

/// Looks up a name of an expression. The answer is whether it is a type.
pub fn name(
    identifier: Ident,
    parts: &[Part<'_>],
    span: Span,
    role: Role,
    bodies: Bodies,
    check: &mut Check<'_, '_>,
) -> bool {
    let (path, count) = of_name(identifier, parts);
    match first(check, span, path) {
        Err(rule) => {
            check.note(Some(rule), span);
            false
        }
        Ok(decl) => {
            let Some(declared) = check.library.declared(decl) else {
                return false;
            };
            let converts = matches!(declared.what, What::Mark(_));
            let rule = misuse(declared, parts.get(count), role, bodies);
            check.note(rule, span);
            converts
        }
    }
}

/// Whether what a name denotes cannot stand in its place, with the part of the name that is next.
fn misuse(
    declared: &Declared,
    next: Option<&Part<'_>>,
    role: Role,
    bodies: Bodies,
) -> Option<Rule> {
    let qualified = matches!(next, Some(Part::Qualified { .. }));
    let fits = match &declared.what {
        What::Object { kind, .. } => {
            !qualified
                && !bodies.shut_out(*kind, declared.span)
                && (role != Role::Signal || is_signal(*kind))
        }
        What::Mark(_) => match role {
            Role::Target | Role::Signal => false,
            Role::Range => true,
            Role::Value => next.is_some(),
        },
        What::Function { .. } | What::Literal(_) => {
            !qualified && (role == Role::Value || role == Role::Range)
        }
        What::Other => false,
    };
    if fits { None } else { Some(Rule::N6) }
}

fn is_signal(kind: ObjectKind) -> bool {
    matches!(
        kind,
        ObjectKind::Signal | ObjectKind::InPort | ObjectKind::OutPort | ObjectKind::InoutPort
    )
}

/// Looks up a mark.
pub fn mark(mark: Mark<'_>, wanted: Wanted, check: &mut Check<'_, '_>) {
    let rule = match first(check, mark.span, of_mark(mark)) {
        Err(rule) => Some(rule),
        Ok(decl) if is_wanted(check.library, decl, wanted) => None,
        Ok(_) => Some(Rule::N6),
    };
    check.note(rule, mark.span);
}

fn is_wanted(library: &Library<'_>, decl: u32, wanted: Wanted) -> bool {
    match wanted {
        Wanted::Type => match library.declared(decl) {
            Some(declared) => matches!(declared.what, What::Mark(_)),
            None => false,
        },
        Wanted::Component => library.sort(decl) == Some(Sort::Component),
        Wanted::Entity => matches!(library.sort(decl), Some(Sort::Entity { .. })),
    }
}

/// Looks up the label of a loop that is left or goes on.
pub fn loop_label(label: Ident, check: &mut Check<'_, '_>) {
    let rule = match first(check, label.span, of_ident(label)) {
        Err(rule) => Some(rule),
        Ok(decl) => match check.library.sort(decl) {
            Some(Sort::Label { turns: Some(turns) }) if lies_in(label.span, turns) => None,
            _ => Some(Rule::N6),
        },
    };
    check.note(rule, label.span);
}

/// The entity of an instance and its architecture, where one is named.
pub fn entity(written: Mark<'_>, architecture: Option<Ident>, check: &mut Check<'_, '_>) {
    mark(written, Wanted::Entity, check);
    let Some(ident) = architecture else {
        return;
    };
    if let Ok(decl) = first(check, written.span, of_mark(written))
        && let Some(declared) = check.library.declared(decl)
        && let Some(name) = declared.name
        && is_wanted(check.library, decl, Wanted::Entity)
        && !check.library.has_architecture(name, ident.name)
    {
        check.note(Some(Rule::N4), ident.span);
    }
}

/// Whether an identifier behind `end` is another one than at the start.
pub fn ends(start: Option<Ident>, end: Option<Ident>, check: &mut Check<'_, '_>) {
    let Some(end) = end else {
        return;
    };
    let same = match start {
        Some(start) => start.name == end.name,
        None => false,
    };
    if !same {
        check.note(Some(Rule::N6), end.span);
    }
}
