//! The identifiers of names with points and of what is declared.

use vv_base::fault::Name;
use vv_tree::declaration::Mark;
use vv_tree::expression::Part;
use vv_tree::leaf::{Designator, Ident, Literal};
use vv_visible::types::Path;

/// The identifiers of a mark.
pub fn of_mark(mark: Mark<'_>) -> Path {
    Path {
        first: mark.first.name,
        second: mark.others.first().map(|ident| ident.name),
        third: mark.others.get(1).map(|ident| ident.name),
        longer: mark.others.len() > 2,
    }
}

/// One identifier.
pub fn of_ident(ident: Ident) -> Path {
    Path {
        first: ident.name,
        second: None,
        third: None,
        longer: false,
    }
}

/// The identifiers with which a name begins, and how many parts of it they take.
pub fn of_name(identifier: Ident, parts: &[Part<'_>]) -> (Path, usize) {
    let count = parts
        .iter()
        .position(|part| !matches!(part, Part::Selected(_)))
        .unwrap_or(parts.len());
    let second = selected(parts, 0);
    let third = match second {
        Some(_) => selected(parts, 1),
        None => None,
    };
    let path = Path {
        first: identifier.name,
        second,
        third,
        longer: count > 2,
    };
    (path, count)
}

fn selected(parts: &[Part<'_>], at: usize) -> Option<Name> {
    match parts.get(at) {
        Some(Part::Selected(ident)) => Some(ident.name),
        _ => None,
    }
}

/// The identifier of a function or an enumeration literal, which may be a text or a character.
pub fn designator(designator: Designator<'_>) -> Option<Ident> {
    match designator {
        Designator::Ident(ident) => Some(ident),
        Designator::Literal(Literal::Character { name, span, .. })
        | Designator::Literal(Literal::Text { name, span, .. }) => Some(Ident { name, span }),
        _ => None,
    }
}
