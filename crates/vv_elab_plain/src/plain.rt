//! Which functions are plain.

use crate::scan::{Named, of_function};
use sqlite_items::at;
use vv_base::fault::Memory;
use vv_elab_base::making::{Making, Plainness};
use vv_held::Entry;
use vv_typed::{StmtForm, TStmt};

/// How statements end.
#[derive(Clone, Copy, PartialEq, Eq)]
enum Ends {
    /// No return stands in them.
    Never,
    /// Some paths return.
    Sometimes,
    /// Every path returns.
    Always,
    /// They hold what no plain function has.
    Broken,
}

/// How a list ends, whose statements each end by themselves.
#[cycle(plain)]
fn ends_of(list: &[TStmt]) -> Ends {
    let mut last = Ends::Never;
    for s in list {
        if last != Ends::Never {
            return Ends::Broken;
        }
        last = end_of(s);
    }
    last
}

fn either(a: Ends, b: Ends) -> Ends {
    if a == Ends::Broken || b == Ends::Broken {
        Ends::Broken
    } else if a == b {
        a
    } else {
        Ends::Sometimes
    }
}

#[cycle(plain)]
fn end_of(s: &TStmt) -> Ends {
    match &s.form {
        StmtForm::Return(_) => Ends::Always,
        StmtForm::If { arms, otherwise } => {
            let mut ends = match otherwise {
                Some(list) => ends_of(list.as_slice()),
                None => Ends::Never,
            };
            for arm in arms.as_slice() {
                ends = either(ends, ends_of(arm.body.as_slice()));
            }
            ends
        }
        StmtForm::Case {
            selector: _,
            alternatives,
        } => {
            let mut ends = None;
            for alternative in alternatives.as_slice() {
                let own = ends_of(alternative.body.as_slice());
                ends = Some(match ends {
                    Some(before) => either(before, own),
                    None => own,
                });
            }
            match ends {
                Some(ends) => ends,
                None => Ends::Never,
            }
        }
        StmtForm::For {
            turn: _,
            range: _,
            body,
        } => match ends_of(body.as_slice()) {
            Ends::Never => Ends::Never,
            _ => Ends::Broken,
        },
        StmtForm::While {
            condition: _,
            body: _,
        }
        | StmtForm::Exit {
            outer: _,
            condition: _,
        }
        | StmtForm::Next {
            outer: _,
            condition: _,
        } => Ends::Broken,
        _ => Ends::Never,
    }
}

/// The place of a function among the bodies.
pub fn place_of<'u>(making: &Making<'u>, decl: u32) -> Option<usize> {
    match making.env.entry(decl) {
        Some(Entry::Function(place)) => Some(*place as usize),
        _ => None,
    }
}

/// Finds out which functions are plain. The packages have been elaborated.
pub fn judge_functions<'u>(making: &mut Making<'u>) -> Result<(), Memory> {
    for body in making.units.functions.as_slice() {
        let mut named = Named::new(making.alloc);
        of_function(body, &mut named)?;
        let mut is_closed = true;
        for decl in named.named.as_slice() {
            let known = making.known(*decl).package;
            is_closed = is_closed && (known || named.declared.as_slice().contains(decl));
        }
        making.plain.push(Plainness {
            is_plain: ends_of(body.body.as_slice()) == Ends::Always,
            is_closed,
            callees: named.callees,
        })?;
        making.elaborated.push(Vec::new(making.alloc))?;
    }
    for place in 0..making.plain.len() {
        let (again, closed) = reached_from(making, place)?;
        if let Some(plain) = making.plain.get_mut(place) {
            plain.is_plain = plain.is_plain && !again;
            plain.is_closed = plain.is_closed && closed;
        }
    }
    Ok(())
}

/// Whether a function leads to a call of itself, and whether all that it leads to name only what packages have.
fn reached_from<'u>(making: &Making<'u>, place: usize) -> Result<(bool, bool), Memory> {
    let mut seen: Vec<bool> = vec![in making.alloc; false; making.plain.len()]?;
    let mut open = Vec::new(making.alloc);
    open.push(place)?;
    let mut again = false;
    let mut closed = true;
    // Each function is taken from the list at most once.
    for _ in 0..making.plain.len().saturating_add(1) {
        let Some(k) = open.pop() else {
            break;
        };
        let Some(plain) = at(making.plain.as_slice(), k) else {
            break;
        };
        closed = closed && plain.is_closed;
        for decl in plain.callees.as_slice() {
            if let Some(next) = place_of(making, *decl) {
                again = again || next == place;
                if next < seen.len() && !seen[next] && next != place {
                    seen[next] = true;
                    open.push(next)?;
                }
            }
        }
    }
    Ok((again, closed))
}
