//! Functions. Each is elaborated before what calls it.

use crate::declarations::declarations;
use crate::statements::statements;
use sqlite_items::{Items, at};
use vv_base::fault::{Fault, Memory, cannot_come};
use vv_design::{Function, Param as Listed, ParamList};
use vv_elab_base::known::Object;
use vv_elab_base::making::{Elaborated, Frame, Making, next_number};
use vv_elab_base::sub::{Sub, subtype_of};
use vv_elab_base::wanted::{Param, ParamValue, Start, Wanted};

/// A function that is wanted. `start` is what each try begins with, and `steps` is how many steps were left when it was first wanted.
#[derive(Drop)]
struct Task {
    wanted: Wanted,
    start: Start,
    steps: u32,
}

fn waiting<'u>(making: &Making<'u>, wanted: Wanted) -> Task {
    Task {
        wanted,
        start: making.start(),
        steps: making.steps,
    }
}

/// Elaborates a function that is wanted, and before it those that it calls. The next try of what waits for it begins at `start`, with
/// the steps less that this took.
pub fn elaborate_wanted<'u>(
    making: &mut Making<'u>,
    wanted: Wanted,
    start: &mut Start,
) -> Result<(), Fault> {
    let mut open = Vec::new(making.alloc);
    open.push(waiting(making, wanted))?;
    for _ in 0..u64::MAX {
        let Some(now) = open.pop() else {
            return Ok(());
        };
        making.back_to(now.start);
        match function(making, &now.wanted) {
            Ok(result) => {
                let spent = now.steps.saturating_sub(making.steps);
                note_function(making, now, result)?;
                match open.pop() {
                    Some(mut outer) => {
                        outer.start.steps = outer.start.steps.saturating_sub(spent);
                        open.push(outer)?;
                    }
                    None => start.steps = start.steps.saturating_sub(spent),
                }
            }
            Err(fault) => match making.wanted.take() {
                Some(next) => {
                    open.push(now)?;
                    open.push(waiting(making, next))?;
                }
                None => return Err(fault),
            },
        }
    }
    Err(Fault::Memory)
}

/// Notes a function whose body stands last in the design.
fn note_function<'u>(making: &mut Making<'u>, task: Task, gives: Sub) -> Result<(), Memory> {
    let Task {
        wanted,
        start,
        steps: _,
    } = task;
    let Wanted {
        place,
        region,
        key,
        params: _,
    } = wanted;
    let number = next_number(making.design.functions.len().saturating_sub(1))?;
    let nodes = making.nodes.saturating_sub(start.nodes);
    match making.elaborated.get_mut(place) {
        Some(known) => {
            known.push(Elaborated {
                region,
                key,
                number,
                nodes,
                result: gives,
            })?;
            Ok(())
        }
        None => Err(cannot_come()),
    }
}

/// Notes the parameters, and gives those that are not static.
fn note_params<'u>(making: &mut Making<'u>, params: &[Param]) -> Result<ParamList, Memory> {
    let mut list = Items::new(making.alloc);
    for param in params {
        match &param.value {
            ParamValue::Held(held) => {
                let held = held.copy(making.alloc)?;
                making.note_constant(param.decl, param.sub, held, false)?;
            }
            _ => {
                let number = making.variables;
                making.variables = number.saturating_add(1);
                making.note_object(param.decl, param.sub, Object::Variable(number))?;
                let name = making.text(param.name)?;
                let subtype = subtype_of(making, param.sub)?;
                list.push(Listed { name, subtype })?;
            }
        }
    }
    Ok(list)
}

/// Elaborates a function, and tells the subtype of its result.
fn function<'u>(making: &mut Making<'u>, wanted: &Wanted) -> Result<Sub, Fault> {
    let Some(body) = at(making.units.functions.as_slice(), wanted.place) else {
        return Err(Fault::from(cannot_come()));
    };
    making.variables = 0;
    let params = note_params(making, wanted.params.as_slice())?;
    let result = making.mark(body.result);
    making.frame = Some(Frame {
        result,
        returned: None,
        locals: Items::new(making.alloc),
    });
    declarations(making, body.decls.as_slice())?;
    let mut list = Items::new(making.alloc);
    statements(making, body.body.as_slice(), &mut list)?;
    let Some(own) = making.frame.take() else {
        return Err(Fault::from(cannot_come()));
    };
    let result = match own.returned {
        Some(returned) if result.is_open() => returned,
        _ => result,
    };
    let function = Function {
        name: making.text(body.name)?,
        span: body.span,
        params,
        locals: own.locals,
        result: subtype_of(making, result)?,
        body: list,
    };
    making.design.functions.push(function)?;
    Ok(result)
}
