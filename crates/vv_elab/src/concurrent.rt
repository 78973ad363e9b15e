//! Concurrent statements, instances apart.

use crate::instances::{
    Site, add_instance, component_of, generics, last_number, ports_of, undriven,
};
use crate::processes::{Written, process};
use sqlite_items::at;
use vv_base::fault::{Fault, Rule};
use vv_elab_base::making::{Making, next_number};
use vv_elab_base::sub::Sub;
use vv_elab_stmt::declarations::declarations;
use vv_elab_types::ranges::{Placed, must, range};
use vv_held::Held;
use vv_held::held::{from_ordinal, misfit, refused};
use vv_held::shape::{count, value_at};
use vv_typed::{Association, ConcForm, TConc, TDeclList, TRange};
use vv_types::Value;

/// How deeply instances may lie in one another.
const MOST_DEPTH: usize = 64;

/// Some concurrent statements. `room` is how deeply concurrent statements may still lie in one another.
#[cycle(regions)]
pub fn concurrent<'u>(making: &mut Making<'u>, list: &'u [TConc], room: u32) -> Result<(), Fault> {
    for c in list {
        one(making, c, room)?;
    }
    Ok(())
}

#[cycle(regions)]
fn one<'u>(making: &mut Making<'u>, c: &'u TConc, room: u32) -> Result<(), Fault> {
    making.place = c.span;
    let Some(room) = room.checked_sub(1) else {
        return Err(misfit());
    };
    match &c.form {
        ConcForm::Process { sens, decls, body } => {
            let of = Written {
                label: c.label,
                span: c.span,
                sens,
                decls,
                body,
            };
            process(making, of)
        }
        ConcForm::Instance {
            entity,
            arch,
            component,
            generics,
            ports,
        } => instance(
            making,
            c,
            *entity,
            *arch,
            *component,
            generics.as_slice(),
            ports.as_slice(),
            room,
        ),
        ConcForm::For {
            turn,
            range,
            decls,
            body,
        } => generated(making, c, *turn, range, decls, body.as_slice(), room),
        ConcForm::If {
            condition,
            decls,
            body,
        } => {
            let held = must(making, condition, None)?;
            if let Value::Bool(true) = held.value {
                let len = making.path.len();
                making.down_to_label(c.label)?;
                region(making, decls, body.as_slice(), room)?;
                making.up_to(len);
            }
            Ok(())
        }
    }
}

/// The declarations and the statements of a generate statement.
#[cycle(regions)]
fn region<'u>(
    making: &mut Making<'u>,
    decls: &'u TDeclList,
    body: &'u [TConc],
    room: u32,
) -> Result<(), Fault> {
    let outer = making.region;
    making.region = making.new_region();
    declarations(making, decls.as_slice())?;
    concurrent(making, body, room)?;
    making.region = outer;
    Ok(())
}

/// How much there is of the design.
fn progress<'u>(making: &Making<'u>) -> (u32, u32, u32, usize) {
    (
        making.nodes,
        making.design.elements,
        making.variable_elements,
        making.design.insts.len(),
    )
}

/// The turns of a generate statement. A turn from which nothing comes takes a step, so that all ends.
#[cycle(regions)]
fn generated<'u>(
    making: &mut Making<'u>,
    c: &'u TConc,
    turn: u32,
    r: &'u TRange,
    decls: &'u TDeclList,
    body: &'u [TConc],
    room: u32,
) -> Result<(), Fault> {
    let Placed {
        bounds,
        left: _,
        right: _,
        base,
    } = range(making, r)?;
    let sub = Sub::scalar(base, bounds);
    let len = making.path.len();
    for k in 0..count(bounds) {
        let Some(n) = value_at(bounds, k) else {
            return Err(misfit());
        };
        let Some(value) = from_ordinal(base, n) else {
            return Err(misfit());
        };
        let before = progress(making);
        making.note_constant(turn, sub, Held::scalar(value), false)?;
        making.down_to_label(c.label)?;
        making.down_to_turn(n)?;
        region(making, decls, body, room)?;
        making.up_to(len);
        if before == progress(making) {
            making.spend(c.span)?;
        }
    }
    Ok(())
}

/// Elaborates what stands at a site.
#[cycle(regions)]
pub fn opened<'u>(making: &mut Making<'u>, site: &Site<'u>, room: u32) -> Result<(), Fault> {
    let (outer_inst, outer_region) = (making.inst, making.region);
    let inst = next_number(making.design.insts.len())?;
    making.region = making.new_region();
    let values = generics(making, site)?;
    making.inst = inst;
    let own = ports_of(making, site)?;
    let subs = Vec::from_slice(making.alloc, own.subs.as_slice())?;
    add_instance(making, site, values, subs)?;
    making.round.push(site.number)?;
    declarations(making, site.arch.decls.as_slice())?;
    concurrent(making, site.arch.body.as_slice(), room)?;
    let _ = making.round.pop();
    undriven(making, &own)?;
    making.inst = outer_inst;
    making.region = outer_region;
    Ok(())
}

/// An instance.
#[cycle(regions)]
fn instance<'u>(
    making: &mut Making<'u>,
    c: &'u TConc,
    number: u32,
    arch: Option<u32>,
    component: Option<u32>,
    generics: &'u [Association],
    ports: &'u [Association],
    room: u32,
) -> Result<(), Fault> {
    let Some(entity) = at(making.units.entities.as_slice(), number as usize) else {
        return Err(misfit());
    };
    let arch_number = match arch {
        Some(arch) => arch,
        None => last_number(entity),
    };
    let Some(arch) = at(entity.archs.as_slice(), arch_number as usize) else {
        return Err(refused(Rule::E10, c.label_span));
    };
    if making.round.len() > MOST_DEPTH || making.round.as_slice().contains(&number) {
        return Err(refused(Rule::E6, c.label_span));
    }
    let component = match component {
        Some(decl) => Some(component_of(making, decl)?),
        None => None,
    };
    let site = Site {
        number,
        entity,
        arch,
        arch_number,
        component,
        generics,
        ports,
        up: Some(making.inst),
    };
    let len = making.path.len();
    making.down_to_label(c.label)?;
    opened(making, &site, room)?;
    making.up_to(len);
    Ok(())
}
