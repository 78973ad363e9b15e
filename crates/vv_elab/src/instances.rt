//! What an instance has: its generics, its ports, and sources of ports that nothing drives.

use crate::processes::{Piece, piece_of};
use sqlite_items::{Items, at};
use std::alloc::Global;
use vv_base::fault::{Fault, Memory, Rule, cannot_come};
use vv_design::{Inst, Mode, NetKind, Origin, Port, Run, Source};
use vv_elab_base::making::{Making, next_number};
use vv_elab_base::objects::{matched, objects_only};
use vv_elab_base::specialisations::Special;
use vv_elab_base::sub::Sub;
use vv_elab_plain::fixed::is_fixed;
use vv_elab_stmt::declarations::{initial_value, net, sub_by_value};
use vv_elab_types::ranges::must;
use vv_elab_types::types::{is_resolved, subtype};
use vv_held::Held;
use vv_held::held::{fitted, initial_of, misfit, refused};
use vv_held::shape::ends;
use vv_typed::{Association, Form, Ident, Objects, ObjectsList, TArch, TComponent, TEntity, Typed};
use vv_types::{BaseType, ObjectKind, Value};

/// What is instantiated. The top has no associations and nothing round it.
#[derive(Drop)]
pub struct Site<'u> {
    pub number: u32,
    pub entity: &'u TEntity,
    pub arch: &'u TArch,
    pub arch_number: u32,
    pub component: Option<&'u TComponent>,
    pub generics: &'u [Association],
    pub ports: &'u [Association],
    pub up: Option<u32>,
}

/// The number of the last architecture.
pub fn last_number(entity: &TEntity) -> u32 {
    match u32::try_from(entity.archs.len()) {
        Ok(n) => n.saturating_sub(1),
        Err(_) => u32::MAX,
    }
}

/// The actuals of the formals by their numbers.
fn actuals_of<'u>(
    alloc: Global,
    associations: &'u [Association],
    formals: usize,
) -> Result<Vec<Option<&'u Typed>>, Memory> {
    let mut actuals = vec![in alloc; None; formals]?;
    for association in associations {
        if let Some(actual) = &association.actual {
            if let Some(place) = actuals.get_mut(association.formal as usize) {
                *place = Some(actual);
            }
        }
    }
    Ok(actuals)
}

/// An identifier with its declaration.
#[derive(Clone, Copy)]
struct Formal<'u> {
    objects: &'u Objects,
    ident: Ident,
}

/// The identifiers of an interface list.
fn formals_of<'u>(alloc: Global, list: &'u ObjectsList) -> Result<Vec<Formal<'u>>, Memory> {
    let mut formals = Vec::new(alloc);
    for objects in list.as_slice() {
        for ident in objects.idents.as_slice() {
            formals.push(Formal {
                objects,
                ident: *ident,
            })?;
        }
    }
    Ok(formals)
}

/// The default of a formal: that of the component, or that of the entity.
fn default_of<'u>(of_component: Option<&Formal<'u>>, own: &Formal<'u>) -> Option<&'u Typed> {
    if let Some(formal) = of_component {
        if let Some(initial) = &formal.objects.initial {
            return Some(initial);
        }
    }
    own.objects.initial.as_ref()
}

/// The formals of a component.
fn component_formals<'u>(
    alloc: Global,
    component: Option<&'u TComponent>,
    ports: bool,
) -> Result<Vec<Formal<'u>>, Memory> {
    match component {
        Some(component) => {
            let list = if ports {
                &component.ports
            } else {
                &component.generics
            };
            formals_of(alloc, list)
        }
        None => Ok(Vec::new(alloc)),
    }
}

/// The values of the generics.
pub fn generics<'u>(making: &mut Making<'u>, site: &Site<'u>) -> Result<Vec<Held>, Fault> {
    let alloc = making.alloc;
    let formals = formals_of(alloc, &site.entity.generics)?;
    let of_component = component_formals(alloc, site.component, false)?;
    let actuals = actuals_of(alloc, site.generics, formals.len())?;
    let mut values = Vec::new(alloc);
    for (k, formal) in formals.iter().enumerate() {
        let sub = subtype(making, &formal.objects.subtype)?;
        objects_only(making, sub, formal.objects.subtype.span)?;
        let component = at(of_component.as_slice(), k);
        let written = match at(actuals.as_slice(), k) {
            Some(Some(actual)) => Some(*actual),
            _ => default_of(component, formal),
        };
        let Some(e) = written else {
            return Err(refused(Rule::E9, formal.ident.span));
        };
        let held = must(making, e, Some(sub.extent))?;
        let held = fitted(held, sub.extent, e.span)?;
        let sub = sub_by_value(making, sub, &held);
        if let Some(component) = component {
            making.note_constant(component.ident.decl, sub, held.copy(alloc)?, false)?;
        }
        making.note_constant(formal.ident.decl, sub, held.copy(alloc)?, false)?;
        values.push(held)?;
    }
    Ok(values)
}

fn mode_of(kind: ObjectKind) -> Mode {
    match kind {
        ObjectKind::OutPort => Mode::Out,
        ObjectKind::InoutPort => Mode::Inout,
        _ => Mode::In,
    }
}

/// A port that is joined with a part of a net outside.
#[derive(Clone, Copy)]
pub struct Join {
    outer: u32,
    run: Run,
}

/// The ports.
#[derive(Drop)]
pub struct Ports {
    pub first: u32,
    pub subs: Vec<Sub>,
    pub modes: Vec<Mode>,
    pub joins: Vec<Join>,
}

pub fn ports_of<'u>(making: &mut Making<'u>, site: &Site<'u>) -> Result<Ports, Fault> {
    let alloc = making.alloc;
    let formals = formals_of(alloc, &site.entity.ports)?;
    let of_component = component_formals(alloc, site.component, true)?;
    let actuals = actuals_of(alloc, site.ports, formals.len())?;
    let mut ports = Ports {
        first: next_number(making.design.nets.len())?,
        subs: Vec::new(alloc),
        modes: Vec::new(alloc),
        joins: Vec::new(alloc),
    };
    for (k, formal) in formals.iter().enumerate() {
        let default = default_of(at(of_component.as_slice(), k), formal);
        let actual = match at(actuals.as_slice(), k) {
            Some(actual) => *actual,
            None => None,
        };
        port(making, site, formal, actual, default, &mut ports)?;
    }
    Ok(ports)
}

/// A port.
fn port<'u>(
    making: &mut Making<'u>,
    site: &Site<'u>,
    formal: &Formal<'u>,
    actual: Option<&'u Typed>,
    default: Option<&'u Typed>,
    ports: &mut Ports,
) -> Result<(), Fault> {
    let objects = formal.objects;
    let sub = subtype(making, &objects.subtype)?;
    objects_only(making, sub, objects.subtype.span)?;
    if site.up.is_none() && sub.is_open() {
        return Err(refused(Rule::E4, objects.subtype.span));
    }
    let mode = mode_of(objects.kind);
    let joined = match actual {
        Some(e) => joined(making, e, sub, mode)?,
        None => None,
    };
    match (joined, actual) {
        (Some(of), Some(_)) => join_port(making, formal, mode, sub, of, ports),
        (_, Some(e)) => constant_port(making, formal, mode, sub, Some(e), ports),
        _ => {
            if mode == Mode::In && site.up.is_some() {
                constant_port(making, formal, mode, sub, default, ports)
            } else {
                fresh(making, site, formal, mode, sub, ports)
            }
        }
    }
}

/// The part of a net that an actual names, or converts to another array type where the port is of mode in. Lengths and scalar subtypes
/// are those of the formal.
fn joined<'u>(
    making: &mut Making<'u>,
    e: &'u Typed,
    sub: Sub,
    mode: Mode,
) -> Result<Option<Piece>, Fault> {
    let of = match piece_of(making, e)? {
        Some(of) => Some(of),
        None if mode == Mode::In => converted(making, e)?,
        None => None,
    };
    if let Some(of) = of {
        matched(of.sub, sub.extent, e.span)?;
        let is_number = sub.extent.levels == 0 && sub.base != BaseType::Logic;
        if is_number && ends(of.sub.extent.scalar) != ends(sub.extent.scalar) {
            return Err(refused(Rule::E5, e.span));
        }
    }
    Ok(of)
}

/// The part of a net that a conversion between arrays of std_ulogic converts.
fn converted<'u>(making: &mut Making<'u>, e: &'u Typed) -> Result<Option<Piece>, Fault> {
    match &e.form {
        Form::Parenthesis(inner) => converted(making, inner.get()),
        Form::Conversion { mark, operand } => {
            let sub = making.mark(*mark);
            if sub.extent.levels != 1 || sub.extent.base != BaseType::Logic {
                return Ok(None);
            }
            let operand = operand.get();
            match piece_of(making, operand)? {
                Some(of) => {
                    matched(of.sub, sub.extent, operand.span)?;
                    let sub = if sub.is_open() {
                        sub.with_outer(of.sub.extent.outer)
                    } else {
                        sub
                    };
                    Ok(Some(Piece {
                        net: of.net,
                        first: of.first,
                        sub,
                    }))
                }
                None => Ok(None),
            }
        }
        _ => Ok(None),
    }
}

/// Notes a port as a net.
fn port_net<'u>(
    making: &mut Making<'u>,
    formal: &Formal<'u>,
    kind: NetKind,
    sub: Sub,
    first: u32,
    initial: Held,
    ports: &mut Ports,
) -> Result<(), Fault> {
    let resolved = is_resolved(making, &formal.objects.subtype);
    net(making, &formal.ident, kind, sub, first, resolved, initial)?;
    ports.subs.push(sub)?;
    ports.modes.push(mode_of(formal.objects.kind))?;
    Ok(())
}

/// A port that has the elements of its actual.
fn join_port<'u>(
    making: &mut Making<'u>,
    formal: &Formal<'u>,
    mode: Mode,
    sub: Sub,
    of: Piece,
    ports: &mut Ports,
) -> Result<(), Fault> {
    let sub = if sub.is_open() {
        sub.with_outer(of.sub.extent.outer)
    } else {
        sub
    };
    let written = if mode == Mode::In {
        None
    } else {
        formal.objects.initial.as_ref()
    };
    let initial = initial_value(making, written, sub, formal.objects.subtype.span)?;
    let first = making.net(of.net)?.first.saturating_add(of.first);
    let kind = NetKind::Port {
        mode,
        actual: Some(of.net),
    };
    port_net(making, formal, kind, sub, first, initial, ports)?;
    if mode != Mode::In {
        ports.joins.push(Join {
            outer: of.net,
            run: Run {
                first: of.first,
                len: sub.size(),
            },
        })?;
    }
    Ok(())
}

/// An in port that has a value.
fn constant_port<'u>(
    making: &mut Making<'u>,
    formal: &Formal<'u>,
    mode: Mode,
    sub: Sub,
    e: Option<&'u Typed>,
    ports: &mut Ports,
) -> Result<(), Fault> {
    let Some(e) = e else {
        return Err(misfit());
    };
    if !is_fixed(making, e, true) {
        return Err(refused(Rule::E1, e.span));
    }
    let held = must(making, e, Some(sub.extent))?;
    let held = fitted(held, sub.extent, e.span)?;
    let sub = sub_by_value(making, sub, &held);
    let first = making.claim_net(sub.size(), formal.ident.span)?;
    let net = next_number(making.design.nets.len())?;
    let run = Run {
        first,
        len: sub.size(),
    };
    constant_source(making, net, run, 0, &held.value)?;
    let kind = NetKind::Port { mode, actual: None };
    port_net(making, formal, kind, sub, first, held, ports)
}

/// A port with elements of its own: one of the top, or one that is left open.
fn fresh<'u>(
    making: &mut Making<'u>,
    site: &Site<'u>,
    formal: &Formal<'u>,
    mode: Mode,
    sub: Sub,
    ports: &mut Ports,
) -> Result<(), Fault> {
    let span = formal.objects.subtype.span;
    let first = making.claim_net(sub.size(), formal.ident.span)?;
    let mut initial = initial_value(making, formal.objects.initial.as_ref(), sub, span)?;
    if mode == Mode::In {
        initial = initial_of(making.alloc, sub.extent, span)?;
    }
    let net = next_number(making.design.nets.len())?;
    let kind = NetKind::Port { mode, actual: None };
    port_net(making, formal, kind, sub, first, initial, ports)?;
    if site.up.is_none() {
        making.design.top.push(Port {
            net,
            input: mode == Mode::In,
        })?;
    }
    Ok(())
}

/// Appends the scalars of a value, from the left.
fn scalars(alloc: Global, value: &Value, into: &mut Vec<Value>) -> Result<(), Memory> {
    match value {
        Value::Array(xs) => {
            for x in xs.as_slice() {
                scalars(alloc, x, into)?;
            }
            Ok(())
        }
        _ => {
            into.push(value.copy(alloc)?)?;
            Ok(())
        }
    }
}

/// A source of the elements of a run that has the scalars of a value, from the one with the number `from` on.
fn constant_source<'u>(
    making: &mut Making<'u>,
    net: u32,
    run: Run,
    from: u32,
    value: &Value,
) -> Result<(), Memory> {
    let mut all = Vec::new(making.alloc);
    scalars(making.alloc, value, &mut all)?;
    let mut values = Items::new(making.alloc);
    for k in from..from.saturating_add(run.len) {
        match all.get(k as usize) {
            Some(scalar) => values.push(scalar.copy(making.alloc)?)?,
            None => return Err(cannot_come()),
        }
    }
    making.design.sources.push(Source {
        run,
        from: Origin::Constant { net, values },
    })?;
    Ok(())
}

/// The elements of out and inout ports that nothing inside drives have their initial values as sources.
pub fn undriven<'u>(making: &mut Making<'u>, ports: &Ports) -> Result<(), Fault> {
    for (k, mode) in ports.modes.iter().enumerate() {
        if *mode != Mode::In {
            let net = ports.first.saturating_add(next_number(k)?);
            undriven_net(making, net)?;
        }
    }
    for join in ports.joins.as_slice() {
        making.drive_by_instance(join.outer, join.run)?;
    }
    Ok(())
}

fn undriven_net<'u>(making: &mut Making<'u>, net: u32) -> Result<(), Memory> {
    let own = making.net(net)?.run();
    let initial = making.net(net)?.initial.copy(making.alloc)?;
    let runs = making.undriven(net)?;
    for part in runs.as_slice() {
        let run = own.part(part.first, part.len);
        constant_source(making, net, run, part.first, &initial)?;
    }
    Ok(())
}

/// Adds an instance to the design.
pub fn add_instance<'u>(
    making: &mut Making<'u>,
    site: &Site<'u>,
    values: Vec<Held>,
    subs: Vec<Sub>,
) -> Result<(), Fault> {
    let mut list = Items::new(making.alloc);
    for held in values.as_slice() {
        list.push(held.value.copy(making.alloc)?)?;
    }
    let spec = making.special(Special {
        entity: site.number,
        arch: site.arch_number,
        generics: values,
        ports: subs,
    })?;
    let inst = Inst {
        path: making.here()?,
        entity: site.entity.name,
        entity_text: making.text(site.entity.name)?,
        arch: site.arch.name,
        up: site.up,
        generics: list,
        spec,
        procs_before: next_number(making.design.procs.len())?,
    };
    making.design.insts.push(inst)?;
    Ok(())
}

/// A component by its declaration, by halves since they stand in the order of their numbers.
pub fn component_of<'u>(making: &Making<'u>, decl: u32) -> Result<&'u TComponent, Fault> {
    let list = making.units.components.as_slice();
    let mut low = 0;
    let mut high = list.len();
    for _ in 0..64 {
        if low >= high {
            break;
        }
        let middle = low.saturating_add(high.saturating_sub(low) / 2);
        match at(list, middle) {
            Some(component) => {
                if component.decl == decl {
                    return Ok(component);
                } else if component.decl < decl {
                    low = middle.saturating_add(1);
                } else {
                    high = middle;
                }
            }
            None => break,
        }
    }
    Err(misfit())
}
