//! Units: which there are, and what each declares.

use crate::builder::{Builder, entity};
use crate::concurrents::concurrents;
use crate::declarations::{declarations, interfaces, use_clause};
use crate::needs::needs;
use crate::order::in_order;
use std::alloc::Global;
use vv_base::fault::{Memory, Rule, Span};
use vv_names::spans::end;
use vv_tree::leaf::Ident;
use vv_tree::unit::{Context, Unit, UnitKind};
use vv_types::{ObjectKind, What};
use vv_visible::declared::{FormalList, Sort};
use vv_visible::table::{ROOT, WORK};
use vv_visible::types::Member;

/// The kinds of units that may stand once for a name.
#[derive(Clone, Copy, PartialEq, Eq, PartialOrd, Ord)]
enum UnitSort {
    Entity,
    Package,
    Body,
    Architecture,
}

/// By what units are told apart. An architecture has the name of its entity too.
#[derive(Clone, Copy, PartialEq, Eq, PartialOrd, Ord)]
struct UnitKey {
    sort: UnitSort,
    name: u32,
    of: u32,
}

/// The key and the identifier of a unit.
fn key(unit: &Unit<'_>) -> (UnitKey, Ident) {
    let (sort, ident, of) = match unit.kind {
        UnitKind::Entity { identifier, .. } => (UnitSort::Entity, identifier, 0),
        UnitKind::Package { identifier, .. } => (UnitSort::Package, identifier, 0),
        UnitKind::PackageBody { identifier, .. } => (UnitSort::Body, identifier, 0),
        UnitKind::Architecture {
            identifier,
            entity,
            ..
        } => (UnitSort::Architecture, identifier, entity.name.0),
    };
    let name = ident.name.0;
    (UnitKey { sort, name, of }, ident)
}

/// The rule on units that stand twice.
pub fn note_twice(files: &[&[Unit<'_>]], builder: &mut Builder) -> Result<(), Memory> {
    let mut keys = Vec::new(builder.alloc());
    for units in files {
        for unit in *units {
            keys.push(key(unit))?;
        }
    }
    keys.sort_by_key(|entry| entry.0)?;
    let mut before = None;
    for (key, ident) in keys.as_slice() {
        if before == Some(*key) {
            builder.least.note(Rule::N5, ident.span);
        }
        before = Some(*key);
    }
    Ok(())
}

/// The names of entities and their architectures, sorted.
pub fn architectures(alloc: Global, files: &[&[Unit<'_>]]) -> Result<Vec<(u32, u32)>, Memory> {
    let mut pairs = Vec::new(alloc);
    for units in files {
        for unit in *units {
            if let UnitKind::Architecture {
                identifier,
                entity,
                ..
            } = unit.kind
            {
                pairs.push((entity.name.0, identifier.name.0))?;
            }
        }
    }
    pairs.sort()?;
    Ok(pairs)
}

/// Makes the entities and the packages known in `work`, each by the first unit of its name. Another one is declared all the same.
pub fn enlist(
    files: &[&[Unit<'_>]],
    builder: &mut Builder,
    members: &mut Vec<Member>,
) -> Result<(), Memory> {
    for (file, units) in files.iter().enumerate() {
        for (index, unit) in units.iter().enumerate() {
            if let Some(decl) = enlist_unit(unit, builder)? {
                members.push(Member {
                    decl,
                    unit: Some((vv_visible::symbols::number(file)?, index)),
                })?;
            }
        }
    }
    Ok(())
}

fn enlist_unit(unit: &Unit<'_>, builder: &mut Builder) -> Result<Option<u32>, Memory> {
    let (key, ident) = key(unit);
    let package = key.sort == UnitSort::Package;
    if !package && key.sort != UnitSort::Entity {
        return Ok(None);
    }
    let twice = builder.table.unit(WORK, key.name, package).is_some();
    let region = builder.table.region(Some(ROOT), None)?;
    let sort = if package {
        Sort::Package {
            region,
            exports: None,
        }
    } else {
        Sort::Entity { region }
    };
    let formals = FormalList::new(builder.alloc());
    let decl = builder
        .table
        .add(entity(WORK, ident, What::Other, sort, formals))?;
    builder.table.place(ident.span, decl)?;
    if !twice {
        builder.table.enlist(decl)?;
    }
    Ok(Some(decl))
}

/// The unit of a member, if it is of the sources.
pub fn unit_of<'a>(files: &[&'a [Unit<'a>]], member: &Member) -> Option<&'a Unit<'a>> {
    let (file, index) = member.unit?;
    files.get(file as usize)?.get(index)
}

/// Declares what all units declare: packages first, in an order in which each stands behind those that it needs, then entities, then
/// bodies and architectures.
pub fn declare_all<'a>(
    files: &[&'a [Unit<'a>]],
    members: &mut Vec<Member>,
    builder: &mut Builder,
) -> Result<(), Memory> {
    put_in_order(files, members, builder)?;
    for member in members.as_slice() {
        declare_member(files, member, builder)?;
    }
    for units in files {
        for unit in *units {
            declare_second(unit, builder)?;
        }
    }
    Ok(())
}

/// Puts the packages of the sources into their order, behind the built-in ones, and the entities behind them.
fn put_in_order<'a>(
    files: &[&'a [Unit<'a>]],
    members: &mut Vec<Member>,
    builder: &mut Builder,
) -> Result<(), Memory> {
    let alloc = builder.alloc();
    let mut front = Vec::new(alloc);
    let mut packages = Vec::new(alloc);
    let mut entities = Vec::new(alloc);
    let mut decls = Vec::new(alloc);
    let mut wanted = Vec::new(alloc);
    for member in members.as_slice() {
        match unit_of(files, member) {
            None => front.push(*member)?,
            Some(unit) => match unit.kind {
                UnitKind::Package {
                    declarations: inner,
                    ..
                } => {
                    packages.push(*member)?;
                    decls.push(member.decl)?;
                    wanted.push(needs(unit.contexts, inner, builder)?)?;
                }
                _ => entities.push(*member)?,
            },
        }
    }
    let ordered = in_order(alloc, decls.as_slice(), wanted.as_slice())?;
    if let Some(span) = ordered.ring {
        builder.least.note(Rule::N4, span);
    }
    for place in ordered.places.as_slice() {
        if let Some(member) = packages.get(*place) {
            front.push(*member)?;
        }
    }
    front.extend_from_slice(entities.as_slice())?;
    *members = front;
    Ok(())
}

/// The context clauses of a unit that make something visible.
fn contexts(list: &[Context<'_>], region: u32, builder: &mut Builder) -> Result<(), Memory> {
    for context in list {
        if let Context::Use(clause) = context {
            use_clause(*clause, region, builder)?;
        }
    }
    Ok(())
}

/// Begins a unit in its region.
fn begin(unit: &Unit<'_>, region: u32, builder: &mut Builder) -> Result<(), Memory> {
    builder.begin_at(unit.span, region)?;
    contexts(unit.contexts, region, builder)
}

/// Behind a unit there is none.
fn leave(span: Span, builder: &mut Builder) -> Result<(), Memory> {
    builder.table.leave(span.file, end(span))
}

fn declare_member<'a>(
    files: &[&'a [Unit<'a>]],
    member: &Member,
    builder: &mut Builder,
) -> Result<(), Memory> {
    let Some(unit) = unit_of(files, member) else {
        return Ok(());
    };
    let sort = match builder.table.entity(member.decl) {
        Some(entity) => entity.sort,
        None => return Ok(()),
    };
    match (unit.kind, sort) {
        (
            UnitKind::Entity {
                generics,
                ports,
                ..
            },
            Sort::Entity { region },
        ) => {
            begin(unit, region, builder)?;
            interfaces(generics, ObjectKind::Generic, region, builder)?;
            interfaces(ports, ObjectKind::InPort, region, builder)?;
        }
        (
            UnitKind::Package {
                declarations: inner,
                ..
            },
            Sort::Package { region, .. },
        ) => {
            begin(unit, region, builder)?;
            declarations(inner, region, builder)?;
            let exports = builder.table.export(region)?;
            builder.table.set_exports(member.decl, exports);
        }
        _ => {}
    }
    leave(unit.span, builder)
}

/// Declares what a package body or an architecture declares. Where its package or entity is missing nothing is declared.
fn declare_second(unit: &Unit<'_>, builder: &mut Builder) -> Result<(), Memory> {
    match unit.kind {
        UnitKind::PackageBody {
            identifier,
            declarations: inner,
            ..
        } => {
            let Some(whole) = region_of(identifier, true, builder) else {
                return Ok(());
            };
            let region = builder.table.region(Some(whole), Some(whole))?;
            begin(unit, region, builder)?;
            declarations(inner, region, builder)?;
        }
        UnitKind::Architecture {
            entity,
            declarations: inner,
            statements,
            ..
        } => {
            let Some(whole) = region_of(entity, false, builder) else {
                return Ok(());
            };
            let region = builder.table.region(Some(whole), Some(whole))?;
            begin(unit, region, builder)?;
            declarations(inner, region, builder)?;
            concurrents(statements, region, builder)?;
        }
        _ => return Ok(()),
    }
    leave(unit.span, builder)
}

/// The region of a package or an entity of `work`.
fn region_of(ident: Ident, package: bool, builder: &Builder) -> Option<u32> {
    let decl = builder.table.unit(WORK, ident.name.0, package)?;
    match builder.table.entity(decl)?.sort {
        Sort::Entity { region } | Sort::Package { region, .. } => Some(region),
        _ => None,
    }
}
