//! Units, and the check of all files.

use crate::builtin::{Texts, packages};
use crate::concurrents::concurrents;
use crate::declarations::{Gathered, declarations, interfaces};
use sqlite_items::Items;
use std::alloc::Global;
use std::mem;
use vv_base::fault::{Fault, Memory};
use vv_base::names::Names;
use vv_num_decls::num_decls;
use vv_scope::library;
use vv_std_decls::std_decls;
use vv_tree::concurrent::Conc;
use vv_tree::declaration::{Decl, Interface};
use vv_tree::leaf::Ident;
use vv_tree::unit::{Unit, UnitKind};
use vv_typed::{TArch, TEntity, TPackage, Units};
use vv_types::ObjectKind;
use vv_typing::forms::Forms;
use vv_typing::tables::{Tables, truth_of};
use vv_visible::types::Library;

/// The units of all files once they break no rule of names or types.
pub fn check<'a>(alloc: Global, files: &[&'a [Unit<'a>]], names: &Names) -> Result<Units, Fault> {
    let mut builtin = std_decls(alloc)?;
    builtin.append(num_decls(alloc)?)?;
    let lib = library(alloc, files, names, builtin.as_slice())?;
    let forms = Forms::new(alloc, &lib)?;
    let tables = Tables {
        alloc,
        lib: &lib,
        names,
        forms: &forms,
        truth: truth_of(&lib)?,
    };
    let mut texts = Texts::new(alloc, names)?;
    let mut gathered = Gathered {
        built: 0,
        packages: packages(alloc, &lib, builtin.as_slice(), &mut texts)?,
        functions: Vec::new(alloc),
        components: Vec::new(alloc),
        entities: Vec::new(alloc),
    };
    gathered.built = gathered.packages.len();
    prepare(&tables, &mut gathered)?;
    for units in files {
        for unit in *units {
            one(&tables, unit, &mut gathered)?;
        }
    }
    finished(&lib, texts, gathered)
}

/// Puts the packages and the entities of the sources into their places, with nothing in them yet.
fn prepare(tables: &Tables<'_, '_, '_, '_>, gathered: &mut Gathered) -> Result<(), Memory> {
    for ident in tables.forms.package_idents.as_slice() {
        gathered.packages.push(TPackage {
            name: ident.name,
            span: ident.span,
            decls: Items::new(tables.alloc),
        })?;
    }
    for ident in tables.forms.entity_idents.as_slice() {
        gathered.entities.push(TEntity {
            name: ident.name,
            span: ident.span,
            generics: Items::new(tables.alloc),
            ports: Items::new(tables.alloc),
            archs: Items::new(tables.alloc),
        })?;
    }
    Ok(())
}

/// The units, with functions and components in the order of their declarations.
fn finished(lib: &Library<'_>, texts: Texts, gathered: Gathered) -> Result<Units, Fault> {
    let Gathered {
        packages,
        mut functions,
        mut components,
        entities,
        ..
    } = gathered;
    functions.sort_by_key(|function| function.decl)?;
    components.sort_by_key(|component| component.decl)?;
    let Ok(decls) = u32::try_from(lib.count()) else {
        return Err(Fault::Memory);
    };
    Ok(Units {
        decls,
        texts: texts.list,
        packages: Items::from_vec(packages),
        functions: Items::from_vec(functions),
        components: Items::from_vec(components),
        entities: Items::from_vec(entities),
    })
}

/// Checks a unit and puts it into its place.
fn one(
    tables: &Tables<'_, '_, '_, '_>,
    unit: &Unit<'_>,
    gathered: &mut Gathered,
) -> Result<(), Fault> {
    match unit.kind {
        UnitKind::Entity {
            identifier,
            generics,
            ports,
            ..
        } => entity(tables, identifier, generics, ports, gathered),
        UnitKind::Architecture {
            identifier,
            entity,
            declarations,
            statements,
            ..
        } => architecture(
            tables,
            declarations,
            statements,
            identifier,
            entity,
            gathered,
        ),
        UnitKind::Package {
            identifier,
            declarations,
            ..
        } => package(tables, declarations, identifier, true, gathered),
        UnitKind::PackageBody {
            identifier,
            declarations,
            ..
        } => package(tables, declarations, identifier, false, gathered),
    }
}

fn entity(
    tables: &Tables<'_, '_, '_, '_>,
    identifier: Ident,
    generics: &[Interface<'_>],
    ports: &[Interface<'_>],
    gathered: &mut Gathered,
) -> Result<(), Fault> {
    let generics = interfaces(tables, ObjectKind::Generic, generics)?;
    let ports = interfaces(tables, ObjectKind::InPort, ports)?;
    if let Some((position, _)) = tables.forms.entity(tables.lib, identifier.name) {
        if let Some(entity) = gathered.entities.get_mut(position) {
            entity.generics = generics;
            entity.ports = ports;
        }
    }
    Ok(())
}

fn architecture(
    tables: &Tables<'_, '_, '_, '_>,
    decls: &[Decl<'_>],
    statements: &[Conc<'_>],
    identifier: Ident,
    of: Ident,
    gathered: &mut Gathered,
) -> Result<(), Fault> {
    let decls = declarations(tables, decls, gathered)?;
    let body = concurrents(tables, statements, gathered)?;
    if let Some((position, _)) = tables.forms.entity(tables.lib, of.name) {
        if let Some(entity) = gathered.entities.get_mut(position) {
            entity.archs.push(TArch {
                name: identifier.name,
                span: identifier.span,
                decls,
                body,
            })?;
        }
    }
    Ok(())
}

/// A package, whose own declarations stand before those of its body.
fn package(
    tables: &Tables<'_, '_, '_, '_>,
    decls: &[Decl<'_>],
    identifier: Ident,
    is_own: bool,
    gathered: &mut Gathered,
) -> Result<(), Fault> {
    let mut decls = declarations(tables, decls, gathered)?;
    let Some(position) = tables.forms.package(tables.lib, identifier.name) else {
        return Ok(());
    };
    let place = position.saturating_add(gathered.built);
    if let Some(package) = gathered.packages.get_mut(place) {
        if is_own {
            decls.append(mem::replace(&mut package.decls, Items::new(tables.alloc)))?;
            package.decls = decls;
        } else {
            package.decls.append(decls)?;
        }
    }
    Ok(())
}
