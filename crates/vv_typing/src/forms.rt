//! The entities, components and packages of the sources by their declarations.

use std::alloc::Global;
use vv_base::fault::{Memory, Name};
use vv_tree::concurrent::{Conc, ConcKind};
use vv_tree::declaration::{Decl, DeclKind, Interface};
use vv_tree::leaf::Ident;
use vv_tree::unit::{Unit, UnitKind};
use vv_visible::types::{Library, Member};

/// An entity or a component: its declaration, and its generics and ports as they are written.
#[derive(Clone, Copy)]
pub struct Outside<'a> {
    pub decl: u32,
    pub generics: &'a [Interface<'a>],
    pub ports: &'a [Interface<'a>],
}

/// A package of the sources, and its position among those of the sources where each stands behind those that it needs.
#[derive(Clone, Copy)]
struct Placed {
    decl: u32,
    position: usize,
}

/// What the sources declare outside, each list in the order of the declarations. The entities stand in the order of the text too.
#[derive(Drop)]
pub struct Forms<'a> {
    entities: Vec<Outside<'a>>,
    components: Vec<Outside<'a>>,
    packages: Vec<Placed>,
    /// The identifiers of the packages by their positions.
    pub package_idents: Vec<Ident>,
    /// The identifiers of the entities by their positions.
    pub entity_idents: Vec<Ident>,
}

impl<'a> Forms<'a> {
    /// The entities, components and packages of a library.
    pub fn new(alloc: Global, lib: &Library<'a>) -> Result<Forms<'a>, Memory> {
        let mut forms = Forms {
            entities: Vec::new(alloc),
            components: Vec::new(alloc),
            packages: Vec::new(alloc),
            package_idents: Vec::new(alloc),
            entity_idents: Vec::new(alloc),
        };
        for member in lib.members() {
            if let Some(unit) = unit_of(lib, member) {
                forms.enlist(unit, member.decl)?;
            }
        }
        for units in lib.files() {
            for unit in *units {
                components_of(unit, lib, &mut forms.components)?;
            }
        }
        forms.components.sort_by_key(|form| form.decl)?;
        forms.packages.sort_by_key(|placed| placed.decl)?;
        Ok(forms)
    }

    fn enlist(&mut self, unit: &Unit<'a>, decl: u32) -> Result<(), Memory> {
        match unit.kind {
            UnitKind::Entity {
                identifier,
                generics,
                ports,
                ..
            } => {
                self.entities.push(Outside {
                    decl,
                    generics,
                    ports,
                })?;
                self.entity_idents.push(identifier)?;
            }
            UnitKind::Package { identifier, .. } => {
                let position = self.package_idents.len();
                self.packages.push(Placed { decl, position })?;
                self.package_idents.push(identifier)?;
            }
            UnitKind::Architecture { .. } | UnitKind::PackageBody { .. } => {}
        }
        Ok(())
    }

    /// The entity of a name, with its position among all entities.
    pub fn entity(&self, lib: &Library<'_>, name: Name) -> Option<(usize, Outside<'a>)> {
        let decl = lib.entity(name)?;
        let position = self.entities.partition_point(|form| form.decl < decl);
        match self.entities.get(position) {
            Some(form) => Some((position, *form)),
            None => None,
        }
    }

    /// The component of a declaration.
    pub fn component(&self, decl: u32) -> Option<Outside<'a>> {
        let position = self.components.partition_point(|form| form.decl < decl);
        match self.components.get(position) {
            Some(form) => if form.decl == decl { Some(*form) } else { None },
            None => None,
        }
    }

    /// The position of the package of a name.
    pub fn package(&self, lib: &Library<'_>, name: Name) -> Option<usize> {
        let decl = lib.package(name)?;
        let at = self.packages.partition_point(|placed| placed.decl < decl);
        match self.packages.get(at) {
            Some(placed) => Some(placed.position),
            None => None,
        }
    }
}

/// The unit of a package or an entity of the sources.
fn unit_of<'a>(lib: &Library<'a>, member: &Member) -> Option<&'a Unit<'a>> {
    let (file, at) = member.unit?;
    lib.files().get(file as usize)?.get(at)
}

fn components_of<'a>(
    unit: &Unit<'a>,
    lib: &Library<'_>,
    all: &mut Vec<Outside<'a>>,
) -> Result<(), Memory> {
    match unit.kind {
        UnitKind::Entity { .. } => Ok(()),
        UnitKind::Architecture {
            declarations,
            statements,
            ..
        } => {
            among(declarations, lib, all)?;
            within(statements, lib, all)
        }
        UnitKind::Package { declarations, .. } | UnitKind::PackageBody { declarations, .. } => {
            among(declarations, lib, all)
        }
    }
}

/// Appends the components among declarations.
fn among<'a>(
    list: &'a [Decl<'a>],
    lib: &Library<'_>,
    all: &mut Vec<Outside<'a>>,
) -> Result<(), Memory> {
    for decl in list {
        if let DeclKind::Component {
            identifier,
            generics,
            ports,
            ..
        } = decl.kind()
        {
            let span = identifier.span;
            if let Some(decl) = lib.declaration_at(span.file, span.at) {
                all.push(Outside {
                    decl,
                    generics: *generics,
                    ports: *ports,
                })?;
            }
        }
    }
    Ok(())
}

/// Appends the components that generate statements declare.
#[cycle(components)]
fn within<'a>(
    list: &'a [Conc<'a>],
    lib: &Library<'_>,
    all: &mut Vec<Outside<'a>>,
) -> Result<(), Memory> {
    for statement in list {
        within_one(*statement, lib, all)?;
    }
    Ok(())
}

#[cycle(components)]
fn within_one<'a>(
    statement: Conc<'a>,
    lib: &Library<'_>,
    all: &mut Vec<Outside<'a>>,
) -> Result<(), Memory> {
    match statement.kind() {
        ConcKind::Labelled { statement, .. } => within_one(*statement, lib, all),
        ConcKind::ForGenerate {
            declarations,
            statements,
            ..
        }
        | ConcKind::IfGenerate {
            declarations,
            statements,
            ..
        } => {
            among(declarations, lib, all)?;
            within(statements, lib, all)
        }
        ConcKind::Process { .. }
        | ConcKind::Conditional { .. }
        | ConcKind::Selected { .. }
        | ConcKind::Assertion(_)
        | ConcKind::Instance { .. } => Ok(()),
    }
}
