//! The libraries of all files, as the layers above ask them.

use crate::declared::{Declared, Formal, Sort};
use crate::slots::Seen;
use crate::symbols::Symbols;
use crate::table::{ArrayType, IEEE, STD, Table, WORK};
use vv_base::fault::Name;
use vv_tree::unit::Unit;
use vv_types::{BaseType, Op, What};

/// A package or an entity: its declaration, and where its unit stands unless it is built in: the file, and the place among its units.
#[derive(Clone, Copy)]
pub struct Member {
    pub decl: u32,
    pub unit: Option<(u32, usize)>,
}

/// All declarations of the files and of the built-in packages, and what names denote at each place.
#[derive(Drop)]
pub struct Library<'a> {
    pub(crate) files: Vec<&'a [Unit<'a>]>,
    pub(crate) table: Table,
    pub(crate) symbols: Symbols,
    pub(crate) members: Vec<Member>,
    pub(crate) architectures: Vec<(u32, u32)>,
}

impl<'a> Library<'a> {
    pub fn new(
        files: Vec<&'a [Unit<'a>]>,
        table: Table,
        symbols: Symbols,
        members: Vec<Member>,
        architectures: Vec<(u32, u32)>,
    ) -> Library<'a> {
        Library {
            files,
            table,
            symbols,
            members,
            architectures,
        }
    }

    /// The units of each file.
    pub fn files(&self) -> &[&'a [Unit<'a>]] {
        self.files.as_slice()
    }

    /// The units that can be named. The packages among them stand behind those that they need, the built-in ones first.
    pub fn members(&self) -> &[Member] {
        self.members.as_slice()
    }

    /// The number of the scope of a place.
    pub fn scope_at(&self, file: u32, at: u32) -> u32 {
        self.table.scope_at(file, at)
    }

    /// The declarations that a name denotes in a scope.
    pub fn denotes(&self, scope: u32, name: Name) -> &[u32] {
        self.table.denoted(scope, name.0).list
    }

    /// The declarations that an operator's name denotes in a scope.
    pub fn operator(&self, scope: u32, op: Op) -> &[u32] {
        self.table.denoted(scope, self.symbols.of_operator(op)).list
    }

    /// The declarations that the character literal of a byte denotes in a scope.
    pub fn letter(&self, scope: u32, byte: u8) -> &[u32] {
        self.table.denoted(scope, self.symbols.of_letter(byte)).list
    }

    /// The declarations that a selected name denotes in a scope.
    pub fn selected(&self, scope: u32, prefix: &[Name], name: Name) -> &[u32] {
        let path = match prefix {
            [package] => Path {
                first: *package,
                second: Some(name),
                third: None,
                longer: false,
            },
            [library, package] => Path {
                first: *library,
                second: Some(*package),
                third: Some(name),
                longer: false,
            },
            _ => return &[],
        };
        match self.find(scope, path) {
            Found::Several(list) => list,
            _ => &[],
        }
    }

    /// A declaration by its number.
    pub fn declared(&self, decl: u32) -> Option<&Declared> {
        self.table.declared(decl)
    }

    /// Parameter `k` of a function, counted from 0.
    pub fn formal(&self, decl: u32, k: u32) -> Option<Formal> {
        self.table.formal(decl, k)
    }

    /// The types of the indexes and of the elements of an array type.
    pub fn parts(&self, base: BaseType) -> Option<(BaseType, BaseType)> {
        self.table.parts(base)
    }

    /// All array types, in the order of their declarations.
    pub fn arrays(&self) -> &[ArrayType] {
        self.table.arrays()
    }

    /// How many declarations there are. Their numbers are below it.
    pub fn count(&self) -> usize {
        self.table.count()
    }

    /// The place of an enumeration literal among those of its type, from 0 on.
    pub fn position(&self, decl: u32) -> Option<u32> {
        let entity = self.table.entity(decl)?;
        match entity.declared.what {
            What::Literal(_) => Some(entity.position),
            _ => None,
        }
    }

    /// Whether a declaration is a type or a subtype that is scalar or has bounds.
    pub fn is_bounded(&self, decl: u32) -> bool {
        match self.table.entity(decl) {
            Some(entity) => entity.bounded,
            None => false,
        }
    }

    /// What a declaration is, beside what its name denotes.
    pub fn sort(&self, decl: u32) -> Option<Sort> {
        match self.table.entity(decl) {
            Some(entity) => Some(entity.sort),
            None => None,
        }
    }

    /// The number of the declaration whose identifier begins at a place. That of a body is the function's.
    pub fn declaration_at(&self, file: u32, at: u32) -> Option<u32> {
        self.table.declaration_at(file, at)
    }

    /// What a name with points denotes in a scope.
    pub fn find(&self, scope: u32, path: Path) -> Found<'_> {
        let seen = self.table.denoted(scope, path.first.0);
        find(&self.table, &self.symbols, seen, path)
    }

    /// The entity of a name in the library `work`.
    pub fn entity(&self, name: Name) -> Option<u32> {
        self.table.unit(WORK, name.0, false)
    }

    /// The package of a name in the library `work`.
    pub fn package(&self, name: Name) -> Option<u32> {
        self.table.unit(WORK, name.0, true)
    }

    /// The package of a library.
    pub fn library_package(&self, library: Name, package: Name) -> Option<u32> {
        self.table
            .unit(library_region(&self.symbols, library)?, package.0, true)
    }

    /// Whether an entity has an architecture of this name.
    pub fn has_architecture(&self, entity: Name, architecture: Name) -> bool {
        let pairs = self.architectures.as_slice();
        pairs.binary_search(&(entity.0, architecture.0)).is_ok()
    }

    /// Whether a name is that of a library.
    pub fn is_library(&self, name: Name) -> bool {
        library_region(&self.symbols, name).is_some()
    }
}

/// A name with points: its first identifiers, and whether there are more.
#[derive(Clone, Copy)]
pub struct Path {
    pub first: Name,
    pub second: Option<Name>,
    pub third: Option<Name>,
    pub longer: bool,
}

/// What a name denotes, or why it denotes nothing.
#[derive(Clone, Copy)]
pub enum Found<'t> {
    /// One declaration, or several that can be overloaded. The list is not empty.
    Several(&'t [u32]),
    /// Nothing of this name is visible.
    Nothing,
    /// Use clauses give declarations that cannot stand side by side.
    Clash,
    /// A library has no such unit.
    Missing,
    /// What stands before a point is no package or library.
    Misplaced,
}

/// The region of the units of a library.
pub fn library_region(symbols: &Symbols, name: Name) -> Option<u32> {
    if name.0 == symbols.of_text(b"work") {
        Some(WORK)
    } else if name.0 == symbols.of_text(b"ieee") {
        Some(IEEE)
    } else if name.0 == symbols.of_text(b"std") {
        Some(STD)
    } else {
        None
    }
}

/// What a name with points denotes where its first identifier denotes `seen`.
pub fn find<'t>(table: &'t Table, symbols: &Symbols, seen: Seen<'t>, path: Path) -> Found<'t> {
    if seen.clash {
        return Found::Clash;
    }
    let Some(second) = path.second else {
        return several(seen.list);
    };
    if let Some(first) = seen.list.first() {
        return match table.exports_of(*first) {
            Some(exports) if path.third.is_none() => several(table.exported(exports, second.0)),
            _ => Found::Misplaced,
        };
    }
    match library_region(symbols, path.first) {
        Some(library) => in_library(table, library, second, path),
        None => Found::Nothing,
    }
}

/// What a name denotes that begins with a library.
fn in_library(table: &Table, library: u32, second: Name, path: Path) -> Found<'_> {
    let units = table.exported(library, second.0);
    let Some(third) = path.third else {
        return match units {
            [] => Found::Missing,
            _ => Found::Several(units),
        };
    };
    let Some(package) = table.unit(library, second.0, true) else {
        return match units {
            [] => Found::Missing,
            _ => Found::Misplaced,
        };
    };
    match table.exports_of(package) {
        Some(exports) if !path.longer => several(table.exported(exports, third.0)),
        Some(_) => Found::Misplaced,
        None => Found::Nothing,
    }
}

fn several(list: &[u32]) -> Found<'_> {
    if list.is_empty() {
        Found::Nothing
    } else {
        Found::Several(list)
    }
}
