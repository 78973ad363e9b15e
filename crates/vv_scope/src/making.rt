//! The libraries of files.

use crate::builder::Builder;
use crate::units::{architectures, declare_all, enlist, note_twice};
use std::alloc::Global;
use vv_base::fault::{Fault, Memory, Span};
use vv_base::names::Names;
use vv_base::text::Text;
use vv_names::check;
use vv_names::least::Least;
use vv_tree::unit::Unit;
use vv_types::{BaseList, BaseType, BuiltDecl, What};
use vv_visible::declared::{Declared, Entity, Formal, FormalList, Sort};
use vv_visible::symbols::Symbols;
use vv_visible::table::{IEEE, ROOT, STD, Table, Used};
use vv_visible::types::{Library, Member};

/// The libraries of all files and of what is built in, or the least place at which a rule of names is broken.
pub fn library<'a>(
    alloc: Global,
    files: &[&'a [Unit<'a>]],
    names: &Names,
    builtin: &[BuiltDecl],
) -> Result<Library<'a>, Fault> {
    let symbols = Symbols::new(alloc, names, builtin)?;
    let table = Table::new(alloc, symbols.count())?;
    let mut builder = Builder {
        table,
        symbols,
        least: Least { refusal: None },
    };
    let mut members = Vec::new(alloc);
    build_in(alloc, builtin, &mut builder, &mut members)?;
    note_twice(files, &mut builder)?;
    enlist(files, &mut builder, &mut members)?;
    declare_all(files, &mut members, &mut builder)?;
    builder.table.settle()?;
    let Builder {
        table,
        symbols,
        least,
    } = builder;
    let held = Vec::from_slice(alloc, files)?;
    let pairs = architectures(alloc, files)?;
    let library = Library::new(held, table, symbols, members, pairs);
    match check(&library, least).refusal {
        None => Ok(library),
        Some(refusal) => Err(Fault::Refused(refusal)),
    }
}

/// A built-in package: its name, and the region of what it exports.
#[derive(Clone, Copy)]
struct Package {
    symbol: u32,
    exports: u32,
}

/// The place of what is built in.
const NOWHERE: Span = Span {
    file: 0,
    at: 0,
    len: 0,
};

/// The positions of literals, those of one type standing side by side.
#[derive(Clone, Copy)]
struct Positions {
    base: BaseType,
    next: u32,
}

impl Positions {
    /// The position of the next declaration, which is 0 where it is no literal.
    fn of(&mut self, what: &What) -> u32 {
        match what {
            What::Literal(base) => {
                let position = if *base == self.base { self.next } else { 0 };
                self.base = *base;
                self.next = position.saturating_add(1);
                position
            }
            _ => 0,
        }
    }
}

/// Declares what is built in, each at the number of its place in the list, then the packages.
fn build_in(
    alloc: Global,
    builtin: &[BuiltDecl],
    builder: &mut Builder,
    members: &mut Vec<Member>,
) -> Result<(), Memory> {
    let mut packages = Vec::new(alloc);
    let mut positions = Positions {
        base: BaseType::Int,
        next: 0,
    };
    for decl in builtin {
        let symbol = builder.symbols.of_text(decl.package.as_slice());
        let exports = package_region(symbol, builder, &mut packages)?;
        let position = positions.of(&decl.what);
        build_one(alloc, decl, position, exports, builder)?;
    }
    let standard = builder.symbols.of_text(b"standard");
    for package in packages.as_slice() {
        let decl = build_package(alloc, *package, package.symbol == standard, builder)?;
        members.push(Member { decl, unit: None })?;
        if package.symbol == standard {
            let exports = package.exports;
            builder.table.apply(ROOT, Used::All { exports })?;
        }
    }
    Ok(())
}

/// The region of what a built-in package exports, which is made where it is met first.
fn package_region(
    symbol: u32,
    builder: &mut Builder,
    packages: &mut Vec<Package>,
) -> Result<u32, Memory> {
    for package in packages.as_slice() {
        if package.symbol == symbol {
            return Ok(package.exports);
        }
    }
    let exports = builder.table.region(None, None)?;
    packages.push(Package { symbol, exports })?;
    Ok(exports)
}

fn build_one(
    alloc: Global,
    decl: &BuiltDecl,
    position: u32,
    exports: u32,
    builder: &mut Builder,
) -> Result<(), Memory> {
    let symbol = builder.symbols.of_text(decl.name.as_slice());
    let entity = Entity {
        symbol,
        region: exports,
        sort: Sort::Predefined,
        formals: formals(alloc, decl, &builder.symbols)?,
        declared: Declared {
            name: builder.symbols.name(symbol),
            built: Some(Text::from_slice(alloc, decl.name.as_slice())?),
            span: NOWHERE,
            what: copied(alloc, &decl.what)?,
        },
        position,
        bounded: matches!(decl.what, What::Mark(base) if !matches!(base, BaseType::Array(_))),
    };
    let number = builder.table.add(entity)?;
    if is_array(decl, number) {
        builder
            .table
            .add_array(number, BaseType::Int, BaseType::Logic)?;
    }
    builder.table.declare(number)?;
    Ok(())
}

/// Whether a declaration is that of the array type of this number.
fn is_array(decl: &BuiltDecl, number: u32) -> bool {
    match &decl.what {
        What::Mark(base) => *base == BaseType::Array(number),
        _ => false,
    }
}

fn copied(alloc: Global, what: &What) -> Result<What, Memory> {
    Ok(match what {
        What::Object { kind, base } => What::Object {
            kind: *kind,
            base: *base,
        },
        What::Mark(base) => What::Mark(*base),
        What::Function { params, result } => What::Function {
            params: BaseList::from_slice(alloc, params.as_slice())?,
            result: *result,
        },
        What::Literal(base) => What::Literal(*base),
        What::Other => What::Other,
    })
}

/// The parameters of a built-in function, with their names where it has them.
fn formals(alloc: Global, decl: &BuiltDecl, symbols: &Symbols) -> Result<FormalList, Memory> {
    let mut formals = FormalList::new(alloc);
    if let What::Function { params, .. } = &decl.what {
        for (k, base) in params.as_slice().iter().enumerate() {
            let name = match decl.formals.get(k) {
                Some(text) => symbols.name(symbols.of_text(text.as_slice())),
                None => None,
            };
            formals.push(Formal {
                name,
                default: false,
                bounded: !matches!(base, BaseType::Array(_)),
            })?;
        }
    }
    Ok(formals)
}

fn build_package(
    alloc: Global,
    package: Package,
    standard: bool,
    builder: &mut Builder,
) -> Result<u32, Memory> {
    let declared = Declared {
        name: builder.symbols.name(package.symbol),
        built: None,
        span: NOWHERE,
        what: What::Other,
    };
    let decl = builder.table.add(Entity {
        symbol: package.symbol,
        region: if standard { STD } else { IEEE },
        sort: Sort::Package {
            region: package.exports,
            exports: Some(package.exports),
        },
        formals: FormalList::new(alloc),
        declared,
        position: 0,
        bounded: false,
    })?;
    builder.table.enlist(decl)?;
    Ok(decl)
}
