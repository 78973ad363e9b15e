//! The built-in packages as checked units: their types and subtypes.

use sqlite_items::Items;
use std::alloc::Global;
use vv_base::fault::{Fault, Memory, Name, Span, cannot_come};
use vv_base::names::Names;
use vv_base::text::Text;
use vv_typed::{Constraint, Form, Ident, TDecl, TPackage, TRange, TSub, TypeForm, TypeMark, Typed};
use vv_types::{BaseType, BuiltDecl, TextList, What};
use vv_visible::types::Library;

/// The built-in packages, each behind those that it needs.
const BUILT_IN: [&str; 3] = ["standard", "std_logic_1164", "numeric_std"];

/// The place of what is built in.
const NOWHERE: Span = Span {
    file: 0,
    at: 0,
    len: 0,
};

/// The texts of names, behind which stand those of what is built in and has no name of the sources.
#[derive(Drop)]
pub(crate) struct Texts {
    pub list: TextList,
}

impl Texts {
    /// The text of each name of the sources by its number.
    pub(crate) fn new(alloc: Global, names: &Names) -> Result<Texts, Memory> {
        let mut list = Items::new(alloc);
        for number in 0..u32::MAX {
            match names.text(Name(number)) {
                Some(text) => list.push(Text::from_slice(alloc, text)?)?,
                None => break,
            }
        }
        Ok(Texts { list })
    }

    /// Whether the name has this text.
    fn has(&self, name: Name, text: &[u8]) -> bool {
        match self.list.get(name.0 as usize) {
            Some(known) => known.as_slice() == text,
            None => false,
        }
    }

    /// The name of the sources, or else a new one of this text.
    fn name(&mut self, alloc: Global, known: Option<Name>, text: &[u8]) -> Result<Name, Memory> {
        match known {
            Some(name) => Ok(name),
            None => {
                let Ok(number) = u32::try_from(self.list.len()) else {
                    return Err(Memory);
                };
                self.list.push(Text::from_slice(alloc, text)?)?;
                Ok(Name(number))
            }
        }
    }
}

/// The built-in packages. Their declarations have the numbers of their places in the list.
pub(crate) fn packages(
    alloc: Global,
    lib: &Library<'_>,
    builtin: &[BuiltDecl],
    texts: &mut Texts,
) -> Result<Vec<TPackage>, Fault> {
    let mut all = Vec::new(alloc);
    for text in &BUILT_IN {
        let known = package_name(lib, text.as_bytes(), texts);
        let mut package = TPackage {
            name: texts.name(alloc, known, text.as_bytes())?,
            span: NOWHERE,
            decls: Items::new(alloc),
        };
        for (number, built) in builtin.iter().enumerate() {
            if built.package.as_slice() == text.as_bytes() {
                if let What::Mark(base) = built.what {
                    let decl = narrow(number)?;
                    let ident = Ident {
                        decl,
                        name: own_name(alloc, lib, decl, built, texts)?,
                        span: NOWHERE,
                    };
                    package.decls.push(type_of(
                        alloc,
                        builtin,
                        ident,
                        base,
                        built.name.as_slice(),
                    )?)?;
                }
            }
        }
        all.push(package)?;
    }
    Ok(all)
}

/// A number of the list of what is built in, which the list has room for.
fn narrow(number: usize) -> Result<u32, Memory> {
    match u32::try_from(number) {
        Ok(number) => Ok(number),
        Err(_) => Err(Memory),
    }
}

/// The name of a built-in package, where a source has its text.
fn package_name(lib: &Library<'_>, text: &[u8], texts: &Texts) -> Option<Name> {
    for member in lib.members() {
        if member.unit.is_none() {
            if let Some(name) = lib.declared(member.decl)?.name {
                if texts.has(name, text) {
                    return Some(name);
                }
            }
        }
    }
    None
}

fn own_name(
    alloc: Global,
    lib: &Library<'_>,
    decl: u32,
    built: &BuiltDecl,
    texts: &mut Texts,
) -> Result<Name, Memory> {
    let known = match lib.declared(decl) {
        Some(declared) => declared.name,
        None => None,
    };
    texts.name(alloc, known, built.name.as_slice())
}

/// The declaration of a built-in type by its text.
fn type_of(
    alloc: Global,
    builtin: &[BuiltDecl],
    ident: Ident,
    base: BaseType,
    text: &[u8],
) -> Result<TDecl, Memory> {
    Ok(match text {
        b"natural" => above(builtin, ident, 0)?,
        b"positive" => above(builtin, ident, 1)?,
        b"std_logic" => TDecl::Subtype {
            ident,
            subtype: whole(builtin, b"std_ulogic")?,
            resolved: true,
        },
        b"std_ulogic_vector" => array(builtin, ident, base, b"std_ulogic")?,
        b"std_logic_vector" | b"unsigned" | b"signed" => {
            array(builtin, ident, base, b"std_logic")?
        }
        _ => TDecl::Type {
            ident,
            base,
            form: TypeForm::Predefined,
        },
    })
}

/// The numbers from `low` on.
fn above(builtin: &[BuiltDecl], ident: Ident, low: i32) -> Result<TDecl, Memory> {
    Ok(TDecl::Subtype {
        ident,
        subtype: TSub {
            mark: mark_of(builtin, b"integer")?,
            constraint: Constraint::Range(TRange::Between {
                left: number(low),
                right: number(i32::MAX),
                down: false,
            }),
            span: NOWHERE,
        },
        resolved: false,
    })
}

fn number(value: i32) -> Typed {
    Typed {
        form: Form::Integer(value),
        base: BaseType::Int,
        span: NOWHERE,
    }
}

/// An array type of elements of a subtype, whose objects have bounds of their own.
fn array(
    builtin: &[BuiltDecl],
    ident: Ident,
    base: BaseType,
    element: &[u8],
) -> Result<TDecl, Memory> {
    Ok(TDecl::Type {
        ident,
        base,
        form: TypeForm::Unconstrained {
            index: mark_of(builtin, b"natural")?,
            element: whole(builtin, element)?,
        },
    })
}

/// A subtype without a constraint.
fn whole(builtin: &[BuiltDecl], text: &[u8]) -> Result<TSub, Memory> {
    Ok(TSub {
        mark: mark_of(builtin, text)?,
        constraint: Constraint::Absent,
        span: NOWHERE,
    })
}

/// The built-in type of a text.
fn mark_of(builtin: &[BuiltDecl], text: &[u8]) -> Result<TypeMark, Memory> {
    for (number, built) in builtin.iter().enumerate() {
        if built.name.as_slice() == text {
            let decl = narrow(number)?;
            return Ok(TypeMark { decl });
        }
    }
    Err(cannot_come())
}
