//! The types of ranges, which loops and array types need before expressions are typed. They are told by the forms of the bounds: of
//! several types that each bound can have, the one that both can have.

use crate::builder::Builder;
use std::alloc::Global;
use vv_base::fault::Memory;
use vv_names::paths::of_name;
use vv_tree::declaration::DiscreteRange;
use vv_tree::expression::{Argument, Expr, ExprKind, Part, Range};
use vv_tree::leaf::{Ident, Literal};
use vv_types::{BaseType, What};
use vv_visible::types::Found;

/// The type of a discrete range.
pub fn discrete_base(
    range: DiscreteRange<'_>,
    region: u32,
    builder: &Builder,
) -> Result<BaseType, Memory> {
    match range {
        DiscreteRange::Marked { mark, .. } => Ok(builder.base(region, mark)),
        DiscreteRange::Range(range) => range_base(range, region, builder),
    }
}

fn range_base(range: Range<'_>, region: u32, builder: &Builder) -> Result<BaseType, Memory> {
    let alloc = builder.alloc();
    match range {
        Range::Value(value) => Ok(first_of(bases(alloc, value, region, builder)?.as_slice())),
        Range::Bounds { left, right, .. } => {
            let lefts = bases(alloc, left, region, builder)?;
            let rights = bases(alloc, right, region, builder)?;
            Ok(common(lefts.as_slice(), rights.as_slice()))
        }
    }
}

fn first_of(list: &[BaseType]) -> BaseType {
    match list.first() {
        Some(base) => *base,
        None => BaseType::Int,
    }
}

/// The first type that both lists have, or else the first one.
fn common(lefts: &[BaseType], rights: &[BaseType]) -> BaseType {
    match lefts.iter().find(|base| rights.contains(base)) {
        Some(base) => *base,
        None if lefts.is_empty() => first_of(rights),
        None => first_of(lefts),
    }
}

/// The types that an expression can have by its form.
fn bases(
    alloc: Global,
    expression: Expr<'_>,
    region: u32,
    builder: &Builder,
) -> Result<Vec<BaseType>, Memory> {
    match expression.kind() {
        ExprKind::Literal(Literal::Character { byte, .. }) => {
            letter_bases(alloc, *byte, region, builder)
        }
        ExprKind::Name {
            identifier,
            parts,
            ..
        } => name_bases(alloc, *identifier, parts, region, builder),
        ExprKind::Parentheses { inner, .. } => bases(alloc, *inner, region, builder),
        ExprKind::Relation { .. } => one(alloc, BaseType::Bool),
        ExprKind::Not { operand, .. } | ExprKind::Abs { operand, .. } => {
            bases(alloc, *operand, region, builder)
        }
        ExprKind::Power { base, .. } => bases(alloc, *base, region, builder),
        ExprKind::Signed { operand, .. } => bases(alloc, *operand, region, builder),
        ExprKind::Product { first, .. }
        | ExprKind::Sum { first, .. }
        | ExprKind::Logic { first, .. } => bases(alloc, *first, region, builder),
        ExprKind::Shift { left, .. } => bases(alloc, *left, region, builder),
        ExprKind::Literal(_) | ExprKind::Aggregate { .. } => one(alloc, BaseType::Int),
    }
}

fn one(alloc: Global, base: BaseType) -> Result<Vec<BaseType>, Memory> {
    let mut list = Vec::new(alloc);
    list.push(base)?;
    Ok(list)
}

/// The types that have a character as a literal.
fn letter_bases(
    alloc: Global,
    byte: u8,
    region: u32,
    builder: &Builder,
) -> Result<Vec<BaseType>, Memory> {
    let mut list = Vec::new(alloc);
    let symbol = builder.symbols.of_letter(byte);
    for decl in builder.table.denoted_now(region, symbol).list {
        if let Some(declared) = builder.table.declared(*decl)
            && let What::Literal(base) = declared.what
        {
            list.push(base)?;
        }
    }
    Ok(list)
}

/// The types that a name can have.
fn name_bases(
    alloc: Global,
    identifier: Ident,
    parts: &[Part<'_>],
    region: u32,
    builder: &Builder,
) -> Result<Vec<BaseType>, Memory> {
    let mut list = Vec::new(alloc);
    let (path, count) = of_name(identifier, parts);
    let Found::Several(found) = builder.found(region, path) else {
        return Ok(list);
    };
    let suffixes = parts.get(count..).unwrap_or(&[]);
    for decl in found {
        if let Some(declared) = builder.table.declared(*decl)
            && let Some(base) = followed(&declared.what, suffixes, region, builder)
        {
            list.push(base)?;
        }
    }
    Ok(list)
}

/// What the parts behind a name are taken of.
#[derive(Clone, Copy, PartialEq, Eq)]
enum Prefix {
    /// A type, of which an argument is converted.
    Mark,
    /// A function that may have arguments.
    Function,
    Value,
}

/// The type of what a name denotes with the parts behind it.
fn followed(what: &What, parts: &[Part<'_>], region: u32, builder: &Builder) -> Option<BaseType> {
    let (mut base, mut prefix) = match what {
        What::Object { base, .. } | What::Literal(base) => (*base, Prefix::Value),
        What::Mark(base) => (*base, Prefix::Mark),
        What::Function { result, .. } => (*result, Prefix::Function),
        What::Other => return None,
    };
    for part in parts {
        base = match part {
            Part::Selected(_) => return None,
            Part::Arguments { arguments, .. } => {
                if prefix == Prefix::Value && is_index(arguments, region, builder) {
                    builder.table.parts(base)?.1
                } else {
                    base
                }
            }
            Part::Attribute { attribute, .. } => attribute_base(base, *attribute, builder),
            Part::RangeAttribute(_) => index_of(base, builder),
            Part::Qualified { .. } => base,
        };
        prefix = Prefix::Value;
    }
    Some(base)
}

/// The type of the indexes of an array type, and another type itself.
fn index_of(base: BaseType, builder: &Builder) -> BaseType {
    match builder.table.parts(base) {
        Some((index, _)) => index,
        None => base,
    }
}

/// The type of an attribute of something of this type.
fn attribute_base(base: BaseType, attribute: Ident, builder: &Builder) -> BaseType {
    let symbol = attribute.name.0;
    let symbols = &builder.symbols;
    if symbol == symbols.of_text(b"length") || symbol == symbols.of_text(b"pos") {
        BaseType::Int
    } else if symbol == symbols.of_text(b"event") {
        BaseType::Bool
    } else if symbol == symbols.of_text(b"val") {
        base
    } else {
        index_of(base, builder)
    }
}

/// Whether arguments are one index, and not a slice.
fn is_index(arguments: &[Argument<'_>], region: u32, builder: &Builder) -> bool {
    if arguments.len() != 1 {
        return false;
    }
    match arguments.first() {
        Some(Argument::Positional(Range::Value(value))) => !is_range(*value, region, builder),
        _ => false,
    }
}

/// Whether an expression is a type or the attribute `range`.
fn is_range(expression: Expr<'_>, region: u32, builder: &Builder) -> bool {
    let ExprKind::Name {
        identifier,
        parts,
        ..
    } = expression.kind()
    else {
        return false;
    };
    match parts.last() {
        Some(Part::RangeAttribute(_)) => true,
        Some(Part::Attribute { attribute, .. }) => {
            attribute.name.0 == builder.symbols.of_text(b"reverse_range")
        }
        Some(Part::Selected(_)) | None => {
            let (path, _) = of_name(*identifier, parts);
            is_mark(builder.found(region, path), builder)
        }
        Some(_) => false,
    }
}

fn is_mark(found: Found<'_>, builder: &Builder) -> bool {
    let Found::Several([decl]) = found else {
        return false;
    };
    match builder.table.declared(*decl) {
        Some(declared) => matches!(declared.what, What::Mark(_)),
        None => false,
    }
}
