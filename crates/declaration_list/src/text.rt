//! Declarations as text.

use std::alloc::{AllocError, Global};
use vv_base::text::Text;
use vv_types::{BaseType, BuiltDecl, What};

fn put(text: &Text, line: &mut String) -> Result<(), AllocError> {
    for byte in text.as_slice() {
        line.push(char::from(*byte))?;
    }
    Ok(())
}

/// The name of a type. That of an array type stands at the place that is its number.
fn put_type(decls: &[BuiltDecl], base: BaseType, line: &mut String) -> Result<(), AllocError> {
    match base {
        BaseType::Logic => line.push_str("std_ulogic"),
        BaseType::Bool => line.push_str("boolean"),
        BaseType::Int => line.push_str("integer"),
        BaseType::Enum(place) | BaseType::Array(place) => match decls.get(place as usize) {
            Some(decl) => put(&decl.name, line),
            None => line.push('?'),
        },
    }
}

/// The types of parameters, each behind its name where it has one.
fn put_params(
    decls: &[BuiltDecl],
    params: &[BaseType],
    formals: &[Text],
    line: &mut String,
) -> Result<(), AllocError> {
    line.push('(')?;
    for (k, base) in params.iter().enumerate() {
        if k > 0 {
            line.push_str(", ")?;
        }
        if let Some(name) = formals.get(k) {
            put(name, line)?;
            line.push_str(": ")?;
        }
        put_type(decls, *base, line)?;
    }
    line.push_str(") ")
}

fn put_what(decls: &[BuiltDecl], decl: &BuiltDecl, line: &mut String) -> Result<(), AllocError> {
    match &decl.what {
        What::Mark(base) => {
            line.push_str("type ")?;
            put_type(decls, *base, line)
        }
        What::Literal(base) => {
            line.push_str("literal ")?;
            put_type(decls, *base, line)
        }
        What::Function { params, result } => {
            put_params(decls, params.as_slice(), decl.formals.as_slice(), line)?;
            put_type(decls, *result, line)
        }
        What::Object { kind: _, base: _ } | What::Other => line.push('?'),
    }
}

/// The line of a declaration.
pub fn line(alloc: Global, decls: &[BuiltDecl], decl: &BuiltDecl) -> Result<String, AllocError> {
    let mut line = String::new(alloc);
    put(&decl.package, &mut line)?;
    line.push(' ')?;
    put(&decl.name, &mut line)?;
    line.push_str(": ")?;
    put_what(decls, decl, &mut line)?;
    Ok(line)
}
