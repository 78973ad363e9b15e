//! Arguments of functions.

use crate::count::{count, times};
use crate::noted::{Kind, Noted, Scene};
use crate::types::is_signal;
use vv_types::{BaseType, What};
use vv_visible::declared::Declared;
use vv_visible::types::Library;

/// Whether a built-in function is an edge call, and if so whether of a rising edge.
pub fn edge_of(declared: &Declared) -> Option<bool> {
    let Some(text) = &declared.built else {
        return None;
    };
    match text.as_slice() {
        b"rising_edge" => Some(true),
        b"falling_edge" => Some(false),
        _ => None,
    }
}

/// The number of the parameter that argument `k` is for.
pub fn formal_at(
    lib: &Library<'_>,
    decl: u32,
    arity: usize,
    arguments: &[Noted<'_>],
    k: usize,
) -> Option<u32> {
    let argument = arguments.get(k)?;
    match argument.kind {
        Kind::Named(name) => {
            for (number, _) in (0..arity).enumerate() {
                let number = u32::try_from(number).ok()?;
                let formal = lib.formal(decl, number)?;
                if formal.name == Some(name) {
                    return Some(number);
                }
            }
            None
        }
        _ => if k < arity {
            u32::try_from(k).ok()
        } else {
            None
        },
    }
}

/// Whether a positional argument stands behind a named one.
fn is_mixed(arguments: &[Noted<'_>]) -> bool {
    let mut named = false;
    for argument in arguments {
        match argument.kind {
            Kind::Named(_) => named = true,
            _ => if named {
                return true;
            },
        }
    }
    false
}

/// How many arguments are for a parameter.
fn given(
    lib: &Library<'_>,
    decl: u32,
    arity: usize,
    arguments: &[Noted<'_>],
    formal: u32,
) -> usize {
    let mut all = 0usize;
    for (k, _) in arguments.iter().enumerate() {
        if formal_at(lib, decl, arity, arguments, k) == Some(formal) {
            all = all.saturating_add(1);
        }
    }
    all
}

/// Whether a parameter has a default.
fn has_default(lib: &Library<'_>, decl: u32, k: u32) -> bool {
    match lib.formal(decl, k) {
        Some(formal) => formal.default,
        None => false,
    }
}

/// Whether each parameter has one argument, or none and a default.
fn is_complete(lib: &Library<'_>, decl: u32, arity: usize, arguments: &[Noted<'_>]) -> bool {
    for k in 0..arity {
        let Ok(number) = u32::try_from(k) else {
            return false;
        };
        match given(lib, decl, arity, arguments, number) {
            0 => if !has_default(lib, decl, number) {
                return false;
            },
            1 => {}
            _ => return false,
        }
    }
    true
}

/// Whether all parameters of a function have defaults.
pub fn is_bare_call(lib: &Library<'_>, decl: u32, params: &[BaseType]) -> bool {
    is_complete(lib, decl, params.len(), &[])
}

/// The type of a parameter.
pub fn param_at(params: &[BaseType], k: Option<u32>) -> Option<BaseType> {
    params.get(k? as usize).copied()
}

/// In how many ways an argument gives a value of a type to its formal.
fn count_actual(scene: &Scene<'_, '_, '_>, argument: &Noted<'_>, base: BaseType) -> u32 {
    match argument.kind {
        Kind::Named(_) => match argument.parts.as_slice().first() {
            Some(actual) => count(scene, actual, base),
            None => 0,
        },
        _ => count(scene, argument, base),
    }
}

/// In how many ways arguments are those of a function.
pub fn call(
    scene: &Scene<'_, '_, '_>,
    decl: u32,
    declared: &Declared,
    params: &[BaseType],
    arguments: &[Noted<'_>],
) -> u32 {
    let arity = params.len();
    if arguments.len() > arity
        || is_mixed(arguments)
        || !is_complete(scene.lib, decl, arity, arguments)
    {
        return 0;
    }
    if edge_of(declared).is_some() && !is_signal_name(scene.lib, arguments) {
        return 0;
    }
    let mut ways = 1;
    for (k, argument) in arguments.iter().enumerate() {
        let formal = formal_at(scene.lib, decl, arity, arguments, k);
        ways = match param_at(params, formal) {
            Some(param) => times(ways, count_actual(scene, argument, param)),
            None => 0,
        };
    }
    ways
}

/// Whether the only argument names a signal, or a part of one.
fn is_signal_name(lib: &Library<'_>, arguments: &[Noted<'_>]) -> bool {
    match arguments {
        [argument] => names_signal(lib, argument),
        _ => false,
    }
}

/// Whether it names a signal, or a part of one, parentheses aside.
fn names_signal(lib: &Library<'_>, noted: &Noted<'_>) -> bool {
    match noted.kind {
        Kind::Parentheses => match noted.parts.as_slice().first() {
            Some(inner) => names_signal(lib, inner),
            None => false,
        },
        Kind::Name { .. } => {
            for part in noted.parts.as_slice() {
                match part.kind {
                    Kind::Arguments => {}
                    _ => return false,
                }
            }
            match noted.bare.as_slice().first() {
                Some(decl) => is_signal_decl(lib, *decl),
                None => false,
            }
        }
        _ => false,
    }
}

fn is_signal_decl(lib: &Library<'_>, decl: u32) -> bool {
    match lib.declared(decl) {
        Some(declared) => match declared.what {
            What::Object { kind, .. } => is_signal(kind),
            _ => false,
        },
        None => false,
    }
}
