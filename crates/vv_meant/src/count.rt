//! In how many ways an expression can be meant: 0, 1, or 2 for several.

use crate::literals::{admits_bits, admits_text, literal_base};
use crate::noted::{Kind, Noted, Scene, core, is_range};
use crate::types::{bare_base, called_base};
use vv_types::{BaseType, What};
use vv_visible::types::Library;

/// The product, up to two.
pub fn times(a: u32, b: u32) -> u32 {
    if a == 0 || b == 0 {
        0
    } else if a == 1 && b == 1 {
        1
    } else {
        2
    }
}

/// The sum, up to two.
pub fn plus(a: u32, b: u32) -> u32 {
    if a == 0 {
        b.min(2)
    } else if b == 0 {
        a.min(2)
    } else {
        2
    }
}

/// The types of the parameters and of the result of a function.
pub fn profile<'l>(lib: &'l Library<'_>, decl: u32) -> Option<(&'l [BaseType], BaseType)> {
    match lib.declared(decl) {
        Some(declared) => match &declared.what {
            What::Function { params, result } => Some((params.as_slice(), *result)),
            _ => None,
        },
        None => None,
    }
}

/// The type of the result of a function.
pub fn result_of(lib: &Library<'_>, decl: u32) -> Option<BaseType> {
    match profile(lib, decl) {
        Some((_, result)) => Some(result),
        None => None,
    }
}

/// In how many ways an expression is a value of a type.
#[cycle(count)]
pub fn count(scene: &Scene<'_, '_, '_>, noted: &Noted<'_>, base: BaseType) -> u32 {
    match noted.kind {
        Kind::Parentheses => match noted.parts.as_slice().first() {
            Some(inner) => count(scene, inner, base),
            None => 0,
        },
        Kind::Chain => match noted.parts.as_slice().last() {
            Some(last) => count(scene, last, base),
            None => 0,
        },
        Kind::Aggregate => match scene.lib.parts(base) {
            Some((index, element)) => {
                count_elements(scene, noted.parts.as_slice(), index, element)
            }
            None => 0,
        },
        _ => count_leaf(scene, noted, base),
    }
}

/// The same for what has no operands whose ways are still to be counted.
fn count_leaf(scene: &Scene<'_, '_, '_>, noted: &Noted<'_>, base: BaseType) -> u32 {
    match noted.kind {
        Kind::Integer(_) => u32::from(base == BaseType::Int),
        Kind::Text(bytes) => u32::from(admits_text(scene, base, bytes)),
        Kind::BitText(bytes) => u32::from(admits_bits(scene, base, bytes)),
        Kind::Character => {
            let mut ways = 0;
            for decl in noted.here.as_slice() {
                if literal_base(scene.lib, *decl) == Some(base) {
                    ways = plus(ways, 1);
                }
            }
            ways
        }
        Kind::Unary(_) | Kind::Binary(_) | Kind::Link(_) => {
            let mut ways = 0;
            for decl in noted.here.as_slice() {
                if result_of(scene.lib, *decl) == Some(base) {
                    ways = plus(ways, 1);
                }
            }
            ways
        }
        Kind::Name { .. } => count_name(scene.lib, noted, base),
        _ => 0,
    }
}

/// In how many ways a name is a value of a type. A range is no value.
fn count_name(lib: &Library<'_>, noted: &Noted<'_>, base: BaseType) -> u32 {
    if noted.range.is_some() {
        return 0;
    }
    let mut ways = 0;
    for decl in noted.here.as_slice() {
        if called_base(lib, noted, *decl) == Some(base) {
            ways = plus(ways, 1);
        }
    }
    for decl in noted.bare.as_slice() {
        if bare_base(lib, noted, *decl) == Some(base) {
            ways = plus(ways, 1);
        }
    }
    ways
}

/// In how many ways elements are those of an array with these types of its index and its elements.
#[cycle(count)]
fn count_elements(
    scene: &Scene<'_, '_, '_>,
    elements: &[Noted<'_>],
    index: BaseType,
    element: BaseType,
) -> u32 {
    let mut ways = 1;
    for noted in elements {
        ways = times(ways, count_element(scene, noted, index, element));
    }
    ways
}

/// In how many ways an element, with its choices, is one of such an array.
#[cycle(count)]
fn count_element(
    scene: &Scene<'_, '_, '_>,
    noted: &Noted<'_>,
    index: BaseType,
    element: BaseType,
) -> u32 {
    match noted.parts.as_slice() {
        [value, choices @ ..] => {
            let ways = count(scene, value, element);
            times(ways, count_choices(scene, choices, index))
        }
        [] => 0,
    }
}

#[cycle(count)]
fn count_choices(scene: &Scene<'_, '_, '_>, choices: &[Noted<'_>], index: BaseType) -> u32 {
    let mut ways = 1;
    for choice in choices {
        ways = times(ways, count_range(scene, choice, index));
    }
    ways
}

/// In how many ways a range, or a choice, has values of a type.
#[cycle(count)]
pub fn count_range(scene: &Scene<'_, '_, '_>, noted: &Noted<'_>, base: BaseType) -> u32 {
    match noted.kind {
        Kind::Others => 1,
        Kind::Bounds { .. } => match noted.parts.as_slice() {
            [left, right] => times(count(scene, left, base), count(scene, right, base)),
            _ => 0,
        },
        _ => {
            if is_range(noted) {
                count_whole(noted, base)
            } else {
                count(scene, noted, base)
            }
        }
    }
}

/// In how many ways a mark or an attribute is a range of values of a type.
fn count_whole(noted: &Noted<'_>, base: BaseType) -> u32 {
    if noted.range != Some(base) {
        return 0;
    }
    match noted.bare.as_slice() {
        [] => 0,
        [_] => 1,
        _ => 2,
    }
}

/// What is asked of the type of an expression that has none from outside.
#[derive(Clone, Copy)]
pub enum Ask<'n, 't> {
    Any,
    /// A type that a type can be converted to.
    Related(BaseType),
    /// The type of the other bound of a range.
    Beside(&'n Noted<'t>),
}

/// In how many ways an expression can be meant, and the type of the first of them.
#[derive(Clone, Copy)]
pub struct Found {
    pub ways: u32,
    pub base: Option<BaseType>,
}

/// Whether values of one type can be converted to another: it is the same one, or both are array types with the same types of indexes
/// and elements.
fn related(lib: &Library<'_>, a: BaseType, b: BaseType) -> bool {
    if a == b {
        return true;
    }
    match (lib.parts(a), lib.parts(b)) {
        (Some(left), Some(right)) => left.0 == right.0 && left.1 == right.1,
        _ => false,
    }
}

/// In how many ways a type answers what is asked.
fn answers(scene: &Scene<'_, '_, '_>, ask: Ask<'_, '_>, base: BaseType) -> u32 {
    match ask {
        Ask::Any => 1,
        Ask::Related(other) => u32::from(related(scene.lib, base, other)),
        Ask::Beside(noted) => match base {
            BaseType::Array(_) => 0,
            _ => count(scene, noted, base),
        },
    }
}

impl Found {
    fn nothing() -> Found {
        Found {
            ways: 0,
            base: None,
        }
    }

    /// With further ways at a type.
    fn with(self, ways: u32, base: BaseType) -> Found {
        Found {
            ways: plus(self.ways, ways),
            base: if self.ways == 0 && ways != 0 {
                Some(base)
            } else {
                self.base
            },
        }
    }

    /// With a way at a type, if there is a type.
    fn and(self, scene: &Scene<'_, '_, '_>, ask: Ask<'_, '_>, base: Option<BaseType>) -> Found {
        match base {
            Some(base) => self.with(answers(scene, ask, base), base),
            None => self,
        }
    }
}

/// In how many ways an expression can be meant at a type that answers what is asked.
pub fn find(scene: &Scene<'_, '_, '_>, noted: &Noted<'_>, ask: Ask<'_, '_>) -> Found {
    let noted = core(noted);
    let mut found = Found::nothing();
    match noted.kind {
        Kind::Integer(_) => found.and(scene, ask, Some(BaseType::Int)),
        Kind::Text(_) | Kind::BitText(_) | Kind::Aggregate => find_array(scene, noted, ask),
        Kind::Character => {
            for decl in noted.here.as_slice() {
                found = found.and(scene, ask, literal_base(scene.lib, *decl));
            }
            found
        }
        Kind::Unary(_) | Kind::Binary(_) | Kind::Link(_) => {
            for decl in noted.here.as_slice() {
                found = found.and(scene, ask, result_of(scene.lib, *decl));
            }
            found
        }
        Kind::Name { .. } => find_name(scene, noted, ask),
        _ => found,
    }
}

/// The same for a name.
fn find_name(scene: &Scene<'_, '_, '_>, noted: &Noted<'_>, ask: Ask<'_, '_>) -> Found {
    let mut found = Found::nothing();
    if noted.range.is_some() {
        return found;
    }
    for decl in noted.here.as_slice() {
        found = found.and(scene, ask, called_base(scene.lib, noted, *decl));
    }
    for decl in noted.bare.as_slice() {
        found = found.and(scene, ask, bare_base(scene.lib, noted, *decl));
    }
    found
}

/// The same for what takes its type from outside: all array types are tried.
fn find_array(scene: &Scene<'_, '_, '_>, noted: &Noted<'_>, ask: Ask<'_, '_>) -> Found {
    let mut found = Found::nothing();
    for array in scene.lib.arrays() {
        let base = BaseType::Array(array.decl);
        let ways = times(answers(scene, ask, base), count(scene, noted, base));
        found = found.with(ways, base);
    }
    found
}
