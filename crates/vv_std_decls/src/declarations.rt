//! The declarations of `standard` and `std_logic_1164`.

ghost use Rattle.std.specs.Prelude.{◌≡◌, ◌<◌, map, IfOk};
ghost use Rattle.std.specs.List.{flat_map};
ghost use Rattle.vv_std_decls.specs.Declarations.{arithmetic, concatenations, edge, edges, hex, letter, literals, logic_operators, mark, named, operators_of, predefined, std_declarations, truth, types};

use sqlite_items::Items;
use std::alloc::Global;
use vv_base::fault::Memory;
use vv_base::text::Text;
use vv_builtin::{built, concatenations_of, list_of, logic_of, operators_on, relations_of};
use vv_types::{BaseType, BuiltDecl, DeclList, Op, TextList, What};

const STANDARD: &str = "standard";

const LOGIC_1164: &str = "std_logic_1164";

/// The numbers of array types are the places of their declarations.
const ULOGIC_VECTOR: BaseType = BaseType::Array(6);

const LOGIC_VECTOR: BaseType = BaseType::Array(7);

const STANDARD_TYPES: [(&str, BaseType); 4] = [
    ("boolean", BaseType::Bool),
    ("integer", BaseType::Int),
    ("natural", BaseType::Int),
    ("positive", BaseType::Int),
];

const LOGIC_TYPES: [(&str, BaseType); 4] = [
    ("std_ulogic", BaseType::Logic),
    ("std_logic", BaseType::Logic),
    ("std_ulogic_vector", ULOGIC_VECTOR),
    ("std_logic_vector", LOGIC_VECTOR),
];

const TRUTHS: [&str; 2] = ["false", "true"];

const ARITHMETICAL: [Op; 7] = [
    Op::Plus,
    Op::Minus,
    Op::Times,
    Op::Divide,
    Op::Modulo,
    Op::Remainder,
    Op::Power,
];

const SIGNS: [Op; 3] = [Op::Plus, Op::Minus, Op::Absolute];

/// The built-in declarations of `standard` and `std_logic_1164`.
pub fn std_decls(alloc: Global) -> Result<DeclList, Memory>
    ensures { IfOk result (λ list. list ≡ std_declarations) }
{
    let mut list = named(alloc)?;
    let operators = predefined(alloc)?;
    list.append(operators)?;
    let logic = logic_operators(alloc)?;
    list.append(logic)?;
    Ok(list)
}

/// The types and the literals of both packages.
fn named(alloc: Global) -> Result<DeclList, Memory>
    ensures { IfOk result (λ list. list ≡ named) }
{
    let mut list = types(alloc)?;
    let more = literals(alloc)?;
    list.append(more)?;
    Ok(list)
}

/// The predefined operators of `standard`.
#[tactic(auto, unfolding(crate::specs::Declarations::predefined))]
fn predefined(alloc: Global) -> Result<DeclList, Memory>
    ensures { IfOk result (λ list. list ≡ predefined) }
{
    let mut list = relations_of(alloc, STANDARD, BaseType::Bool)?;
    list.append(logic_of(alloc, STANDARD, BaseType::Bool)?)?;
    list.append(relations_of(alloc, STANDARD, BaseType::Int)?)?;
    list.append(arithmetic(alloc)?)?;
    Ok(list)
}

/// The operators and functions of `std_logic_1164`.
#[tactic(auto, unfolding(crate::specs::Declarations::logic_operators))]
fn logic_operators(alloc: Global) -> Result<DeclList, Memory>
    ensures { IfOk result (λ list. list ≡ logic_operators) }
{
    let mut list = operators(alloc, &[BaseType::Logic, ULOGIC_VECTOR, LOGIC_VECTOR])?;
    list.append(concatenations(alloc)?)?;
    list.append(edges(alloc)?)?;
    Ok(list)
}

/// Types of a package by their names.
fn marks(alloc: Global, unit: &str, types: &[(&str, BaseType)]) -> Result<DeclList, Memory>
    ensures { IfOk result (λ list. list ≡ map (λ t. mark unit.now t.0.now t.1) types.now) }
{
    let mut list = DeclList::new(alloc);
    for entry in types {
        list.push(built(alloc, unit, entry.0, What::Mark(entry.1))?)?;
    }
    Ok(list)
}

#[tactic(auto, unfolding(crate::specs::Declarations::types))]
fn types(alloc: Global) -> Result<DeclList, Memory>
    ensures { IfOk result (λ list. list ≡ types) }
{
    let mut list = marks(alloc, STANDARD, &STANDARD_TYPES)?;
    let more = marks(alloc, LOGIC_1164, &LOGIC_TYPES)?;
    list.append(more)?;
    Ok(list)
}

/// The two literals of `boolean`.
fn truths(alloc: Global) -> Result<DeclList, Memory>
    ensures { IfOk result (λ list. list ≡ map truth (map (λ n. n.now) TRUTHS)) }
{
    let mut list = DeclList::new(alloc);
    for name in &TRUTHS {
        list.push(built(alloc, STANDARD, name, What::Literal(BaseType::Bool))?)?;
    }
    Ok(list)
}

#[tactic(auto, unfolding(crate::specs::Declarations::literals))]
fn literals(alloc: Global) -> Result<DeclList, Memory>
    ensures { IfOk result (λ list. list ≡ literals) }
{
    let mut list = truths(alloc)?;
    let more = letters(alloc, b"UX01ZWLH-")?;
    list.append(more)?;
    Ok(list)
}

/// Character literals of `std_ulogic`.
fn letters(alloc: Global, letters: &[u8]) -> Result<DeclList, Memory>
    ensures { IfOk result (λ list. list ≡ map letter letters.now) }
{
    let mut list = DeclList::new(alloc);
    for letter in letters {
        let digits = [b'\'', hex(*letter / 16), hex(*letter % 16)];
        list.push(BuiltDecl {
            package: Text::from_slice(alloc, LOGIC_1164.as_bytes())?,
            name: Text::from_slice(alloc, &digits)?,
            formals: TextList::new(alloc),
            what: What::Literal(BaseType::Logic),
        })?;
    }
    Ok(list)
}

fn hex(digit: u8) -> u8
    requires { digit < 16 }
    ensures { result ≡ hex digit }
{
    if digit < 10 {
        b'0' + digit
    } else {
        b'a' + (digit - 10)
    }
}

#[tactic(auto, unfolding(crate::specs::Declarations::arithmetic))]
fn arithmetic(alloc: Global) -> Result<DeclList, Memory>
    ensures { IfOk result (λ list. list ≡ arithmetic) }
{
    let int = BaseType::Int;
    let mut list = operators_on(alloc, STANDARD, &ARITHMETICAL, &[int, int], int)?;
    list.append(operators_on(alloc, STANDARD, &SIGNS, &[int], int)?)?;
    Ok(list)
}

/// The relations and the logical operators of types of `std_logic_1164`.
fn operators(alloc: Global, bases: &[BaseType]) -> Result<DeclList, Memory>
    ensures { IfOk result (λ list. list ≡ flat_map operators_of bases.now) }
{
    let mut list = DeclList::new(alloc);
    for base in bases {
        list.append(operators_of(alloc, *base)?)?;
    }
    Ok(list)
}

fn operators_of(alloc: Global, base: BaseType) -> Result<DeclList, Memory>
    ensures { IfOk result (λ list. list ≡ operators_of base) }
{
    let mut list = relations_of(alloc, LOGIC_1164, base)?;
    list.append(logic_of(alloc, LOGIC_1164, base)?)?;
    Ok(list)
}

#[tactic(auto, unfolding(crate::specs::Declarations::concatenations))]
fn concatenations(alloc: Global) -> Result<DeclList, Memory>
    ensures { IfOk result (λ list. list ≡ concatenations) }
{
    let mut list = concatenations_of(alloc, LOGIC_1164, ULOGIC_VECTOR)?;
    list.append(concatenations_of(alloc, LOGIC_1164, LOGIC_VECTOR)?)?;
    Ok(list)
}

#[tactic(auto, unfolding(crate::specs::Declarations::edges))]
fn edges(alloc: Global) -> Result<DeclList, Memory>
    ensures { IfOk result (λ list. list ≡ edges) }
{
    list_of(
        alloc,
        [edge(alloc, "rising_edge")?, edge(alloc, "falling_edge")?],
    )
}

fn edge(alloc: Global, name: &str) -> Result<BuiltDecl, Memory>
    ensures { IfOk result (λ d. d ≡ edge name.now) }
{
    let what = What::Function {
        params: Items::from_slice(alloc, &[BaseType::Logic])?,
        result: BaseType::Bool,
    };
    built(alloc, LOGIC_1164, name, what)
}
