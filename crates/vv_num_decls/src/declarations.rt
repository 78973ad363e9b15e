//! The declarations of `numeric_std`.

ghost use Rattle.std.specs.Prelude.{◌≡◌, IfOk};
ghost use Rattle.vv_num_decls.specs.Declarations.{declarations_of, num_declarations, numbers_of, numbers_on, signs, types};

use crate::functions::{conversions, functions_of};
use std::alloc::Global;
use vv_base::fault::Memory;
use vv_builtin::{built, concatenations_of, list_of, logic_of, operators_on, relational_on};
use vv_types::{BaseType, DeclList, Op, What};

pub(crate) const NUMERIC: &str = "numeric_std";

/// The numbers of array types are the places of their declarations, behind those of `standard` and `std_logic_1164`.
pub(crate) const UNSIGNED: BaseType = BaseType::Array(97);

pub(crate) const SIGNED: BaseType = BaseType::Array(98);

const ARITHMETICAL: [Op; 3] = [Op::Plus, Op::Minus, Op::Times];

/// The built-in declarations of `numeric_std`.
#[tactic(auto, unfolding(crate::specs::Declarations::num_declarations))]
pub fn num_decls(alloc: Global) -> Result<DeclList, Memory>
    ensures { IfOk result (λ list. list ≡ num_declarations) }
{
    let mut list = types(alloc)?;
    list.append(declarations_of(alloc, UNSIGNED)?)?;
    list.append(declarations_of(alloc, SIGNED)?)?;
    list.append(signs(alloc)?)?;
    list.append(conversions(alloc)?)?;
    Ok(list)
}

#[tactic(auto, unfolding(crate::specs::Declarations::types))]
fn types(alloc: Global) -> Result<DeclList, Memory>
    ensures { IfOk result (λ list. list ≡ types) }
{
    list_of(
        alloc,
        [
            built(alloc, NUMERIC, "unsigned", What::Mark(UNSIGNED))?,
            built(alloc, NUMERIC, "signed", What::Mark(SIGNED))?,
        ],
    )
}

/// What both vector types have.
#[tactic(auto, unfolding(crate::specs::Declarations::declarations_of))]
fn declarations_of(alloc: Global, vector: BaseType) -> Result<DeclList, Memory>
    ensures { IfOk result (λ list. list ≡ declarations_of vector) }
{
    let mut list = numbers_of(alloc, vector)?;
    list.append(logic_of(alloc, NUMERIC, vector)?)?;
    list.append(concatenations_of(alloc, NUMERIC, vector)?)?;
    list.append(functions_of(alloc, vector)?)?;
    Ok(list)
}

/// The operators on numbers, of two vectors and of a vector and a number on either side.
#[tactic(auto, unfolding(crate::specs::Declarations::numbers_of))]
fn numbers_of(alloc: Global, vector: BaseType) -> Result<DeclList, Memory>
    ensures { IfOk result (λ list. list ≡ numbers_of vector) }
{
    let mut list = numbers_on(alloc, vector, &[vector, vector])?;
    list.append(numbers_on(alloc, vector, &[vector, BaseType::Int])?)?;
    list.append(numbers_on(alloc, vector, &[BaseType::Int, vector])?)?;
    Ok(list)
}

/// The operators on numbers, for operands of these types.
#[tactic(auto, unfolding(crate::specs::Declarations::numbers_on))]
fn numbers_on(alloc: Global, vector: BaseType, operands: &[BaseType]) -> Result<DeclList, Memory>
    ensures { IfOk result (λ list. list ≡ numbers_on vector operands.now) }
{
    let mut list = operators_on(alloc, NUMERIC, &ARITHMETICAL, operands, vector)?;
    list.append(relational_on(alloc, NUMERIC, operands)?)?;
    Ok(list)
}

/// `abs` and `-` of a signed vector.
#[tactic(auto, unfolding(crate::specs::Declarations::signs))]
fn signs(alloc: Global) -> Result<DeclList, Memory>
    ensures { IfOk result (λ list. list ≡ signs) }
{
    operators_on(
        alloc,
        NUMERIC,
        &[Op::Absolute, Op::Minus],
        &[SIGNED],
        SIGNED,
    )
}
