//! Functions with the names of their parameters.

ghost use Rattle.std.specs.Prelude.{◌≡◌, [], ◌∷◌, IfOk, codes, map};
ghost use Rattle.vv_types.specs.declared.base.BaseType.TheVariants.{Int};
ghost use Rattle.vv_num_decls.specs.Declarations.{conversion, conversions, function, functions_of, movement};

use crate::declarations::{NUMERIC, SIGNED, UNSIGNED};
use sqlite_items::Items;
use std::alloc::Global;
use vv_base::fault::Memory;
use vv_base::text::Text;
use vv_builtin::list_of;
use vv_types::{BaseType, BuiltDecl, DeclList, TextList, What};

const MOVEMENTS: [&str; 4] = ["shift_left", "shift_right", "rotate_left", "rotate_right"];

/// A function, its parameters and the type of its result.
fn function(
    alloc: Global,
    name: &str,
    formals: TextList,
    params: &[BaseType],
    gives: BaseType,
) -> Result<BuiltDecl, Memory>
    ensures { IfOk result (λ d. d ≡ function name.now formals params.now gives) }
{
    Ok(BuiltDecl {
        package: Text::from_slice(alloc, NUMERIC.as_bytes())?,
        name: Text::from_slice(alloc, name.as_bytes())?,
        formals,
        what: What::Function {
            params: Items::from_slice(alloc, params)?,
            result: gives,
        },
    })
}

/// The names of the operand and of a number beside it.
fn names(alloc: Global, second: &str) -> Result<TextList, Memory>
    ensures { IfOk result (λ list. list ≡ codes "arg" ∷ second.now ∷ []) }
{
    let mut list = TextList::new(alloc);
    list.push(Text::from_slice(alloc, "arg".as_bytes())?)?;
    list.push(Text::from_slice(alloc, second.as_bytes())?)?;
    Ok(list)
}

/// A shift or a rotation of a vector by a count.
fn movement(alloc: Global, vector: BaseType, name: &str) -> Result<BuiltDecl, Memory>
    ensures { IfOk result (λ d. d ≡ movement vector name.now) }
{
    let formals = names(alloc, "count")?;
    function(alloc, name, formals, &[vector, BaseType::Int], vector)
}

fn resize(alloc: Global, vector: BaseType) -> Result<BuiltDecl, Memory>
    ensures { IfOk result (λ d. d ≡ function (codes "resize") (codes "arg" ∷ codes "new_size" ∷ []) (vector ∷ Int ∷ []) vector) }
{
    let formals = names(alloc, "new_size")?;
    function(alloc, "resize", formals, &[vector, BaseType::Int], vector)
}

fn to_integer(alloc: Global, vector: BaseType) -> Result<BuiltDecl, Memory>
    ensures { IfOk result (λ d. d ≡ function (codes "to_integer") (codes "arg" ∷ []) (vector ∷ []) Int) }
{
    let mut formals = TextList::new(alloc);
    formals.push(Text::from_slice(alloc, "arg".as_bytes())?)?;
    function(alloc, "to_integer", formals, &[vector], BaseType::Int)
}

/// The shifts and rotations of a vector.
fn movements(alloc: Global, vector: BaseType) -> Result<DeclList, Memory>
    ensures { IfOk result (λ list. list ≡ map (movement vector) (map (λ n. n.now) MOVEMENTS)) }
{
    let mut list = DeclList::new(alloc);
    for name in &MOVEMENTS {
        list.push(movement(alloc, vector, name)?)?;
    }
    Ok(list)
}

/// The functions whose first operand is a vector.
#[tactic(auto, unfolding(crate::specs::Declarations::functions_of))]
pub fn functions_of(alloc: Global, vector: BaseType) -> Result<DeclList, Memory>
    ensures { IfOk result (λ list. list ≡ functions_of vector) }
{
    let mut list = movements(alloc, vector)?;
    let resized = resize(alloc, vector)?;
    list.push(resized)?;
    let number = to_integer(alloc, vector)?;
    list.push(number)?;
    Ok(list)
}

/// A vector of a number and a size.
fn conversion(alloc: Global, vector: BaseType, name: &str) -> Result<BuiltDecl, Memory>
    ensures { IfOk result (λ d. d ≡ conversion vector name.now) }
{
    let formals = names(alloc, "size")?;
    function(
        alloc,
        name,
        formals,
        &[BaseType::Int, BaseType::Int],
        vector,
    )
}

/// The functions that make a vector of a number.
#[tactic(auto, unfolding(crate::specs::Declarations::conversions))]
pub fn conversions(alloc: Global) -> Result<DeclList, Memory>
    ensures { IfOk result (λ list. list ≡ conversions) }
{
    list_of(
        alloc,
        [
            conversion(alloc, UNSIGNED, "to_unsigned")?,
            conversion(alloc, SIGNED, "to_signed")?,
        ],
    )
}
