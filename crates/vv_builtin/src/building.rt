//! Declarations and lists of them.

ghost use Rattle.std.specs.Prelude.{◌≡◌, [], ◌∷◌, map, IfOk};
ghost use Rattle.vv_types.specs.declared.operators.Op.TheVariants.{Concatenate};
ghost use Rattle.vv_builtin.specs.Builtin.{built, concatenations_of, logic_of, operator, operator_name, relational, relations_of};
ghost use Rattle.vv_types.specs.declared.base.BaseType.TheVariants.{Bool};

use sqlite_items::Items;
use std::alloc::Global;
use vv_base::fault::Memory;
use vv_base::text::Text;
use vv_types::{BaseType, BuiltDecl, DeclList, Op, TextList, What};

const RELATIONAL: [Op; 6] = [
    Op::Equal,
    Op::NotEqual,
    Op::Less,
    Op::LessEqual,
    Op::Greater,
    Op::GreaterEqual,
];

const LOGICAL: [Op; 6] = [Op::And, Op::Or, Op::Xor, Op::Nand, Op::Nor, Op::Xnor];

/// A declaration of the package `unit`. Its parameters have no names.
pub fn built(alloc: Global, unit: &str, name: &str, what: What) -> Result<BuiltDecl, Memory>
    ensures { IfOk result (λ d. d ≡ built unit.now name.now what) }
{
    Ok(BuiltDecl {
        package: Text::from_slice(alloc, unit.as_bytes())?,
        name: Text::from_slice(alloc, name.as_bytes())?,
        formals: TextList::new(alloc),
        what,
    })
}

/// A list of these declarations.
pub fn list_of<const N: usize>(alloc: Global, decls: [BuiltDecl; N]) -> Result<DeclList, Memory>
    ensures { IfOk result (λ list. list ≡ decls.entry) }
{
    Ok(Items::from_vec(Vec::from_array(alloc, decls)?))
}

/// The operators `ops` on operands of the types `params`, with a result of the type `gives`.
pub fn operators_on(
    alloc: Global,
    unit: &str,
    ops: &[Op],
    params: &[BaseType],
    gives: BaseType,
) -> Result<DeclList, Memory>
    ensures { IfOk result (λ list. list ≡ map (operator unit.now params.now gives) ops.now) }
{
    let mut list = DeclList::new(alloc);
    for op in ops {
        let what = What::Function {
            params: Items::from_slice(alloc, params)?,
            result: gives,
        };
        list.push(built(alloc, unit, operator_name(*op), what)?)?;
    }
    Ok(list)
}

/// The relations of operands of the types `params`.
pub fn relational_on(alloc: Global, unit: &str, params: &[BaseType]) -> Result<DeclList, Memory>
    ensures { IfOk result (λ list. list ≡ map (operator unit.now params.now Bool) relational) }
{
    operators_on(alloc, unit, &RELATIONAL, params, BaseType::Bool)
}

/// The relations of a type with itself.
#[tactic(auto, unfolding(crate::specs::Builtin::relations_of))]
pub fn relations_of(alloc: Global, unit: &str, base: BaseType) -> Result<DeclList, Memory>
    ensures { IfOk result (λ list. list ≡ relations_of unit.now base) }
{
    relational_on(alloc, unit, &[base, base])
}

/// The logical operators of a type with itself, `not` last.
#[tactic(auto, unfolding(crate::specs::Builtin::logic_of))]
pub fn logic_of(alloc: Global, unit: &str, base: BaseType) -> Result<DeclList, Memory>
    ensures { IfOk result (λ list. list ≡ logic_of unit.now base) }
{
    let mut list = operators_on(alloc, unit, &LOGICAL, &[base, base], base)?;
    list.append(operators_on(alloc, unit, &[Op::Not], &[base], base)?)?;
    Ok(list)
}

/// `&` of a vector of `std_ulogic` with itself and with its elements.
#[tactic(auto, unfolding(crate::specs::Builtin::concatenations_of))]
pub fn concatenations_of(alloc: Global, unit: &str, vector: BaseType) -> Result<DeclList, Memory>
    ensures { IfOk result (λ list. list ≡ concatenations_of unit.now vector) }
{
    let element = BaseType::Logic;
    list_of(
        alloc,
        [
            concatenation(alloc, unit, vector, vector, vector)?,
            concatenation(alloc, unit, vector, element, vector)?,
            concatenation(alloc, unit, element, vector, vector)?,
            concatenation(alloc, unit, element, element, vector)?,
        ],
    )
}

fn concatenation(
    alloc: Global,
    unit: &str,
    left: BaseType,
    right: BaseType,
    gives: BaseType,
) -> Result<BuiltDecl, Memory>
    ensures { IfOk result (λ d. d ≡ operator unit.now (left ∷ right ∷ []) gives Concatenate) }
{
    let what = What::Function {
        params: Items::from_slice(alloc, &[left, right])?,
        result: gives,
    };
    built(alloc, unit, operator_name(Op::Concatenate), what)
}

/// The symbol of an operator between double quotes.
fn operator_name(op: Op) -> &'static str
    ensures { result.now ≡ operator_name op }
{
    match op {
        Op::And => "\"and\"",
        Op::Or => "\"or\"",
        Op::Xor => "\"xor\"",
        Op::Xnor => "\"xnor\"",
        Op::Nand => "\"nand\"",
        Op::Nor => "\"nor\"",
        Op::Equal => "\"=\"",
        Op::NotEqual => "\"/=\"",
        Op::Less => "\"<\"",
        Op::LessEqual => "\"<=\"",
        Op::Greater => "\">\"",
        Op::GreaterEqual => "\">=\"",
        Op::ShiftLeftLogical => "\"sll\"",
        Op::ShiftRightLogical => "\"srl\"",
        Op::ShiftLeftArithmetic => "\"sla\"",
        Op::ShiftRightArithmetic => "\"sra\"",
        Op::RotateLeft => "\"rol\"",
        Op::RotateRight => "\"ror\"",
        Op::Plus => "\"+\"",
        Op::Minus => "\"-\"",
        Op::Concatenate => "\"&\"",
        Op::Times => "\"*\"",
        Op::Divide => "\"/\"",
        Op::Modulo => "\"mod\"",
        Op::Remainder => "\"rem\"",
        Op::Power => "\"**\"",
        Op::Absolute => "\"abs\"",
        Op::Not => "\"not\"",
    }
}
