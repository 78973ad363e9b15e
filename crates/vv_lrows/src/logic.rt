//! The operators of `standard` and `std_logic_1164`.

use crate::pool::{Held, Pool};
use vv_base::fault::Memory;
use vv_bits::{Bits4, V4, not4};
use vv_lstate::Lowering;
use vv_types::StdFn;
use vv_vtree::{VBinary, VUnary};

/// What a row does.
#[derive(Clone, Copy)]
enum Kind {
    /// A relation of bits.
    Bits(VBinary),
    /// A relation of numbers.
    Numbers(VBinary),
    Logic(VBinary),
    /// The same, turned over.
    Turned(VBinary),
    Not,
    Join,
}

fn kind_of(f: StdFn) -> Kind {
    match f {
        StdFn::EqualLogic | StdFn::EqualBool | StdFn::EqualEnum | StdFn::EqualArray => {
            Kind::Bits(VBinary::Same)
        }
        StdFn::NotEqualLogic | StdFn::NotEqualBool | StdFn::NotEqualEnum | StdFn::NotEqualArray =>
            Kind::Bits(VBinary::NotSame),
        StdFn::EqualInt => Kind::Numbers(VBinary::Same),
        StdFn::NotEqualInt => Kind::Numbers(VBinary::NotSame),
        StdFn::LessBool | StdFn::LessEnum => Kind::Bits(VBinary::Less),
        StdFn::LessEqualBool | StdFn::LessEqualEnum => Kind::Bits(VBinary::LessOrEqual),
        StdFn::GreaterBool | StdFn::GreaterEnum => Kind::Bits(VBinary::Greater),
        StdFn::GreaterEqualBool | StdFn::GreaterEqualEnum => Kind::Bits(VBinary::GreaterOrEqual),
        StdFn::LessInt => Kind::Numbers(VBinary::Less),
        StdFn::LessEqualInt => Kind::Numbers(VBinary::LessOrEqual),
        StdFn::GreaterInt => Kind::Numbers(VBinary::Greater),
        StdFn::GreaterEqualInt => Kind::Numbers(VBinary::GreaterOrEqual),
        StdFn::AndBool | StdFn::AndLogic | StdFn::AndVector => Kind::Logic(VBinary::And),
        StdFn::OrBool | StdFn::OrLogic | StdFn::OrVector => Kind::Logic(VBinary::Or),
        StdFn::XorBool | StdFn::XorLogic | StdFn::XorVector => Kind::Logic(VBinary::Xor),
        StdFn::NandBool | StdFn::NandLogic | StdFn::NandVector => Kind::Turned(VBinary::And),
        StdFn::NorBool | StdFn::NorLogic | StdFn::NorVector => Kind::Turned(VBinary::Or),
        StdFn::XnorBool | StdFn::XnorLogic | StdFn::XnorVector => Kind::Turned(VBinary::Xor),
        StdFn::NotBool | StdFn::NotLogic | StdFn::NotVector => Kind::Not,
        StdFn::ConcatenateArrays
        | StdFn::ConcatenateArrayElement
        | StdFn::ConcatenateElementArray
        | StdFn::ConcatenateElements => Kind::Join,
    }
}

/// Whether an operator relates numbers.
pub fn relates_numbers(f: StdFn) -> bool {
    matches!(kind_of(f), Kind::Numbers(_))
}

/// What an operator of the packages `standard` and `std_logic_1164` gives of two operands. Numbers have one width; where they may be
/// below 0 they are `signed`.
pub fn standard(
    state: &mut Lowering<'_>,
    pool: &mut Pool,
    f: StdFn,
    left: Held,
    right: Held,
    signed: bool,
) -> Result<Held, Memory> {
    match kind_of(f) {
        Kind::Numbers(op) => {
            let equality = matches!(op, VBinary::Same | VBinary::NotSame);
            ordered(state, pool, left, op, right, signed && !equality)
        }
        Kind::Bits(op) => relation_of_bits(state, pool, op, left, right),
        Kind::Logic(op) => pool.binary(state, left, op, right),
        Kind::Turned(op) => {
            let part = pool.binary(state, left, op, right)?;
            pool.unary(state, VUnary::Not, part)
        }
        Kind::Not => Ok(left),
        Kind::Join => pool.beside(state, left, right),
    }
}

fn relation_of_bits(
    state: &mut Lowering<'_>,
    pool: &mut Pool,
    op: VBinary,
    left: Held,
    right: Held,
) -> Result<Held, Memory> {
    if left.width != right.width {
        // Arrays of different lengths are unequal.
        let unequal = matches!(op, VBinary::NotSame);
        return pool.bit(state, if unequal { V4::One } else { V4::Zero });
    }
    pool.binary(state, left, op, right)
}

/// A relation of numbers of one width. Where they may be below 0, the signs of both are turned over.
pub fn ordered(
    state: &mut Lowering<'_>,
    pool: &mut Pool,
    left: Held,
    op: VBinary,
    right: Held,
    signed: bool,
) -> Result<Held, Memory> {
    if !signed {
        return pool.binary(state, left, op, right);
    }
    let left = sign_turned(state, pool, left)?;
    let right = sign_turned(state, pool, right)?;
    pool.binary(state, left, op, right)
}

/// The part with its leftmost bit turned over.
fn sign_turned(state: &mut Lowering<'_>, pool: &mut Pool, part: Held) -> Result<Held, Memory> {
    let width = part.width;
    if let Some(bits) = turned_bits(state, pool, part)? {
        return pool.bits(bits);
    }
    let one = pool.bit(state, V4::One)?;
    let zeros = pool.fill(state, V4::Zero, width.saturating_sub(1))?;
    let sign = pool.beside(state, one, zeros)?;
    pool.binary(state, part, VBinary::Xor, sign)
}

/// The bits with the leftmost one turned over, where the part is written bits.
fn turned_bits(state: &Lowering<'_>, pool: &Pool, part: Held) -> Result<Option<Bits4>, Memory> {
    let Some(bits) = pool.known(part) else {
        return Ok(None);
    };
    let mut turned = Bits4::new(state.alloc);
    for (at, bit) in bits.as_slice().iter().enumerate() {
        turned.push(if at == 0 { not4(*bit) } else { *bit })?;
    }
    Ok(Some(turned))
}
