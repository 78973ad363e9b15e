//! Which row each operator and function has.

ghost use Rattle.std.specs.Prelude.{◌≡◌};
ghost use Rattle.vv_num_cells.specs.Table.{row_of};

use vv_num_arithmetic::{Operator, VectorKind};
use vv_num_vectors::{Gate, Relation};
use vv_types::NumFn;

/// The operands of an operator on numbers: two vectors, or a vector and a number on either side.
#[derive(Clone, Copy)]
pub enum Operands {
    Vectors,
    VectorAndNumber,
    NumberAndVector,
}

/// What an operator or a function does.
#[derive(Clone, Copy)]
pub enum Row {
    Arithmetic(Operator, VectorKind, Operands),
    Absolute,
    Negate,
    Compare(Relation, VectorKind, Operands),
    Logic(Gate),
    Not,
    ShiftLeft,
    ShiftRight(VectorKind),
    RotateLeft,
    RotateRight,
    Resize(VectorKind),
    ToInteger(VectorKind),
    ToVector,
}

/// The row of an operator or a function.
pub fn row_of(f: NumFn) -> Row
    ensures { result ≡ row_of f }
{
    match f {
        NumFn::AddUnsignedUnsigned => Row::Arithmetic(
            Operator::Add,
            VectorKind::Unsigned,
            Operands::Vectors,
        ),
        NumFn::AddSignedSigned => Row::Arithmetic(
            Operator::Add,
            VectorKind::Signed,
            Operands::Vectors,
        ),
        NumFn::AddUnsignedNatural => Row::Arithmetic(
            Operator::Add,
            VectorKind::Unsigned,
            Operands::VectorAndNumber,
        ),
        NumFn::AddNaturalUnsigned => Row::Arithmetic(
            Operator::Add,
            VectorKind::Unsigned,
            Operands::NumberAndVector,
        ),
        NumFn::AddSignedInteger => Row::Arithmetic(
            Operator::Add,
            VectorKind::Signed,
            Operands::VectorAndNumber,
        ),
        NumFn::AddIntegerSigned => Row::Arithmetic(
            Operator::Add,
            VectorKind::Signed,
            Operands::NumberAndVector,
        ),
        NumFn::SubtractUnsignedUnsigned => Row::Arithmetic(
            Operator::Subtract,
            VectorKind::Unsigned,
            Operands::Vectors,
        ),
        NumFn::SubtractSignedSigned => Row::Arithmetic(
            Operator::Subtract,
            VectorKind::Signed,
            Operands::Vectors,
        ),
        NumFn::SubtractUnsignedNatural => Row::Arithmetic(
            Operator::Subtract,
            VectorKind::Unsigned,
            Operands::VectorAndNumber,
        ),
        NumFn::SubtractNaturalUnsigned => Row::Arithmetic(
            Operator::Subtract,
            VectorKind::Unsigned,
            Operands::NumberAndVector,
        ),
        NumFn::SubtractSignedInteger => Row::Arithmetic(
            Operator::Subtract,
            VectorKind::Signed,
            Operands::VectorAndNumber,
        ),
        NumFn::SubtractIntegerSigned => Row::Arithmetic(
            Operator::Subtract,
            VectorKind::Signed,
            Operands::NumberAndVector,
        ),
        NumFn::MultiplyUnsignedUnsigned => Row::Arithmetic(
            Operator::Multiply,
            VectorKind::Unsigned,
            Operands::Vectors,
        ),
        NumFn::MultiplySignedSigned => Row::Arithmetic(
            Operator::Multiply,
            VectorKind::Signed,
            Operands::Vectors,
        ),
        NumFn::MultiplyUnsignedNatural => Row::Arithmetic(
            Operator::Multiply,
            VectorKind::Unsigned,
            Operands::VectorAndNumber,
        ),
        NumFn::MultiplyNaturalUnsigned => Row::Arithmetic(
            Operator::Multiply,
            VectorKind::Unsigned,
            Operands::NumberAndVector,
        ),
        NumFn::MultiplySignedInteger => Row::Arithmetic(
            Operator::Multiply,
            VectorKind::Signed,
            Operands::VectorAndNumber,
        ),
        NumFn::MultiplyIntegerSigned => Row::Arithmetic(
            Operator::Multiply,
            VectorKind::Signed,
            Operands::NumberAndVector,
        ),
        NumFn::AbsoluteSigned => Row::Absolute,
        NumFn::NegateSigned => Row::Negate,
        NumFn::EqualUnsignedUnsigned => Row::Compare(
            Relation::Equal,
            VectorKind::Unsigned,
            Operands::Vectors,
        ),
        NumFn::EqualSignedSigned => Row::Compare(
            Relation::Equal,
            VectorKind::Signed,
            Operands::Vectors,
        ),
        NumFn::EqualUnsignedNatural => Row::Compare(
            Relation::Equal,
            VectorKind::Unsigned,
            Operands::VectorAndNumber,
        ),
        NumFn::EqualNaturalUnsigned => Row::Compare(
            Relation::Equal,
            VectorKind::Unsigned,
            Operands::NumberAndVector,
        ),
        NumFn::EqualSignedInteger => Row::Compare(
            Relation::Equal,
            VectorKind::Signed,
            Operands::VectorAndNumber,
        ),
        NumFn::EqualIntegerSigned => Row::Compare(
            Relation::Equal,
            VectorKind::Signed,
            Operands::NumberAndVector,
        ),
        NumFn::NotEqualUnsignedUnsigned => Row::Compare(
            Relation::NotEqual,
            VectorKind::Unsigned,
            Operands::Vectors,
        ),
        NumFn::NotEqualSignedSigned => Row::Compare(
            Relation::NotEqual,
            VectorKind::Signed,
            Operands::Vectors,
        ),
        NumFn::NotEqualUnsignedNatural => Row::Compare(
            Relation::NotEqual,
            VectorKind::Unsigned,
            Operands::VectorAndNumber,
        ),
        NumFn::NotEqualNaturalUnsigned => Row::Compare(
            Relation::NotEqual,
            VectorKind::Unsigned,
            Operands::NumberAndVector,
        ),
        NumFn::NotEqualSignedInteger => Row::Compare(
            Relation::NotEqual,
            VectorKind::Signed,
            Operands::VectorAndNumber,
        ),
        NumFn::NotEqualIntegerSigned => Row::Compare(
            Relation::NotEqual,
            VectorKind::Signed,
            Operands::NumberAndVector,
        ),
        NumFn::LessUnsignedUnsigned => Row::Compare(
            Relation::Less,
            VectorKind::Unsigned,
            Operands::Vectors,
        ),
        NumFn::LessSignedSigned => Row::Compare(
            Relation::Less,
            VectorKind::Signed,
            Operands::Vectors,
        ),
        NumFn::LessUnsignedNatural => Row::Compare(
            Relation::Less,
            VectorKind::Unsigned,
            Operands::VectorAndNumber,
        ),
        NumFn::LessNaturalUnsigned => Row::Compare(
            Relation::Less,
            VectorKind::Unsigned,
            Operands::NumberAndVector,
        ),
        NumFn::LessSignedInteger => Row::Compare(
            Relation::Less,
            VectorKind::Signed,
            Operands::VectorAndNumber,
        ),
        NumFn::LessIntegerSigned => Row::Compare(
            Relation::Less,
            VectorKind::Signed,
            Operands::NumberAndVector,
        ),
        NumFn::LessEqualUnsignedUnsigned => Row::Compare(
            Relation::LessEqual,
            VectorKind::Unsigned,
            Operands::Vectors,
        ),
        NumFn::LessEqualSignedSigned => Row::Compare(
            Relation::LessEqual,
            VectorKind::Signed,
            Operands::Vectors,
        ),
        NumFn::LessEqualUnsignedNatural => Row::Compare(
            Relation::LessEqual,
            VectorKind::Unsigned,
            Operands::VectorAndNumber,
        ),
        NumFn::LessEqualNaturalUnsigned => Row::Compare(
            Relation::LessEqual,
            VectorKind::Unsigned,
            Operands::NumberAndVector,
        ),
        NumFn::LessEqualSignedInteger => Row::Compare(
            Relation::LessEqual,
            VectorKind::Signed,
            Operands::VectorAndNumber,
        ),
        NumFn::LessEqualIntegerSigned => Row::Compare(
            Relation::LessEqual,
            VectorKind::Signed,
            Operands::NumberAndVector,
        ),
        NumFn::GreaterUnsignedUnsigned => Row::Compare(
            Relation::Greater,
            VectorKind::Unsigned,
            Operands::Vectors,
        ),
        NumFn::GreaterSignedSigned => Row::Compare(
            Relation::Greater,
            VectorKind::Signed,
            Operands::Vectors,
        ),
        NumFn::GreaterUnsignedNatural => Row::Compare(
            Relation::Greater,
            VectorKind::Unsigned,
            Operands::VectorAndNumber,
        ),
        NumFn::GreaterNaturalUnsigned => Row::Compare(
            Relation::Greater,
            VectorKind::Unsigned,
            Operands::NumberAndVector,
        ),
        NumFn::GreaterSignedInteger => Row::Compare(
            Relation::Greater,
            VectorKind::Signed,
            Operands::VectorAndNumber,
        ),
        NumFn::GreaterIntegerSigned => Row::Compare(
            Relation::Greater,
            VectorKind::Signed,
            Operands::NumberAndVector,
        ),
        NumFn::GreaterEqualUnsignedUnsigned => Row::Compare(
            Relation::GreaterEqual,
            VectorKind::Unsigned,
            Operands::Vectors,
        ),
        NumFn::GreaterEqualSignedSigned => Row::Compare(
            Relation::GreaterEqual,
            VectorKind::Signed,
            Operands::Vectors,
        ),
        NumFn::GreaterEqualUnsignedNatural => Row::Compare(
            Relation::GreaterEqual,
            VectorKind::Unsigned,
            Operands::VectorAndNumber,
        ),
        NumFn::GreaterEqualNaturalUnsigned => Row::Compare(
            Relation::GreaterEqual,
            VectorKind::Unsigned,
            Operands::NumberAndVector,
        ),
        NumFn::GreaterEqualSignedInteger => Row::Compare(
            Relation::GreaterEqual,
            VectorKind::Signed,
            Operands::VectorAndNumber,
        ),
        NumFn::GreaterEqualIntegerSigned => Row::Compare(
            Relation::GreaterEqual,
            VectorKind::Signed,
            Operands::NumberAndVector,
        ),
        NumFn::AndUnsigned | NumFn::AndSigned => Row::Logic(Gate::And),
        NumFn::OrUnsigned | NumFn::OrSigned => Row::Logic(Gate::Or),
        NumFn::XorUnsigned | NumFn::XorSigned => Row::Logic(Gate::Xor),
        NumFn::NandUnsigned | NumFn::NandSigned => Row::Logic(Gate::Nand),
        NumFn::NorUnsigned | NumFn::NorSigned => Row::Logic(Gate::Nor),
        NumFn::XnorUnsigned | NumFn::XnorSigned => Row::Logic(Gate::Xnor),
        NumFn::NotUnsigned | NumFn::NotSigned => Row::Not,
        NumFn::ShiftLeftUnsigned | NumFn::ShiftLeftSigned => Row::ShiftLeft,
        NumFn::ShiftRightUnsigned => Row::ShiftRight(VectorKind::Unsigned),
        NumFn::ShiftRightSigned => Row::ShiftRight(VectorKind::Signed),
        NumFn::RotateLeftUnsigned | NumFn::RotateLeftSigned => Row::RotateLeft,
        NumFn::RotateRightUnsigned | NumFn::RotateRightSigned => Row::RotateRight,
        NumFn::ResizeUnsigned => Row::Resize(VectorKind::Unsigned),
        NumFn::ResizeSigned => Row::Resize(VectorKind::Signed),
        NumFn::ToIntegerUnsigned => Row::ToInteger(VectorKind::Unsigned),
        NumFn::ToIntegerSigned => Row::ToInteger(VectorKind::Signed),
        NumFn::ToUnsigned | NumFn::ToSigned => Row::ToVector,
    }
}
