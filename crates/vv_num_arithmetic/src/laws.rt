//! Laws of the rows. Each function does nothing: its contract is the law.

ghost use Rattle.std.specs.Prelude.{◌≡◌, ℕ, suc, ℤ, List, length, false};
ghost use Rattle.vv_bits.specs.declared.nine.S9.{S9};
ghost use Rattle.vv_types.specs.Codec.{IsHeldBy};
ghost use Rattle.vv_types.specs.Number.{number_of, residue, signed_number_of};
ghost use Rattle.vv_num_arithmetic.specs.Arithmetic.{absolute_row, arithmetic_row, negate_row, result_of, size_of};
ghost use Rattle.vv_num_arithmetic.specs.declared.operands.Operator.{Operator};
ghost use Rattle.vv_num_arithmetic.specs.declared.operands.VectorKind.{VectorKind};

/// Each row has its length.
pub fn rows_have_their_lengths()
    ensures arithmetic { (operator : Operator) (kind : VectorKind) (a b : List S9) → length (arithmetic_row operator kind a b) ≡ size_of operator (length a) (length b) }
    ensures absolute { (a : List S9) → length (absolute_row a) ≡ length a }
    ensures negate { (a : List S9) → length (negate_row a) ≡ length a }
{}

/// With no metavalue, the number of a result is what is left of the true one, and a true one that the length holds is read back.
pub fn results_have_their_numbers()
    ensures modulo { (size : ℕ) (z : ℤ) → number_of (result_of false size z) ≡ residue size z }
    ensures signed { (size : ℕ) (z : ℤ) → IsHeldBy (suc size) z → signed_number_of (result_of false (suc size) z) ≡ z }
{}
