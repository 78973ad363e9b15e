//! Laws of lengths and rotations. Each function does nothing: its contract is the law.

ghost use Rattle.std.specs.Prelude.{◌≡◌, ℕ, ◌≤◌, List, length};
ghost use Rattle.vv_bits.specs.declared.nine.S9.{S9};
ghost use Rattle.vv_types.specs.Number.{number_of, signed_number_of};
ghost use Rattle.vv_num_vectors.specs.Rows.{resized_signed, resized_unsigned, rotated_left, rotated_right};

/// A vector that gets longer keeps its number.
pub fn longer_vectors_keep_their_numbers()
    ensures unsigned { (xs : List S9) (n : ℕ) → length xs ≤ n → number_of (resized_unsigned xs n) ≡ number_of xs }
    ensures signed { (xs : List S9) (n : ℕ) → length xs ≤ n → signed_number_of (resized_signed xs n) ≡ signed_number_of xs }
{}

/// A rotation to the right takes back the one to the left.
pub fn rotations_take_each_other_back()
    ensures { (xs : List S9) (count : ℕ) → rotated_right (rotated_left xs count) count ≡ xs }
{}
