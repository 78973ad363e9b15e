//! The laws of the operators on lists of bits.

ghost use Rattle.std.specs.Prelude.{◌≡◌, ◌≢◌, ℕ, ◌+◌, ◌*◌, ◌%◌, ◌^◌, ◌<◌, ◌≤◌, List, [], ◌∷◌, length, map, slice_index_or, true, false};
ghost use Rattle.vv_bits.specs.declared.four.V4.{V4};
ghost use Rattle.vv_bits.specs.declared.four.V4.TheVariants.{Zero, One, X, Z};
ghost use Rattle.vv_bits.specs.Four.{z_as_x};
ghost use Rattle.vv_events.specs.Items.{AllTo};
ghost use Rattle.vv_events.specs.Values.{bitwise, and_bits, or_bits, xor_bits, not_bits, and_all, or_all, xor_all, all_known, number, bits_of, unknown, both_known, add, subtract, multiply, less, less_or_equal, greater_or_equal, equal, unequal, case_equal, case_unequal, choose, part, part_writes, joined, repeated};

/// The logical operators and the reductions take z as x.
pub fn z_counts_as_x()
    ensures and { (xs ys : List V4) → and_bits (map z_as_x xs) (map z_as_x ys) ≡ and_bits xs ys }
    ensures or { (xs ys : List V4) → or_bits (map z_as_x xs) (map z_as_x ys) ≡ or_bits xs ys }
    ensures xor { (xs ys : List V4) → xor_bits (map z_as_x xs) (map z_as_x ys) ≡ xor_bits xs ys }
    ensures not { (xs : List V4) → not_bits (map z_as_x xs) ≡ not_bits xs }
    ensures and_all { (xs : List V4) → and_all (map z_as_x xs) ≡ and_all xs }
    ensures or_all { (xs : List V4) → or_all (map z_as_x xs) ≡ or_all xs }
    ensures xor_all { (xs : List V4) → xor_all (map z_as_x xs) ≡ xor_all xs }
{}

/// The bits of a number stand for it modulo 2 to the size, and known bits are those of their number.
pub fn numbers_wrap()
    ensures number { (size n : ℕ) → number (bits_of size n) ≡ n % 2 ^ size }
    ensures bits { (xs : List V4) → all_known xs ≡ true → bits_of (length xs) (number xs) ≡ xs }
    ensures below { (xs : List V4) → number xs < 2 ^ length xs }
{}

/// On known bits sums and products are those of the numbers modulo 2 to the size, and a difference with what was taken away gives back the first operand.
pub fn arithmetic_wraps()
    ensures add { (xs ys : List V4) → both_known xs ys ≡ true → number (add xs ys) ≡ (number xs + number ys) % 2 ^ length xs }
    ensures multiply { (xs ys : List V4) → both_known xs ys ≡ true → number (multiply xs ys) ≡ (number xs * number ys) % 2 ^ length xs }
    ensures subtract { (xs ys : List V4) → length xs ≡ length ys → both_known xs ys ≡ true → add (subtract xs ys) ys ≡ xs }
{}

/// An x or z in an operand makes each bit of a sum, difference or product x, and so each order of numbers.
pub fn unknown_spreads()
    ensures add { (xs ys : List V4) → both_known xs ys ≡ false → add xs ys ≡ unknown (length xs) }
    ensures subtract { (xs ys : List V4) → both_known xs ys ≡ false → subtract xs ys ≡ unknown (length xs) }
    ensures multiply { (xs ys : List V4) → both_known xs ys ≡ false → multiply xs ys ≡ unknown (length xs) }
    ensures less { (xs ys : List V4) → both_known xs ys ≡ false → less xs ys ≡ X }
    ensures less_or_equal { (xs ys : List V4) → both_known xs ys ≡ false → less_or_equal xs ys ≡ X }
{}

/// On known bits < and <= compare the numbers.
pub fn orders_compare_numbers()
    ensures less { (xs ys : List V4) → both_known xs ys ≡ true → number xs < number ys → less xs ys ≡ One }
    ensures not_less { (xs ys : List V4) → both_known xs ys ≡ true → number ys ≤ number xs → less xs ys ≡ Zero }
    ensures less_or_equal { (xs ys : List V4) → both_known xs ys ≡ true → number xs ≤ number ys → less_or_equal xs ys ≡ One }
    ensures greater { (xs ys : List V4) → both_known xs ys ≡ true → number ys < number xs → less_or_equal xs ys ≡ Zero }
{}

/// Where == is 1 the operands are equal, where it is 0 they differ, and known bits are == to themselves.
pub fn equality_tells()
    ensures one { (xs ys : List V4) → length xs ≡ length ys → equal xs ys ≡ One → xs ≡ ys }
    ensures zero { (xs ys : List V4) → equal xs ys ≡ Zero → xs ≢ ys }
    ensures own { (xs : List V4) → all_known xs ≡ true → equal xs xs ≡ One }
{}

/// === is 1 exactly for the same bits, x and z too.
pub fn case_equality_is_exact()
    ensures one { (xs ys : List V4) → case_equal xs ys ≡ One → xs ≡ ys }
    ensures own { (xs : List V4) → case_equal xs xs ≡ One }
{}

/// A condition 1 takes the first operand and 0 the second; where both are the same known bits the condition is of no matter.
pub fn condition_chooses()
    ensures one { (xs ys : List V4) → choose One xs ys ≡ xs }
    ensures zero { (xs ys : List V4) → choose Zero xs ys ≡ ys }
    ensures either { (c : V4) (xs : List V4) → all_known xs ≡ true → choose c xs xs ≡ xs }
{}

/// A part has the bits of the vector from its index on, x for those that lie outside it, and x alone where the index has an x or z.
pub fn parts_are_read()
    ensures bits { (xs index : List V4) (size k : ℕ) → all_known index ≡ true → k < size → slice_index_or (part xs index size) k X ≡ slice_index_or xs (number index + k) X }
    ensures unknown { (xs index : List V4) (size : ℕ) → all_known index ≡ false → part xs index size ≡ unknown size }
{}

/// A write to a part changes no bit outside the vector.
pub fn part_writes_stay()
    ensures { (vector : List ℕ) (index vs : List V4) → AllTo vector (part_writes vector index vs) }
{}

/// The operators keep the size of their operands, and a part has the size that it names.
pub fn sizes_are_kept()
    ensures bitwise { (rule : V4 → V4 → V4) (xs ys : List V4) → length xs ≡ length ys → length (bitwise rule xs ys) ≡ length xs }
    ensures not { (xs : List V4) → length (not_bits xs) ≡ length xs }
    ensures add { (xs ys : List V4) → length (add xs ys) ≡ length xs }
    ensures subtract { (xs ys : List V4) → length (subtract xs ys) ≡ length xs }
    ensures multiply { (xs ys : List V4) → length (multiply xs ys) ≡ length xs }
    ensures choose { (c : V4) (xs ys : List V4) → length xs ≡ length ys → length (choose c xs ys) ≡ length xs }
    ensures part { (xs index : List V4) (size : ℕ) → length (part xs index size) ≡ size }
{}

/// One computed instance of each kind of operator, bit 0 first.
pub fn values_compute()
    ensures and { and_bits (Zero ∷ One ∷ One ∷ One ∷ []) (Z ∷ One ∷ X ∷ Z ∷ []) ≡ Zero ∷ One ∷ X ∷ X ∷ [] }
    ensures or { or_bits (One ∷ Zero ∷ Zero ∷ []) (Z ∷ Zero ∷ Z ∷ []) ≡ One ∷ Zero ∷ X ∷ [] }
    ensures xor { xor_bits (One ∷ One ∷ One ∷ []) (One ∷ Zero ∷ Z ∷ []) ≡ Zero ∷ One ∷ X ∷ [] }
    ensures not { not_bits (Zero ∷ One ∷ X ∷ Z ∷ []) ≡ One ∷ Zero ∷ X ∷ X ∷ [] }
    ensures and_all { and_all (One ∷ Z ∷ Zero ∷ []) ≡ Zero }
    ensures or_all { or_all (Zero ∷ Z ∷ Zero ∷ []) ≡ X }
    ensures xor_all { xor_all (One ∷ One ∷ One ∷ []) ≡ One }
    ensures add { add (One ∷ One ∷ []) (Zero ∷ One ∷ []) ≡ One ∷ Zero ∷ [] }
    ensures subtract { subtract (One ∷ Zero ∷ []) (Zero ∷ One ∷ []) ≡ One ∷ One ∷ [] }
    ensures multiply { multiply (One ∷ One ∷ []) (One ∷ One ∷ []) ≡ One ∷ Zero ∷ [] }
    ensures add_x { add (One ∷ One ∷ []) (Zero ∷ Z ∷ []) ≡ X ∷ X ∷ [] }
    ensures less { less (One ∷ Zero ∷ []) (Zero ∷ One ∷ []) ≡ One }
    ensures less_x { less (One ∷ Zero ∷ []) (X ∷ One ∷ []) ≡ X }
    ensures greater_or_equal { greater_or_equal (One ∷ Zero ∷ []) (One ∷ Zero ∷ []) ≡ One }
    ensures equal_zero { equal (One ∷ X ∷ []) (Zero ∷ One ∷ []) ≡ Zero }
    ensures equal_x { equal (One ∷ X ∷ []) (One ∷ One ∷ []) ≡ X }
    ensures unequal { unequal (One ∷ X ∷ []) (Zero ∷ One ∷ []) ≡ One }
    ensures case_equal { case_equal (One ∷ X ∷ []) (One ∷ Z ∷ []) ≡ Zero }
    ensures case_unequal { case_unequal (One ∷ X ∷ []) (One ∷ X ∷ []) ≡ Zero }
    ensures choose { choose Z (Zero ∷ One ∷ One ∷ Z ∷ []) (Zero ∷ One ∷ Zero ∷ Z ∷ []) ≡ Zero ∷ One ∷ X ∷ X ∷ [] }
    ensures part { part (Zero ∷ One ∷ Z ∷ []) (One ∷ Zero ∷ []) 3 ≡ One ∷ Z ∷ X ∷ [] }
    ensures part_writes { part_writes (10 ∷ 11 ∷ 12 ∷ []) (Zero ∷ One ∷ []) (One ∷ Zero ∷ []) ≡ (12, One) ∷ [] }
    ensures joined { joined (One ∷ []) (Zero ∷ X ∷ []) ≡ Zero ∷ X ∷ One ∷ [] }
    ensures repeated { repeated 2 (Zero ∷ One ∷ []) ≡ Zero ∷ One ∷ Zero ∷ One ∷ [] }
{}
