//! Laws of the elements and the tokens. Each function does nothing: its contract is the law.

ghost use Rattle.std.specs.Prelude.{◌≡◌, ◌≤◌, ◌<◌, List, ℕ, Ok, Err, length};
ghost use Rattle.vv_base.specs.declared.rules.Rule.{Rule};
ghost use Rattle.vv_base.specs.declared.rules.Rule.TheVariants.{L1};
ghost use Rattle.vv_vlex.specs.Elements.{Lexeme};
ghost use Rattle.vv_vlex.specs.Lexical.{elements_of};
ghost use Rattle.vv_vlex.specs.Tokens.{Lexed, lexed, tokens_of, names_behind};
ghost use Rattle.vv_vlex_laws.specs.Cut.{IsCutOf, IsStuckAt};
ghost use Rattle.vv_vlex_laws.specs.Reserved.{AreReserved};

/// The elements of a file are those of the pieces that its bytes are cut into, and there is no other way to cut them.
pub fn elements_are_a_cut(bytes: &[u8])
    ensures cut { (ls : List Lexeme) → elements_of bytes.now ≡ Ok ls → IsCutOf bytes.now ls }
    ensures only { (ls : List Lexeme) → length bytes.now ≤ 16777216 → IsCutOf bytes.now ls → elements_of bytes.now ≡ Ok ls }
    ensures one { (ls more : List Lexeme) → IsCutOf bytes.now ls → IsCutOf bytes.now more → ls ≡ more }
{}

/// A file is refused exactly where it is too large, or else where no piece stands behind those that stand before.
pub fn refusals_are_exact(bytes: &[u8])
    ensures large { 16777216 < length bytes.now → elements_of bytes.now ≡ Err (record { rule = L1; at = 0 }) }
    ensures stuck { (rule : Rule) (at : ℕ) → length bytes.now ≤ 16777216 → elements_of bytes.now ≡ Err (record { rule = rule; at = at }) → IsStuckAt bytes.now at rule }
    ensures only { (rule : Rule) (at : ℕ) → length bytes.now ≤ 16777216 → IsStuckAt bytes.now at rule → elements_of bytes.now ≡ Err (record { rule = rule; at = at }) }
    ensures apart { (ls : List Lexeme) (rule : Rule) (at : ℕ) → IsCutOf bytes.now ls → IsStuckAt bytes.now at rule → ⊥ }
{}

/// The tokens of a file are those of a cut.
pub fn tokens_are_a_cut(bytes: &[u8])
    ensures cut { (file : ℕ) (names : List (List ℕ)) (found : Lexed) → lexed file bytes.now names ≡ Ok found
        → (ls : List Lexeme) × IsCutOf bytes.now ls × (found.tokens ≡ tokens_of file names ls) × (found.names ≡ names_behind names ls) }
    ensures only { (file : ℕ) (names : List (List ℕ)) (ls : List Lexeme) → length bytes.now ≤ 16777216 → IsCutOf bytes.now ls
        → lexed file bytes.now names ≡ Ok (record { tokens = tokens_of file names ls; names = names_behind names ls }) }
{}

/// Each reserved word is found by its text in any letter case, and no other text is a reserved word.
pub fn words_are_reserved()
    ensures { AreReserved }
{}
