//! Laws of the productions. Each function does nothing: its contract is the law.

ghost use Rattle.std.specs.Prelude.{◌≡◌, ℕ, List, [], ◌∷◌, None, drop};
ghost use Rattle.vv_vlex.specs.declared.token.Token.{Token};
ghost use Rattle.vv_grammar.specs.declared.event.Event.{Event};
ghost use Rattle.vv_machine.specs.declared.machine.Stop.TheVariants.{Deep, Misplaced};
ghost use Rattle.vv_grammar.specs.declared.terminal.Terminal.{Terminal};
ghost use Rattle.vv_machine.specs.Machine.{Halts, Leads, starting_with};
ghost use Rattle.vv_grammar.specs.Terminals.{terminals_of};
ghost use Rattle.vv_grammar.specs.Trees.{Tree};
ghost use Rattle.vv_grammar_laws.specs.Derivations.{Derives};
ghost use Rattle.vv_grammar_laws.specs.Readings as table;
ghost use Rattle.vv_grammar_laws.specs.Readings.{IsReadWhole, MayEnd};
ghost use Rattle.vv_grammar_laws.specs.Starts.{Start, steps_for};
ghost use Rattle.vv_productions.specs.Matches.{Matches, phrase_for};
ghost use Rattle.vv_productions.specs.Readings.{IsDeep, IsMisplaced, IsRead, IsShallow, IsTooDeep, IsTreeOf};

use vv_grammar::edition::Edition;
use vv_grammar::terminal::Terminal;

/// The table derives what the productions admit, and nothing else; the same happens meanwhile, and the same is too deep.
pub fn productions_are_the_table(edition: Edition)
    ensures admitted { (s : Start) (u : List Terminal) (es : List Event) (at : ℕ) (d : Derives edition (steps_for s) u es)
        → (m : Matches edition (phrase_for s ∷ []) u es) × ((n : ℕ) → (table.IsTooDeep edition s u es d at n → IsTooDeep edition s u es m at n) × (IsTooDeep edition s u es m at n → table.IsTooDeep edition s u es d at n)) }
    ensures derived { (s : Start) (u : List Terminal) (es : List Event) (at : ℕ) (m : Matches edition (phrase_for s ∷ []) u es)
        → (d : Derives edition (steps_for s) u es) × ((n : ℕ) → (table.IsTooDeep edition s u es d at n → IsTooDeep edition s u es m at n) × (IsTooDeep edition s u es m at n → table.IsTooDeep edition s u es d at n)) }
{}

/// Tokens match in one way: whichever phrases are tried, the same happens.
pub fn matches_are_one(edition: Edition)
    ensures { (s : Start) (u : List Terminal) (es fs : List Event) → Matches edition (phrase_for s ∷ []) u es → Matches edition (phrase_for s ∷ []) u fs → es ≡ fs }
{}

/// Tokens have at most one tree.
pub fn trees_are_one(edition: Edition)
    ensures { (s : Start) (ts : List Token) (a b : Tree) → IsTreeOf edition s ts a → IsTreeOf edition s ts b → a ≡ b }
{}

/// What matches makes a tree.
pub fn what_matches_has_a_tree(edition: Edition)
    ensures { (s : Start) (ts : List Token) (es : List Event) → Matches edition (phrase_for s ∷ []) (terminals_of ts) es → (t : Tree) × IsTreeOf edition s ts t }
{}

/// What the machine reads matches, nothing in it is too deep, and no longer run of the tokens could be the start of anything.
pub fn what_is_read_matches(edition: Edition, tokens: &[Terminal])
    ensures { (s : Start) (at next : ℕ) (es : List Event) → Leads edition tokens.now (starting_with (steps_for s) at) at es [] next None → IsRead edition s tokens.now at next es }
{}

/// Where all tokens from one on match and nothing in them is too deep, the machine reads them; and what it refuses as too deep is so in all that match.
pub fn what_matches_is_read(edition: Edition, tokens: &[Terminal])
    ensures whole { (s : Start) (at : ℕ) (es : List Event) (m : Matches edition (phrase_for s ∷ []) (drop at tokens.now) es)
        → IsShallow edition s (drop at tokens.now) es m at → IsReadWhole edition s tokens.now at es }
    ensures deep { (s : Start) (at n : ℕ) (es : List Event) (m : Matches edition (phrase_for s ∷ []) (drop at tokens.now) es)
        → Halts edition tokens.now (starting_with (steps_for s) at) at (Deep n) → IsTooDeep edition s (drop at tokens.now) es m at n }
{}

/// The machine refuses at the first token with which what was read is the start of nothing that matches, or with which something is settled to be too deep.
pub fn refusals_are_exact(edition: Edition, tokens: &[Terminal])
    ensures misplaced { (s : Start) (at n : ℕ) → Halts edition tokens.now (starting_with (steps_for s) at) at (Misplaced n) → IsMisplaced edition s tokens.now at n }
    ensures deep { (s : Start) (at n : ℕ) → Halts edition tokens.now (starting_with (steps_for s) at) at (Deep n) → IsDeep edition s tokens.now at n }
{}

/// There is one verdict, told by the productions alone: a reading, one token that is misplaced, or one at which something is settled to be too deep.
pub fn verdicts_are_one(edition: Edition, tokens: &[Terminal])
    ensures misplaced { (s : Start) (at n m : ℕ) → IsMisplaced edition s tokens.now at n → IsMisplaced edition s tokens.now at m → n ≡ m }
    ensures deep { (s : Start) (at n m : ℕ) → IsDeep edition s tokens.now at n → IsDeep edition s tokens.now at m → n ≡ m }
    ensures apart { (s : Start) (at n m : ℕ) → IsDeep edition s tokens.now at n → IsMisplaced edition s tokens.now at m → ⊥ }
    ensures not_deep { (s : Start) (at n next : ℕ) (es : List Event) → IsRead edition s tokens.now at next es → IsDeep edition s tokens.now at n → ⊥ }
    ensures not_misplaced { (s : Start) (at n next : ℕ) (es : List Event) → MayEnd s tokens.now next → IsRead edition s tokens.now at next es → IsMisplaced edition s tokens.now at n → ⊥ }
{}
