//! Laws of the grammar. Each function does nothing: its contract is the law.

ghost use Rattle.std.specs.Prelude.{◌≡◌, ℕ, List, [], Option, None, drop};
ghost use Rattle.vv_grammar.specs.declared.event.Event.{Event};
ghost use Rattle.vv_machine.specs.declared.machine.Stop.TheVariants.{Deep, Misplaced};
ghost use Rattle.vv_machine.specs.declared.stack.Pending.{Pending};
ghost use Rattle.vv_grammar.specs.declared.terminal.Terminal.{Terminal};
ghost use Rattle.vv_machine.specs.Machine.{Halts, Leads, going, misplaced, move, outcome, outcome_behind, reads, starting_with, too_deep};
ghost use Rattle.vv_grammar_laws.specs.Derivations.{Derives};
ghost use Rattle.vv_grammar_laws.specs.Readings.{IsDeep, IsReading, IsReadWhole, IsRefusal, IsShallow, IsTooDeep, MayEnd};
ghost use Rattle.vv_grammar_laws.specs.Starts.{Start, steps_for};

use vv_grammar::edition::Edition;
use vv_grammar::terminal::Terminal;

/// Tokens have at most one reading: whatever alternatives are tried, the same happens.
pub fn readings_are_one(edition: Edition)
    ensures { (s : Start) (u : List Terminal) (es fs : List Event) → Derives edition (steps_for s) u es → Derives edition (steps_for s) u fs → es ≡ fs }
{}

/// What the machine reads is derived, and no longer run of the tokens could be the start of anything.
pub fn what_is_read_is_derived(edition: Edition, tokens: &[Terminal])
    ensures { (s : Start) (at next : ℕ) (es : List Event) → Leads edition tokens.now (starting_with (steps_for s) at) at es [] next None → IsReading edition s tokens.now at next es }
{}

/// The machine refuses at the first token with which what was read is the start of nothing.
pub fn refusals_are_exact(edition: Edition, tokens: &[Terminal])
    ensures { (s : Start) (at n : ℕ) → Halts edition tokens.now (starting_with (steps_for s) at) at (Misplaced n) → IsRefusal edition s tokens.now at n }
{}

/// What the machine finds too deep is so in all that starts with the same tokens, and before that nothing has to be too deep.
pub fn what_is_too_deep_is_settled(edition: Edition, tokens: &[Terminal])
    ensures { (s : Start) (at n : ℕ) → Halts edition tokens.now (starting_with (steps_for s) at) at (Deep n) → IsDeep edition s tokens.now at n }
{}

/// Where all tokens from one on are derived and nothing in them is too deep, they are read; nothing else is read, none is refused as misplaced, and what is
/// refused as too deep is too deep.
pub fn what_is_derived_is_read(edition: Edition, tokens: &[Terminal])
    ensures whole { (s : Start) (at : ℕ) (es : List Event) (d : Derives edition (steps_for s) (drop at tokens.now) es)
        → IsShallow edition s (drop at tokens.now) es d at → IsReadWhole edition s tokens.now at es }
    ensures read { (s : Start) (at next : ℕ) (es fs : List Event) → Derives edition (steps_for s) (drop at tokens.now) fs
        → Leads edition tokens.now (starting_with (steps_for s) at) at es [] next None → (es ≡ fs) × (drop next tokens.now ≡ []) }
    ensures never { (s : Start) (at n : ℕ) (fs : List Event) → Derives edition (steps_for s) (drop at tokens.now) fs
        → Halts edition tokens.now (starting_with (steps_for s) at) at (Misplaced n) → ⊥ }
    ensures deep { (s : Start) (at n : ℕ) (fs : List Event) (d : Derives edition (steps_for s) (drop at tokens.now) fs)
        → Halts edition tokens.now (starting_with (steps_for s) at) at (Deep n) → IsTooDeep edition s (drop at tokens.now) fs d at n }
{}

/// There is one verdict, told by derivations alone: a reading, one token that is misplaced, or one at which something is settled to be too deep.
pub fn verdicts_are_one(edition: Edition, tokens: &[Terminal])
    ensures misplaced { (s : Start) (at n m : ℕ) → IsRefusal edition s tokens.now at n → IsRefusal edition s tokens.now at m → n ≡ m }
    ensures deep { (s : Start) (at n m : ℕ) → IsDeep edition s tokens.now at n → IsDeep edition s tokens.now at m → n ≡ m }
    ensures apart { (s : Start) (at n m : ℕ) → IsDeep edition s tokens.now at n → IsRefusal edition s tokens.now at m → ⊥ }
    ensures not_deep { (s : Start) (at n next : ℕ) (es : List Event) → IsReading edition s tokens.now at next es → IsDeep edition s tokens.now at n → ⊥ }
    ensures not_misplaced { (s : Start) (at n next : ℕ) (es : List Event) → MayEnd s tokens.now next → IsReading edition s tokens.now at next es → IsRefusal edition s tokens.now at n → ⊥ }
{}

/// The outcome of a state is told by its move and by the outcome of the state behind that: it has no other bound.
pub fn outcomes_go_by_moves(edition: Edition, tokens: &[Terminal])
    ensures { (K : List Pending) (at : ℕ) (mark : Option ℕ) (es : List Event) → outcome_behind edition tokens.now K at mark es ≡ going (outcome_behind edition tokens.now) es at (move edition tokens.now K at mark) }
{}

/// The outcome of the machine is a reading, a misplaced token or something too deep, in the sense of derivations.
pub fn outcomes_are_exact(edition: Edition, tokens: &[Terminal])
    ensures read { (s : Start) (at next : ℕ) (es : List Event) → outcome edition tokens.now (starting_with (steps_for s) at) at ≡ reads es next → IsReading edition s tokens.now at next es }
    ensures refused { (s : Start) (at n : ℕ) → outcome edition tokens.now (starting_with (steps_for s) at) at ≡ misplaced n → IsRefusal edition s tokens.now at n }
    ensures deep { (s : Start) (at n : ℕ) → outcome edition tokens.now (starting_with (steps_for s) at) at ≡ too_deep n → IsDeep edition s tokens.now at n }
{}
