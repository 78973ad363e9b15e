//! The laws of expressions and statements.

ghost use Rattle.std.specs.Prelude.{◌≡◌, ℕ, List, [], ◌∷◌, true};
ghost use Rattle.vv_bits.specs.declared.four.V4.{V4};
ghost use Rattle.vv_bits.specs.declared.four.V4.TheVariants.{Zero, One, X, Z};
ghost use Rattle.vv_events.specs.Items.{Item, has, Event, Fair, Run};
ghost use Rattle.vv_events.specs.Steps.{State, writes};
ghost use Rattle.vv_events.specs.Equations.{at, Local};
ghost use Rattle.vv_events.specs.Expressions.{Expr, Bits, Read, OfOne, BitNot, value, reads, assignment};
ghost use Rattle.vv_events.specs.Statements.{after, start_of, Statement, Then, Set, Update, If, Whole, run_of, construct, function_value};

/// The value of an expression rests on the bits that it reads, so a continuous assignment is as good as its bits.
pub fn values_rest_on_reads()
    ensures value { (e : Expr) (x y : List V4) → ((b : ℕ) → has (reads e) b ≡ true → at x b ≡ at y b) → value e x ≡ value e y }
    ensures assignment { (targets : List ℕ) (e : Expr) → Local (assignment targets e) }
{}

/// A run of an always construct changes only the bits that its statement assigns.
pub fn constructs_are_fair()
    ensures { (events : List Event) (s : Statement) → Fair (construct events s) }
{}

/// A swap computes: by <= both registers get the other's bit, by = the second gets its own back.
pub fn statements_compute()
    ensures updates { run_of (Then (Update (Whole (0 ∷ [])) (Read (1 ∷ []))) (Update (Whole (1 ∷ [])) (Read (0 ∷ [])))) (Zero ∷ One ∷ []) ≡ record { writes = []; updates = (0, One) ∷ (1, Zero) ∷ [] } }
    ensures writes { run_of (Then (Set (Whole (0 ∷ [])) (Read (1 ∷ []))) (Set (Whole (1 ∷ [])) (Read (0 ∷ [])))) (Zero ∷ One ∷ []) ≡ record { writes = (0, One) ∷ (1, One) ∷ []; updates = [] } }
    ensures unknown_condition { run_of (If (Read (0 ∷ [])) (Set (Whole (1 ∷ [])) (Bits (One ∷ []))) (Set (Whole (1 ∷ [])) (Bits (Zero ∷ [])))) (X ∷ Z ∷ []) ≡ record { writes = (1, Zero) ∷ []; updates = [] } }
    ensures function { function_value 1 1 (Then (Set (Whole (1 ∷ [])) (Read (2 ∷ []))) (Set (Whole (0 ∷ [])) (OfOne BitNot (Read (1 ∷ []))))) (One ∷ []) ≡ Zero ∷ [] }
{}

/// While a construct runs it sees by = the very bits that the state has after the run's writes.
pub fn runs_see_their_writes()
    ensures { (d : List Item) (s : State) (t : Statement) → (after t (start_of s.bits)).bits ≡ (writes d s (run_of t s.bits).writes).bits }
{}
