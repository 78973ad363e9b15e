//! What a flat Verilog design of assignments means: in specs/ the event design that it stands for.
//!
//! Each function here is a law of it: its body is empty, and its contract is what is proved.
#![tactic(auto)]

ghost use Rattle.std.specs.Prelude.{◌≡◌, ℕ, ◌≤◌, ◌^◌, List, [], ◌∷◌, length};
ghost use Rattle.vv_vast.specs.Tree.{Expr, Module};
ghost use Rattle.vv_vast.specs.Flat.{Flat, IsFlat, IsAcyclic};
ghost use Rattle.vv_bits.specs.declared.four.V4.{V4};
ghost use Rattle.vv_bits.specs.declared.four.V4.TheVariants.{Zero, One, X};
ghost use Rattle.vv_events.specs.Steps.{State, bit, Choice, Quiet};
ghost use Rattle.vv_events.specs.Equations.{at};
ghost use Rattle.vv_events.specs.Expressions.{value};
ghost use Rattle.vv_events.specs.RowEnds.{Undriven, last_or};
ghost use Rattle.vv_gate_verilog.specs.Events.{expr_of, events_of, start_of, row_of, CanTake, after, IsStuck, bit_value, expressions_for, Solved, IsInput, InputsOnly, AtRest, LawfulFlat};
ghost use Rattle.vv_gate_verilog.specs.Examples.{and_not, and_not_flat, one_step, after_power_on, row_begin, row_end};

/// The value of an expression is one bit, which the rules of the operators give.
pub fn values_are_bits()
    ensures { (e : Expr ℕ) (bits : List V4) → value (expr_of e) bits ≡ bit_value e bits ∷ [] }
{}

/// A flat design without cycles is a lawful event design: its items have an order, and each driven object is a wire.
pub fn flat_is_lawful()
    ensures { (m : Module) (flat : Flat) → IsFlat m flat → IsAcyclic flat → LawfulFlat flat }
{}

/// From power-on, and in each row from a quiet state, every order of steps ends: none is longer than 3 to the number of items. Where no further step is possible the state is quiet.
pub fn flat_ends()
    ensures power_on { (m : Module) (flat : Flat) (cs : List Choice) → IsFlat m flat → IsAcyclic flat → CanTake flat (start_of flat) cs → length cs ≤ 3 ^ length flat.items }
    ensures power_on_quiet { (m : Module) (flat : Flat) (cs : List Choice) → IsFlat m flat → IsAcyclic flat → CanTake flat (start_of flat) cs → IsStuck flat (after flat (start_of flat) cs) → Quiet (after flat (start_of flat) cs) }
    ensures row { (m : Module) (flat : Flat) (s : State) (inputs : List (ℕ × V4)) (cs : List Choice) → IsFlat m flat → IsAcyclic flat → Quiet s → CanTake flat (row_of flat s inputs) cs → length cs ≤ 3 ^ length flat.items }
    ensures row_quiet { (m : Module) (flat : Flat) (s : State) (inputs : List (ℕ × V4)) (cs : List Choice) → IsFlat m flat → IsAcyclic flat → AtRest flat s → InputsOnly flat inputs → CanTake flat (row_of flat s inputs) cs → IsStuck flat (after flat (row_of flat s inputs) cs) → Quiet (after flat (row_of flat s inputs) cs) }
{}

/// Steps change no bit that no item drives: at the end of any run an input is x after power-on, and the row's value after a row, or what it was where the row does not change it.
pub fn inputs_stay()
    ensures undriven { (m : Module) (flat : Flat) (s : State) (cs : List Choice) (b : ℕ) → IsFlat m flat → IsAcyclic flat → s.updates ≡ [] → CanTake flat s cs → Undriven (events_of flat) b → bit (after flat s cs) b ≡ bit s b }
    ensures power_on { (m : Module) (flat : Flat) (cs : List Choice) (b : ℕ) → IsFlat m flat → IsAcyclic flat → CanTake flat (start_of flat) cs → IsInput flat b → bit (after flat (start_of flat) cs) b ≡ X }
    ensures row { (m : Module) (flat : Flat) (s : State) (inputs : List (ℕ × V4)) (cs : List Choice) (b : ℕ) → IsFlat m flat → IsAcyclic flat → AtRest flat s → CanTake flat (row_of flat s inputs) cs → IsInput flat b → bit (after flat (row_of flat s inputs) cs) b ≡ last_or inputs b (bit s b) }
{}

/// Every order that ends quiet, from power-on or in a row, leaves each driven object at what its expressions give of the end's bits, and an output that no item drives at z. The next row may begin there.
pub fn flat_solves()
    ensures power_on { (m : Module) (flat : Flat) (cs : List Choice) → IsFlat m flat → IsAcyclic flat → CanTake flat (start_of flat) cs → Quiet (after flat (start_of flat) cs) → AtRest flat (after flat (start_of flat) cs) × Solved flat (after flat (start_of flat) cs).bits }
    ensures row { (m : Module) (flat : Flat) (s : State) (inputs : List (ℕ × V4)) (cs : List Choice) → IsFlat m flat → IsAcyclic flat → AtRest flat s → InputsOnly flat inputs → CanTake flat (row_of flat s inputs) cs → Quiet (after flat (row_of flat s inputs) cs) → AtRest flat (after flat (row_of flat s inputs) cs) × Solved flat (after flat (row_of flat s inputs) cs).bits }
{}

/// From power-on and in each row some order of steps ends quiet.
pub fn flat_settles()
    ensures power_on { (m : Module) (flat : Flat) → IsFlat m flat → IsAcyclic flat → (cs : List Choice) × CanTake flat (start_of flat) cs × Quiet (after flat (start_of flat) cs) }
    ensures row { (m : Module) (flat : Flat) (s : State) (inputs : List (ℕ × V4)) → IsFlat m flat → IsAcyclic flat → AtRest flat s → InputsOnly flat inputs → (cs : List Choice) × CanTake flat (row_of flat s inputs) cs × Quiet (after flat (row_of flat s inputs) cs) }
{}

/// Any two orders that end quiet end alike in every bit.
pub fn flat_ends_alike()
    ensures power_on { (m : Module) (flat : Flat) (cs es : List Choice) → IsFlat m flat → IsAcyclic flat → CanTake flat (start_of flat) cs → CanTake flat (start_of flat) es → Quiet (after flat (start_of flat) cs) → Quiet (after flat (start_of flat) es) → (b : ℕ) → bit (after flat (start_of flat) cs) b ≡ bit (after flat (start_of flat) es) b }
    ensures row { (m : Module) (flat : Flat) (s : State) (inputs : List (ℕ × V4)) (cs es : List Choice) → IsFlat m flat → IsAcyclic flat → AtRest flat s → InputsOnly flat inputs → CanTake flat (row_of flat s inputs) cs → CanTake flat (row_of flat s inputs) es → Quiet (after flat (row_of flat s inputs) cs) → Quiet (after flat (row_of flat s inputs) es) → (b : ℕ) → bit (after flat (row_of flat s inputs) cs) b ≡ bit (after flat (row_of flat s inputs) es) b }
{}

/// The equations of a design have one solution: what no item drives decides the rest.
pub fn flat_has_one_solution()
    ensures { (m : Module) (flat : Flat) (x y : List V4) → IsFlat m flat → IsAcyclic flat → Solved flat x → Solved flat y → ((b : ℕ) → expressions_for flat.items b ≡ [] → at x b ≡ at y b) → (b : ℕ) → at x b ≡ at y b }
{}

/// A worked design computes: y = (a & (~b)) is x after power-on, and 1 after the row a = 1, b = 0.
pub fn and_not_computes()
    ensures flat { IsFlat and_not and_not_flat }
    ensures acyclic { IsAcyclic and_not_flat }
    ensures may_run { CanTake and_not_flat (start_of and_not_flat) one_step }
    ensures quiet { Quiet after_power_on }
    ensures bits { after_power_on.bits ≡ X ∷ X ∷ X ∷ [] }
    ensures row_may_run { CanTake and_not_flat row_begin one_step }
    ensures row_quiet { Quiet row_end }
    ensures row_bits { row_end.bits ≡ One ∷ Zero ∷ One ∷ [] }
{}
