//! The laws of the wires: what every order ends in.

ghost use Rattle.std.specs.Prelude.{◌≡◌, ℕ, List, slice_get, false};
ghost use Rattle.vv_bits.specs.declared.four.V4.{V4};
ghost use Rattle.vv_events.specs.Items.{Item, IfItem};
ghost use Rattle.vv_events.specs.Steps.{State, bit, Choice, CanRun, run, Quiet};
ghost use Rattle.vv_events.specs.Orders.{Lawful, Owned};
ghost use Rattle.vv_events.specs.Equations.{at, is_wire, Solves, Local, Holds};

/// Steps keep what holds between steps.
pub fn run_holds()
    ensures { (d : List Item) (order : List ℕ) (s : State) (cs : List Choice) → Lawful d order → ((k : ℕ) → IfItem (slice_get d k) Local) → Owned d s.updates → Holds d s → CanRun d s cs → Holds d (run d s cs) }
{}

/// Where a run ends quiet, each wire bit is what its assignments give by their expressions.
pub fn quiet_solves()
    ensures { (d : List Item) (order : List ℕ) (s : State) (cs : List Choice) → Lawful d order → ((k : ℕ) → IfItem (slice_get d k) Local) → Owned d s.updates → Holds d s → CanRun d s cs → Quiet (run d s cs) → Solves d (run d s cs).bits }
{}

/// The equations of the assignments have one solution: where no assignment drives decides the rest.
pub fn one_solution()
    ensures { (d : List Item) (order : List ℕ) (x y : List V4) → Lawful d order → ((k : ℕ) → IfItem (slice_get d k) Local) → Solves d x → Solves d y → ((b : ℕ) → is_wire d b ≡ false → at x b ≡ at y b) → (b : ℕ) → at x b ≡ at y b }
{}

/// Two orders that end quiet, and agree where no assignment drives, end alike in every bit.
pub fn ends_agree()
    ensures { (d : List Item) (order : List ℕ) (s : State) (cs es : List Choice) → Lawful d order → ((k : ℕ) → IfItem (slice_get d k) Local) → Owned d s.updates → Holds d s → CanRun d s cs → CanRun d s es → Quiet (run d s cs) → Quiet (run d s es) → ((b : ℕ) → is_wire d b ≡ false → bit (run d s cs) b ≡ bit (run d s es) b) → (b : ℕ) → bit (run d s cs) b ≡ bit (run d s es) b }
{}
