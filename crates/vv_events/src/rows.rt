//! The laws of power-on and rows.

ghost use Rattle.std.specs.Prelude.{◌≡◌, ◌≢◌, ◌∷◌, ℕ, ◌≤◌, ◌^◌, List, length, slice_get};
ghost use Rattle.vv_bits.specs.declared.four.V4.{V4};
ghost use Rattle.vv_events.specs.Items.{Item, IfItem};
ghost use Rattle.vv_events.specs.Steps.{State, Choice, CanRun, Quiet, run};
ghost use Rattle.vv_events.specs.Orders.{Lawful};
ghost use Rattle.vv_events.specs.Equations.{Local, Holds, Solves};
ghost use Rattle.vv_events.specs.Rows.{Declared, power_on, Fits, NoWire, row};
ghost use Rattle.std.specs.Prelude.{Bool};
ghost use Rattle.vv_events.specs.Equations.{at};
ghost use Rattle.vv_events.specs.RowEnds.{Written, RowStart, Ends};

/// From power-on every order of steps ends: none is longer than 3 to the number of items.
pub fn power_on_steps_end()
    ensures { (d : List Item) (order : List ℕ) (declared : List Declared) (cs : List Choice) → Lawful d order → CanRun d (power_on d declared) cs → length cs ≤ 3 ^ length d }
{}

/// When a row changes inputs of a quiet state every order of steps ends: none is longer than 3 to the number of items.
pub fn row_steps_end()
    ensures { (d : List Item) (order : List ℕ) (s : State) (inputs : List (ℕ × V4)) (cs : List Choice) → Lawful d order → Quiet s → CanRun d (row d s inputs) cs → length cs ≤ 3 ^ length d }
{}

/// At power-on idle assignments are up to date, since none is idle, and driven wire bits are what their drivers give.
pub fn power_on_holds()
    ensures { (d : List Item) (declared : List Declared) → Fits d declared → Holds d (power_on d declared) }
{}

/// A row that changes no wire keeps what holds between steps.
pub fn row_holds()
    ensures { (d : List Item) (s : State) (inputs : List (ℕ × V4)) → ((k : ℕ) → IfItem (slice_get d k) Local) → NoWire d inputs → Holds d s → Holds d (row d s inputs) }
{}

/// The order in which a row's inputs change is of no matter: two neighbours that are different bits may change places.
pub fn row_swaps()
    ensures { (d : List Item) (s : State) (v w : ℕ × V4) (rest : List (ℕ × V4)) → v.0 ≢ w.0 → row d s (v ∷ w ∷ rest) ≡ row d s (w ∷ v ∷ rest) }
{}

/// Every order from power-on that ends quiet leaves each wire bit as its assignments give it, and what holds between steps.
pub fn power_on_solves()
    ensures { (d : List Item) (order : List ℕ) (declared : List Declared) (cs : List Choice) → Lawful d order → ((k : ℕ) → IfItem (slice_get d k) Local) → Fits d declared → CanRun d (power_on d declared) cs → Quiet (run d (power_on d declared) cs) → Holds d (run d (power_on d declared) cs) × Solves d (run d (power_on d declared) cs).bits }
{}

/// Every order of a row of a quiet state that ends quiet does the same.
pub fn row_solves()
    ensures { (d : List Item) (order : List ℕ) (s : State) (inputs : List (ℕ × V4)) (cs : List Choice) → Lawful d order → ((k : ℕ) → IfItem (slice_get d k) Local) → NoWire d inputs → Holds d s → Quiet s → CanRun d (row d s inputs) cs → Quiet (run d (row d s inputs) cs) → Holds d (run d (row d s inputs) cs) × Solves d (run d (row d s inputs) cs).bits }
{}

/// Every order of a row that ends quiet comes to the row's equations, where constructs only append updates and inputs alone trigger those on edges.
pub fn row_ends()
    ensures { (d : List Item) (order : List ℕ) (edge moves : ℕ → Bool) (start : State) (cs : List Choice) → Lawful d order → ((k : ℕ) → IfItem (slice_get d k) Local) → Written d edge → RowStart d edge moves start → CanRun d start cs → Quiet (run d start cs) → Ends d edge start (run d start cs).bits }
{}

/// A row's equations have one solution, so all its orders end alike.
pub fn one_row_end()
    ensures { (d : List Item) (order : List ℕ) (edge : ℕ → Bool) (start : State) (x y : List V4) → Lawful d order → ((k : ℕ) → IfItem (slice_get d k) Local) → Written d edge → Ends d edge start x → Ends d edge start y → (b : ℕ) → at x b ≡ at y b }
{}
