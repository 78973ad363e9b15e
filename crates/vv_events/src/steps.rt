//! The laws of the steps: in every order they end.

ghost use Rattle.std.specs.Prelude.{◌≡◌, ℕ, ◌≤◌, ◌^◌, List, length};
ghost use Rattle.vv_events.specs.Items.{Item};
ghost use Rattle.vv_events.specs.Steps.{State, Choice, CanStep, CanRun, run, Quiet};
ghost use Rattle.vv_events.specs.Orders.{Lawful, Owned};
ghost use Rattle.vv_events.specs.Rows.{ordered_steps};

/// Every order of a row's steps ends: none is longer than 3 to the number of items.
pub fn steps_end()
    ensures { (d : List Item) (order : List ℕ) (s : State) (cs : List Choice) → Lawful d order → Owned d s.updates → CanRun d s cs → length cs ≤ 3 ^ length d }
{}

/// Where no step is possible the state is quiet: nothing is active and no update waits.
pub fn stuck_is_quiet()
    ensures { (d : List Item) (s : State) → length s.active ≡ length d → ((c : Choice) → CanStep d s c → ⊥) → Quiet s }
{}

/// The ordered run, which takes the earliest active item each time, is possible and ends in a quiet state.
pub fn ordered_run_settles()
    ensures { (d : List Item) (order : List ℕ) (s : State) → Lawful d order → Owned d s.updates → length s.active ≡ length d → CanRun d s (ordered_steps (3 ^ length d) d s) × Quiet (run d s (ordered_steps (3 ^ length d) d s)) }
{}
