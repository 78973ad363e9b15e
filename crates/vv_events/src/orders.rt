//! The laws of the order of items along their dependences.

ghost use Rattle.std.specs.Prelude.{◌≡◌, ℕ, List, true};
ghost use Rattle.vv_events.specs.Items.{Item};
ghost use Rattle.vv_events.specs.Orders.{Ordered, HasCycle, OrderOf, is_ordered};

/// Without a cycle of dependences the items have an order in which none feeds an earlier one or itself.
pub fn order_of()
    ensures { (d : List Item) → (HasCycle d → ⊥) → OrderOf d }
{}

/// A list of items that passes the test is ordered along the dependences.
pub fn order_checks()
    ensures { (d : List Item) (order : List ℕ) → is_ordered d order ≡ true → Ordered d order }
{}
