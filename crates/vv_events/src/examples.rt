//! Three small designs: what the laws ask for can be met, and the definitions compute.

ghost use Rattle.std.specs.Prelude.{ℕ, slice_get};
ghost use Rattle.vv_events.specs.Items.{IfItem};
ghost use Rattle.vv_events.specs.Equations.{Local};
ghost use Rattle.vv_events.specs.Rows.{Fits};
ghost use Rattle.vv_events.specs.RowEnds.{Written, RowStart};
ghost use Rattle.std.specs.Prelude.{◌≡◌, [], ◌∷◌};
ghost use Rattle.vv_bits.specs.declared.four.V4.TheVariants.{Zero, One};
ghost use Rattle.vv_events.specs.Steps.{CanRun, run, Quiet};
ghost use Rattle.vv_events.specs.Orders.{Lawful};
ghost use Rattle.vv_events.specs.Examples.{register_edge, nothing_moves, register_declared, gate, chain, chain_order, register, register_start, register_steps};

/// One gate is a lawful design.
pub fn gate_is_lawful()
    ensures { Lawful gate (0 ∷ []) }
{}

/// Three inverters in a chain are a lawful design, in an order other than that of the text.
pub fn chain_is_lawful()
    ensures { Lawful chain chain_order }
{}

/// A register with an inverter behind it is a lawful design.
pub fn register_is_lawful()
    ensures { Lawful register (0 ∷ 1 ∷ []) }
{}

/// When the clock of the register rises, three steps take its data into it and through the inverter.
pub fn register_settles()
    ensures may_run { CanRun register register_start register_steps }
    ensures quiet { Quiet (run register register_start register_steps) }
    ensures bits { (run register register_start register_steps).bits ≡ One ∷ One ∷ One ∷ Zero ∷ [] }
{}

/// The register meets what the laws of whole rows ask for: at power-on, and when its clock rises.
pub fn register_meets_premises()
    ensures local { (k : ℕ) → IfItem (slice_get register k) Local }
    ensures fits { Fits register register_declared }
    ensures written { Written register register_edge }
    ensures row_start { RowStart register register_edge nothing_moves register_start }
{}
