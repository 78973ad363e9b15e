//! One gate, its flat design, and a row of values on both sides; and an output that nothing drives.

ghost use Rattle.std.specs.Prelude.{◌≡◌, [], ◌∷◌};
ghost use Rattle.vv_bits.specs.declared.four.V4.TheVariants.{Zero, One, X};
ghost use Rattle.vv_bits.specs.declared.nine.S9.TheVariants.{U as NineU, One as NineOne};
ghost use Rattle.vv_vast.specs.Flat.{IsFlat};
ghost use Rattle.vv_cycle.specs.Rows.{power_on};
ghost use Rattle.vv_gate_vhdl.specs.Design.{gate_design, IsSoundGate};
ghost use Rattle.vv_gate_vhdl.specs.Examples.{one_gate, one_row, one_end};
ghost use Rattle.vv_gate_verilog.specs.Events.{start_of, after};
ghost use Rattle.vv_gate_verilog.specs.Examples.{and_not_flat, row_end};
ghost use Rattle.vv_gate_text.specs.Made.{module_of};
ghost use Rattle.vv_gate_agree.specs.Agreement.{InputsAgree, Agrees};
ghost use Rattle.vv_gate_agree.specs.Meaning.{SettlesIn, EndsQuiet, Begins};
ghost use Rattle.vv_gate_agree.specs.Examples.{idle_gate, idle_flat, first_turns, first_state, first_steps, row_state, row_turns, end_state, row_bits, row_steps};
ghost use Rattle.vv_gate_agree.specs.Runs.{rows4};

/// The gate's module stands for the flat design of y = (a & (~b)).
pub fn gate_flat()
    ensures { IsFlat (module_of one_gate) and_not_flat }
{}

/// The row that sets a to 1 and b to 0 does so in Verilog.
pub fn gate_row()
    ensures { rows4 one_gate one_row ≡ ((0, One) ∷ (1, Zero) ∷ []) ∷ [] }
{}

/// What VHDL and Verilog end in after that row agrees.
pub fn gate_ends()
    ensures inputs { InputsAgree one_gate one_end row_end.bits }
    ensures outputs { Agrees one_gate one_end row_end.bits }
{}

/// An output that nothing drives keeps U, of which Verilog sees x: at power-on, where a row begins,
/// and at the end of the row that sets the other output to 1.
pub fn idle_output()
    ensures sound { IsSoundGate idle_gate }
    ensures flat { IsFlat (module_of idle_gate) idle_flat }
    ensures first_turns { SettlesIn idle_gate (power_on (gate_design idle_gate)) first_turns first_state }
    ensures first_steps { EndsQuiet idle_flat (start_of idle_flat) first_steps }
    ensures row { Begins idle_gate idle_flat row_state row_bits }
    ensures row_turns { SettlesIn idle_gate row_state row_turns end_state }
    ensures row_steps { EndsQuiet idle_flat row_bits row_steps }
    ensures values { end_state.nets.values ≡ NineOne ∷ NineOne ∷ NineU ∷ [] }
    ensures bits { (after idle_flat row_bits row_steps).bits ≡ One ∷ One ∷ X ∷ [] }
{}
