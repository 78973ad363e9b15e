//! One gate, with a row of values that goes to its end.

ghost use Rattle.std.specs.Prelude.{◌≡◌};
ghost use Rattle.vv_cycle.specs.Rows.{LawfulRows, VhdlRun, end_of};
ghost use Rattle.vv_gate_vhdl.specs.Design.{gate_design, IsSoundGate};
ghost use Rattle.vv_gate_vhdl.specs.Examples.{one_gate, one_row, one_end, values_of};

/// The file is sound.
pub fn gate_sound()
    ensures { IsSoundGate one_gate }
{}

/// The row that sets a to 1 and b to 0 is lawful.
pub fn row_lawful()
    ensures { LawfulRows (gate_design one_gate) one_row }
{}

/// There is a run over that row.
pub fn a_run()
    ensures { VhdlRun (gate_design one_gate) one_row }
{}

/// Every run over that row ends with 1 on y.
pub fn run_ends()
    ensures { (run : VhdlRun (gate_design one_gate) one_row) → values_of (end_of (gate_design one_gate) one_row run) ≡ one_end }
{}
