//! For a file of gates, the VHDL design and the design of its Verilog text agree.
//!
//! `specs/Agreement` says when values and bits agree, and which Verilog row a VHDL row is.
//! `specs/Runs` has the runs of the Verilog design over rows, and runs of both sides that agree.
//! `specs/Meaning` has what it means that a flat design keeps the meaning of a file.
//!
//! Each function here is a law: its body is empty, and its contract is what is proved.
#![tactic(auto)]

pub mod examples;

ghost use Rattle.std.specs.Prelude.{◌≡◌, ℕ, true, false, List, [], ◌∷◌, map, Contains, Some};
ghost use Rattle.vv_bits.specs.declared.nine.S9.{S9};
ghost use Rattle.vv_bits.specs.declared.four.V4.{V4};
ghost use Rattle.vv_bits.specs.declared.four.V4.TheVariants.{X};
ghost use Rattle.vv_bits.specs.Four.{abs_rule};
ghost use Rattle.vv_vast.specs.Tree.{Expr};
ghost use Rattle.vv_vast.specs.Flat.{Flat, IsFlat, IsAcyclic, FlatDesign};
ghost use Rattle.vv_gate.specs.Tree.{GateFile, Assignment, ports_of};
ghost use Rattle.vv_gate.specs.Conditions.{IsSound};
ghost use Rattle.vv_cycle.specs.Turns.{VState, Turn, CanTurns, IsSettled, after_turns};
ghost use Rattle.vv_cycle.specs.Rows as vhdl;
ghost use Rattle.vv_cycle.specs.Rows.{Entry, InRun, LawfulRow, LawfulRows, VhdlRun, end_of};
ghost use Rattle.vv_events.specs.Steps.{State, Choice, Quiet};
ghost use Rattle.vv_gate_vhdl.specs.Design.{net_of, is_port, gate_design, is_assigned, assigned_value, output_value, IsSoundGate};
ghost use Rattle.vv_gate_verilog.specs.Events.{start_of, row_of, CanTake, after, bit_value, expressions_for, IsInput, IsOutput, InputsOnly, AtRest};
ghost use Rattle.vv_gate_text.specs.Made.{made_port, module_of};
ghost use Rattle.vv_gate_agree.specs.Agreement.{InputsAgree, Agrees, row4};
ghost use Rattle.vv_gate_agree.specs.Meaning.{MeaningKept};
ghost use Rattle.vv_gate_agree.specs.Runs.{rows4, VerilogRun, verilog_end, AgreeIn, AgreeAfter};

/// The objects of the flat design are the ports, in their order: an in port is an input of it, and
/// an out port an output.
pub fn numbered_alike()
    ensures objects { (f : GateFile) (flat : Flat) → IsFlat (module_of f) flat → flat.objects ≡ map made_port (ports_of f) }
    ensures inputs { (f : GateFile) (flat : Flat) → IsFlat (module_of f) flat → (k : ℕ) → is_port true (ports_of f) k ≡ true → IsInput flat k }
    ensures outputs { (f : GateFile) (flat : Flat) → IsFlat (module_of f) flat → (k : ℕ) → is_port false (ports_of f) k ≡ true → IsOutput flat k }
{}

/// Exactly one item drives an out port. Where the in ports agree, its expression gives what Verilog
/// sees of the port's VHDL value: of the value of the assignment that targets the port, or x where
/// none does.
pub fn one_item()
    ensures outputs { (f : GateFile) (flat : Flat) → IsSoundGate f → IsFlat (module_of f) flat → (k : ℕ) → is_port false (ports_of f) k ≡ true → (e : Expr ℕ) × (expressions_for flat.items k ≡ e ∷ []) × ((values : List S9) (bits : List V4) → InputsAgree f values bits → bit_value e bits ≡ abs_rule (output_value f values k)) }
    ensures assigned { (f : GateFile) (flat : Flat) → IsSoundGate f → IsFlat (module_of f) flat → (a : Assignment) → Contains f.assignments a → (e : Expr ℕ) × (expressions_for flat.items (net_of (ports_of f) a.target.text) ≡ e ∷ []) × ((values : List S9) (bits : List V4) → InputsAgree f values bits → bit_value e bits ≡ abs_rule (assigned_value (ports_of f) a values)) }
    ensures idle { (f : GateFile) (flat : Flat) → IsSoundGate f → IsFlat (module_of f) flat → (k : ℕ) → is_port false (ports_of f) k ≡ true → is_assigned (ports_of f) f.assignments k ≡ false → (e : Expr ℕ) × (expressions_for flat.items k ≡ e ∷ []) × ((bits : List V4) → bit_value e bits ≡ X) }
{}

/// The Verilog row of a VHDL row changes inputs only.
pub fn row_changes_inputs()
    ensures { (f : GateFile) (flat : Flat) → IsFlat (module_of f) flat → (es : List Entry) → InputsOnly flat (row4 f es) }
{}

/// From power-on, every order of VHDL turns that settles and every order of Verilog events that
/// ends quiet leave all ports in agreement.
pub fn power_on_agrees()
    ensures { (f : GateFile) (flat : Flat) → IsSoundGate f → IsFlat (module_of f) flat → IsAcyclic flat → (ts : List Turn) (t : VState) (cs : List Choice) → CanTurns (gate_design f) (Some (vhdl.power_on (gate_design f))) ts → after_turns (gate_design f) (Some (vhdl.power_on (gate_design f))) ts ≡ Some t → IsSettled (gate_design f) t → CanTake flat (start_of flat) cs → Quiet (after flat (start_of flat) cs) → InputsAgree f t.nets.values (after flat (start_of flat) cs).bits × Agrees f t.nets.values (after flat (start_of flat) cs).bits }
{}

/// From states whose in ports agree, a lawful row leaves all ports in agreement, after every order
/// of VHDL turns that settles and every order of Verilog events that ends quiet.
pub fn row_agrees()
    ensures { (f : GateFile) (flat : Flat) → IsSoundGate f → IsFlat (module_of f) flat → IsAcyclic flat → (t : VState) (s : State) (es : List Entry) (ts : List Turn) (u : VState) (cs : List Choice) → InRun (gate_design f) t → IsSettled (gate_design f) t → AtRest flat s → InputsAgree f t.nets.values s.bits → LawfulRow (gate_design f) es → CanTurns (gate_design f) (Some (vhdl.row (gate_design f) t es)) ts → after_turns (gate_design f) (Some (vhdl.row (gate_design f) t es)) ts ≡ Some u → IsSettled (gate_design f) u → CanTake flat (row_of flat s (row4 f es)) cs → Quiet (after flat (row_of flat s (row4 f es)) cs) → InputsAgree f u.nets.values (after flat (row_of flat s (row4 f es)) cs).bits × Agrees f u.nets.values (after flat (row_of flat s (row4 f es)) cs).bits }
{}

/// Every VHDL run over lawful rows and every Verilog run over their Verilog rows agree: after
/// power-on, after each row, and so at the end.
pub fn runs_agree()
    ensures { (f : GateFile) (flat : Flat) → IsSoundGate f → IsFlat (module_of f) flat → IsAcyclic flat → (rows : List (List Entry)) (run : VhdlRun (gate_design f) rows) (verilog : VerilogRun flat (rows4 f rows)) → LawfulRows (gate_design f) rows → AgreeIn f (after_turns (gate_design f) (Some (vhdl.power_on (gate_design f))) run.first) (after flat (start_of flat) verilog.first) × (AgreeAfter f flat (after_turns (gate_design f) (Some (vhdl.power_on (gate_design f))) run.first) (after flat (start_of flat) verilog.first) rows run.later verilog.later × AgreeIn f (end_of (gate_design f) rows run) (verilog_end flat (rows4 f rows) verilog)) }
{}

/// The same of a file in which no condition is broken, and of the flat design that its text stands
/// for.
pub fn text_agrees()
    ensures { (top name : List ℕ) (f : GateFile) (flat : Flat) → IsSound top f → FlatDesign (module_of f ∷ []) name flat → (rows : List (List Entry)) (run : VhdlRun (gate_design f) rows) (verilog : VerilogRun flat (rows4 f rows)) → LawfulRows (gate_design f) rows → AgreeIn f (after_turns (gate_design f) (Some (vhdl.power_on (gate_design f))) run.first) (after flat (start_of flat) verilog.first) × (AgreeAfter f flat (after_turns (gate_design f) (Some (vhdl.power_on (gate_design f))) run.first) (after flat (start_of flat) verilog.first) rows run.later verilog.later × AgreeIn f (end_of (gate_design f) rows run) (verilog_end flat (rows4 f rows) verilog)) }
{}

/// There are a VHDL run over all lawful rows and a Verilog run over their Verilog rows.
pub fn text_runs()
    ensures { (top name : List ℕ) (f : GateFile) (flat : Flat) → IsSound top f → FlatDesign (module_of f ∷ []) name flat → (rows : List (List Entry)) → LawfulRows (gate_design f) rows → VhdlRun (gate_design f) rows × VerilogRun flat (rows4 f rows) }
{}

/// The flat design of a sound file's text keeps the file's meaning: wherever power-on or a row
/// begins, every order on both sides ends, and in all orders with agreement on every port.
pub fn text_keeps_meaning()
    ensures { (top name : List ℕ) (f : GateFile) (flat : Flat) → IsSound top f → FlatDesign (module_of f ∷ []) name flat → MeaningKept f flat }
{}
