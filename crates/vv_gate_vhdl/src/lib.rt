//! The VHDL design that a file of gates stands for, and what its runs end in.
//!
//! `specs/Design` has the definitions: the ports are the nets, in their order, and each assignment
//! is a process. An out port that no assignment targets has the constant source U. `specs/Entered`
//! has what a row enters on the in ports.
#![tactic(auto)]

pub mod examples;

ghost use Rattle.std.specs.Prelude.{◌≡◌, ℕ, ◌+◌, ◌*◌, ◌≤◌, true, false, List, length, Some};
ghost use Rattle.vv_bits.specs.declared.nine.S9.TheVariants.{U};
ghost use Rattle.vv_bits.specs.Nine.{AllSix};
ghost use Rattle.vv_gate.specs.Tree.{GateFile, ports_of};
ghost use Rattle.vv_gate.specs.Conditions.{IsSound};
ghost use Rattle.vv_cycle.specs.Processes.{at};
ghost use Rattle.vv_cycle.specs.Turns.{VState, Turn, CanTurns, IsSettled, IsClean, after_turns};
ghost use Rattle.vv_cycle.specs.Ranks.{Ranked};
ghost use Rattle.vv_cycle.specs.Rows.{Entry, InRun, LawfulRows, VhdlRun, OrderedRun, power_on, row, end_of, AllShort};
ghost use Rattle.vv_gate_vhdl.specs.Design.{is_port, gate_design, output_value, IsSoundGate, gate_rank, none_held, gate_give};
ghost use Rattle.vv_gate_vhdl.specs.Entered.{input_number, new_bit};

/// A file in which no condition is broken is sound: each target is an out port, each operand is an
/// in port, and no out port is targeted twice.
pub fn sound_gate()
    ensures { (top : List ℕ) (f : GateFile) → IsSound top f → IsSoundGate f }
{}

/// The nets of a sound file have ranks: 0 for its in ports, and 1 for its out ports.
pub fn gate_ranked()
    ensures { (f : GateFile) → IsSoundGate f → Ranked (gate_design f) (InRun (gate_design f)) (gate_rank f) 2 none_held (gate_give f) }
{}

/// There is an ordered run over all lawful rows. Each other run over them ends as it does.
pub fn gate_run_ends()
    ensures { (f : GateFile) (rows : List (List Entry)) → IsSoundGate f → LawfulRows (gate_design f) rows → OrderedRun (gate_design f) rows }
{}

/// The turns from power-on and those of each row are at most `(p + 1) * 3`, with `p` the number
/// of assignments.
pub fn gate_run_short()
    ensures { (f : GateFile) (rows : List (List Entry)) (run : VhdlRun (gate_design f) rows) → IsSoundGate f → LawfulRows (gate_design f) rows → (length run.first ≤ (length f.assignments + 1) * 3) × AllShort ((length f.assignments + 1) * 3) run.later }
{}

/// No run ends in a range error, and none meets a clash. This holds of every file.
pub fn gate_never_stops()
    ensures { (f : GateFile) (rows : List (List Entry)) (run : VhdlRun (gate_design f) rows) → IsClean (end_of (gate_design f) rows run) }
{}

/// At the end of power-on or of a row, after any order of turns, each in port has the value that
/// it had at its start, and each out port has the value that its assignment gives on the values
/// then, or U where no assignment targets it. `start` is power-on or a row's start.
pub fn gate_settles()
    ensures { (f : GateFile) (start : VState) (ts : List Turn) (t : VState) → IsSoundGate f → InRun (gate_design f) start → CanTurns (gate_design f) (Some start) ts → after_turns (gate_design f) (Some start) ts ≡ Some t → IsSettled (gate_design f) t → (k : ℕ) → (is_port true (ports_of f) k ≡ true → at t.nets.values k ≡ at start.nets.values k) × (is_port false (ports_of f) k ≡ true → at t.nets.values k ≡ output_value f t.nets.values k) }
{}

/// At power-on each in port has the value U.
pub fn gate_starts()
    ensures { (f : GateFile) → IsSoundGate f → (k : ℕ) → is_port true (ports_of f) k ≡ true → at (power_on (gate_design f)).nets.values k ≡ U }
{}

/// From power-on on, over lawful rows, each net has one of the values U, X, 0, 1, Z and -. This
/// holds of every file.
pub fn gate_stays_six()
    ensures { (f : GateFile) (s : VState) → InRun (gate_design f) s → AllSix s.nets.values }
{}

/// When a row is entered, each in port takes the bit that the row has for it, or stays where the
/// row has none, and each out port stays.
pub fn gate_enters()
    ensures { (f : GateFile) (s : VState) (es : List Entry) → InRun (gate_design f) s → (k : ℕ) → (is_port true (ports_of f) k ≡ true → at (row (gate_design f) s es).nets.values k ≡ new_bit es (input_number (ports_of f) k) (at s.nets.values k)) × (is_port false (ports_of f) k ≡ true → at (row (gate_design f) s es).nets.values k ≡ at s.nets.values k) }
{}

/// A run over lawful rows ends settled, in a state to which the laws of runs apply.
pub fn gate_run_settles()
    ensures { (f : GateFile) (rows : List (List Entry)) (run : VhdlRun (gate_design f) rows) (t : VState) → LawfulRows (gate_design f) rows → end_of (gate_design f) rows run ≡ Some t → InRun (gate_design f) t × IsSettled (gate_design f) t }
{}

/// At the end of a run over lawful rows each out port has the value that its assignment gives on
/// the values then, or U where no assignment targets it.
pub fn gate_run_gives()
    ensures { (f : GateFile) (rows : List (List Entry)) (run : VhdlRun (gate_design f) rows) (t : VState) → IsSoundGate f → LawfulRows (gate_design f) rows → end_of (gate_design f) rows run ≡ Some t → (k : ℕ) → is_port false (ports_of f) k ≡ true → at t.nets.values k ≡ output_value f t.nets.values k }
{}
