//! The simulation cycle of VHDL (IEEE 1076-1993, clause 12.6), as definitions and their laws.
//!
//! A design has processes and nets. A state has the values of the nets and what each process owns:
//! whether it is ready, its drivers and its variables. A turn is the run of one ready process, any
//! of them, or the update of the nets where no process is ready. The definitions stand in `specs`:
//! `Processes` (designs and sources), `Turns` (states and turns), `Ranks` (designs that settle)
//! and `Rows` (power-on, rows of new inputs, whole runs).
#![tactic(auto)]

pub mod examples;

ghost use Rattle.std.specs.Prelude.{◌≡◌, ℕ, ◌+◌, ◌*◌, ◌≤◌, Bool, false, List, length, Some};
ghost use Rattle.vv_bits.specs.declared.nine.S9.{S9};
ghost use Rattle.vv_cycle.specs.Processes.{Design};
ghost use Rattle.vv_cycle.specs.Turns.{VState, Turn, CanTurn, CanTurns, IsSettled, IsEnd, IsClean, OrderedTurns, after_turns, any_ready};
ghost use Rattle.vv_cycle.specs.Ranks.{Reached, Ranked, Rested, HeldEnds};
ghost use Rattle.vv_cycle.specs.Rows.{Entry, InRun, LawfulRows, VhdlRun, OrderedRun, end_of, AllShort};

/// Any two complete orders of turns end alike. Either both end in a range error, or both in the
/// same settled state; then a process has met a clash in both or in neither.
pub fn same_end()
    ensures { (d : Design) (s : VState) (ts us : List Turn) → CanTurns d (Some s) ts → CanTurns d (Some s) us → IsEnd d (after_turns d (Some s) ts) → IsEnd d (after_turns d (Some s) us) → after_turns d (Some s) ts ≡ after_turns d (Some s) us }
{}

/// Where nets have ranks below `e`, no order of turns is longer than `(p + 1) * (e + 1)`, with
/// `p` the number of processes.
pub fn few_turns()
    ensures { (d : Design) (rank : ℕ → ℕ) (e : ℕ) (held : List S9 → ℕ → Bool) (give : ℕ → ℕ → List S9 → List S9) (s : VState) (ts : List Turn) → Ranked d (Reached d s) rank e held give → Rested d held give s → length s.parts ≡ length d.processes → CanTurns d (Some s) ts → length ts ≤ (length d.processes + 1) * (e + 1) }
{}

/// A held process ends a row with the drivers of its one run at the row's start, or with those
/// that it had where it was not ready.
pub fn held_ends()
    ensures { (d : Design) (rank : ℕ → ℕ) (e : ℕ) (held : List S9 → ℕ → Bool) (give : ℕ → ℕ → List S9 → List S9) (start : VState) (ts : List Turn) (t : VState) → Ranked d (Reached d start) rank e held give → CanTurns d (Some start) ts → after_turns d (Some start) ts ≡ Some t → any_ready t.parts ≡ false → HeldEnds d held start t }
{}

/// A state where no turn is possible is settled.
pub fn stuck_is_settled()
    ensures { (d : Design) (s : VState) → ((t : Turn) → CanTurn d s t → ⊥) → IsSettled d s }
{}

/// Any two runs over the same rows end alike, whatever the orders of their turns: both in a range
/// error, and in the same row, or both in the same settled state.
pub fn same_run()
    ensures { (d : Design) (rows : List (List Entry)) (v w : VhdlRun d rows) → (end_of d rows v ≡ end_of d rows w) × (length v.later ≡ length w.later) }
{}

/// Where nets have ranks below `e`, the turns from power-on and those of each row are at most
/// `(p + 1) * (e + 1)`, with `p` the number of processes.
pub fn few_run()
    ensures { (d : Design) (rank : ℕ → ℕ) (e : ℕ) (held : List S9 → ℕ → Bool) (give : ℕ → ℕ → List S9 → List S9) (rows : List (List Entry)) (run : VhdlRun d rows) → Ranked d (InRun d) rank e held give → LawfulRows d rows → (length run.first ≤ (length d.processes + 1) * (e + 1)) × AllShort ((length d.processes + 1) * (e + 1)) run.later }
{}

/// Where nets have ranks, the turns that take the ready processes in the order of the design come
/// to an end: to a range error or to a settled state.
pub fn ordered_turns()
    ensures { (d : Design) (rank : ℕ → ℕ) (e : ℕ) (held : List S9 → ℕ → Bool) (give : ℕ → ℕ → List S9 → List S9) (s : VState) → Ranked d (Reached d s) rank e held give → Rested d held give s → length s.parts ≡ length d.processes → OrderedTurns d s }
{}

/// Where nets have ranks, there is an ordered run over all lawful rows. By `same_run` each other
/// run over them ends as it does.
pub fn ordered_run()
    ensures { (d : Design) (rank : ℕ → ℕ) (e : ℕ) (held : List S9 → ℕ → Bool) (give : ℕ → ℕ → List S9 → List S9) (rows : List (List Entry)) → Ranked d (InRun d) rank e held give → LawfulRows d rows → OrderedRun d rows }
{}

/// Where one run over the rows is clean, every run over them is.
pub fn same_clean()
    ensures { (d : Design) (rows : List (List Entry)) (v w : VhdlRun d rows) → IsClean (end_of d rows v) → IsClean (end_of d rows w) }
{}
