//! Small designs that meet the premises of the laws.

ghost use Rattle.std.specs.Prelude.{◌≡◌};
ghost use Rattle.vv_cycle.specs.Ranks.{Ranked};
ghost use Rattle.vv_cycle.specs.Rows.{InRun, LawfulRows, VhdlRun, end_of};
ghost use Rattle.vv_cycle.specs.Examples.{one_register, all_held, rank_0, give_none, one_latch, closed_held, latch_give, chain, none_held, chain_rank, chain_give, one_row, chain_end, values_of};

/// A register: its process is held in every row.
pub fn register_ranked()
    ensures { Ranked one_register (InRun one_register) rank_0 1 all_held give_none }
{}

/// A latch: its process is held in the rows where the latch is closed.
pub fn latch_ranked()
    ensures { Ranked one_latch (InRun one_latch) rank_0 1 closed_held latch_give }
{}

/// A chain of three inverters, with ranks along the chain.
pub fn chain_ranked()
    ensures { Ranked chain (InRun chain) chain_rank 4 none_held chain_give }
{}

/// A row that sets the chain's input is lawful.
pub fn row_lawful()
    ensures { LawfulRows chain one_row }
{}

/// There is a run over that row.
pub fn a_run()
    ensures { VhdlRun chain one_row }
{}

/// Every run over that row ends with these values.
pub fn run_ends()
    ensures { (run : VhdlRun chain one_row) → values_of (end_of chain one_row run) ≡ chain_end }
{}
