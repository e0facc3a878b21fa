//! What a run writes into its ledger file and its verdict file is what the judge reads: laws alone.
#![tactic(auto)]

mod laws;
mod ledger_laws;

pub use laws::{
    given_verdicts_are_judged_true, held_verdicts_fit, other_hops_are_there,
    run_verdicts_can_be_told, verdict_files_are_read_back, verdict_lines_are_read_back,
};
pub use ledger_laws::{items_are_read_back, ledgers_are_read_back, placed_ledgers_are_read_back};
