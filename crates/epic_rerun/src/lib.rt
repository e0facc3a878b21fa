//! What a run tells in its ledger file and in its verdict file, and that a judge says yes to it.
#![tactic(auto)]

mod commands;
mod laws;

pub use commands::names_fit;
pub use laws::{runs_are_judged_true, runs_are_told, script_names_fit};
