//! What the ledger says of each acceptance: the verdicts, and why they hold.
#![tactic(auto)]

mod accepted;
mod arrival;
mod chain;
mod dest_message;
mod events;
mod forgery_parts;
#[cfg(test)]
mod forgery_tests;
mod forgery_text;
mod issues;
mod laws;
mod linking;
mod naming;
mod reveals;
mod sources;
#[cfg(test)]
mod tests;
mod twins;
mod uncovered;
mod updates;
mod verdict;

pub use arrival::verdict_dest;
pub use chain::whole_chains;
pub use events::ledgers;
pub use forgery_text::forged_text;
pub use laws::{dest_verdicts, hop_verdicts};
pub use verdict::verdict_hop;
