//! The judge: whether each line of a verdict file is true of its acceptance, over the lines of a ledger file before it.
#![tactic(auto)]

mod accepted;
mod both_files;
mod chain;
mod dest_bytes;
mod dest_line;
mod dest_made;
mod dest_sent;
mod dest_tests;
mod hop_line;
mod hop_tests;
mod ledger_lines;
mod progress;
mod reveals;
mod tags;
mod telling;
#[cfg(test)]
mod tests;

pub use both_files::{MAX_VERDICTS, judge};
pub use dest_line::is_true_at_dest;
pub use hop_line::is_true_at_hop;
