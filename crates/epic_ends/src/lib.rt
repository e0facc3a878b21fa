//! Where packets begin and end: what a source sends, and what a destination answers.
#![tactic(auto)]

mod admitting;
mod arriving;
mod destination;
#[cfg(test)]
mod destination_tests;
mod filling;
mod laws;
mod path_parts;
mod ready_keys;
mod source;
#[cfg(test)]
mod source_tests;

pub use destination::Dest;
pub use epic_num::SendError;
pub use laws::{arrivals_are_right, packets_stay_right, sent_packets_are_right};
pub use path_parts::has_path;
pub use source::{Sent, Source};
