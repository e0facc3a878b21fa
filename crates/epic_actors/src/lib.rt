//! The routers, hosts and sources of a world, each made at first use, and what becomes of a packet's bytes at the place where it is due.
#![tactic(auto)]

mod arriving;
mod hosts;
mod laws;
mod routers;
mod sending;
#[cfg(test)]
mod source_tests;
mod sources;
#[cfg(test)]
mod tests;
mod turning;

pub use arriving::arrive_at;
pub use hosts::Hosts;
pub use laws::actors_stand;
pub use routers::Routers;
pub use sending::{MOST_BYTES, send_at};
pub use sources::{Sources, senders_stand};
pub use turning::{MOST_EMITTED, is_full, turn_at};
