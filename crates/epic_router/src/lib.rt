//! A router's turn: a packet's bytes, checked and edited where they lie.
#![tactic(auto)]

mod accepted;
mod going_on;
mod handling;
#[cfg(test)]
mod packets;
mod passing;
mod ready;
mod remembering;
mod right_turns;
mod router;
mod tags;
#[cfg(test)]
mod tests;

pub use right_turns::turns_are_right;
pub use router::Router;
