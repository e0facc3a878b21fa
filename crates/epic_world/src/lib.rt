//! The world of every verb: many actors, one step at a time, over the ledger of what happened.
#![tactic(auto)]

mod carries;
mod carrying;
mod commands;
mod fetching;
mod issuing;
mod laws;
mod passing;
mod paths;
mod places;
mod revealing;
mod sending;
mod stepping;
#[cfg(test)]
mod tests;
mod world;

pub use commands::{fits, is_possible};
pub use laws::runs_hold;
pub use world::World;
