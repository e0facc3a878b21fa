//! Nodes with values, each in one list of either of two families, all by index and in constant time.
#![tactic(auto)]

mod family;
mod links;
mod pool;
mod room;
#[cfg(test)]
mod tests;

pub use pool::{Full, Pool};
