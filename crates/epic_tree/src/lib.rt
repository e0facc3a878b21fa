//! A balanced search tree over places: whoever searches says on which side of a place it stands.
#![tactic(auto)]

mod aim;
mod arena;
mod insert;
mod search;
mod settle;
#[cfg(test)]
mod tests;
mod tree;

pub use aim::Aim;
pub use tree::Tree;
