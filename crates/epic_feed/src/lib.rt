//! The records of a capture's file, in either form, read from a store in pieces and handed on one by one.
#![tactic(auto)]

mod damage;
mod feeding;
mod first;
mod form;
mod laws;
mod more;
mod taker;
#[cfg(test)]
mod tests;

pub use damage::Damage;
pub use feeding::{FeedError, feed};
pub use laws::few_records;
pub use taker::Taker;
