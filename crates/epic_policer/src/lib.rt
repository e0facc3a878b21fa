//! A policer: how many bytes each source may have passed within a span of time.
#![tactic(auto)]

mod accounts;
mod laws;
mod packet;
mod policed;
mod policer;
mod policers;
mod queue;
mod sweep;
mod table;
#[cfg(test)]
mod tests;

pub use laws::{answers_fold, policers_stand_apart, sources_stand_apart};
pub use packet::Packet;
pub use policed::Policed;
pub use policer::Policer;
pub use policers::Policers;
