//! The ledger: what happened, in order, and the packets that are under way.
#![tactic(auto)]

mod emissions;
mod event;
mod index;
mod ledger;
mod limits;
mod log;
mod names;
mod packet;
mod pass_index;
mod passes;
mod path_index;
mod ranks;
mod reveal_index;
mod reveals;
mod send_index;
mod sends;
mod spot;
#[cfg(test)]
mod tests;

pub use event::Event;
pub use ledger::Ledger;
