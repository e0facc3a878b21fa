//! An index of what a ledger file says: the first row of each key.
#![tactic(auto)]

mod children;
mod event_rows;
mod events;
mod fields;
mod happened;
mod index;
mod key;
mod likes;
mod names;
mod origins;
mod passes;
mod queries;
mod reveals;
mod sent_as;
mod sources;
mod step;
mod table;
mod tables;
mod twins;

pub use index::Index;
