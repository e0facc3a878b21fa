//! Who can have made the fields of level 1: whoever holds a hop's authenticator can make them.
#![tactic(auto)]

mod chains;
mod events;
mod holding;
mod laws;
mod maker;
mod maker_text;
mod opening;
mod sending;
#[cfg(test)]
mod tests;

pub use holding::holds;
pub use laws::makers;
pub use maker::{Maker, maker_of};
pub use maker_text::print_maker;
