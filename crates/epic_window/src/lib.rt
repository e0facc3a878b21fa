//! The replay window of a router or a destination: which packets were here before, and how many of a source AS are live.
#![tactic(auto)]

mod clock;
mod growth;
mod key;
mod offer;
mod seeded;
mod slots;
mod sweep;
#[cfg(test)]
mod tests;
mod totals;
mod turns;
mod window;

pub use key::WinKey;
pub use offer::Offer;
pub use window::Window;
