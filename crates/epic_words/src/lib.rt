//! What the words of the command line ask for.
#![tactic(auto)]

mod asked;
mod command;
mod error;
mod generate;
mod hop;
mod judge;
mod number;
mod police;
mod run;
#[cfg(test)]
mod tests;

pub use asked::{Asked, asked_for};
pub use error::WordsError;
pub use generate::{GenWords, gen_words};
pub use hop::{HopWords, hop_words};
pub use judge::{JudgeWords, judge_words};
pub use police::PoliceWords;
pub use run::{RunWords, run_words};
