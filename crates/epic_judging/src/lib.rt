//! What the judge decides: whether a verdict line is true of an acceptance, over what the lines before it tell.
#![tactic(auto)]

mod judged;
mod laws;

pub use judged::{JudgeError, Judged};
pub use laws::{judgments_are_decided, judgments_are_one};
