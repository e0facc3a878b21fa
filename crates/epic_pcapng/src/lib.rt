//! Captures in the form of pcapng: the records of a file that comes in pieces.
#![tactic(auto)]

mod block;
mod content;
mod cursor;
mod damage;
mod interfaces;
mod laws;
mod moment;
mod options;
mod packet;
mod reader;
mod section;
#[cfg(test)]
mod tests;

pub use damage::{NgError, NgKind};
pub use laws::whole_captures;
pub use reader::NgReader;
