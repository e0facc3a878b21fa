//! A topology and a script of any length, generated from two numbers.
#![tactic(auto)]

mod commands;
mod keys;
mod laws;
mod packets;
#[cfg(test)]
mod tests;
mod text;
mod topology;

pub use commands::command_at;
pub use keys::generator_tag;
pub use laws::generated_texts_are_read;
pub use text::topology_text;
pub use topology::generated_topology;
