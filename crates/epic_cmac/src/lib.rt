//! The message authentication code AES-CMAC (RFC 4493).
#![tactic(auto)]

mod key;
mod message;
mod one_shot;
mod pieces;
mod state;
mod subkeys;
#[cfg(test)]
mod tests;
mod writer;

pub use key::CmacKey;
pub use one_shot::cmac;
pub use state::CmacState;
pub use writer::CmacWriter;
