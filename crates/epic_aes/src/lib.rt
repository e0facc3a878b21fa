//! The block cipher AES-128 (FIPS 197).
#![tactic(auto)]

mod block;
mod cipher;
mod lanes;
mod rounds;
mod schedule;
mod tables;
#[cfg(test)]
mod tests;

pub use block::block_sum;
pub use cipher::Aes;
