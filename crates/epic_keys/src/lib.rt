//! Keys by their names, and the keys of other ASes that an AS has fetched.
#![tactic(auto)]

mod derivation;
mod key_store;
mod secrets;
mod shared_keys;
#[cfg(test)]
mod tests;

pub use derivation::{
    derive, forwarding_key, host_key, is_holder, master_key, owner, secret_value,
};
pub use epic_num::NoKey;
pub use key_store::{Fetched, KeyStore};
pub use shared_keys::SharedKeys;
