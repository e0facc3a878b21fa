//! The tags of hops and packets, by their formulas: parts of tags by AES-CMAC (RFC 4493). docs/FORMATS.md has the table of
//! messages and keys. Each formula stands here once, over given authenticators and keys, and on top of that under the keys
//! of a topology.
#![tactic(auto)]

mod destination;
mod hop;
mod laws;
mod tags;
#[cfg(test)]
mod tests;

pub use destination::{are_updates, dest_domain, dest_tag, dest_tag_by};
pub use hop::{
    authenticator, authenticator_and_link_tag_by, field_part, field0, field1, field23, link_tag,
    update_part,
};
pub use laws::tags_look_at_no_field;
pub use tags::{
    carries_field, carries_link, dest_field_of, dest_name, field_name, field_of, field_over,
    has_field, has_link, hop_key, hop_message, hop_tag, link, message_over, shared_key, sigma,
    tag_over, tag_over_by, untagged_field, update_of, update_over,
};
