//! Names, numbers and the plain types that every other crate of the workspace speaks of.
#![tactic(auto)]

mod answer;
mod arrival;
mod beacon_error;
mod bytes;
mod command;
mod equality;
mod first_bytes;
mod hop;
mod key_name;
mod layout_error;
mod memory;
mod message;
mod message_laws;
mod moment;
mod name;
mod passed;
mod path;
mod path_error;
mod path_ref;
mod print;
mod profile;
mod read;
mod read_numeral;
mod read_parts;
mod segment;
mod send_error;
mod spelling;
#[cfg(test)]
mod tests;
mod turn;
mod verdict;

pub use answer::{Answer, Refusal};
pub use arrival::{Arrival, DestCheck};
pub use beacon_error::BeaconError;
pub use bytes::Bytes;
pub use command::Command;
pub use equality::{same_as, same_body, same_field, same_holder, same_host, same_key, same_name};
pub use first_bytes::{
    first_byte, is_first_byte, is_tagged, is_timed, is_updated, level_of, version_of, width_of,
};
pub use hop::{Body, Field, HopName, Level};
pub use key_name::{Holder, KeyName};
pub use layout_error::LayoutError;
pub use memory::OutOfMemory;
pub use message::{
    as_key_message, authenticator_message, dest_key_message, field1_message, field23_message,
    forwarding_message, host_key_message, link_message, secret_message,
};
pub use message_laws::{field_messages, hop_messages, message_kinds};
pub use moment::{MAX_MOMENT, bucket, is_expired, valid_until};
pub use name::{AsId, HostId};
pub use passed::{PassResult, Passed, PassedList, Place};
pub use path::Path;
pub use path_error::PathError;
pub use path_ref::{PathList, PathRef};
pub use print::{print_as, print_host};
pub use profile::Profile;
pub use read::{read_any_as, read_any_host, read_as, read_host, read_number};
pub use segment::{Leg, SegHop, SegKind, Segment};
pub use send_error::{NoKey, SendError};
pub use spelling::{Spelling, as_has_one_spelling, host_has_one_spelling, number_has_one_spelling};
pub use turn::{Check, Turn};
pub use verdict::{Collision, ForgedKind, Forgery, Part, Verdict};
