//! The layout of a packet: its first fault, its parts, its one spelling.
#![tactic(auto)]

mod checking;
mod decoding;
mod encoding;
mod head;
mod laws;
mod packet;
mod path_route;
mod putting;
mod read;
mod shape;
#[cfg(test)]
mod tests;
mod valid;
pub mod wire;
mod writing;

pub use checking::{check, shape_of};
pub use decoding::{DecodeError, decode};
pub use encoding::encode;
pub use head::{HopHead, HopPlace, SegmentHead};
pub use laws::{dest_messages, paths, places, spellings};
pub use packet::{Packet, PacketHop, PacketSegment, Segments};
pub use path_route::{head_of, hop_head};
pub use read::{bytes_at, hop_head_at, host_at, segment_head_at, u16_at, u32_at, u64_at};
pub use shape::Shape;
pub use valid::is_valid;
pub use writing::unfilled_packet;
