//! What a policer knows of a packet.
use epic_num::AsId;

/// A packet that is offered to a policer.
#[derive(Clone, Copy, Debug, PartialEq, Eq)]
pub struct Packet {
    pub source: AsId,
    /// The whole packet's length.
    pub bytes: u32,
    /// When it is offered, in microseconds.
    pub moment: u64,
}
