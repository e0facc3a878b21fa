//! The sizes of a packet.
use epic_num::Level;

/// The sizes that a packet's header tells of.
#[derive(Clone, Copy, Debug, PartialEq, Eq)]
pub struct Shape {
    /// 1 or 2.
    pub version: u8,
    pub level: Level,
    /// The number of segments, 1 to 3.
    pub segments: u8,
    /// The number of hops of all segments, up to 32.
    pub hops: u8,
    /// The bytes before the payload.
    pub header: u16,
    /// The bytes of the payload, up to 8,192.
    pub payload: u16,
}
