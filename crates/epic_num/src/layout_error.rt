//! The first fault of bytes that are no packet.

/// The first fault of bytes that are no packet.
#[derive(Clone, Copy, Debug, PartialEq, Eq)]
pub enum LayoutError {
    /// Fewer bytes than the fixed header, or than the segment headers that it tells of.
    Short,
    /// The first byte names no version and level that exist.
    Version,
    /// The flags aren't 0.
    Flags,
    /// The number of segments isn't 1 to 3.
    SegmentCount,
    /// A direction isn't 0 or 1, or a reserved byte isn't 0.
    Reserved,
    /// A segment's number of hops isn't 2 to 16, or the packet's is above 32.
    HopCount,
    /// The header's length isn't the one that its segments and hops make, or fewer bytes are there.
    HeaderLength,
    /// The payload is above 8,192 bytes, or header and payload aren't all the bytes.
    PayloadLength,
    /// The current hop is past the last.
    CurrentHop,
}
