//! Why no hop is issued.

use crate::AsId;

/// Why a hop wasn't issued.
#[derive(Clone, Copy, Debug, PartialEq, Eq)]
pub enum BeaconError {
    /// The AS that would begin a chain isn't core.
    NotCore,
    /// No issue has the parent's number.
    Unknown,
    /// The parent is the last hop of its segment.
    Ended,
    /// The parent has the greatest position, 16.
    TooLong,
    /// The AS stands in the chain already.
    Loop(AsId),
    /// The AS has no link at the interface.
    UnknownInterface,
    /// The link doesn't go on as the chain began: core to core, or from parent to child.
    WrongKind,
    /// The hop's validity would be over already.
    Expired,
    /// The issue of this number has the same AS, parent, interface, expiry, timestamp and key generation.
    Duplicate(u32),
    /// There are as many issues as there may be.
    Full,
    OutOfMemory,
}
