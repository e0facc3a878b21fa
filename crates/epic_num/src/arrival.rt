//! What a destination answers to a packet.

use crate::LayoutError;

/// A destination's check that failed.
#[derive(Clone, Copy, Debug, PartialEq, Eq)]
pub enum DestCheck {
    /// The bytes are no packet.
    Layout(LayoutError),
    /// The packet is for another host.
    WrongHost,
    /// Some hop wasn't handled yet.
    NotAtEnd,
    /// The packet's timestamp is too old.
    Stale,
    /// The packet's timestamp lies too far ahead.
    Early,
    /// The destination field isn't the one that the key shared with the source gives.
    BadDestinationField,
    /// The packet was here before.
    Replay {
        /// The step of the first time.
        first: u32,
    },
    /// The source AS has as many live entries as the window allows.
    WindowFull {
        live: u32,
    },
}

/// What a destination did with a packet.
#[derive(Clone, Copy, Debug, PartialEq, Eq)]
pub enum Arrival {
    /// It passed every check.
    Accepted,
    /// It has no destination field to check: it is of level 0 or 1.
    Unchecked,
    Refused(DestCheck),
}
