//! A record of a capture, as it is lent.

use epic_num::Place;

/// A packet at a moment, due at a place.
#[derive(Clone, Copy, Debug, PartialEq, Eq)]
pub struct Record<'a> {
    /// Microseconds.
    pub moment: u64,
    pub place: Place,
    /// The packet, without its pseudo-header.
    pub bytes: &'a [u8],
}
