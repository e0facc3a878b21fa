//! Why a source sends no packet.

use crate::AsId;

/// A key that wasn't fetched.
#[derive(Clone, Copy, Debug, PartialEq, Eq)]
pub struct NoKey {
    /// The AS whose master key it is derived from.
    pub owner: AsId,
    pub epoch: u64,
}

/// Why a packet wasn't sent.
#[derive(Clone, Copy, Debug, PartialEq, Eq)]
pub enum SendError {
    /// The path doesn't lead from the source's AS to the destination's.
    WrongEnds,
    /// The payload has more than 8,192 bytes.
    PayloadTooLong,
    /// The validity of the hop with this index, from 0 in travel order, is over.
    Expired { hop: u8 },
    NoKey(NoKey),
    OutOfMemory,
}
