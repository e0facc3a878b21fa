//! What a replay window knows an offer by.
use epic_num::HostId;

/// The key of an offer: a packet's source and timestamp, and the index of the hop.
#[derive(Clone, Copy, Debug, PartialEq, Eq, Hash)]
pub struct WinKey {
    pub src: HostId,
    /// The packet's timestamp, in microseconds.
    pub ts: u64,
    /// The index of the hop in travel order, from 0.
    pub hop: u8,
}
