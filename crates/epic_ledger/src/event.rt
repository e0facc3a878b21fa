//! What happens.
use arrayvec::ArrayVec;
use epic_num::{AsId, Holder, HopName, HostId};

/// One thing that happened. `step` is the number of the command that it is of.
#[derive(Debug, Drop, PartialEq, Eq)]
pub enum Event {
    /// A hop was issued.
    Issue {
        step: u32,
        /// The issue's number, from 1.
        no: u32,
        name: HopName,
        /// The number of the issue that it goes on from, 0 for none.
        parent: u32,
    },
    /// An AS got the keys of another for an epoch.
    Fetch {
        step: u32,
        source: AsId,
        owner: AsId,
        epoch: u64,
    },
    /// A source sent a packet.
    Send {
        step: u32,
        /// The number of the packet's emission, from 1.
        emission: u32,
        /// The last issue of each segment of its path, in travel order.
        segments: ArrayVec<u32, 3>,
    },
    /// A router accepted a hop of a packet.
    Pass {
        step: u32,
        a: AsId,
        /// The hop's index, from 0 in travel order.
        hop: u8,
        /// The generation of the forwarding key under which it was accepted.
        generation: u32,
        /// The number of the packet's emission as it left, from 1.
        emission: u32,
    },
    /// A destination took a packet.
    Arrive {
        step: u32,
        host: HostId,
        src: HostId,
        /// The packet's timestamp, in microseconds.
        ts: u64,
        /// How many hops the packet has.
        hops: u8,
        /// Its destination field was checked: the packet is of level 2 or 3.
        checked: bool,
    },
    /// The keys of a holder became known to all.
    Reveal {
        step: u32,
        holder: Holder,
    },
    /// An AS raised the generation of its forwarding key.
    Roll {
        step: u32,
        a: AsId,
        /// The new generation.
        generation: u32,
    },
}
