//! What a ledger file tells, one item a line.

use epic_ledger::Event;
use epic_num::{AsId, Bytes, HostId, Place};

/// What a line of a ledger file tells.
#[derive(Debug, Drop)]
pub enum Item {
    /// An event of the ledger.
    Event(Event),
    /// A packet under way.
    Emission {
        /// Its number, from 1.
        no: u32,
        /// Where it is due.
        place: Place,
        bytes: Bytes,
    },
    /// The router of an AS accepted a hop of a packet.
    AcceptHop {
        a: AsId,
        /// The generation of the forwarding key under which it was accepted.
        generation: u32,
        /// The hop's index, from 0 in travel order.
        hop: u8,
        /// The packet's, as it came in.
        bytes: Bytes,
    },
    /// A destination took a packet.
    AcceptDest {
        host: HostId,
        /// The packet's, as it came in.
        bytes: Bytes,
    },
}
