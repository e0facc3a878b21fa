//! What a router answers to a packet.

use crate::LayoutError;

/// A router's check that failed.
#[derive(Clone, Copy, Debug, PartialEq, Eq)]
pub enum Check {
    /// The bytes are no packet.
    Layout(LayoutError),
    /// Every hop was handled before.
    Ended,
    /// The packet came in by another interface than the hop's ingress.
    WrongIngress,
    /// A packet from inside the AS isn't at its first hop or isn't of a source there, or one at its first hop came from outside.
    WrongSource,
    /// The segment's timestamp lies too far ahead.
    PathFuture,
    /// The hop's validity is over.
    Expired,
    /// The packet's timestamp is too old.
    Stale,
    /// The packet's timestamp lies too far ahead.
    Early,
    /// The hop's field isn't the one that the AS's keys give.
    BadField,
    /// The next hop in construction order doesn't carry this hop's link tag.
    BadLink,
    /// A segment is entered or left elsewhere than at its ends.
    WrongSwitch,
    /// The AS has no link at the hop's egress.
    NoInterface,
    /// The last hop's AS isn't the destination's.
    WrongDestination,
    /// The packet was here before.
    Replay {
        /// The step of the first time.
        first: u32,
    },
    /// The source AS has as many live entries as the window allows.
    WindowFull {
        live: u32,
    },
}

/// What a router did with a packet.
#[derive(Clone, Copy, Debug, PartialEq, Eq)]
pub enum Turn {
    /// It goes on over the interface `out`.
    Forward {
        out: u16,
        /// How many hops were handled, 1 or 2.
        hops: u8,
        /// The key generation under which each handled hop was accepted; 0 past the last.
        generations: [u32; 2],
    },
    /// It goes to a host of the router's AS.
    Deliver {
        host: u32,
        /// How many hops were handled, 1 or 2.
        hops: u8,
        /// The key generation under which each handled hop was accepted; 0 past the last.
        generations: [u32; 2],
    },
    Refused {
        check: Check,
        /// The index of the hop at which the check failed, from 0 in travel order; 0 for a layout fault.
        hop: u8,
    },
}
