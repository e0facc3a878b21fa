//! The commands of a script.

use crate::{AsId, Bytes, Holder, HostId, Level};
use arrayvec::ArrayVec;

/// One step of one actor.
#[derive(Debug, Drop, PartialEq, Eq)]
pub enum Command {
    /// The present moment becomes `moment`, in microseconds, where that is later.
    At {
        moment: u64,
    },
    /// The core AS `a` issues the first hop of a chain, towards its interface `out`.
    Originate {
        a: AsId,
        out: u16,
        exp: u8,
    },
    /// The AS behind the issue `parent` issues the next hop; with `out` 0 it is the last.
    Extend {
        parent: u32,
        out: u16,
        exp: u8,
    },
    /// The AS `source` gets the keys of `owner` for an epoch.
    Fetch {
        source: AsId,
        owner: AsId,
        epoch: u64,
    },
    /// Every path between two ASes is asked for.
    Paths {
        from: AsId,
        to: AsId,
    },
    /// The host `src` sends a packet.
    Send {
        /// 1, or 2 at levels 2 and 3.
        version: u8,
        level: Level,
        src: HostId,
        dst: HostId,
        /// The last issue of each segment of the path, in travel order.
        segments: ArrayVec<u32, 3>,
        payload: Bytes,
    },
    /// The router of `a` gets bytes by an interface; 0 is from inside the AS.
    Turn {
        a: AsId,
        iface: u16,
        bytes: Bytes,
    },
    /// A host gets bytes.
    Arrive {
        host: HostId,
        bytes: Bytes,
    },
    /// An emission reaches the place where it is due.
    Pass {
        emission: u32,
    },
    /// An emission is passed, then what that emits, and so on to the end.
    Carry {
        emission: u32,
    },
    /// The keys of a holder become known to all.
    Reveal {
        holder: Holder,
    },
    /// The AS `a` raises the generation of its forwarding key by one.
    Roll {
        a: AsId,
    },
}
