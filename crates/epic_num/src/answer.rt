//! What a step of the program answers.

use crate::{AsId, BeaconError, Passed, PassedList, PathError, PathList, SendError};

/// Why a step wasn't done. It never carries a want of memory.
#[derive(Clone, Copy, Debug, PartialEq, Eq)]
pub enum Refusal {
    UnknownAs(AsId),
    Beacon(BeaconError),
    /// There are more than 4,096 paths.
    TooManyPaths,
    /// The issue of this number isn't the last hop of a segment, or isn't there.
    NoSegment(u32),
    Path(PathError),
    Send(SendError),
    /// There is no room for the packet among the emissions.
    Full,
    UnknownEmission(u32),
}

/// What a step answers.
#[derive(Debug, Drop)]
pub enum Answer {
    Moment,
    Issued {
        /// The issue's number, from 1.
        no: u32,
    },
    Fetched,
    /// The keys were fetched before, or the holder was revealed before.
    Known,
    Paths(PathList),
    Sent {
        /// The emission's number, from 1.
        emission: u32,
        /// The packet's timestamp, in microseconds.
        ts: u64,
    },
    Passed(Passed),
    Carried(PassedList),
    Revealed,
    Rolled {
        /// The new generation.
        generation: u32,
    },
    Refused(Refusal),
}
