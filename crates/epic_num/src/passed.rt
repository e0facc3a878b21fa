//! What became of an emission that was passed on.

ghost use Rattle.std.specs.Prelude.{◌≡◌, List};

use crate::{Arrival, AsId, HostId, Turn, Verdict};
use arrayvec::ArrayVec;
use std::marker::Model;

/// Where a packet is due.
#[derive(Clone, Copy, Debug, PartialEq, Eq)]
pub enum Place {
    Router {
        asn: AsId,
        /// The interface by which it comes in; 0 from inside the AS.
        iface: u16,
    },
    Host(HostId),
}

/// What became of a packet at its place.
#[derive(Clone, Copy, Debug, PartialEq, Eq)]
pub enum PassResult {
    /// A router answered.
    Turned(Turn),
    /// A destination answered.
    Arrived(Arrival),
    /// There is no room for what the router would emit, so it wasn't asked.
    Full,
}

/// One packet at one place.
#[derive(Debug, Drop, PartialEq, Eq)]
pub struct Passed {
    pub place: Place,
    pub result: PassResult,
    /// The number of the emission that it made, from 1; 0 for none.
    pub emission: u32,
    /// A verdict a handled hop, or the destination's; none for a refusal.
    pub verdicts: ArrayVec<Verdict, 2>,
}

/// A list of passes on the heap.
#[derive(Debug, Drop)]
pub struct PassedList {
    items: Vec<Passed>,
}

impl Model for PassedList {
    ghost use Rattle.std.specs.Prelude.{List};
    ghost use Rattle.epic_num.specs.declared.passed.Passed.{Passed};

    ghost Value = { List Passed };

    ghost view = { λ l. l.items.items };
}

impl PassedList {
    /// The passes of `items`. It takes no memory.
    pub fn from_vec(items: Vec<Passed>) -> PassedList
        ensures { result ≡ items.items }
    {
        PassedList { items }
    }

    pub fn as_slice(&self) -> &[Passed]
        ensures { result.now ≡ self.now }
    {
        self.items.as_slice()
    }
}
