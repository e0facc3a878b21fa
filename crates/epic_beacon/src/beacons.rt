//! The store of issued hops.
ghost use Rattle.std.specs.Prelude.{◌≡◌, ◌≤◌, length, option_map};
ghost use Rattle.epic_num.specs.Chains.{issue_at};
ghost use Rattle.epic_topo.specs.Network.{Network};
ghost use Rattle.epic_fields.specs.Issues.{IssuesKept};
ghost use Rattle.epic_beacon.specs.Chained.{AreChained};
ghost use Rattle.epic_beacon.specs.Kinds.{KindsKept};
ghost use Rattle.epic_beacon.specs.Store.{issues_of, no_beacons, store_of};

use crate::Beacon;
use crate::beacon::issue_at;
use crate::twin::Likeness;
use epic_num::{AsId, HopName};
use std::alloc::Global;
use std::collections::BTreeMap;
use std::marker::Model;

/// The hops that were issued, numbered from 1, and the generation of each AS's forwarding key.
#[derive(Drop)]
pub struct Beacons {
    pub(crate) beacons: Vec<Beacon>,
    // The number of each beacon, by what twins share.
    pub(crate) twins: BTreeMap<Likeness, u32>,
    // How often an AS has rolled its key, by its number; absent where it hasn't.
    pub(crate) generations: BTreeMap<u64, u32>,
}

impl Model for Beacons {
    ghost use Rattle.epic_beacon.specs.Store.{Held};
    ghost use Rattle.epic_beacon.specs.Twins.{AreIndexed};

    ghost Value = { Held };

    ghost view = { λ s. record { beacons = s.beacons.items; entries = s.generations.entries } };

    ghost invariant = { λ s. AreIndexed s.twins s.beacons.items };
}

impl Beacons {
    /// A store without issues, in which each AS has its first forwarding key. It fits every topology.
    pub fn new(alloc: Global) -> Beacons
        ensures empty { store_of result ≡ no_beacons }
        ensures kept { (t : Network) → IssuesKept t (issues_of result.beacons) }
        ensures kinds { (t : Network) → KindsKept t result.beacons }
    {
        Beacons {
            beacons: Vec::new(alloc),
            twins: BTreeMap::new(alloc),
            generations: BTreeMap::new(alloc),
        }
    }

    /// How many issues there are. They make chains.
    pub fn len(&self) -> u32
        ensures value { result ≡ length self.now.beacons }
        ensures few { result ≤ 65536 }
        ensures chains { AreChained self.now.beacons }
    {
        self.beacons.len() as u32
    }

    /// The issue of a number, and the number of the issue that it goes on from, 0 for none.
    pub fn issue(&self, no: u32) -> Option<(HopName, u32)>
        ensures { result ≡ option_map (λ i. (i.name, i.parent)) (issue_at (issues_of self.now.beacons) no) }
    {
        issue_at(&self.beacons, no)
    }
}
