//! Issues of hops: chains that are begun, and chains that go on.
ghost use Rattle.std.specs.Prelude.{◌≡◌, ◌≢◌, ◌+◌, ◌<◌, ◌≤◌, None, length, IsTrue, IfOk, OnOk};
ghost use Rattle.epic_topo.specs.Network.{has};
ghost use Rattle.epic_fields.specs.Issues.{IssuesKept};
ghost use Rattle.epic_beacon.specs.Chained.{AreChained, IsChained};
ghost use Rattle.epic_beacon.specs.Issuing.{Issues, extended, extended_from, originated, twin};
ghost use Rattle.epic_beacon.specs.Kinds.{KindsKept};
ghost use Rattle.epic_beacon.specs.Store.{beacon_at, issues_of, store_of};

use crate::beacon::{beacon_at, stands_in_chain};
use crate::hop::{beacon_of, kind_by, link_at};
use crate::twin::likeness;
use crate::{Beacon, BeaconError, Beacons};
use epic_num::{AsId, MAX_MOMENT};
use epic_topo::Topology;

impl Beacons {
    /// The AS `a`, which is in the topology, begins a chain at its interface `out`, with the expiry byte `exp`, at the moment
    /// `now` in microseconds, of which the second is the segment's timestamp. The answer is the issue's number, from 1. The
    /// store's issues were all made over this topology (`kept`, `kinds`), and stay so.
    ///
    /// # Errors
    /// The first that applies (`originate_rows` in specs/Issuing): `NotCore` where the AS isn't a core AS; `UnknownInterface`
    /// where no link is at the interface; `Duplicate` where a hop of the AS with this egress, expiry, timestamp and
    /// generation began a chain before, by that issue's number; `Full` where there are 65,536 issues. `OutOfMemory` may be
    /// told in place of an issue. After an error nothing has changed.
    pub fn originate(
        &mut self,
        topo: &Topology,
        a: AsId,
        out: u16,
        exp: u8,
        now: u64,
    ) -> Result<u32, BeaconError>
        requires known { IsTrue (has topo.now a) }
        requires moment { now ≤ MAX_MOMENT }
        requires kept { IssuesKept topo.now (issues_of self.old.beacons) }
        requires kinds { KindsKept topo.now self.old.beacons }
        ensures issues { Issues (store_of self.old) (store_of self.new) (originated topo.now (store_of self.old) a out exp now) result }
        ensures kept { IssuesKept topo.now (issues_of self.new.beacons) }
        ensures kinds { KindsKept topo.now self.new.beacons }
    {
        let beacon = self.originated(topo, a, out, exp, now)?;
        self.add(beacon)
    }

    /// The AS behind the egress of the issue `parent` goes on from it, with the egress `out`, which is 0 where the segment
    /// ends, and the expiry byte `exp`, at the moment `now` in microseconds. The answer is the issue's number, from 1. The
    /// store's issues were all made over this topology (`kept`, `kinds`), and stay so.
    ///
    /// # Errors
    /// The first that applies (`extended` and `extend_rows` in specs/Issuing): `Unknown` where there is no such issue; `Ended`
    /// where it has no egress; `TooLong` where it is the sixteenth of its chain; `Loop` where the AS behind it stands in the
    /// chain already; `UnknownInterface` where no link is at an egress other than 0; `WrongKind` where that link isn't of the
    /// chain's kind, which is core links alone or links to children alone; `Expired` where the new hop would be valid no more;
    /// `Duplicate` where the same hop was issued behind this parent, by that issue's number; `Full` where there are 65,536
    /// issues. `OutOfMemory` may be told in place of an issue. After an error nothing has changed.
    pub fn extend(
        &mut self,
        topo: &Topology,
        parent: u32,
        out: u16,
        exp: u8,
        now: u64,
    ) -> Result<u32, BeaconError>
        requires moment { now ≤ MAX_MOMENT }
        requires kept { IssuesKept topo.now (issues_of self.old.beacons) }
        requires kinds { KindsKept topo.now self.old.beacons }
        ensures issues { Issues (store_of self.old) (store_of self.new) (extended topo.now (store_of self.old) parent out exp now) result }
        ensures kept { IssuesKept topo.now (issues_of self.new.beacons) }
        ensures kinds { KindsKept topo.now self.new.beacons }
    {
        let beacon = self.extended(topo, parent, out, exp, now)?;
        self.add(beacon)
    }

    // Puts a beacon behind the others.
    fn add(&mut self, beacon: Beacon) -> Result<u32, BeaconError>
        requires few { length self.old.beacons < 65536 }
        requires chained { IsChained self.old.beacons (length self.old.beacons + 1) beacon }
        requires new { twin self.old.beacons beacon.name beacon.parent ≡ None }
        ensures { Issues (store_of self.old) (store_of self.new) (Ok beacon) result }
    {
        let number = self.beacons.len() as u32 + 1;
        // What wants memory comes first, and the last step wants none.
        if self.beacons.reserve(1).is_err() {
            return Err(BeaconError::OutOfMemory);
        }
        match self
            .twins
            .insert(likeness(&beacon.name, beacon.parent), number)
        {
            Ok(_) => {
                self.beacons.push_reserved(beacon);
                Ok(number)
            }
            Err(_) => Err(BeaconError::OutOfMemory),
        }
    }
}

impl Beacons {
    // The beacon that begins a chain, or why there is none.
    #[tactic(auto, unfolding(crate::specs::Issuing::originated, crate::specs::Issuing::originate_rows, crate::specs::Issuing::place_rows, crate::specs::Issuing::first_name))]
    fn originated(
        &self,
        topo: &Topology,
        a: AsId,
        out: u16,
        exp: u8,
        now: u64,
    ) -> Result<Beacon, BeaconError>
        requires known { IsTrue (has topo.now a) }
        requires moment { now ≤ MAX_MOMENT }
        ensures value { result ≡ originated topo.now (store_of self.now) a out exp now }
        ensures leads_on { IfOk result (λ b. b.name.body.out ≢ 0) }
        ensures new { IfOk result (λ b. twin self.now.beacons b.name b.parent ≡ None) }
        ensures room { IfOk result (λ _. length self.now.beacons < 65536) }
        ensures chains { OnOk result (AreChained self.now.beacons) }
    {
        if !topo.is_core(a) {
            return Err(BeaconError::NotCore);
        }
        let Some(link) = link_at(topo, a, out) else {
            return Err(BeaconError::UnknownInterface);
        };
        let name = self.first_name(a, out, exp, now);
        match self.place_refusal(&name, 0) {
            Some(refusal) => Err(refusal),
            None => Ok(beacon_of(topo, name, 0, kind_by(link))),
        }
    }

    // The beacon that goes on from another, or why there is none.
    #[tactic(auto, unfolding(crate::specs::Issuing::extended))]
    fn extended(
        &self,
        topo: &Topology,
        parent: u32,
        out: u16,
        exp: u8,
        now: u64,
    ) -> Result<Beacon, BeaconError>
        requires kept { IssuesKept topo.now (issues_of self.now.beacons) }
        ensures value { result ≡ extended topo.now (store_of self.now) parent out exp now }
        ensures known { IfOk result (λ b. IsTrue (has topo.now b.name.asn)) }
        ensures new { IfOk result (λ b. twin self.now.beacons b.name b.parent ≡ None) }
        ensures room { IfOk result (λ _. length self.now.beacons < 65536) }
        ensures chains { OnOk result (AreChained self.now.beacons) }
    {
        match beacon_at(&self.beacons, parent) {
            None => Err(BeaconError::Unknown),
            Some(from) => self.extended_from(topo, parent, &from, out, exp, now),
        }
    }

    // The same where the parent is known.
    #[tactic(auto, unfolding(crate::specs::Issuing::extended_from, crate::specs::Issuing::extend_rows, crate::specs::Issuing::place_rows, crate::specs::Issuing::next_name))]
    fn extended_from(
        &self,
        topo: &Topology,
        parent: u32,
        from: &Beacon,
        out: u16,
        exp: u8,
        now: u64,
    ) -> Result<Beacon, BeaconError>
        requires kept { IssuesKept topo.now (issues_of self.now.beacons) }
        requires there { beacon_at self.now.beacons parent ≡ Some from.now }
        ensures value { result ≡ extended_from topo.now (store_of self.now) parent from.now out exp now }
        ensures known { IfOk result (λ b. IsTrue (has topo.now b.name.asn)) }
        ensures new { IfOk result (λ b. twin self.now.beacons b.name b.parent ≡ None) }
        ensures room { IfOk result (λ _. length self.now.beacons < 65536) }
        ensures chains { OnOk result (AreChained self.now.beacons) }
    {
        let beacons = &self.beacons;
        if from.name.body.out == 0 {
            return Err(BeaconError::Ended);
        }
        if from.name.body.pos == 16 {
            return Err(BeaconError::TooLong);
        }
        let name = self.next_name(topo, &from.name, out, exp);
        if stands_in_chain(beacons, parent, from, name.asn) {
            return Err(BeaconError::Loop(name.asn));
        }
        match self.onward_refusal(topo, parent, from.kind, &name, now) {
            Some(refusal) => Err(refusal),
            None => Ok(beacon_of(topo, name, parent, from.kind)),
        }
    }
}
