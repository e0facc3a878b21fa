//! New hops: their links, bodies and tags.
ghost use Rattle.std.specs.Prelude.{◌≡◌, ◌≢◌, OnSome, ◌<◌, ◌≤◌, IsTrue, IsSome};
ghost use Rattle.epic_topo.specs.Network.{has, neighbour};
ghost use Rattle.epic_beacon.specs.Issuing.{beacon_of, behind, first_name, kind_by, link_at, next_name};
ghost use Rattle.epic_beacon.specs.Store.{store_of};

use crate::{Beacon, Beacons};
use epic_fields::{link, sigma};
use epic_num::{AsId, Body, HopName, MAX_MOMENT, SegKind};
use epic_topo::{LinkKind, Topology};

/// What the link at an interface is for the AS.
#[tactic(auto, unfolding(crate::specs::Issuing::link_at))]
pub(crate) fn link_at(topo: &Topology, a: AsId, out: u16) -> Option<LinkKind>
    ensures value { result ≡ link_at topo.now a out }
    ensures some_interface { OnSome result (out ≢ 0) }
{
    match topo.neighbour(a, out) {
        Some((_, _, link)) => Some(link),
        None => None,
    }
}

/// The AS and the interface at the other end of the link at a hop's egress.
#[tactic(auto, unfolding(crate::specs::Issuing::behind))]
fn behind(topo: &Topology, x: &HopName) -> (AsId, u16)
    requires { IsSome (neighbour topo.now x.now.asn x.now.body.out) }
    ensures asn { result.0 ≡ (behind topo.now x.now).0 }
    ensures iface { result.1 ≡ (behind topo.now x.now).1 }
    ensures known { IsTrue (has topo.now result.0) }
{
    match topo.neighbour(x.asn, x.body.out) {
        Some((asn, iface, _)) => (asn, iface),
        None => unreachable!(),
    }
}

/// What a chain is made of whose first link is this.
#[tactic(auto, unfolding(crate::specs::Issuing::kind_by))]
pub(crate) fn kind_by(link: LinkKind) -> SegKind
    ensures { result ≡ kind_by link }
{
    match link {
        LinkKind::Core => SegKind::Core,
        LinkKind::Parent => SegKind::Child,
        LinkKind::Child => SegKind::Child,
    }
}

/// A hop with its authenticator.
#[tactic(auto, unfolding(crate::specs::Issuing::beacon_of))]
pub(crate) fn beacon_of(topo: &Topology, name: HopName, parent: u32, kind: SegKind) -> Beacon
    requires { IsTrue (has topo.now name.asn) }
    ensures value { result ≡ beacon_of topo.now name parent kind }
    ensures name { result.name ≡ name }
    ensures parent { result.parent ≡ parent }
{
    Beacon {
        name,
        parent,
        sigma: sigma(topo, &name),
        kind,
    }
}

impl Beacons {
    // The first hop of a chain.
    #[tactic(auto, unfolding(crate::specs::Issuing::first_name))]
    pub(crate) fn first_name(&self, a: AsId, out: u16, exp: u8, now: u64) -> HopName
        requires { now ≤ MAX_MOMENT }
        ensures value { result ≡ first_name (store_of self.now) a out exp now }
        ensures egress { result.body.out ≡ out }
    {
        HopName {
            asn: a,
            generation: self.generation(a),
            body: Body {
                pos: 1,
                exp,
                ts_path: (now / 1_000_000) as u32,
                inn: 0,
                out,
                link: [0; 8],
            },
        }
    }

    // The hop behind another hop's egress.
    #[tactic(auto, unfolding(crate::specs::Issuing::next_name))]
    pub(crate) fn next_name(&self, topo: &Topology, x: &HopName, out: u16, exp: u8) -> HopName
        requires known { IsTrue (has topo.now x.now.asn) }
        requires linked { IsSome (neighbour topo.now x.now.asn x.now.body.out) }
        requires room { x.now.body.pos < 255 }
        ensures value { result ≡ next_name topo.now (store_of self.now) x.now out exp }
        ensures known { IsTrue (has topo.now result.asn) }
    {
        let (asn, inn) = behind(topo, x);
        HopName {
            asn,
            generation: self.generation(asn),
            body: Body {
                pos: x.body.pos + 1,
                exp,
                ts_path: x.body.ts_path,
                inn,
                out,
                link: link(topo, x),
            },
        }
    }
}
