//! Who can have made the field of a hop of level 1.
ghost use Rattle.std.specs.Prelude.{◌≡◌, ◌<◌, ◌↔◌, IfSome, IsTrue};
ghost use Rattle.epic_num.specs.declared.hop.Level.TheVariants.{L1};
ghost use Rattle.epic_num.specs.Levels.{level_of};
ghost use Rattle.epic_layout.specs.Contents.{hop_count};
ghost use Rattle.epic_topo.specs.Network.{has};
ghost use Rattle.epic_fields.specs.HopChecks.{hop_name, has_field, has_link};
ghost use Rattle.epic_ledger.specs.Facts.{facts_of};
ghost use Rattle.epic_ledger.specs.Lawful.{IsLawful};
ghost use Rattle.epic_audit.specs.Clauses.{IsSourced};
ghost use Rattle.epic_audit.specs.Kept.{Kept};
ghost use Rattle.epic_holders.specs.Found as found;
ghost use Rattle.epic_holders.specs.MakerHolds.{MakerHolds};
ghost use Rattle.epic_holders.specs.Makers.{IsMade, maker_verdict};

use crate::opening::opened_step;
use crate::sending::sent_hop;
use epic_fields::sigma;
use epic_ledger::Ledger;
use epic_num::{AsId, HopName, same_name};
use epic_topo::Topology;
use epic_view::PacketRef;

/// Who can have made the field of an accepted hop of level 1.
#[derive(Clone, Copy, Debug, PartialEq, Eq)]
pub enum Maker {
    /// The hop was never issued: the hop's own verdict says why it was accepted.
    AsHop,
    /// The source, which sent the packet over this hop.
    Made {
        /// The number of the emission as which it was sent.
        emission: u32,
    },
    /// Whoever learned the authenticator from one of its holders.
    Opened {
        /// The step at which the first of them was revealed.
        step: u32,
    },
    /// The source, which sent a packet over another hop that has the same authenticator.
    Collided {
        /// The packet's hop.
        left: HopName,
        /// The hop over which the packet was sent.
        right: HopName,
    },
    /// Nobody who holds the authenticator.
    Forged,
}

/// The emission of the packet that was sent, where its hop is `x`.
fn made_by(x: &HopName, sent: Option<(u32, HopName)>) -> Option<u32>
    ensures { result ≡ found.made_by x.now sent }
{
    match sent {
        Some((emission, name)) if same_name(&name, x) => Some(emission),
        _ => None,
    }
}

/// The hop of the packet that was sent, where it has the authenticator of `x`.
fn other_of(topo: &Topology, x: &HopName, sent: Option<(u32, HopName)>) -> Option<HopName>
    requires known { IsTrue (has topo.now x.now.asn) }
    requires sent { IfSome sent (λ s. IsTrue (has topo.now s.1.asn)) }
    ensures { result ≡ found.other_of topo.now x.now sent }
{
    match sent {
        Some((_, name)) if sigma(topo, &name) == sigma(topo, x) => Some(name),
        _ => None,
    }
}

/// The verdict on the maker of the field of the hop `x`, line by line.
#[tactic(auto, unfolding(crate::specs::Found::maker_found))]
pub(crate) fn lines(
    ledger: &Ledger,
    topo: &Topology,
    x: &HopName,
    packet: &PacketRef<'_>,
    hop: u8,
) -> Maker
    requires lawful { IsLawful ledger.now.history }
    requires known { IsTrue (has topo.now x.now.asn) }
    requires sent { IfSome (found.sent_hop (facts_of ledger.now.history) packet.now hop) (λ s. IsTrue (has topo.now s.1.asn)) }
    ensures { result ≡ found.maker_found topo.now (facts_of ledger.now.history) x.now packet.now hop }
{
    if ledger.issue_of(x).is_none() {
        return Maker::AsHop;
    }
    let sent = sent_hop(ledger, packet, hop);
    if let Some(emission) = made_by(x, sent) {
        return Maker::Made { emission };
    }
    if let Some(step) = opened_step(ledger, x) {
        return Maker::Opened { step };
    }
    match other_of(topo, x, sent) {
        Some(right) => Maker::Collided { left: *x, right },
        None => Maker::Forged,
    }
}

/// Who can have made the field of hop `hop` of a packet of level 1, as it came in, that a router of the AS `a` accepted under a
/// generation of its key. It takes no memory. Where the source sent the packet so, it only looks things up. Else it walks
/// along the events for the holders that were revealed, and where there are some, asks `holds` of each until one holds the
/// hop's authenticator.
pub fn maker_of(
    ledger: &Ledger,
    topo: &Topology,
    a: AsId,
    generation: u32,
    packet: &PacketRef<'_>,
    hop: u8,
) -> Maker
    requires kept { Kept topo.now (facts_of ledger.now.history) }
    requires known { IsTrue (has topo.now a) }
    requires within { hop < hop_count packet.now }
    requires level { level_of packet.now.first ≡ L1 }
    requires field_right { IsTrue (has_field topo.now (hop_name a generation packet.now hop) packet.now hop) }
    requires link_right { IsTrue (has_link topo.now (hop_name a generation packet.now hop) packet.now hop) }
    ensures verdict { result ≡ maker_verdict topo.now (facts_of ledger.now.history) (hop_name a generation packet.now hop) packet.now hop }
    ensures exact { IsMade result ↔ IsSourced (facts_of ledger.now.history) (hop_name a generation packet.now hop) packet.now hop }
    ensures holds { MakerHolds topo.now (facts_of ledger.now.history) (hop_name a generation packet.now hop) packet.now hop result }
{
    let _events = ledger.events();
    let _shape = packet.shape();
    let x = HopName {
        asn: a,
        generation,
        body: packet.body(hop),
    };
    lines(ledger, topo, &x, packet, hop)
}
