//! What the ledger says of a packet that its destination took.
ghost use Rattle.std.specs.Prelude.{◌≡◌, ◌↔◌, ◌≤◌, true, IsTrue};
ghost use Rattle.epic_num.specs.Levels.{is_tagged};
ghost use Rattle.epic_layout.specs.Contents.{hop_count};
ghost use Rattle.epic_topo.specs.Network.{has};
ghost use Rattle.epic_fields.specs.PacketTags.{dest_field_of, dest_name};
ghost use Rattle.epic_ledger.specs.Facts.{facts_of};
ghost use Rattle.epic_ledger.specs.Lawful.{IsLawful};
ghost use Rattle.epic_num.specs.Holders.{holders};
ghost use Rattle.epic_audit.specs.Clauses.{DestOk};
ghost use Rattle.epic_audit.specs.Holds.{Holds, AtDest};
ghost use Rattle.epic_audit.specs.Kept.{Kept};
ghost use Rattle.epic_layout.specs.Updates.{own_updates};
ghost use Rattle.epic_audit.specs.Reveals as reveals;
ghost use Rattle.epic_audit.specs.Searches as searches;
ghost use Rattle.epic_audit.specs.Verdicts as verdicts;
ghost use Rattle.epic_audit.specs.Verdicts.{IsProved};

use crate::accepted::first_twin;
use crate::naming::opened_at;
use crate::sources::sent_as;
use crate::uncovered::{Uncovered, first_open};
use crate::updates::has_update;
use epic_fields::{dest_name, field_name};
use epic_ledger::Ledger;
use epic_num::{Collision, ForgedKind, Forgery, Part, Verdict, is_tagged};
use epic_topo::Topology;
use epic_view::PacketRef;

/// The verdict of a packet without provenance, whose fields don't say more.
pub(crate) fn unsent(ledger: &Ledger, topo: &Topology, packet: &PacketRef<'_>) -> Verdict
    ensures { let key = dest_name topo.now packet.now in result ≡ verdicts.opened_or_forged key (reveals.least_step (facts_of ledger.now.history).reveals (holders key)) }
{
    let key = dest_name(topo, packet);
    match opened_at(ledger, &key) {
        Some(step) => Verdict::Opened { step },
        None => Verdict::Forged(Forgery {
            kind: ForgedKind::Dest,
            hop: 0,
            key,
            generation: 0,
        }),
    }
}

/// The verdict of a packet that was sent so and has the update of a hop that no router gave it out at.
fn updated(ledger: &Ledger, topo: &Topology, packet: &PacketRef<'_>, hop: &Uncovered) -> Verdict
    requires lawful { IsLawful ledger.now.history }
    requires known { IsTrue (has topo.now hop.now.name.asn) }
    ensures { result ≡ searches.updated_lines topo.now packet.now hop.now (verdicts.twin_pass topo.now (facts_of ledger.now.history) packet.now hop.now) }
{
    match first_twin(ledger, topo, packet, hop) {
        Some(twin) => Verdict::Collided(Collision {
            part: Part::Sigma,
            left: twin,
            right: hop.name,
        }),
        None => Verdict::Forged(Forgery {
            kind: ForgedKind::Update,
            hop: hop.hop,
            key: field_name(topo, hop.name.asn, packet),
            generation: hop.name.generation,
        }),
    }
}

/// The verdict of a packet that was sent so, and has so many hops.
fn sent(ledger: &Ledger, topo: &Topology, packet: &PacketRef<'_>, number: u32, hops: u8) -> Verdict
    requires lawful { IsLawful ledger.now.history }
    requires kept { Kept topo.now (facts_of ledger.now.history) }
    requires tagged { IsTrue (is_tagged packet.now.first) }
    requires hops { hops ≤ hop_count packet.now }
    ensures { result ≡ searches.sent_lines topo.now (facts_of ledger.now.history) packet.now number (searches.first_open (facts_of ledger.now.history) packet.now hops) }
{
    match first_open(ledger, packet, hops) {
        Some(hop) if has_update(topo, packet, &hop) => updated(ledger, topo, packet, &hop),
        Some(_) => unsent(ledger, topo, packet),
        None => Verdict::Proved {
            issue: 0,
            send: number,
        },
    }
}

/// The verdict of a packet that its destination took, line by line.
#[tactic(auto, unfolding(crate::specs::Searches::dest_found))]
fn lines(ledger: &Ledger, topo: &Topology, packet: &PacketRef<'_>) -> Verdict
    requires lawful { IsLawful ledger.now.history }
    requires kept { Kept topo.now (facts_of ledger.now.history) }
    ensures { result ≡ searches.dest_found topo.now (facts_of ledger.now.history) packet.now }
{
    let _shape = packet.shape();
    if !is_tagged(packet.first_byte()) {
        return Verdict::Unclaimed;
    }
    match sent_as(ledger, packet) {
        Some((number, hops)) => sent(ledger, topo, packet, number, hops),
        None => unsent(ledger, topo, packet),
    }
}

/// The verdict of a packet that its destination took.
pub fn verdict_dest(ledger: &Ledger, topo: &Topology, packet: &PacketRef<'_>) -> Verdict
    requires kept { Kept topo.now (facts_of ledger.now.history) }
    requires known { IsTrue (has topo.now packet.now.dst.asn) }
    requires dest_field_right { IsTrue (is_tagged packet.now.first) → packet.now.dest_field ≡ dest_field_of topo.now packet.now (own_updates packet.now) }
    ensures verdict { result ≡ verdicts.dest_verdict topo.now (facts_of ledger.now.history) packet.now }
    ensures exact { IsProved result ↔ IsTrue (is_tagged packet.now.first) × DestOk (facts_of ledger.now.history) packet.now }
    ensures holds { Holds topo.now (facts_of ledger.now.history) packet.now AtDest result }
{
    let _events = ledger.events();
    let _shape = packet.shape();
    lines(ledger, topo, packet)
}
