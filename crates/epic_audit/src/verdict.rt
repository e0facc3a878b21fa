//! What the ledger says of a hop that a router accepted.
ghost use Rattle.std.specs.Prelude.{◌≡◌, ◌<◌, ◌↔◌, IsTrue};
ghost use Rattle.epic_layout.specs.Contents.{hop_count};
ghost use Rattle.epic_topo.specs.Network.{has};
ghost use Rattle.epic_num.specs.declared.key_name.Holder.TheVariants.{As};
ghost use Rattle.epic_num.specs.Holders.{holders};
ghost use Rattle.epic_fields.specs.PacketTags as packet_tags;
ghost use Rattle.epic_fields.specs.HopChecks.{hop_name, has_field, has_link};
ghost use Rattle.epic_ledger.specs.Facts.{facts_of};
ghost use Rattle.epic_ledger.specs.Lawful.{IsLawful};
ghost use Rattle.epic_audit.specs.Clauses.{HopOk};
ghost use Rattle.epic_audit.specs.Holds.{Holds, AtHop};
ghost use Rattle.epic_audit.specs.Kept.{Kept};
ghost use Rattle.epic_audit.specs.Reveals as reveals;
ghost use Rattle.epic_audit.specs.Searches as searches;
ghost use Rattle.epic_audit.specs.Verdicts as verdicts;
ghost use Rattle.epic_audit.specs.Verdicts.{IsProved};

use crate::issues::first_twin;
use crate::linking::broken_chain;
use crate::naming::opened_at;
use crate::reveals::reveal_step;
use crate::sources::{source_of, twin_sent};
use epic_fields::{field_name, sigma};
use epic_ledger::Ledger;
use epic_num::{
    AsId, Collision, ForgedKind, Forgery, Holder, HopName, KeyName, Part, Verdict, is_tagged,
    is_timed,
};
use epic_topo::Topology;
use epic_view::PacketRef;

/// At levels 1 to 3, the name of the first issue that is of the AS of `x` and has its authenticator.
#[tactic(auto, unfolding(crate::specs::Verdicts::twin_issue))]
fn twin_issue(
    ledger: &Ledger,
    topo: &Topology,
    x: &HopName,
    packet: &PacketRef<'_>,
) -> Option<HopName>
    requires { IsTrue (has topo.now x.now.asn) }
    ensures { result ≡ verdicts.twin_issue topo.now (facts_of ledger.now.history) x.now packet.now }
{
    if !is_timed(packet.first_byte()) {
        return None;
    }
    first_twin(ledger, topo, x)
}

/// The verdict of a hop that wasn't issued.
fn unissued(
    ledger: &Ledger,
    topo: &Topology,
    x: &HopName,
    packet: &PacketRef<'_>,
    hop: u8,
) -> Verdict
    requires { IsTrue (has topo.now x.now.asn) }
    ensures { let f = facts_of ledger.now.history in result ≡ searches.unissued_lines x.now hop (reveals.reveal_step f.reveals (As x.now.asn)) (verdicts.twin_issue topo.now f x.now packet.now) }
{
    if let Some(step) = reveal_step(ledger, &Holder::As(x.asn)) {
        return Verdict::Opened { step };
    }
    match twin_issue(ledger, topo, x, packet) {
        Some(twin) => Verdict::Collided(Collision {
            part: Part::Sigma,
            left: *x,
            right: twin,
        }),
        None => Verdict::Forged(Forgery {
            kind: ForgedKind::Issue,
            hop,
            key: KeyName::Fwd {
                a: x.asn,
                g: x.generation,
            },
            generation: x.generation,
        }),
    }
}

/// The verdict of a hop that was issued and is chained, and whose field its source didn't make.
fn unsourced(
    ledger: &Ledger,
    topo: &Topology,
    x: &HopName,
    packet: &PacketRef<'_>,
    hop: u8,
) -> Verdict
    requires lawful { IsLawful ledger.now.history }
    requires known { IsTrue (has topo.now x.now.asn) }
    ensures { let f = facts_of ledger.now.history in let p = packet.now in let key = packet_tags.field_name topo.now x.now.asn p in result ≡ searches.unsourced_lines x.now hop key (reveals.least_step f.reveals (holders key)) (searches.if_twin topo.now x.now (searches.sent_like f p) (searches.name_sent f p hop)) }
{
    let key = field_name(topo, x.asn, packet);
    if let Some(step) = opened_at(ledger, &key) {
        return Verdict::Opened { step };
    }
    match twin_sent(ledger, topo, x, &sigma(topo, x), packet, hop) {
        Some(other) => Verdict::Collided(Collision {
            part: Part::Sigma,
            left: *x,
            right: other,
        }),
        None => Verdict::Forged(Forgery {
            kind: ForgedKind::Field,
            hop,
            key,
            generation: x.generation,
        }),
    }
}

/// The verdict of the hop `x`, line by line.
#[tactic(auto, unfolding(crate::specs::Searches::hop_found))]
pub(crate) fn lines(
    ledger: &Ledger,
    topo: &Topology,
    x: &HopName,
    packet: &PacketRef<'_>,
    hop: u8,
) -> Verdict
    requires lawful { IsLawful ledger.now.history }
    requires known { IsTrue (has topo.now x.now.asn) }
    requires within { hop < hop_count packet.now }
    ensures { result ≡ searches.hop_found topo.now (facts_of ledger.now.history) x.now packet.now hop }
{
    let Some(issue) = ledger.issue_of(x) else {
        return unissued(ledger, topo, x, packet, hop);
    };
    if let Some((left, right)) = broken_chain(ledger, x, packet, hop) {
        return Verdict::Collided(Collision {
            part: Part::Link,
            left,
            right,
        });
    }
    if !is_tagged(packet.first_byte()) {
        return Verdict::Proved { issue, send: 0 };
    }
    match source_of(ledger, x, packet, hop) {
        Some(send) => Verdict::Proved { issue, send },
        None => unsourced(ledger, topo, x, packet, hop),
    }
}

/// The verdict of hop `hop` of a packet, as it came in, that a router of the AS `a` accepted under a generation of its key.
pub fn verdict_hop(
    ledger: &Ledger,
    topo: &Topology,
    a: AsId,
    generation: u32,
    packet: &PacketRef<'_>,
    hop: u8,
) -> Verdict
    requires kept { Kept topo.now (facts_of ledger.now.history) }
    requires known { IsTrue (has topo.now a) }
    requires within { hop < hop_count packet.now }
    requires field_right { IsTrue (has_field topo.now (hop_name a generation packet.now hop) packet.now hop) }
    requires link_right { IsTrue (has_link topo.now (hop_name a generation packet.now hop) packet.now hop) }
    ensures verdict { result ≡ verdicts.hop_verdict topo.now (facts_of ledger.now.history) (hop_name a generation packet.now hop) packet.now hop }
    ensures exact { IsProved result ↔ HopOk (facts_of ledger.now.history) (hop_name a generation packet.now hop) packet.now hop }
    ensures holds { Holds topo.now (facts_of ledger.now.history) packet.now (AtHop a generation hop) result }
{
    let _events = ledger.events();
    let _shape = packet.shape();
    let x = HopName {
        asn: a,
        generation,
        body: packet.body(hop),
    };
    lines(ledger, topo, &x, packet, hop)
}
