//! Whether a hop is chained to the one that was passed before it.
ghost use Rattle.std.specs.Prelude.{◌≡◌, ◌<◌};
ghost use Rattle.epic_layout.specs.Contents.{hop_count};
ghost use Rattle.epic_ledger.specs.Facts.{facts_of};
ghost use Rattle.epic_ledger.specs.Lawful.{IsLawful};
ghost use Rattle.epic_audit.specs.Clauses.{higher, lower};
ghost use Rattle.epic_audit.specs.Searches as searches;
ghost use Rattle.epic_audit.specs.Verdicts as verdicts;

use crate::issues::broken_between;
use epic_ledger::Ledger;
use epic_num::HopName;
use epic_view::PacketRef;

/// The two names at which the chain breaks between two neighbours in a segment.
#[tactic(auto, unfolding(crate::specs::Clauses::higher, crate::specs::Clauses::lower))]
fn broken_at(ledger: &Ledger, w: &HopName, x: &HopName) -> Option<(HopName, HopName)>
    ensures { result ≡ verdicts.broken_between (facts_of ledger.now.history).issues (higher w.now x.now) (lower w.now x.now) }
{
    if w.body.pos < x.body.pos {
        broken_between(ledger, x, w)
    } else {
        broken_between(ledger, w, x)
    }
}

/// The hop that was passed before this one in its segment: the first that was accepted on a packet with these path bytes.
fn passed_before(ledger: &Ledger, packet: &PacketRef<'_>, hop: u8) -> Option<HopName>
    requires lawful { IsLawful ledger.now.history }
    requires within { hop < hop_count packet.now }
    ensures { result ≡ searches.passed_before (facts_of ledger.now.history) packet.now hop }
{
    let _shape = packet.shape();
    if packet.is_first(hop) {
        return None;
    }
    match ledger.chain_pass(packet, hop - 1) {
        Some((asn, generation, _)) => Some(HopName {
            asn,
            generation,
            body: packet.body(hop - 1),
        }),
        None => None,
    }
}

/// The two names at which the chain of the hop `x` breaks: a hop, and the parent of the first issue of the hop that comes
/// next in construction order.
pub fn broken_chain(
    ledger: &Ledger,
    x: &HopName,
    packet: &PacketRef<'_>,
    hop: u8,
) -> Option<(HopName, HopName)>
    requires lawful { IsLawful ledger.now.history }
    requires within { hop < hop_count packet.now }
    ensures { result ≡ verdicts.broken_chain (facts_of ledger.now.history) x.now packet.now hop }
{
    match passed_before(ledger, packet, hop) {
        Some(w) => broken_at(ledger, &w, x),
        None => None,
    }
}
