//! Searches among the hops that routers accepted.
ghost use Rattle.std.specs.Prelude.{◌≡◌, ◌+◌, ◌<◌, ◌∷◌, length, drop, IsTrue, IsSome};
ghost use Rattle.epic_topo.specs.Network.{has};
ghost use Rattle.epic_fields.specs.Tags as tags;
ghost use Rattle.epic_ledger.specs.Facts.{packet_at};
ghost use Rattle.epic_ledger.specs.History.{emission_at};
ghost use Rattle.epic_ledger.specs.Lawful.{IsLawful};
ghost use Rattle.epic_audit.specs.Searches as searches;
ghost use Rattle.epic_audit.specs.Searches.{PassFits, find_map};

use crate::twins::is_twin;
use crate::uncovered::Uncovered;
use epic_fields::sigma;
use epic_ledger::{Event, Ledger};
use epic_num::{HopName, same_host};
use epic_topo::Topology;
use epic_view::PacketRef;

/// The event at an index, from 0.
fn event_at(ledger: &Ledger, index: u64) -> &Event
    requires lawful { IsLawful ledger.now.history }
    requires there { index < length ledger.now.history.events }
    ensures here { drop index ledger.now.history.events ≡ result.now ∷ drop (index + 1) ledger.now.history.events }
    ensures fits { PassFits ledger.now.history.emissions result.now }
{
    match ledger.event(index) {
        Some(event) => event,
        None => unreachable!(),
    }
}

/// The name of the hop that the event says was accepted, where that is at the index of `hop`, of a packet with the first
/// byte, source and timestamp of this one, and is of the AS of `hop` and has its authenticator.
#[tactic(auto, unfolding(crate::specs::Searches::twin_at, crate::specs::Verdicts::is_twin_pass, epic_ledger::specs::Facts::as_pass, epic_ledger::specs::Facts::pass_name))]
fn twin_at(
    ledger: &Ledger,
    topo: &Topology,
    packet: &PacketRef<'_>,
    hop: &Uncovered,
    own: &[u8; 16],
    event: &Event,
) -> Option<HopName>
    requires fits { PassFits ledger.now.history.emissions event.now }
    requires known { IsTrue (has topo.now hop.now.name.asn) }
    requires own { own.now ≡ tags.sigma topo.now hop.now.name }
    ensures { result ≡ searches.twin_at topo.now packet.now hop.now ledger.now.history.emissions event.now }
{
    if let Event::Pass {
        a,
        hop: index,
        generation,
        emission,
        ..
    } = event
    {
        let accepted = packet_of(ledger, *emission);
        if *index == hop.hop
            && accepted.ts() == packet.ts()
            && accepted.first_byte() == packet.first_byte()
            && same_host(accepted.src(), packet.src())
        {
            let name = HopName {
                asn: *a,
                generation: *generation,
                body: accepted.body(*index),
            };
            if is_twin(topo, &hop.name, own, &name) {
                return Some(name);
            }
        }
    }
    None
}

/// The packet of an emission that is there.
fn packet_of(ledger: &Ledger, emission: u32) -> PacketRef<'_>
    requires { IsSome (emission_at ledger.now.history.emissions emission) }
    ensures { result ≡ packet_at ledger.now.history.emissions emission }
{
    match ledger.packet(emission) {
        Some(packet) => packet,
        None => unreachable!(),
    }
}

/// The first of them.
pub fn first_twin(
    ledger: &Ledger,
    topo: &Topology,
    packet: &PacketRef<'_>,
    hop: &Uncovered,
) -> Option<HopName>
    requires lawful { IsLawful ledger.now.history }
    requires known { IsTrue (has topo.now hop.now.name.asn) }
    ensures { result ≡ find_map (searches.twin_at topo.now packet.now hop.now ledger.now.history.emissions) ledger.now.history.events }
{
    let own = sigma(topo, &hop.name);
    for index in 0..ledger.events() {
        if let Some(name) = twin_at(ledger, topo, packet, hop, &own, event_at(ledger, index)) {
            return Some(name);
        }
    }
    None
}
