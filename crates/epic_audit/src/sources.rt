//! What a packet's source sent.
ghost use Rattle.std.specs.Prelude.{◌≡◌, IsTrue};
ghost use Rattle.epic_num.specs.Chains.{name_of};
ghost use Rattle.epic_topo.specs.Network.{has};
ghost use Rattle.epic_fields.specs.Tags as tags;
ghost use Rattle.epic_ledger.specs.Facts.{facts_of};
ghost use Rattle.epic_ledger.specs.Lawful.{IsLawful};
ghost use Rattle.epic_audit.specs.Searches as searches;

use crate::twins::is_twin;
use epic_ledger::Ledger;
use epic_num::{HopName, same_host, same_name};
use epic_topo::Topology;
use epic_view::PacketRef;

/// The first packet that the packet's source sent with its timestamp, and its emission.
#[tactic(auto, unfolding(crate::specs::Searches::first_sent))]
fn first_sent<'a>(ledger: &'a Ledger, packet: &PacketRef<'_>) -> Option<(u32, PacketRef<'a>)>
    requires { IsLawful ledger.now.history }
    ensures { result ≡ searches.first_sent (facts_of ledger.now.history) packet.now }
{
    let number = ledger.send_of(packet.src(), packet.ts())?;
    match ledger.packet(number) {
        Some(sent) => Some((number, sent)),
        None => None,
    }
}

/// Its emission, where it has the packet's first byte.
#[tactic(auto, unfolding(crate::specs::Searches::sent_like))]
fn sent_like(ledger: &Ledger, packet: &PacketRef<'_>) -> Option<u32>
    requires { IsLawful ledger.now.history }
    ensures { result ≡ searches.sent_like (facts_of ledger.now.history) packet.now }
{
    match first_sent(ledger, packet) {
        Some((number, sent)) if sent.first_byte() == packet.first_byte() => Some(number),
        _ => None,
    }
}

/// Its name at a hop.
pub fn name_sent(ledger: &Ledger, packet: &PacketRef<'_>, hop: u8) -> Option<HopName>
    ensures { result ≡ searches.name_sent (facts_of ledger.now.history) packet.now hop }
{
    match ledger.send_hop(packet.src(), packet.ts(), hop) {
        Some(number) => issue_name(ledger, number),
        None => None,
    }
}

/// The name of the issue of a number.
#[tactic(auto, unfolding(epic_num::specs::Chains::name_of))]
fn issue_name(ledger: &Ledger, number: u32) -> Option<HopName>
    ensures { result ≡ name_of (facts_of ledger.now.history).issues number }
{
    match ledger.issue(number) {
        Some((name, _)) => Some(name),
        None => None,
    }
}

/// The emission of the packet that the source sent with the packet's first byte and timestamp, where it was sent over the
/// hop `x`.
pub fn source_of(ledger: &Ledger, x: &HopName, packet: &PacketRef<'_>, hop: u8) -> Option<u32>
    requires { IsLawful ledger.now.history }
    ensures { let f = facts_of ledger.now.history in result ≡ searches.if_named x.now (searches.sent_like f packet.now) (searches.name_sent f packet.now hop) }
{
    let number = sent_like(ledger, packet)?;
    match name_sent(ledger, packet, hop) {
        Some(name) if same_name(&name, x) => Some(number),
        _ => None,
    }
}

/// The hop that this packet has in the place of `x`, where it is another of the same AS and authenticator.
pub fn twin_sent(
    ledger: &Ledger,
    topo: &Topology,
    x: &HopName,
    own: &[u8; 16],
    packet: &PacketRef<'_>,
    hop: u8,
) -> Option<HopName>
    requires lawful { IsLawful ledger.now.history }
    requires known { IsTrue (has topo.now x.now.asn) }
    requires own { own.now ≡ tags.sigma topo.now x.now }
    ensures { let f = facts_of ledger.now.history in result ≡ searches.if_twin topo.now x.now (searches.sent_like f packet.now) (searches.name_sent f packet.now hop) }
{
    if sent_like(ledger, packet).is_none() {
        return None;
    }
    match name_sent(ledger, packet, hop) {
        Some(name) if is_twin(topo, x, own, &name) => Some(name),
        _ => None,
    }
}

/// Whether the sent packet has the first byte, destination, path bytes and payload of the packet.
#[tactic(auto, unfolding(crate::specs::Searches::is_alike, epic_ledger::specs::Queries::same_path))]
fn is_alike(packet: &PacketRef<'_>, sent: &PacketRef<'_>) -> bool
    ensures { result ≡ searches.is_alike packet.now sent.now }
{
    sent.first_byte() == packet.first_byte()
        && same_host(sent.dst(), packet.dst())
        && sent.same_path(packet)
        && sent.payload() == packet.payload()
}

/// The emission of the packet that was sent as this one is, and how many hops it has.
pub fn sent_as(ledger: &Ledger, packet: &PacketRef<'_>) -> Option<(u32, u8)>
    requires { IsLawful ledger.now.history }
    ensures { result ≡ searches.if_alike packet.now (searches.first_sent (facts_of ledger.now.history) packet.now) }
{
    match first_sent(ledger, packet) {
        Some((number, sent)) if is_alike(packet, &sent) => Some((number, sent.shape().hops)),
        _ => None,
    }
}
