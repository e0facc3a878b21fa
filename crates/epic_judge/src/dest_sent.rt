//! Packets that were sent as one that a destination took, and their hops that no router is known to have passed it on at.
ghost use Rattle.std.specs.Prelude.{◌≡◌, ◌==◌, ◌&&◌, ◌<◌, find, option_map, None, IfSome, if◌then◌else◌, IsTrue};
ghost use Rattle.std.specs.List.{range_with_len};
ghost use Rattle.epic_layout.specs.Contents.{hop_count};
ghost use Rattle.epic_topo.specs.Network.{has};
ghost use Rattle.epic_ledger.specs.Facts.{facts_of};
ghost use Rattle.epic_audit.specs.Clauses as clauses;
ghost use Rattle.epic_audit.specs.Searches.{is_passed};
ghost use Rattle.epic_audit.specs.Verdicts as verdicts;
ghost use Rattle.epic_index.specs.Events.{send_at};
ghost use Rattle.epic_judge.specs.Known.{AreKnown};
ghost use Rattle.epic_judge.specs.Sendings as sendings;
ghost use Rattle.epic_judge.specs.Sendings.{IsOver, IsSending, IsSentAs};
ghost use Rattle.epic_judging.specs.Given as given;
ghost use Rattle.epic_ledger.specs.Queries.{same_path};

use epic_index::Index;
use epic_num::{Holder, HopName, is_updated};
use epic_view::PacketRef;

// ---- the packet as which it was sent

/// Where the index has a packet that was sent.
#[derive(Clone, Copy)]
pub struct Sending {
    /// Its emission.
    pub emission: u32,
    /// How many hops it has.
    pub hops: u8,
    /// The number of the event by which it was sent, from 0.
    pub event: u32,
}

/// What was sent by an event, as which the packet was sent.
fn sending_at(index: &Index<'_>, packet: &PacketRef<'_>, number: u32) -> Option<Sending>
    requires { send_at index.now.history number ≡ clauses.sent_as (facts_of index.now.history).sends packet.now }
    ensures { IsSentAs index.now.history packet.now result }
{
    let _shape = packet.shape();
    match index.sent_at(number as u64) {
        Some((emission, sent)) => {
            let hops = sent.shape().hops;
            Some(Sending {
                emission,
                hops,
                event: number,
            })
        }
        None => None,
    }
}

/// The first packet that was sent as the packet is.
pub fn sent_as(index: &Index<'_>, packet: &PacketRef<'_>) -> Option<Sending>
    ensures { IsSentAs index.now.history packet.now result }
{
    match index.sent_as(packet) {
        Some(number) => sending_at(index, packet, number),
        None => None,
    }
}

// ---- the one packet of its source and timestamp

/// The name of the hop of this packet, where it has the first byte and the path of the packet.
#[tactic(auto, unfolding(epic_ledger::specs::Queries::same_path))]
fn name_if_over(
    packet: &PacketRef<'_>,
    sent: &PacketRef<'_>,
    name: Option<HopName>,
) -> Option<HopName>
    ensures { result ≡ (if sent.now.first == packet.now.first && same_path sent.now.route packet.now.route then name else None) }
{
    if sent.first_byte() == packet.first_byte() && sent.same_path(packet) {
        name
    } else {
        None
    }
}

/// The name of the hop of the packet that the event sent, where it is the one of its source with its timestamp, and has the
/// first byte and the path of the packet.
fn over_at(index: &Index<'_>, packet: &PacketRef<'_>, hop: u8, number: u32) -> Option<HopName>
    requires facts { AreKnown index.now.network (facts_of index.now.history) }
    requires sent { send_at index.now.history number ≡ given.only_send (facts_of index.now.history).sends packet.now }
    ensures { IsOver index.now.network (facts_of index.now.history) packet.now hop result }
{
    let _shape = packet.shape();
    match index.sent_at(number as u64) {
        Some((_, sent)) => {
            let _sent_shape = sent.shape();
            let name = index.sent_name_at(number as u64, hop);
            name_if_over(packet, &sent, name)
        }
        None => None,
    }
}

/// The same of any event.
pub fn sent_over(index: &Index<'_>, packet: &PacketRef<'_>, hop: u8) -> Option<HopName>
    requires { AreKnown index.now.network (facts_of index.now.history) }
    ensures { IsOver index.now.network (facts_of index.now.history) packet.now hop result }
{
    match index.only_send(packet) {
        Some(number) => over_at(index, packet, hop, number),
        None => None,
    }
}

// ---- hops that aren't covered

/// The name of the hop of the packet that the event sent.
#[tactic(auto, unfolding(crate::specs::Sendings::name_by, epic_index::specs::Events::sent_name_at))]
fn name_by(index: &Index<'_>, event: u32, hop: u8) -> Option<HopName>
    ensures { result ≡ sendings.name_by index.now.history event hop }
{
    index.sent_name_at(event as u64, hop)
}

/// This name, which is of an AS of the topology.
fn known_name_by(index: &Index<'_>, event: u32, hop: u8) -> Option<HopName>
    requires { AreKnown index.now.network (facts_of index.now.history) }
    ensures value { result ≡ sendings.name_by index.now.history event hop }
    ensures known { IfSome result (λ x. IsTrue (has index.now.network x.asn)) }
{
    name_by(index, event, hop)
}

/// Whether a hop of this name was accepted at the index of a packet with the first byte, source and timestamp of this one.
#[tactic(auto, using(epic_audit::proofs::Passed::passed_is))]
fn is_passed(index: &Index<'_>, name: &HopName, packet: &PacketRef<'_>, hop: u8) -> bool
    ensures { result ≡ is_passed (facts_of index.now.history) name.now packet.now hop }
{
    index
        .pass_of(packet.first_byte(), name, packet.src(), packet.ts(), hop)
        .is_some()
}

/// The first of so many hops of the packet that was sent whose AS wasn't revealed and didn't accept it.
#[tactic(auto, using(epic_audit::proofs::Walked::range_here, epic_audit::proofs::Walked::range_over))]
fn first_open(
    index: &Index<'_>,
    packet: &PacketRef<'_>,
    event: u32,
    hops: u8,
) -> Option<(u8, HopName)>
    requires { AreKnown index.now.network (facts_of index.now.history) }
    ensures value { let names = sendings.name_by index.now.history event in result ≡ option_map (sendings.open_hop names) (find (sendings.is_open (facts_of index.now.history) packet.now names) (range_with_len 0 hops)) }
    ensures within { IfSome result (λ u. u.0 < hops) }
    ensures known { IfSome result (λ u. IsTrue (has index.now.network u.1.asn)) }
{
    for hop in 0..hops {
        if let Some(name) = known_name_by(index, event, hop) {
            if !(index.is_revealed(&Holder::As(name.asn)) || is_passed(index, &name, packet, hop)) {
                return Some((hop, name));
            }
        }
    }
    None
}

/// Whether no router has to have passed the packet on: below level 3, or where its source was revealed.
fn is_exempt(index: &Index<'_>, packet: &PacketRef<'_>) -> bool
    ensures { result ≡ sendings.is_exempt (facts_of index.now.history) packet.now }
{
    let src = packet.src();
    !is_updated(packet.first_byte())
        || (index.is_revealed(&Holder::Host(src)) || index.is_revealed(&Holder::As(src.asn)))
}

/// The first hop that isn't covered, and its name, of the packet as which this one was sent.
pub fn uncovered_in(
    index: &Index<'_>,
    packet: &PacketRef<'_>,
    sending: &Sending,
) -> Option<(u8, HopName)>
    requires facts { AreKnown index.now.network (facts_of index.now.history) }
    requires sent { IsSending index.now.history packet.now sending.now }
    ensures value { result ≡ option_map (λ u. (u.hop, u.name)) (verdicts.uncovered (facts_of index.now.history) packet.now) }
    ensures within { IfSome result (λ u. u.0 < hop_count packet.now) }
    ensures known { IfSome result (λ u. IsTrue (has index.now.network u.1.asn)) }
{
    if is_exempt(index, packet) {
        return None;
    }
    first_open(index, packet, sending.event, sending.hops)
}
