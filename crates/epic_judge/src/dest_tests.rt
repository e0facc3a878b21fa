//! Whether a verdict is true of a packet at its destination: a test for each form of verdict.
ghost use Rattle.std.specs.Prelude.{◌≡◌, ◌==◌, ◌<◌, ◌&&◌, not, false, bytes_eq, is_none, option_map, IfSome, IsTrue};
ghost use Rattle.epic_num.specs.declared.verdict.ForgedKind.TheVariants as kinds;
ghost use Rattle.epic_num.specs.Holders.{holders};
ghost use Rattle.epic_num.specs.Levels.{is_tagged};
ghost use Rattle.epic_num.specs.Moments.{epoch_of};
ghost use Rattle.epic_num.specs.Same.{same_key, same_name};
ghost use Rattle.epic_layout.specs.Contents.{field, hop_count};
ghost use Rattle.epic_layout.specs.Spelling.{dest_message};
ghost use Rattle.epic_layout.specs.Updates.{own_updates};
ghost use Rattle.epic_topo.specs.Network.{has};
ghost use Rattle.epic_fields.specs.PacketTags as packet_tags;
ghost use Rattle.epic_ledger.specs.Facts.{facts_of};
ghost use Rattle.epic_audit.specs.Verdicts as verdicts;
ghost use Rattle.epic_judging.specs.DestTests as tests;
ghost use Rattle.epic_judging.specs.Given as given;
ghost use Rattle.epic_judge.specs.Known.{AreKnown};

use crate::dest_made::made_dest;
use crate::dest_sent::{sent_as, uncovered_in};
use crate::reveals::{key_revealed_at, key_unrevealed};
use crate::tags::one_sigma;
use epic_cmac::cmac;
use epic_fields::{carries_field, dest_name, field_name, hop_message, update_of};
use epic_index::Index;
use epic_keys::derive;
use epic_num::{Collision, HopName, KeyName, is_tagged, same_key, same_name};
use epic_topo::Topology;
use epic_view::PacketRef;

// ---- provenance

/// Whether the provenance of the packet is there.
fn dest_ok(index: &Index<'_>, packet: &PacketRef<'_>) -> bool
    requires { AreKnown index.now.network (facts_of index.now.history) }
    ensures { result ≡ given.dest_ok (facts_of index.now.history) packet.now }
{
    match sent_as(index, packet) {
        Some(sending) => {
            let hop = uncovered_in(index, packet, &sending);
            hop.is_none()
        }
        None => false,
    }
}

/// Whether a packet of this first byte, which was sent as this emission, and whose first uncovered hop this is, is proved by
/// this send.
fn proves(first: u8, hop: Option<(u8, HopName)>, emission: u32, send: u32) -> bool
    ensures { result ≡ (is_tagged first && is_none hop && emission == send) }
{
    is_tagged(first) && hop.is_none() && emission == send
}

/// Whether it is there, by the send of this emission.
pub fn dest_proved(index: &Index<'_>, packet: &PacketRef<'_>, send: u32) -> bool
    requires { AreKnown index.now.network (facts_of index.now.history) }
    ensures { result ≡ tests.dest_proved (facts_of index.now.history) packet.now 0 send }
{
    match sent_as(index, packet) {
        Some(sending) => {
            let hop = uncovered_in(index, packet, &sending);
            proves(packet.first_byte(), hop, sending.emission, send)
        }
        None => false,
    }
}

/// Whether it isn't there, and a holder of the destination field's key was revealed at the step.
#[tactic(auto, unfolding(epic_judging::specs::DestTests::dest_opened))]
pub fn dest_opened(index: &Index<'_>, packet: &PacketRef<'_>, step: u32) -> bool
    requires { AreKnown index.now.network (facts_of index.now.history) }
    ensures { result ≡ tests.dest_opened index.now.network (facts_of index.now.history) packet.now step }
{
    is_tagged(packet.first_byte())
        && !dest_ok(index, packet)
        && key_revealed_at(index, &dest_name(index.topology(), packet), step)
}

// ---- updates

/// Whether the packet has the update of the hop, of which this is the name.
fn has_update(topo: &Topology, packet: &PacketRef<'_>, hop: u8, name: &HopName) -> bool
    requires known { IsTrue (has topo.now name.now.asn) }
    requires within { hop < hop_count packet.now }
    requires tagged { IsTrue (is_tagged packet.now.first) }
    ensures { result ≡ bytes_eq (field packet.now hop) (packet_tags.update_of topo.now name.now packet.now hop) }
{
    let update = update_of(topo, name, packet, hop);
    carries_field(&update, packet, hop)
}

/// Whether a router of the hop's AS gave the update out.
fn is_given_out(index: &Index<'_>, x: &HopName, packet: &PacketRef<'_>, hop: u8) -> bool
    requires known { IsTrue (has index.now.network x.now.asn) }
    requires tagged { IsTrue (is_tagged packet.now.first) }
    ensures { result ≡ given.given_out index.now.network (facts_of index.now.history).passes x.now.asn packet.now.src (epoch_of index.now.network.profile packet.now.ts) (packet_tags.hop_message index.now.network x.now packet.now hop) }
{
    let message = hop_message(index.topology(), x, packet, hop);
    let epoch = index.topology().profile().epoch_of(packet.ts());
    index.given_out(x.asn, packet.src(), epoch, &message)
}

/// Whether the update is right, no router of the hop's AS gave it out, and its key has no holder that was revealed.
fn is_forged_update(index: &Index<'_>, x: &HopName, packet: &PacketRef<'_>, hop: u8) -> bool
    requires known { IsTrue (has index.now.network x.now.asn) }
    requires within { hop < hop_count packet.now }
    requires tagged { IsTrue (is_tagged packet.now.first) }
    ensures { let f = facts_of index.now.history in result ≡ (bytes_eq (field packet.now hop) (packet_tags.update_of index.now.network x.now packet.now hop) && not (given.given_out index.now.network f.passes x.now.asn packet.now.src (epoch_of index.now.network.profile packet.now.ts) (packet_tags.hop_message index.now.network x.now packet.now hop)) && given.none_revealed f.reveals (holders (packet_tags.field_name index.now.network x.now.asn packet.now))) }
{
    has_update(index.topology(), packet, hop, x)
        && !is_given_out(index, x, packet, hop)
        && key_unrevealed(index, &field_name(index.topology(), x.asn, packet))
}

/// The same, where the packet's provenance isn't there, and the key is the one that the hop's AS shares with its source.
pub fn update_forged(
    index: &Index<'_>,
    x: &HopName,
    packet: &PacketRef<'_>,
    hop: u8,
    key: &KeyName,
) -> bool
    requires facts { AreKnown index.now.network (facts_of index.now.history) }
    requires known { IsTrue (has index.now.network x.now.asn) }
    requires within { hop < hop_count packet.now }
    requires tagged { IsTrue (is_tagged packet.now.first) }
    ensures { let f = facts_of index.now.history in result ≡ (not (given.dest_ok f packet.now) && (bytes_eq (field packet.now hop) (packet_tags.update_of index.now.network x.now packet.now hop) && not (given.given_out index.now.network f.passes x.now.asn packet.now.src (epoch_of index.now.network.profile packet.now.ts) (packet_tags.hop_message index.now.network x.now packet.now hop)) && given.none_revealed f.reveals (holders (packet_tags.field_name index.now.network x.now.asn packet.now))) && same_key key.now (packet_tags.field_name index.now.network x.now.asn packet.now)) }
{
    !dest_ok(index, packet)
        && is_forged_update(index, x, packet, hop)
        && same_key(key, &field_name(index.topology(), x.asn, packet))
}

// ---- destination fields

/// Whether the destination field is right. The message is what it is made over.
#[tactic(auto, unfolding(epic_fields::specs::PacketTags::dest_field_of, epic_fields::specs::PacketTags::dest_name, epic_fields::specs::Formulas::dest_tag, epic_keys::specs::Keys::owner))]
fn has_dest_field(topo: &Topology, packet: &PacketRef<'_>, message: &[u8]) -> bool
    requires known { IsTrue (has topo.now packet.now.dst.asn) }
    requires message { message.now ≡ dest_message packet.now (own_updates packet.now) }
    ensures { result ≡ bytes_eq packet.now.dest_field (packet_tags.dest_field_of topo.now packet.now (own_updates packet.now)) }
{
    let key = derive(topo, &dest_name(topo, packet));
    packet.dest_field() == cmac(&key, message)
}

/// Whether the packet's source made a destination field over the message.
fn is_made(index: &Index<'_>, packet: &PacketRef<'_>, message: &[u8]) -> bool
    requires { AreKnown index.now.network (facts_of index.now.history) }
    ensures { result ≡ given.made_dest index.now.network (facts_of index.now.history) packet.now.dst packet.now.src (epoch_of index.now.network.profile packet.now.ts) message.now }
{
    let epoch = index.topology().profile().epoch_of(packet.ts());
    made_dest(index, packet.dst(), packet.src(), epoch, message)
}

/// Whether the destination field is right, its source made none over its message, and its key has no holder that was
/// revealed.
#[tactic(auto, unfolding(epic_judging::specs::DestTests::is_forged_dest))]
fn is_forged_dest(index: &Index<'_>, packet: &PacketRef<'_>, message: &[u8]) -> bool
    requires facts { AreKnown index.now.network (facts_of index.now.history) }
    requires known { IsTrue (has index.now.network packet.now.dst.asn) }
    requires tagged { IsTrue (is_tagged packet.now.first) }
    requires message { message.now ≡ dest_message packet.now (own_updates packet.now) }
    ensures { result ≡ tests.is_forged_dest index.now.network (facts_of index.now.history) packet.now }
{
    has_dest_field(index.topology(), packet, message)
        && !is_made(index, packet, message)
        && key_unrevealed(index, &dest_name(index.topology(), packet))
}

/// The same, where the packet's provenance isn't there, and the key is the one that its destination shares with its source.
#[tactic(auto, unfolding(epic_judging::specs::DestTests::dest_forged))]
pub fn dest_forged(index: &Index<'_>, packet: &PacketRef<'_>, key: &KeyName, message: &[u8]) -> bool
    requires facts { AreKnown index.now.network (facts_of index.now.history) }
    requires known { IsTrue (has index.now.network packet.now.dst.asn) }
    requires tagged { IsTrue (is_tagged packet.now.first) }
    requires message { message.now ≡ dest_message packet.now (own_updates packet.now) }
    ensures { result ≡ tests.dest_forged index.now.network (facts_of index.now.history) packet.now (record { kind = kinds.Dest; hop = 0; key = key.now; generation = 0 }) }
{
    !dest_ok(index, packet)
        && is_forged_dest(index, packet, message)
        && same_key(key, &dest_name(index.topology(), packet))
}

// ---- collisions

/// The first hop that isn't covered, and its name.
fn uncovered(index: &Index<'_>, packet: &PacketRef<'_>) -> Option<(u8, HopName)>
    requires { AreKnown index.now.network (facts_of index.now.history) }
    ensures value { result ≡ option_map (λ u. (u.hop, u.name)) (verdicts.uncovered (facts_of index.now.history) packet.now) }
    ensures within { IfSome result (λ u. u.0 < hop_count packet.now) }
    ensures known { IfSome result (λ u. IsTrue (has index.now.network u.1.asn)) }
{
    match sent_as(index, packet) {
        Some(sending) => uncovered_in(index, packet, &sending),
        None => None,
    }
}

/// Whether the first of the hop's twins that were accepted has this name.
fn is_named_twin(
    index: &Index<'_>,
    packet: &PacketRef<'_>,
    hop: u8,
    name: &HopName,
    left: &HopName,
) -> bool
    requires { IsTrue (has index.now.network name.now.asn) }
    ensures { result ≡ verdicts.is_named left.now (verdicts.twin_pass index.now.network (facts_of index.now.history) packet.now (record { hop = hop; name = name.now })) }
{
    match index.twin_pass(packet, hop, name) {
        Some(other) => same_name(&other, left),
        None => false,
    }
}

/// Whether the first of the hop's twins that were accepted is the collision's left one, and has the authenticator of its
/// right one.
fn twin_collided(
    index: &Index<'_>,
    packet: &PacketRef<'_>,
    hop: u8,
    name: &HopName,
    collision: &Collision,
) -> bool
    requires facts { AreKnown index.now.network (facts_of index.now.history) }
    requires known { IsTrue (has index.now.network name.now.asn) }
    ensures { let c = collision.now in result ≡ (verdicts.is_named c.left (verdicts.twin_pass index.now.network (facts_of index.now.history) packet.now (record { hop = hop; name = name.now })) && given.one_sigma index.now.network c.left c.right) }
{
    if !is_named_twin(index, packet, hop, name, &collision.left) {
        return false;
    }
    one_sigma(index.topology(), &collision.left, &collision.right)
}

/// Whether the packet has the update of the hop, which collided as the collision says.
fn hop_collided(
    index: &Index<'_>,
    packet: &PacketRef<'_>,
    hop: u8,
    name: &HopName,
    collision: &Collision,
) -> bool
    requires facts { AreKnown index.now.network (facts_of index.now.history) }
    requires known { IsTrue (has index.now.network name.now.asn) }
    requires within { hop < hop_count packet.now }
    requires tagged { IsTrue (is_tagged packet.now.first) }
    ensures { let c = collision.now in result ≡ (bytes_eq (field packet.now hop) (packet_tags.update_of index.now.network name.now packet.now hop) && (verdicts.is_named c.left (verdicts.twin_pass index.now.network (facts_of index.now.history) packet.now (record { hop = hop; name = name.now })) && given.one_sigma index.now.network c.left c.right) && same_name c.right name.now) }
{
    has_update(index.topology(), packet, hop, name)
        && twin_collided(index, packet, hop, name, collision)
        && same_name(&collision.right, name)
}

/// Whether the first hop that isn't covered collided as the collision says.
pub fn collided_with_pass(index: &Index<'_>, packet: &PacketRef<'_>, collision: &Collision) -> bool
    requires { AreKnown index.now.network (facts_of index.now.history) }
    ensures { result ≡ tests.collided_with_pass index.now.network (facts_of index.now.history) packet.now collision.now }
{
    if !is_tagged(packet.first_byte()) {
        return false;
    }
    match uncovered(index, packet) {
        Some((hop, name)) => hop_collided(index, packet, hop, &name, collision),
        None => false,
    }
}
