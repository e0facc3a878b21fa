//! The tags of a packet's hops: over given authenticators and keys, and under the keys of a topology.

ghost use Rattle.std.specs.Prelude.{◌≡◌, ◌<◌, ◌≤◌, ℕ, List, false, IsTrue, All, length, map};
ghost use Rattle.epic_num.specs.Levels.{is_tagged, width_of};
ghost use Rattle.epic_layout.specs.Contents.{as_field, field_bytes, hop_count};
ghost use Rattle.epic_layout.specs.Spelling.{update_count};
ghost use Rattle.epic_topo.specs.Network.{has};
ghost use Rattle.epic_fields.specs.HopChecks as checks;
ghost use Rattle.epic_fields.specs.PacketTags as packet_tags;
ghost use Rattle.epic_fields.specs.Tags as tags;

use crate::destination::dest_tag_by;
use crate::hop::{
    authenticator, field_part, field0, field1, field23, link_tag, narrow, update_part,
};
use epic_cmac::CmacKey;
use epic_keys::{SharedKeys, derive};
use epic_num::{AsId, Field, HopName, KeyName, Level, field23_message, is_tagged};
use epic_topo::Topology;
use epic_view::PacketRef;

// ---- over a hop's authenticator, and the key that the hop's AS shares with the packet's source

/// What the tag of a hop is made over, by the hop's index in a packet of level 2 or 3.
#[tactic(auto, unfolding(crate::specs::PacketTags::message_over))]
pub fn message_over(sigma: &[u8; 16], packet: &PacketRef<'_>, hop: u8) -> [u8; 38]
    requires { IsTrue (is_tagged packet.now.first) }
    ensures { result ≡ packet_tags.message_over sigma.now packet.now hop }
{
    field23_message(packet.first_byte(), packet.ts(), packet.src(), hop, sigma)
}

/// The tag, of which field and update are parts, of a hop by its index in a packet of level 2 or 3.
#[tactic(auto, unfolding(crate::specs::PacketTags::tag_over))]
pub fn tag_over(shared: &[u8; 16], sigma: &[u8; 16], packet: &PacketRef<'_>, hop: u8) -> [u8; 16]
    requires { IsTrue (is_tagged packet.now.first) }
    ensures { result ≡ packet_tags.tag_over shared.now sigma.now packet.now hop }
{
    field23(
        shared,
        packet.first_byte(),
        packet.ts(),
        packet.src(),
        hop,
        sigma,
    )
}

/// The same under a shared key that was made ready before.
#[tactic(auto, unfolding(crate::specs::PacketTags::tag_over, crate::specs::PacketTags::message_over, crate::specs::Formulas::field23))]
pub fn tag_over_by(shared: &CmacKey, sigma: &[u8; 16], packet: &PacketRef<'_>, hop: u8) -> [u8; 16]
    requires { IsTrue (is_tagged packet.now.first) }
    ensures { result ≡ packet_tags.tag_over shared.now sigma.now packet.now hop }
{
    shared.tag(&message_over(sigma, packet, hop))
}

/// The field of a hop in a packet of level 0 or 1, for which no shared key is needed.
pub fn untagged_field(sigma: &[u8; 16], packet: &PacketRef<'_>, hop: u8) -> Field
    requires { is_tagged packet.now.first ≡ false }
    ensures bytes { (shared : List ℕ) → result ≡ as_field (packet_tags.field_over shared sigma.now packet.now hop) }
    ensures width { result.width ≡ width_of packet.now.first }
{
    match packet.shape().level {
        Level::L0 => narrow(field0(sigma)),
        _ => narrow(field1(sigma, packet.ts(), packet.src(), hop)),
    }
}

/// The field of a hop in a packet of any level. At levels 0 and 1 the shared key is not looked at.
pub fn field_over(shared: &[u8; 16], sigma: &[u8; 16], packet: &PacketRef<'_>, hop: u8) -> Field
    ensures bytes { result ≡ as_field (packet_tags.field_over shared.now sigma.now packet.now hop) }
    ensures width { result.width ≡ width_of packet.now.first }
{
    let first = packet.first_byte();
    if is_tagged(first) {
        field_part(first, &tag_over(shared, sigma, packet, hop))
    } else {
        untagged_field(sigma, packet, hop)
    }
}

/// The update that the hop's router puts in the place of its field at level 3.
#[tactic(auto, unfolding(crate::specs::PacketTags::update_over))]
pub fn update_over(shared: &[u8; 16], sigma: &[u8; 16], packet: &PacketRef<'_>, hop: u8) -> Field
    requires { IsTrue (is_tagged packet.now.first) }
    ensures bytes { result ≡ as_field (packet_tags.update_over shared.now sigma.now packet.now hop) }
    ensures width { result.width ≡ width_of packet.now.first }
{
    update_part(packet.first_byte(), &tag_over(shared, sigma, packet, hop))
}

// ---- what the packet carries

/// Whether the hop's field in the packet is this one.
pub fn carries_field(right: &Field, packet: &PacketRef<'_>, hop: u8) -> bool
    requires width { right.now.width ≤ 6 }
    requires there { hop < hop_count packet.now }
    ensures { result ≡ checks.carries_field (field_bytes right.now) packet.now hop }
{
    let carried = packet.field(hop);
    counted_bytes(&carried) == counted_bytes(right)
}

/// Whether the next hop of the hop's segment in construction order, where there is one, carries this link tag.
pub fn carries_link(right: &[u8; 8], packet: &PacketRef<'_>, hop: u8) -> bool
    requires { hop < hop_count packet.now }
    ensures { result ≡ checks.carries_link right.now packet.now hop }
{
    // A packet has as many hops as its segments say, so the next hop is there.
    let hops = packet.shape().hops;
    match packet.successor(hop) {
        Some(next) => next >= hops || packet.body(next).link == *right,
        None => true,
    }
}

/// The bytes of a field that count.
fn counted_bytes(field: &Field) -> &[u8]
    requires { field.now.width ≤ 6 }
    ensures { result.now ≡ field_bytes field.now }
{
    &field.bytes[..field.width as usize]
}

// ---- under the keys of a topology

/// The name of the key that an AS shares with the packet's source.
#[tactic(auto, unfolding(crate::specs::PacketTags::field_name))]
pub fn field_name(topo: &Topology, a: AsId, packet: &PacketRef<'_>) -> KeyName
    ensures { result ≡ packet_tags.field_name topo.now a packet.now }
{
    KeyName::Field {
        a,
        src: packet.src(),
        epoch: topo.profile().epoch_of(packet.ts()),
    }
}

/// The name of the key that the packet's destination shares with its source.
#[tactic(auto, unfolding(crate::specs::PacketTags::dest_name))]
pub fn dest_name(topo: &Topology, packet: &PacketRef<'_>) -> KeyName
    ensures { result ≡ packet_tags.dest_name topo.now packet.now }
{
    KeyName::Dest {
        dst: packet.dst(),
        src: packet.src(),
        epoch: topo.profile().epoch_of(packet.ts()),
    }
}

/// The forwarding key of a hop's AS, of the hop's generation.
#[tactic(auto, unfolding(crate::specs::Tags::hop_key, epic_keys::specs::Keys::owner))]
pub fn hop_key(topo: &Topology, x: &HopName) -> [u8; 16]
    requires { IsTrue (has topo.now x.now.asn) }
    ensures { result ≡ tags.hop_key topo.now x.now }
{
    derive(
        topo,
        &KeyName::Fwd {
            a: x.asn,
            g: x.generation,
        },
    )
}

/// The authenticator of a hop of an AS of the topology.
#[tactic(auto, unfolding(crate::specs::Tags::sigma))]
pub fn sigma(topo: &Topology, x: &HopName) -> [u8; 16]
    requires { IsTrue (has topo.now x.now.asn) }
    ensures { result ≡ tags.sigma topo.now x.now }
{
    authenticator(&hop_key(topo, x), &x.body)
}

/// The link tag of a hop of an AS of the topology, which the next hop of its segment carries.
#[tactic(auto, unfolding(crate::specs::Tags::link))]
pub fn link(topo: &Topology, x: &HopName) -> [u8; 8]
    requires { IsTrue (has topo.now x.now.asn) }
    ensures { result ≡ tags.link topo.now x.now }
{
    link_tag(&hop_key(topo, x), &x.body)
}

/// The key that an AS of the topology shares with the packet's source, in the epoch of the packet's timestamp.
#[tactic(auto, unfolding(crate::specs::PacketTags::shared_key, crate::specs::PacketTags::field_name, epic_keys::specs::Keys::owner))]
pub fn shared_key(topo: &Topology, a: AsId, packet: &PacketRef<'_>) -> [u8; 16]
    requires { IsTrue (has topo.now a) }
    ensures { result ≡ packet_tags.shared_key topo.now a packet.now }
{
    derive(topo, &field_name(topo, a, packet))
}

/// What the tag of a hop of this name is made over in a packet of level 2 or 3.
#[tactic(auto, unfolding(crate::specs::PacketTags::hop_message))]
pub fn hop_message(topo: &Topology, x: &HopName, packet: &PacketRef<'_>, hop: u8) -> [u8; 38]
    requires known { IsTrue (has topo.now x.now.asn) }
    requires tagged { IsTrue (is_tagged packet.now.first) }
    ensures { result ≡ packet_tags.hop_message topo.now x.now packet.now hop }
{
    message_over(&sigma(topo, x), packet, hop)
}

/// The tag, of which field and update are parts, of a hop of this name in a packet of level 2 or 3.
#[tactic(auto, unfolding(crate::specs::PacketTags::hop_tag))]
pub fn hop_tag(topo: &Topology, x: &HopName, packet: &PacketRef<'_>, hop: u8) -> [u8; 16]
    requires known { IsTrue (has topo.now x.now.asn) }
    requires tagged { IsTrue (is_tagged packet.now.first) }
    ensures { result ≡ packet_tags.hop_tag topo.now x.now packet.now hop }
{
    tag_over(
        &shared_key(topo, x.asn, packet),
        &sigma(topo, x),
        packet,
        hop,
    )
}

/// The field that a hop of this name has in the packet.
#[tactic(auto, unfolding(crate::specs::PacketTags::field_of))]
pub fn field_of(topo: &Topology, x: &HopName, packet: &PacketRef<'_>, hop: u8) -> Field
    requires { IsTrue (has topo.now x.now.asn) }
    ensures bytes { result ≡ as_field (packet_tags.field_of topo.now x.now packet.now hop) }
    ensures width { result.width ≡ width_of packet.now.first }
{
    let sigma = sigma(topo, x);
    if is_tagged(packet.first_byte()) {
        field_over(&shared_key(topo, x.asn, packet), &sigma, packet, hop)
    } else {
        untagged_field(&sigma, packet, hop)
    }
}

/// The update that the router of a hop of this name puts in the place of its field at level 3.
#[tactic(auto, unfolding(crate::specs::PacketTags::update_of))]
pub fn update_of(topo: &Topology, x: &HopName, packet: &PacketRef<'_>, hop: u8) -> Field
    requires known { IsTrue (has topo.now x.now.asn) }
    requires tagged { IsTrue (is_tagged packet.now.first) }
    ensures bytes { result ≡ as_field (packet_tags.update_of topo.now x.now packet.now hop) }
    ensures width { result.width ≡ width_of packet.now.first }
{
    update_over(
        &shared_key(topo, x.asn, packet),
        &sigma(topo, x),
        packet,
        hop,
    )
}

/// The destination field that the packet has over these updates, under a key that is ready or is made ready now.
#[tactic(auto, unfolding(crate::specs::PacketTags::dest_field_of, crate::specs::PacketTags::dest_name, epic_keys::specs::Keys::owner))]
pub fn dest_field_of(
    keys: &mut SharedKeys,
    topo: &Topology,
    packet: &PacketRef<'_>,
    updates: &[Field],
) -> [u8; 16]
    requires known { IsTrue (has topo.now packet.now.dst.asn) }
    requires tagged { IsTrue (is_tagged packet.now.first) }
    requires count { length updates.now ≡ update_count packet.now.first (hop_count packet.now) }
    requires widths { All (λ u. u.width ≡ width_of packet.now.first) updates.now }
    ensures { result ≡ packet_tags.dest_field_of topo.now packet.now (map field_bytes updates.now) }
{
    let name = dest_name(topo, packet);
    keys.prepare(topo, &name);
    dest_tag_by(keys.get(&name), packet, updates)
}

/// Whether the packet has the field of a hop of this name at the index.
pub fn has_field(topo: &Topology, x: &HopName, packet: &PacketRef<'_>, hop: u8) -> bool
    requires known { IsTrue (has topo.now x.now.asn) }
    requires there { hop < hop_count packet.now }
    ensures { result ≡ checks.has_field topo.now x.now packet.now hop }
{
    carries_field(&field_of(topo, x, packet, hop), packet, hop)
}

/// Whether the next hop in construction order, where there is one, carries the link tag of a hop of this name.
#[tactic(auto, unfolding(crate::specs::HopChecks::has_link))]
pub fn has_link(topo: &Topology, x: &HopName, packet: &PacketRef<'_>, hop: u8) -> bool
    requires known { IsTrue (has topo.now x.now.asn) }
    requires there { hop < hop_count packet.now }
    ensures { result ≡ checks.has_link topo.now x.now packet.now hop }
{
    carries_link(&link(topo, x), packet, hop)
}
