//! The fields of a packet that its source makes. All tags are made over the packet without its fields, and are then put into
//! their places.
ghost use Rattle.std.specs.Prelude.{◌≡◌, ◌≤◌, ◌<◌, IsTrue, None, Ok, All, length, map, take, false, List};
ghost use Rattle.epic_num.specs.Levels.{is_first_byte, is_tagged as is_tagged_first, width_of};
ghost use Rattle.epic_num.specs.Moments.{epoch_of};
ghost use Rattle.epic_layout.specs.Contents.{IsPacket, field_bytes, hop_count, with_field, with_dest_field};
ghost use Rattle.epic_layout.specs.Layout.{checked, fault, parse};
ghost use Rattle.epic_layout.specs.Spelling.{spelling, update_count};
ghost use Rattle.epic_topo.specs.Network.{Network, has};
ghost use Rattle.epic_fields.specs.PacketTags as packet_tags;
ghost use Rattle.epic_ends.specs.Filling.{fields_by, updates_by, filled};

use crate::path_parts::MOST_HOPS;
use crate::ready_keys::ReadyKeys;
use arrayvec::ArrayVec;
use epic_fields::{field_part, message_over, untagged_field, update_part};
use epic_layout::wire::DEST_LEN;
use epic_layout::{Shape, shape_of};
use epic_num::{Field, SegHop, is_tagged, is_updated};
use epic_topo::Topology;
use epic_view::{PacketRef, PacketView};

/// The fields of a packet's hops, and at levels 2 and 3 the updates of their routers.
#[derive(Drop)]
struct HopFields {
    fields: ArrayVec<Field, MOST_HOPS>,
    updates: ArrayVec<Field, MOST_HOPS>,
}

/// The field and the update of a hop, by its index, in a packet of level 2 or 3, whose timestamp lies in this epoch.
fn tagged_hop(
    topo: &Topology,
    keys: &mut ReadyKeys,
    epoch: u64,
    hop: &SegHop,
    packet: &PacketRef<'_>,
    j: u8,
) -> (Field, Field)
    requires known { IsTrue (has topo.now hop.now.asn) }
    requires source { keys.old ≡ packet.now.src }
    requires epoch { epoch ≡ epoch_of topo.now.profile packet.now.ts }
    requires tagged { IsTrue (is_tagged_first packet.now.first) }
    ensures same { keys.new ≡ keys.old }
    ensures field { field_bytes result.0 ≡ packet_tags.field_over (packet_tags.shared_key topo.now hop.now.asn packet.now) hop.now.sigma packet.now j }
    ensures field_width { result.0.width ≡ width_of packet.now.first }
    ensures update { field_bytes result.1 ≡ packet_tags.update_over (packet_tags.shared_key topo.now hop.now.asn packet.now) hop.now.sigma packet.now j }
    ensures update_width { result.1.width ≡ width_of packet.now.first }
{
    let tag = keys.tag(topo, hop.asn, epoch, &message_over(&hop.sigma, packet, j));
    let first = packet.first_byte();
    (field_part(first, &tag), update_part(first, &tag))
}

/// The fields and updates of the hops of a packet of level 2 or 3.
fn tagged_hops(
    topo: &Topology,
    keys: &mut ReadyKeys,
    hops: &[SegHop],
    packet: &PacketRef<'_>,
) -> HopFields
    requires source { keys.old ≡ packet.now.src }
    requires known { All (λ h. IsTrue (has topo.now h.asn)) hops.now }
    requires count { length hops.now ≡ hop_count packet.now }
    requires few { hop_count packet.now ≤ 32 }
    requires tagged { IsTrue (is_tagged_first packet.now.first) }
    ensures same { keys.new ≡ keys.old }
    ensures fields { map field_bytes result.fields.items ≡ fields_by topo.now hops.now packet.now }
    ensures field_count { length result.fields.items ≡ hop_count packet.now }
    ensures field_widths { All (λ f. f.width ≡ width_of packet.now.first) result.fields.items }
    ensures updates { map field_bytes result.updates.items ≡ updates_by topo.now hops.now packet.now (hop_count packet.now) }
    ensures update_count { length result.updates.items ≡ hop_count packet.now }
    ensures update_widths { All (λ u. u.width ≡ width_of packet.now.first) result.updates.items }
{
    let mut fields = ArrayVec::new();
    let mut updates = ArrayVec::new();
    let epoch = topo.profile().epoch_of(packet.ts());
    for (j, hop) in hops.iter().enumerate() {
        let (field, update) = tagged_hop(topo, keys, epoch, hop, packet, j as u8);
        fields.push(field);
        updates.push(update);
    }
    HopFields { fields, updates }
}

/// The fields of the hops of a packet of level 0 or 1.
fn untagged_fields(hops: &[SegHop], packet: &PacketRef<'_>) -> ArrayVec<Field, MOST_HOPS>
    requires count { length hops.now ≡ hop_count packet.now }
    requires few { hop_count packet.now ≤ 32 }
    requires untagged { is_tagged_first packet.now.first ≡ false }
    ensures fields { (t : Network) → map field_bytes result.items ≡ fields_by t hops.now packet.now }
    ensures made { length result.items ≡ hop_count packet.now }
    ensures widths { All (λ f. f.width ≡ width_of packet.now.first) result.items }
{
    let mut fields = ArrayVec::new();
    for (j, hop) in hops.iter().enumerate() {
        fields.push(untagged_field(&hop.sigma, packet, j as u8));
    }
    fields
}

/// The updates that a destination field is made over, of those of all hops: all at level 3, none at level 2.
#[tactic(auto, unfolding(epic_layout::specs::Spelling::update_count, epic_num::specs::Levels::is_updated))]
fn covered(first: u8, updates: &[Field]) -> &[Field]
    ensures { result.now ≡ take (update_count first (length updates.now)) updates.now }
{
    if is_updated(first) {
        updates
    } else {
        &updates[..0]
    }
}

/// The destination field of a packet of level 2 or 3, whose hops have these updates.
fn dest_field(
    topo: &Topology,
    keys: &mut ReadyKeys,
    packet: &PacketRef<'_>,
    updates: &[Field],
) -> [u8; DEST_LEN]
    requires known { IsTrue (has topo.now packet.now.dst.asn) }
    requires tagged { IsTrue (is_tagged_first packet.now.first) }
    requires count { length updates.now ≡ hop_count packet.now }
    requires widths { All (λ u. u.width ≡ width_of packet.now.first) updates.now }
    ensures same { keys.new ≡ keys.old }
    ensures field { result ≡ packet_tags.dest_field_of topo.now packet.now (map field_bytes (take (update_count packet.now.first (hop_count packet.now)) updates.now)) }
{
    keys.dest_field(topo, packet, covered(packet.first_byte(), updates))
}

/// Puts a field in the place of the hop's.
fn put_field(bytes: &mut [u8], shape: Shape, j: u8, field: &Field)
    requires shape { Ok shape ≡ checked bytes.old }
    requires there { j < hop_count (parse bytes.old) }
    requires width { field.now.width ≡ width_of (parse bytes.old).first }
    ensures shape { Ok shape ≡ checked bytes.new }
    ensures packet { parse bytes.new ≡ with_field (parse bytes.old) j (field_bytes field.now) }
    ensures spelled { bytes.new ≡ spelling (parse bytes.new) }
    ensures faultless { fault is_first_byte bytes.new ≡ None }
{
    let mut view = PacketView::of(bytes, shape);
    view.set_field(j, field);
}

/// Puts fields in the places of all hops' fields.
fn put_fields(bytes: &mut [u8], shape: Shape, fields: &[Field])
    requires shape { Ok shape ≡ checked bytes.old }
    requires packet { IsPacket (parse bytes.old) }
    requires count { length fields.now ≡ hop_count (parse bytes.old) }
    requires widths { All (λ f. f.width ≡ width_of (parse bytes.old).first) fields.now }
    requires spelled { bytes.old ≡ spelling (parse bytes.old) }
    requires faultless { fault is_first_byte bytes.old ≡ None }
    ensures shape { Ok shape ≡ checked bytes.new }
    ensures packet { parse bytes.new ≡ record (parse bytes.old) { fields = map field_bytes fields.now } }
    ensures spelled { bytes.new ≡ spelling (parse bytes.new) }
    ensures faultless { fault is_first_byte bytes.new ≡ None }
{
    for (j, field) in fields.iter().enumerate() {
        put_field(bytes, shape, j as u8, field);
    }
}

/// Puts a destination field in the place of the packet's, which has level 2 or 3.
fn put_dest_field(bytes: &mut [u8], shape: Shape, field: &[u8; DEST_LEN])
    requires shape { Ok shape ≡ checked bytes.old }
    requires tagged { IsTrue (is_tagged_first (parse bytes.old).first) }
    ensures packet { parse bytes.new ≡ with_dest_field (parse bytes.old) field.now }
    ensures spelled { bytes.new ≡ spelling (parse bytes.new) }
    ensures faultless { fault is_first_byte bytes.new ≡ None }
{
    let mut view = PacketView::of(bytes, shape);
    view.set_dest_field(field);
}

/// The tags of a packet of level 2 or 3.
#[derive(Drop)]
struct Tags {
    fields: ArrayVec<Field, MOST_HOPS>,
    dest_field: [u8; DEST_LEN],
}

/// The fields and the destination field of a packet of level 2 or 3 over these hops.
#[tactic(auto, unfolding(crate::specs::Filling::filled))]
fn tags_of(topo: &Topology, keys: &mut ReadyKeys, hops: &[SegHop], packet: &PacketRef<'_>) -> Tags
    requires source { keys.old ≡ packet.now.src }
    requires known { All (λ h. IsTrue (has topo.now h.asn)) hops.now }
    requires destination { IsTrue (has topo.now packet.now.dst.asn) }
    requires count { length hops.now ≡ hop_count packet.now }
    requires tagged { IsTrue (is_tagged_first packet.now.first) }
    ensures same { keys.new ≡ keys.old }
    ensures packet { IsPacket packet.now }
    ensures made { length result.fields.items ≡ hop_count packet.now }
    ensures widths { All (λ f. f.width ≡ width_of packet.now.first) result.fields.items }
    ensures filled { filled topo.now hops.now packet.now ≡ record packet.now { fields = map field_bytes result.fields.items; dest_field = result.dest_field } }
{
    let _shape = packet.shape();
    let HopFields { fields, updates } = tagged_hops(topo, keys, hops, packet);
    let field = dest_field(topo, keys, packet, updates.as_slice());
    Tags {
        fields,
        dest_field: field,
    }
}

/// Fills a packet of level 2 or 3.
fn fill_tagged(
    topo: &Topology,
    keys: &mut ReadyKeys,
    hops: &[SegHop],
    bytes: &mut [u8],
    shape: Shape,
)
    requires source { keys.old ≡ (parse bytes.old).src }
    requires known { All (λ h. IsTrue (has topo.now h.asn)) hops.now }
    requires destination { IsTrue (has topo.now (parse bytes.old).dst.asn) }
    requires count { length hops.now ≡ hop_count (parse bytes.old) }
    requires shape { Ok shape ≡ checked bytes.old }
    requires spelled { bytes.old ≡ spelling (parse bytes.old) }
    requires faultless { fault is_first_byte bytes.old ≡ None }
    requires tagged { IsTrue (is_tagged_first (parse bytes.old).first) }
    ensures same { keys.new ≡ keys.old }
    ensures packet { parse bytes.new ≡ filled topo.now hops.now (parse bytes.old) }
    ensures spelled { bytes.new ≡ spelling (parse bytes.new) }
    ensures faultless { fault is_first_byte bytes.new ≡ None }
{
    let tags = tags_of(topo, keys, hops, &PacketRef::of(bytes, shape));
    put_fields(bytes, shape, tags.fields.as_slice());
    put_dest_field(bytes, shape, &tags.dest_field);
}

/// Fills a packet of level 0 or 1.
#[tactic(auto, unfolding(crate::specs::Filling::filled))]
fn fill_untagged(topo: &Topology, hops: &[SegHop], bytes: &mut [u8], shape: Shape)
    requires count { length hops.now ≡ hop_count (parse bytes.old) }
    requires shape { Ok shape ≡ checked bytes.old }
    requires packet { IsPacket (parse bytes.old) }
    requires spelled { bytes.old ≡ spelling (parse bytes.old) }
    requires faultless { fault is_first_byte bytes.old ≡ None }
    requires untagged { is_tagged_first (parse bytes.old).first ≡ false }
    ensures packet { parse bytes.new ≡ filled topo.now hops.now (parse bytes.old) }
    ensures spelled { bytes.new ≡ spelling (parse bytes.new) }
    ensures faultless { fault is_first_byte bytes.new ≡ None }
{
    let fields = untagged_fields(hops, &PacketRef::of(bytes, shape));
    put_fields(bytes, shape, fields.as_slice());
}

/// Fills a packet of any level.
fn fill_bytes(topo: &Topology, keys: &mut ReadyKeys, hops: &[SegHop], bytes: &mut [u8])
    requires source { keys.old ≡ (parse bytes.old).src }
    requires known { All (λ h. IsTrue (has topo.now h.asn)) hops.now }
    requires destination { IsTrue (has topo.now (parse bytes.old).dst.asn) }
    requires count { length hops.now ≡ hop_count (parse bytes.old) }
    requires packet { IsPacket (parse bytes.old) }
    requires faultless { fault is_first_byte bytes.old ≡ None }
    requires spelled { bytes.old ≡ spelling (parse bytes.old) }
    ensures same { keys.new ≡ keys.old }
    ensures packet { parse bytes.new ≡ filled topo.now hops.now (parse bytes.old) }
    ensures spelled { bytes.new ≡ spelling (parse bytes.new) }
    ensures faultless { fault is_first_byte bytes.new ≡ None }
{
    let shape = shape_of(bytes);
    let first = PacketRef::of(bytes, shape).first_byte();
    if is_tagged(first) {
        fill_tagged(topo, keys, hops, bytes, shape);
    } else {
        fill_untagged(topo, hops, bytes, shape);
    }
}

/// Puts the fields of a packet over these hops, and at levels 2 and 3 its destination field, into the places that its
/// bytes have for them.
pub fn fill(topo: &Topology, keys: &mut ReadyKeys, hops: &[SegHop], bytes: &mut Vec<u8>)
    requires source { keys.old ≡ (parse bytes.old.items).src }
    requires known { All (λ h. IsTrue (has topo.now h.asn)) hops.now }
    requires destination { IsTrue (has topo.now (parse bytes.old.items).dst.asn) }
    requires count { length hops.now ≡ hop_count (parse bytes.old.items) }
    requires packet { IsPacket (parse bytes.old.items) }
    requires faultless { fault is_first_byte bytes.old.items ≡ None }
    requires spelled { bytes.old.items ≡ spelling (parse bytes.old.items) }
    ensures same { keys.new ≡ keys.old }
    ensures packet { parse bytes.new.items ≡ filled topo.now hops.now (parse bytes.old.items) }
    ensures spelled { bytes.new.items ≡ spelling (parse bytes.new.items) }
    ensures faultless { fault is_first_byte bytes.new.items ≡ None }
{
    fill_bytes(topo, keys, hops, bytes.as_mut_slice());
}
