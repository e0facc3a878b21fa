//! The message of a destination field, compared piece by piece with one that a line tells. It may have several kilobytes.
ghost use Rattle.std.specs.Prelude.{◌≡◌, ◌<◌, ◌≤◌, ◌++◌, List, [], map, length, take, bytes_eq, option_copied, IsTrue};
ghost use Rattle.std.specs.List.{concat, flat_map, range_with_len};
ghost use Rattle.std.specs.Option.{option_map_or};
ghost use Rattle.epic_num.specs.BigEndian.{u16_bytes};
ghost use Rattle.epic_num.specs.Levels.{is_tagged};
ghost use Rattle.epic_num.specs.Messages.{host_bytes};
ghost use Rattle.epic_layout.specs.Contents.{field, field_bytes, hop_count, IsPacket};
ghost use Rattle.epic_layout.specs.Spelling as spelling;
ghost use Rattle.epic_layout.specs.Spelling.{hop_bytes, path_bytes, segment_bytes};
ghost use Rattle.epic_layout.specs.Updates.{own_updates};
ghost use Rattle.epic_topo.specs.Network.{has};
ghost use Rattle.epic_fields.specs.PacketTags as packet_tags;
ghost use Rattle.epic_ledger.specs.Facts.{facts_of};
ghost use Rattle.epic_index.specs.Events.{sent_name_at};
ghost use Rattle.epic_judge.specs.Compared as compared;
ghost use Rattle.epic_judge.specs.Known.{AreKnown};
ghost use Rattle.epic_judge.specs.Walks.{update_at};

use epic_fields::{dest_domain, update_of};
use epic_index::Index;
use epic_num::{Field, HopName, HostId, is_updated};
use epic_topo::Topology;
use epic_view::PacketRef;

// ---- pieces

/// What stands behind the piece in the rest of a message, where the rest begins with it.
fn behind<'a>(rest: Option<&'a [u8]>, piece: &[u8]) -> Option<&'a [u8]>
    ensures { option_copied result ≡ compared.behind piece.now (option_copied rest.entry) }
{
    match rest {
        Some(bytes) => bytes.strip_prefix(piece),
        None => None,
    }
}

/// Whether the rest of a message is these two pieces.
fn ends_with(rest: Option<&[u8]>, size: &[u8], payload: &[u8]) -> bool
    ensures { result ≡ compared.is_rest (size.now ++ payload.now) (option_copied rest.entry) }
{
    match behind(rest, size) {
        Some(bytes) => payload == bytes,
        None => false,
    }
}

/// What stands behind a host.
#[tactic(auto, unfolding(epic_num::specs::Messages::host_bytes, epic_num::specs::BigEndian::u32_bytes, epic_num::specs::BigEndian::u64_bytes))]
fn behind_host<'a>(rest: Option<&'a [u8]>, host: HostId) -> Option<&'a [u8]>
    ensures { option_copied result ≡ compared.behind (host_bytes host) (option_copied rest.entry) }
{
    let more = behind(rest, &host.asn.0.to_be_bytes());
    behind(more, &host.host.to_be_bytes())
}

/// What stands behind a field.
fn behind_field<'a>(rest: Option<&'a [u8]>, field: &Field) -> Option<&'a [u8]>
    requires { field.now.width ≤ 6 }
    ensures { option_copied result ≡ compared.behind (field_bytes field.now) (option_copied rest.entry) }
{
    behind(rest, &field.bytes[..field.width as usize])
}

// ---- the path bytes

/// What stands behind the headers of a packet's segments.
#[tactic(auto, unfolding(epic_layout::specs::Contents::shape))]
fn behind_segments<'a>(rest: Option<&'a [u8]>, packet: &PacketRef<'_>) -> Option<&'a [u8]>
    ensures { option_copied result ≡ compared.behind (flat_map segment_bytes packet.now.route.segments) (option_copied rest.entry) }
{
    let count = packet.shape().segments;
    let mut more = rest;
    for i in 0..count {
        more = behind(more, &packet.segment_head(i));
    }
    more
}

/// What stands behind its hops without their fields.
#[tactic(auto, unfolding(epic_layout::specs::Contents::shape))]
fn behind_hops<'a>(rest: Option<&'a [u8]>, packet: &PacketRef<'_>) -> Option<&'a [u8]>
    ensures { option_copied result ≡ compared.behind (flat_map hop_bytes packet.now.route.hops) (option_copied rest.entry) }
{
    let count = packet.shape().hops;
    let mut more = rest;
    for j in 0..count {
        more = behind(more, &packet.hop_head(j));
    }
    more
}

/// What stands behind its path bytes.
fn behind_path<'a>(rest: Option<&'a [u8]>, packet: &PacketRef<'_>) -> Option<&'a [u8]>
    ensures { option_copied result ≡ compared.behind (path_bytes packet.now.route) (option_copied rest.entry) }
{
    let hops = behind(rest, &[packet.shape().segments]);
    let heads = behind_segments(hops, packet);
    behind_hops(heads, packet)
}

/// What stands behind all that comes before the updates.
fn behind_ends<'a>(message: &'a [u8], packet: &PacketRef<'_>) -> Option<&'a [u8]>
    requires { IsTrue (is_tagged packet.now.first) }
    ensures { option_copied result ≡ compared.behind_path packet.now message.now }
{
    let moment = behind(Some(message), &[dest_domain(packet.first_byte())]);
    let src = behind(moment, &packet.ts().to_be_bytes());
    let dst = behind_host(src, packet.src());
    let path = behind_host(dst, packet.dst());
    behind_path(path, packet)
}

/// Whether the rest is the payload of the packet behind its length.
#[tactic(auto, unfolding(epic_num::specs::BigEndian::u16_bytes, epic_layout::specs::Contents::shape))]
fn is_payload(rest: Option<&[u8]>, packet: &PacketRef<'_>) -> bool
    ensures { result ≡ compared.is_rest (u16_bytes (length packet.now.payload) ++ packet.now.payload) (option_copied rest.entry) }
{
    ends_with(
        rest,
        &packet.shape().payload.to_be_bytes(),
        packet.payload(),
    )
}

// ---- the updates

/// How many updates the message has: one for each hop at level 3, none at level 2.
#[tactic(auto, unfolding(epic_layout::specs::Spelling::update_count, epic_num::specs::Levels::is_updated))]
fn update_count(packet: &PacketRef<'_>) -> u8
    ensures value { result ≡ spelling.update_count packet.now.first (hop_count packet.now) }
    ensures few { result ≤ hop_count packet.now }
    ensures packet { IsPacket packet.now }
{
    let hops = packet.shape().hops;
    if is_updated(packet.first_byte()) {
        hops
    } else {
        0
    }
}

/// What stands behind the updates that are the packet's own fields.
#[tactic(auto, unfolding(epic_layout::specs::Updates::own_updates))]
fn behind_own<'a>(rest: Option<&'a [u8]>, packet: &PacketRef<'_>) -> Option<&'a [u8]>
    ensures { option_copied result ≡ compared.behind (concat (own_updates packet.now)) (option_copied rest.entry) }
{
    let count = update_count(packet);
    let mut more = rest;
    for hop in 0..count {
        more = behind_own_field(more, packet, hop);
    }
    more
}

/// What stands behind the field of a hop.
fn behind_own_field<'a>(rest: Option<&'a [u8]>, packet: &PacketRef<'_>, hop: u8) -> Option<&'a [u8]>
    requires { hop < hop_count packet.now }
    ensures { option_copied result ≡ compared.behind (field packet.now hop) (option_copied rest.entry) }
{
    let field = packet.field(hop);
    behind_field(rest, &field)
}

/// What stands behind the update of a hop, of which this is the name.
fn behind_update<'a>(
    rest: Option<&'a [u8]>,
    topo: &Topology,
    name: &HopName,
    sent: &PacketRef<'_>,
    hop: u8,
) -> Option<&'a [u8]>
    requires known { IsTrue (has topo.now name.now.asn) }
    requires tagged { IsTrue (is_tagged sent.now.first) }
    ensures { option_copied result ≡ compared.behind (packet_tags.update_of topo.now name.now sent.now hop) (option_copied rest.entry) }
{
    let update = update_of(topo, name, sent, hop);
    behind_field(rest, &update)
}

/// What stands behind the update that the router of a hop was to give out, where the event sent the packet.
fn behind_sent<'a>(
    rest: Option<&'a [u8]>,
    index: &Index<'_>,
    number: u64,
    sent: &PacketRef<'_>,
    hop: u8,
) -> Option<&'a [u8]>
    requires facts { AreKnown index.now.network (facts_of index.now.history) }
    requires tagged { IsTrue (is_tagged sent.now.first) }
    ensures { option_copied result ≡ compared.behind (update_at index.now.network sent.now (sent_name_at index.now.history number) hop) (option_copied rest.entry) }
{
    match index.sent_name_at(number, hop) {
        Some(name) => behind_update(rest, index.topology(), &name, sent, hop),
        None => rest,
    }
}

/// What stands behind all these updates.
fn behind_all_sent<'a>(
    rest: Option<&'a [u8]>,
    index: &Index<'_>,
    number: u64,
    sent: &PacketRef<'_>,
) -> Option<&'a [u8]>
    requires facts { AreKnown index.now.network (facts_of index.now.history) }
    requires tagged { IsTrue (is_tagged sent.now.first) }
    ensures { option_copied result ≡ compared.behind (concat (map (update_at index.now.network sent.now (sent_name_at index.now.history number)) (range_with_len 0 (spelling.update_count sent.now.first (hop_count sent.now))))) (option_copied rest.entry) }
{
    let count = update_count(sent);
    let mut more = rest;
    for hop in 0..count {
        more = behind_sent(more, index, number, sent, hop);
    }
    more
}

// ---- messages

/// Whether these bytes are what the packet's destination field is made over, with the updates that stand in the packet.
pub fn is_dest_message(packet: &PacketRef<'_>, message: &[u8]) -> bool
    requires { IsTrue (is_tagged packet.now.first) }
    ensures { result ≡ bytes_eq (spelling.dest_message packet.now (own_updates packet.now)) message.now }
{
    let ends = behind_ends(message, packet);
    let updates = behind_own(ends, packet);
    is_payload(updates, packet)
}

/// Whether they are what the source made the destination field of the packet over that the event sent.
pub fn is_sent_message(index: &Index<'_>, number: u64, sent: &PacketRef<'_>, message: &[u8]) -> bool
    requires facts { AreKnown index.now.network (facts_of index.now.history) }
    requires tagged { IsTrue (is_tagged sent.now.first) }
    ensures { result ≡ bytes_eq (spelling.dest_message sent.now (map (update_at index.now.network sent.now (sent_name_at index.now.history number)) (range_with_len 0 (spelling.update_count sent.now.first (hop_count sent.now))))) message.now }
{
    let ends = behind_ends(message, sent);
    let updates = behind_all_sent(ends, index, number, sent);
    is_payload(updates, sent)
}
