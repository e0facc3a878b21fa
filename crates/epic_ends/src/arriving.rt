//! The checks of a packet at a host: each function tells the first that fails.
ghost use Rattle.std.specs.Prelude.{◌≡◌, ◌≤◌, ◌<◌, All, IfNone, IsTrue, length, map, false, true};
ghost use Rattle.epic_num.specs.Levels.{is_tagged, width_of};
ghost use Rattle.epic_num.specs.Moments.{IsFresh};
ghost use Rattle.epic_num.specs.Tables.{first_row};
ghost use Rattle.epic_num.specs.Windows.{fresh_rows, window_rows};
ghost use Rattle.epic_num.specs.declared.arrival.Arrival.TheVariants as answers;
ghost use Rattle.epic_num.specs.declared.arrival.DestCheck.TheVariants as check;
ghost use Rattle.epic_layout.specs.Contents.{IsPacket, field_bytes, hop_count};
ghost use Rattle.epic_layout.specs.Spelling.{update_count};
ghost use Rattle.epic_layout.specs.Updates as updates;
ghost use Rattle.epic_topo.specs.Network.{has};
ghost use Rattle.epic_router.specs.Remembering.{Retains};
ghost use Rattle.epic_ends.specs.Arriving as rows;
ghost use Rattle.epic_ends.specs.Arriving.{tagged_rows};
ghost use Rattle.epic_ends.specs.Destinations.{end_key, is_accepted, told_at};

use arrayvec::ArrayVec;
use epic_fields::dest_field_of;
use epic_keys::SharedKeys;
use epic_num::{Arrival, DestCheck, Field, HostId, Profile, is_tagged, is_updated, same_host};
use epic_topo::Topology;
use epic_view::PacketRef;
use epic_window::{Offer, WinKey, Window};

/// The checks of whether the packet is at its end, and that this host is its end.
#[tactic(auto, unfolding(crate::specs::Arriving::end_rows))]
fn end_refusal(packet: &PacketRef<'_>, host: HostId) -> Option<DestCheck>
    ensures value { result ≡ first_row (rows.end_rows host packet.now) }
    ensures host { IfNone result (packet.now.dst ≡ host) }
{
    if !same_host(packet.dst(), host) {
        return Some(DestCheck::WrongHost);
    }
    if packet.current() != packet.shape().hops {
        return Some(DestCheck::NotAtEnd);
    }
    None
}

/// The checks of the packet's timestamp.
#[tactic(auto, unfolding(epic_num::specs::Windows::fresh_rows, epic_num::specs::Moments::is_stale, epic_num::specs::Moments::is_early))]
fn fresh_refusal(packet: &PacketRef<'_>, profile: &Profile, now: u64) -> Option<DestCheck>
    ensures value { result ≡ first_row (fresh_rows profile.now packet.now.ts now check.Stale check.Early) }
    ensures fresh { IfNone result (IsFresh profile.now packet.now.ts now) }
{
    if profile.is_stale(packet.ts(), now) {
        return Some(DestCheck::Stale);
    }
    if profile.is_early(packet.ts(), now) {
        return Some(DestCheck::Early);
    }
    None
}

/// How many updates the destination field is made over: one for each hop at level 3, none at level 2.
#[tactic(auto, unfolding(epic_layout::specs::Spelling::update_count, epic_num::specs::Levels::is_updated))]
fn update_count(packet: &PacketRef<'_>) -> u8
    ensures value { result ≡ update_count packet.now.first (hop_count packet.now) }
    ensures few { result ≤ hop_count packet.now }
    ensures packet { IsPacket packet.now }
{
    let hops = packet.shape().hops;
    if is_updated(packet.first_byte()) {
        hops
    } else {
        0
    }
}

/// These updates, which are the packet's own fields.
#[tactic(auto, unfolding(epic_layout::specs::Updates::own_updates))]
fn own_updates(packet: &PacketRef<'_>) -> ArrayVec<Field, 32>
    ensures value { map field_bytes result.items ≡ updates.own_updates packet.now }
    ensures count { length result.items ≡ update_count packet.now.first (hop_count packet.now) }
    ensures widths { All (λ u. u.width ≡ width_of packet.now.first) result.items }
{
    let count = update_count(packet);
    let mut updates = ArrayVec::new();
    for hop in 0..count {
        updates.push(packet.field(hop));
    }
    updates
}

/// Whether the destination field is the one that the key gives which the packet's destination shares with its source.
#[tactic(auto, unfolding(crate::specs::Arriving::dest_field_fits))]
fn dest_field_fits(topo: &Topology, keys: &mut SharedKeys, packet: &PacketRef<'_>) -> bool
    requires known { IsTrue (has topo.now packet.now.dst.asn) }
    requires tagged { IsTrue (is_tagged packet.now.first) }
    ensures { result ≡ rows.dest_field_fits topo.now packet.now }
{
    let updates = own_updates(packet);
    packet.dest_field() == dest_field_of(keys, topo, packet, updates.as_slice())
}

/// What the host knows the packet by.
#[tactic(auto, unfolding(crate::specs::Destinations::end_key, epic_router::specs::Remembering::key_at))]
fn end_key(packet: &PacketRef<'_>) -> WinKey
    ensures { result ≡ end_key packet.now }
{
    WinKey {
        src: packet.src(),
        ts: packet.ts(),
        hop: packet.shape().hops,
    }
}

/// The checks of the window, to which a packet is offered that passed all others: it is remembered where it passes these.
#[tactic(auto, unfolding(crate::specs::Destinations::told_at))]
fn remember(packet: &PacketRef<'_>, window: &mut Window, now: u64, turn: u32) -> Arrival
    requires room { 1 ≤ window.old.spare }
    requires latest { window.old.latest ≤ now }
    requires fresh { IsFresh window.old.profile packet.now.ts now }
    ensures answer { result ≡ rows.unless (first_row (window_rows window.old.profile (told_at window.old now packet.now) (λ first. check.Replay first) (λ live. check.WindowFull live))) answers.Accepted }
    ensures window { Retains window.old window.new (end_key packet.now) now turn (is_accepted result) }
{
    match window.offer(end_key(packet), now, turn) {
        Offer::Fresh => Arrival::Accepted,
        Offer::Seen { first } => Arrival::Refused(DestCheck::Replay { first }),
        Offer::Full { live } => Arrival::Refused(DestCheck::WindowFull { live }),
    }
}

/// The checks of a packet of level 2 or 3 that is at its end.
#[tactic(auto, using(epic_num::proofs::TableLaws::tables), unfolding(crate::specs::Arriving::tagged_rows))]
fn check_tagged(
    topo: &Topology,
    keys: &mut SharedKeys,
    packet: &PacketRef<'_>,
    window: &mut Window,
    now: u64,
    turn: u32,
) -> Arrival
    requires known { IsTrue (has topo.now packet.now.dst.asn) }
    requires tagged { IsTrue (is_tagged packet.now.first) }
    requires profile { window.old.profile ≡ topo.now.profile }
    requires room { 1 ≤ window.old.spare }
    requires latest { window.old.latest ≤ now }
    ensures answer { result ≡ rows.unless (first_row (tagged_rows topo.now now (told_at window.old now packet.now) packet.now)) answers.Accepted }
    ensures window { Retains window.old window.new (end_key packet.now) now turn (is_accepted result) }
{
    if let Some(check) = fresh_refusal(packet, &topo.profile(), now) {
        return Arrival::Refused(check);
    }
    if !dest_field_fits(topo, keys, packet) {
        return Arrival::Refused(DestCheck::BadDestinationField);
    }
    remember(packet, window, now, turn)
}

/// What the host answers to a packet.
#[tactic(auto, using(epic_num::proofs::TableLaws::tables), unfolding(crate::specs::Arriving::arrived, crate::specs::Arriving::rows))]
pub(crate) fn arrived(
    topo: &Topology,
    host: HostId,
    keys: &mut SharedKeys,
    packet: &PacketRef<'_>,
    window: &mut Window,
    now: u64,
    turn: u32,
) -> Arrival
    requires known { IsTrue (has topo.now host.asn) }
    requires profile { window.old.profile ≡ topo.now.profile }
    requires room { 1 ≤ window.old.spare }
    requires latest { window.old.latest ≤ now }
    ensures answer { result ≡ rows.arrived topo.now host now (told_at window.old now packet.now) packet.now }
    ensures window { Retains window.old window.new (end_key packet.now) now turn (is_accepted result) }
{
    if let Some(check) = end_refusal(packet, host) {
        return Arrival::Refused(check);
    }
    if !is_tagged(packet.first_byte()) {
        return Arrival::Unchecked;
    }
    check_tagged(topo, keys, packet, window, now, turn)
}
