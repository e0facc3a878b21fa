//! The tag of a destination field, over a packet where it lies.

ghost use Rattle.std.specs.Prelude.{◌≡◌, ◌≤◌, ◌↔◌, ◌++◌, length, map, All, IsTrue};
ghost use Rattle.std.specs.List.{flat_map, concat};
ghost use Rattle.epic_num.specs.Levels.{is_tagged, width_of};
ghost use Rattle.epic_num.specs.Messages.{dest_domain, host_bytes};
ghost use Rattle.epic_layout.specs.Contents.{hop_count, field_bytes};
ghost use Rattle.epic_layout.specs.Spelling.{segment_bytes, hop_bytes, path_bytes, update_count};
ghost use Rattle.epic_fields.specs.Formulas as formulas;

use epic_cmac::{CmacKey, CmacWriter};
use epic_num::{Field, HostId, Level, width_of};
use epic_view::PacketRef;

/// The destination field of a packet of level 2 or 3, under the key that its destination shares with its source. At
/// level 3 `updates` has one update for each hop, as wide as the packet's fields; at level 2 it is empty.
pub fn dest_tag(key: &[u8; 16], packet: &PacketRef<'_>, updates: &[Field]) -> [u8; 16]
    requires tagged { IsTrue (is_tagged packet.now.first) }
    requires count { length updates.now ≡ update_count packet.now.first (hop_count packet.now) }
    requires widths { All (λ u. u.width ≡ width_of packet.now.first) updates.now }
    ensures { result ≡ formulas.dest_tag key.now packet.now (map field_bytes updates.now) }
{
    dest_tag_by(&CmacKey::new(key), packet, updates)
}

/// The same under a key that was made ready before.
#[tactic(auto, unfolding(crate::specs::Formulas::dest_tag))]
pub fn dest_tag_by(key: &CmacKey, packet: &PacketRef<'_>, updates: &[Field]) -> [u8; 16]
    requires tagged { IsTrue (is_tagged packet.now.first) }
    requires count { length updates.now ≡ update_count packet.now.first (hop_count packet.now) }
    requires widths { All (λ u. u.width ≡ width_of packet.now.first) updates.now }
    ensures { result ≡ formulas.dest_tag key.now packet.now (map field_bytes updates.now) }
{
    let mut state = CmacWriter::start(key);
    state.update(&[dest_domain(packet.first_byte())]);
    state.update(&packet.ts().to_be_bytes());
    feed_host(&mut state, packet.src());
    feed_host(&mut state, packet.dst());
    feed_path(&mut state, packet);
    feed_updates(&mut state, updates);
    state.update(&packet.shape().payload.to_be_bytes());
    state.update(packet.payload());
    state.finish()
}

/// Whether the updates are those that a packet's destination field is made over: at level 3 one for each hop, as wide as
/// the packet's fields, and at other levels none.
#[tactic(auto, unfolding(epic_layout::specs::Spelling::update_count, epic_num::specs::Levels::level_number, epic_layout::specs::Contents::shape))]
pub fn are_updates(packet: &PacketRef<'_>, updates: &[Field]) -> bool
    ensures { IsTrue result ↔ ((length updates.now ≡ update_count packet.now.first (hop_count packet.now)) × All (λ u. u.width ≡ width_of packet.now.first) updates.now) }
{
    let width = width_of(packet.first_byte());
    let count = match packet.shape().level {
        Level::L3 => packet.shape().hops,
        _ => 0,
    };
    updates.len() == count as usize && updates.iter().all(|u| u.width == width)
}

/// The first byte of the message of a destination field, by the first byte of the packet, which is of level 2 or 3.
#[tactic(auto, unfolding(epic_num::specs::Messages::dest_domain, epic_num::specs::Levels::is_tagged))]
pub fn dest_domain(first: u8) -> u8
    requires { IsTrue (is_tagged first) }
    ensures { result ≡ dest_domain first }
{
    match first {
        0xE2 => 0x22,
        0xE3 => 0x23,
        0xF2 => 0x42,
        _ => 0x43,
    }
}

/// Puts a host behind the message.
fn feed_host(state: &mut CmacWriter<'_>, host: HostId)
    ensures { state.new ≡ record state.old { message = state.old.message ++ host_bytes host } }
{
    state.update(&host.asn.0.to_be_bytes());
    state.update(&host.host.to_be_bytes());
}

/// Puts the path bytes of a packet behind the message.
fn feed_path(state: &mut CmacWriter<'_>, packet: &PacketRef<'_>)
    ensures { state.new ≡ record state.old { message = state.old.message ++ path_bytes packet.now.route } }
{
    state.update(&[packet.shape().segments]);
    feed_segments(state, packet);
    feed_hops(state, packet);
}

/// Puts the headers of a packet's segments behind the message.
#[tactic(auto, unfolding(epic_layout::specs::Contents::shape))]
fn feed_segments(state: &mut CmacWriter<'_>, packet: &PacketRef<'_>)
    ensures { state.new ≡ record state.old { message = state.old.message ++ flat_map segment_bytes packet.now.route.segments } }
{
    let count = packet.shape().segments;
    for i in 0..count {
        state.update(&packet.segment_head(i));
    }
}

/// Puts a packet's hops without their fields behind the message.
#[tactic(auto, unfolding(epic_layout::specs::Contents::shape))]
fn feed_hops(state: &mut CmacWriter<'_>, packet: &PacketRef<'_>)
    ensures { state.new ≡ record state.old { message = state.old.message ++ flat_map hop_bytes packet.now.route.hops } }
{
    let count = packet.shape().hops;
    for j in 0..count {
        state.update(&packet.hop_head(j));
    }
}

/// Puts updates behind the message.
fn feed_updates(state: &mut CmacWriter<'_>, updates: &[Field])
    requires { All (λ u. u.width ≤ 6) updates.now }
    ensures { state.new ≡ record state.old { message = state.old.message ++ concat (map field_bytes updates.now) } }
{
    for update in updates {
        state.update(&update.bytes[..update.width as usize]);
    }
}
