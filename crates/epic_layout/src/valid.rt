//! When a decoded packet is within the limits of the layout.
ghost use Rattle.std.specs.Prelude.{◌≡◌, ◌≤◌, IsTrue, length};
ghost use Rattle.std.specs.List.{list_all};
ghost use Rattle.epic_layout.specs.Packets as packets;

use crate::wire::{MAX_HOPS, MAX_PAYLOAD, MAX_SEGMENT_HOPS, MAX_SEGMENTS, MIN_SEGMENT_HOPS};
use crate::{Packet, PacketHop, PacketSegment};
use epic_num::{Field, Level, first_byte, is_tagged, width_of};

/// Version 1 has all levels, version 2 has levels 2 and 3.
#[tactic(auto, unfolding(crate::specs::Packets::is_version))]
fn is_version(version: u8, level: Level) -> bool
    ensures { result ≡ packets.is_version version level }
{
    version == 1 || version == 2 && is_tagged(first_byte(version, level))
}

/// The segment has as many hops as a segment may have.
#[tactic(auto, unfolding(crate::specs::Packets::is_segment))]
fn is_segment(segment: &PacketSegment) -> bool
    ensures { result ≡ packets.is_segment segment.now }
{
    let hops = segment.hops.len();
    MIN_SEGMENT_HOPS as usize <= hops && hops <= MAX_SEGMENT_HOPS as usize
}

/// How many hops the segments have in all.
#[tactic(auto, using(crate::proofs::AllHops::hops_steps), unfolding(crate::specs::Packets::all_hops))]
pub(crate) fn hop_total(segments: &[PacketSegment]) -> usize
    requires { length segments.now ≤ MAX_SEGMENTS }
    ensures { result ≡ length (packets.all_hops segments.now) }
{
    let mut total = 0;
    for segment in segments {
        total += segment.hops.len();
    }
    total
}

fn all_fit(segments: &[PacketSegment]) -> bool
    ensures { result ≡ list_all packets.is_segment segments.now }
{
    segments.iter().all(|s| is_segment(s))
}

/// One to three segments, of 32 hops at most.
#[tactic(auto, unfolding(crate::specs::Packets::are_segments))]
fn are_segments(segments: &[PacketSegment]) -> bool
    ensures fit { result ≡ packets.are_segments segments.now }
    ensures few { IsTrue result → length segments.now ≤ MAX_SEGMENTS }
{
    if segments.is_empty() || segments.len() > MAX_SEGMENTS as usize {
        return false;
    }
    if !all_fit(segments) {
        return false;
    }
    hop_total(segments) <= MAX_HOPS as usize
}

fn are_zeros(bytes: &[u8]) -> bool
    ensures { result ≡ packets.are_zeros bytes.now }
{
    bytes.iter().all(|b| *b == 0)
}

/// The field has the width, and is 0 past it.
#[tactic(auto, unfolding(crate::specs::Packets::is_field))]
fn is_field(width: u8, field: &Field) -> bool
    requires { width ≤ 6 }
    ensures { result ≡ packets.is_field width field.now }
{
    field.width == width && are_zeros(&field.bytes[width as usize..])
}

#[tactic(auto, unfolding(crate::specs::Packets::are_fields))]
fn are_fields(width: u8, hops: &[PacketHop]) -> bool
    requires { width ≤ 6 }
    ensures { result ≡ packets.are_fields width hops.now }
{
    hops.iter().all(|h| is_field(width, &h.field))
}

fn each_fields(width: u8, segments: &[PacketSegment]) -> bool
    requires { width ≤ 6 }
    ensures { result ≡ list_all (λ s. packets.are_fields width s.hops.items) segments.now }
{
    segments.iter().all(|s| are_fields(width, &s.hops))
}

#[tactic(auto, using(crate::proofs::AllHops::fields_of_all))]
fn are_all_fields(width: u8, segments: &[PacketSegment]) -> bool
    requires { width ≤ 6 }
    ensures { result ≡ packets.are_fields width (packets.all_hops segments.now) }
{
    each_fields(width, segments)
}

/// The packet is within the limits of the layout, and its destination field is zero at levels 0 and 1.
#[tactic(auto, using(crate::proofs::Offsets::width_most), unfolding(crate::specs::Packets::is_valid))]
pub fn is_valid(packet: &Packet) -> bool
    ensures { result ≡ packets.is_valid packet.now }
{
    let first = first_byte(packet.version, packet.level);
    let segments = packet.segments.as_slice();
    is_version(packet.version, packet.level)
        && are_segments(segments)
        && are_all_fields(width_of(first), segments)
        && packet.current as usize <= hop_total(segments)
        && (is_tagged(first) || are_zeros(&packet.dest_field))
        && packet.payload.as_slice().len() <= MAX_PAYLOAD as usize
}
