//! Packets as values, spelled in bytes.
ghost use Rattle.std.specs.Prelude.{◌≡◌, ◌<◌, ◌≤◌, ◌^◌, [], ◌++◌, if◌then◌else◌, IsTrue, IfOk, OnOk, length, map};
ghost use Rattle.std.specs.List.{All, flat_map};
ghost use Rattle.epic_num.specs.BigEndian.{u16_bytes, u32_bytes, u64_bytes};
ghost use Rattle.epic_num.specs.Levels as levels;
ghost use Rattle.epic_num.specs.Messages.{IsHost};
ghost use Rattle.epic_layout.specs.Contents.{header_len, field_bytes};
ghost use Rattle.epic_layout.specs.Packets as packets;
ghost use Rattle.epic_layout.specs.Packets.{contents_of, segment_head_of, hop_head_of, all_hops};
ghost use Rattle.epic_layout.specs.Spelling.{segment_bytes, hop_bytes, size_bytes, end_bytes, dest_bytes, spelling, Spells};

use crate::putting::{buffer, put, put_dest, put_ends, put_hop, put_segment, put_sizes};
use crate::valid::hop_total;
use crate::wire::header_len_of;
use crate::{HopHead, Packet, PacketHop, PacketSegment, SegmentHead};
use epic_num::{OutOfMemory, first_byte};
use std::alloc::Global;

/// Version and level, sizes, current hop.
#[tactic(auto, unfolding(crate::specs::Spelling::size_bytes, crate::specs::Packets::contents_of))]
fn put_packet_sizes(out: &mut Vec<u8>, packet: &Packet, header: u16) -> Result<(), OutOfMemory>
    requires header { header ≡ header_len (contents_of packet.now) }
    requires payload { length packet.now.payload < 2 ^ 16 }
    requires segments { length packet.now.segments < 2 ^ 8 }
    ensures { OnOk result (out.new.items ≡ out.old.items ++ size_bytes (contents_of packet.now)) }
{
    let first = first_byte(packet.version, packet.level);
    let payload = packet.payload.as_slice().len() as u16;
    let segments = packet.segments.as_slice().len() as u8;
    put_sizes(out, first, header, payload, segments, packet.current)
}

/// The header of a segment.
fn segment_head(segment: &PacketSegment) -> SegmentHead
    ensures { result ≡ segment_head_of segment.now }
{
    SegmentHead {
        against: segment.against,
        count: segment.hops.len() as u8,
        ts_path: segment.ts_path,
    }
}

/// A hop with its field.
fn put_row(out: &mut Vec<u8>, hop: &PacketHop) -> Result<(), OutOfMemory>
    requires { hop.now.field.width ≤ 6 }
    ensures put { OnOk result (out.new.items ≡ out.old.items ++ (hop_bytes (hop_head_of hop.now) ++ field_bytes hop.now.field)) }
    ensures fits { OnOk result (packets.FitsRow hop.now) }
{
    let head = HopHead {
        exp: hop.exp,
        inn: hop.inn,
        out: hop.out,
        link: hop.link,
    };
    put_hop(out, &head, &hop.field.bytes[..hop.field.width as usize])
}

/// The headers of all segments.
fn put_segments(out: &mut Vec<u8>, segments: &[PacketSegment]) -> Result<(), OutOfMemory>
    ensures put { OnOk result (out.new.items ≡ out.old.items ++ flat_map (λ s. segment_bytes (segment_head_of s)) segments.now) }
    ensures fits { OnOk result (All (λ s. s.ts_path < 2 ^ 32) segments.now) }
{
    for segment in segments {
        put_segment(out, segment_head(segment))?;
    }
    Ok(())
}

/// Hops with their fields.
fn put_hops(out: &mut Vec<u8>, hops: &[PacketHop]) -> Result<(), OutOfMemory>
    requires { All (λ h. h.field.width ≤ 6) hops.now }
    ensures put { OnOk result (out.new.items ≡ out.old.items ++ flat_map packets.row_of hops.now) }
    ensures fits { OnOk result (All packets.FitsRow hops.now) }
{
    for hop in hops {
        put_row(out, hop)?;
    }
    Ok(())
}

/// The hops of all segments with their fields.
fn put_all_hops(out: &mut Vec<u8>, segments: &[PacketSegment]) -> Result<(), OutOfMemory>
    requires { All (λ s. All (λ h. h.field.width ≤ 6) s.hops.items) segments.now }
    ensures put { OnOk result (out.new.items ≡ out.old.items ++ flat_map (λ s. flat_map packets.row_of s.hops.items) segments.now) }
    ensures fits { OnOk result (All (λ s. All packets.FitsRow s.hops.items) segments.now) }
{
    for segment in segments {
        put_hops(out, &segment.hops)?;
    }
    Ok(())
}

/// The one spelling of a packet within the limits.
#[tactic(auto, using(crate::proofs::Encoded::valid_limits))]
pub fn encode(alloc: Global, packet: &Packet) -> Result<Vec<u8>, OutOfMemory>
    requires { IsTrue (packets.is_valid packet.now) }
    ensures spelled { IfOk result (λ bytes. bytes.items ≡ spelling (contents_of packet.now)) }
    ensures spells { IfOk result (λ bytes. Spells bytes.items (contents_of packet.now)) }
{
    let first = first_byte(packet.version, packet.level);
    let segments = packet.segments.as_slice();
    let header = header_len_of(first, segments.len() as u8, hop_total(segments) as u16);
    let payload = packet.payload.as_slice();
    let mut out = buffer(alloc, header as usize + payload.len())?;
    put_packet_sizes(&mut out, packet, header)?;
    put_ends(&mut out, packet.src, packet.dst, packet.ts)?;
    put_segments(&mut out, segments)?;
    put_all_hops(&mut out, segments)?;
    put_dest(&mut out, first, &packet.dest_field)?;
    put(&mut out, payload)?;
    Ok(out)
}
