//! Packets as values, decoded from bytes.
ghost use Rattle.std.specs.Prelude.{◌≡◌, ◌+◌, ◌-◌, ◌<◌, ◌≤◌, ◌++◌, IfOk, length, map, replicate};
ghost use Rattle.std.specs.List.{range_with_len};
ghost use Rattle.epic_num.specs.Levels as levels;
ghost use Rattle.epic_num.specs.Tables.{unless};
ghost use Rattle.epic_layout.specs.Pieces.{byte, piece};
ghost use Rattle.epic_layout.specs.Contents as contents;
ghost use Rattle.epic_layout.specs.Layout.{parse, fault, segments_in, hops_in, hop_len, hop_offset, field_at, dest_field_in, header_len_in};
ghost use Rattle.epic_layout.specs.Decoding.{packet_hop_at, packet_segment_at, packet_segments_in, packet_in};
ghost use Rattle.epic_layout.specs.Laws.{hops_before};
ghost use Rattle.epic_layout.specs.Packets.{Decodes};
ghost use Rattle.epic_layout.specs.Sound.{IsSound};

use crate::read::{bytes_at, hop_head_at, host_at, segment_head_at, u64_at};
use crate::wire::{
    CURRENT_AT, DEST_LEN, DST_AS_AT, DST_HOST_AT, HOP_LEN, SEGMENTS_AT, SRC_AS_AT, SRC_HOST_AT,
    TS_AT, row_len, segment_start,
};
use crate::{Packet, PacketHop, PacketSegment, Segments, Shape, check};
use arrayvec::ArrayVec;
use epic_num::{Bytes, Field, LayoutError, is_tagged, width_of};
use std::alloc::{AllocError, Global};

/// Why bytes weren't decoded.
#[derive(Clone, Copy, Debug, PartialEq, Eq)]
pub enum DecodeError {
    /// They are no packet.
    Layout(LayoutError),
    /// Memory was wanting.
    OutOfMemory,
}

/// Where the hop begins.
#[tactic(auto, using(crate::proofs::Offsets::hop_there, crate::proofs::Offsets::width_most), unfolding(crate::specs::Layout::hop_offset))]
fn hop_at(bytes: &[u8], hop: u8) -> usize
    requires sound { IsSound bytes.now }
    requires there { hop < hops_in bytes.now }
    ensures offset { result ≡ hop_offset bytes.now hop }
    ensures within { result + hop_len bytes.now ≤ length bytes.now }
{
    segment_start(bytes[SEGMENTS_AT]) + row_len(bytes[0]) * hop as usize
}

/// Up to six bytes, with zeros after them.
fn padded(part: &[u8]) -> [u8; 6]
    requires { length part.now ≤ 6 }
    ensures { result ≡ part.now ++ replicate (6 - length part.now) 0 }
{
    let mut whole = [0; 6];
    whole[..part.len()].copy_from_slice(part);
    whole
}

/// The hop's field, `width` bytes from `at` on.
#[tactic(auto, unfolding(crate::specs::Contents::as_field))]
fn field_from(bytes: &[u8], at: usize, width: u8) -> Field
    requires few { width ≤ 6 }
    requires there { at + width ≤ length bytes.now }
    ensures { result ≡ contents.as_field (piece bytes.now at width) }
{
    let whole = padded(&bytes[at..at + width as usize]);
    Field {
        bytes: whole,
        width,
    }
}

/// The hop with its field.
#[tactic(auto, using(crate::proofs::Offsets::width_most), unfolding(crate::specs::Decoding::packet_hop_at))]
fn packet_hop(bytes: &[u8], hop: u8) -> PacketHop
    requires sound { IsSound bytes.now }
    requires there { hop < hops_in bytes.now }
    ensures { result ≡ packet_hop_at bytes.now hop }
{
    let at = hop_at(bytes, hop);
    let head = hop_head_at(bytes, at);
    let link = head.link;
    PacketHop {
        exp: head.exp,
        inn: head.inn,
        out: head.out,
        link,
        field: field_from(bytes, at + HOP_LEN, width_of(bytes[0])),
    }
}

/// `count` hops from one on.
#[tactic(auto, using(crate::proofs::Decoded::hops_more))]
fn hops_from(bytes: &[u8], from: u8, count: u8) -> ArrayVec<PacketHop, 16>
    requires sound { IsSound bytes.now }
    requires there { from + count ≤ hops_in bytes.now }
    requires few { count ≤ 16 }
    ensures { result.items ≡ map (packet_hop_at bytes.now) (range_with_len from count) }
{
    let mut hops = ArrayVec::new();
    for i in 0..count {
        hops.push(packet_hop(bytes, from + i));
    }
    hops
}

/// Segment `i` with its hops, `passed` hops being in the segments before it.
#[tactic(auto, using(crate::proofs::Decoded::segment_parts))]
fn segment_from(bytes: &[u8], i: u8, passed: u8) -> PacketSegment
    requires sound { IsSound bytes.now }
    requires there { i < byte bytes.now SEGMENTS_AT }
    requires passed { passed ≡ hops_before (segments_in bytes.now) i }
    ensures { result ≡ packet_segment_at bytes.now i }
{
    let head = segment_head_at(bytes, i);
    let hops = hops_from(bytes, passed, head.count);
    PacketSegment {
        against: head.against,
        ts_path: head.ts_path,
        hops,
    }
}

/// All segments with their hops.
#[tactic(auto, using(crate::proofs::Decoded::segments_more), unfolding(crate::specs::Decoding::packet_segments_in))]
fn segments_from(alloc: Global, bytes: &[u8]) -> Result<Vec<PacketSegment>, AllocError>
    requires { IsSound bytes.now }
    ensures { IfOk result (λ v. v.items ≡ packet_segments_in bytes.now) }
{
    let mut segments = Vec::new(alloc);
    let mut passed = 0u8;
    for i in 0..bytes[SEGMENTS_AT] {
        segments.push(segment_from(bytes, i, passed))?;
        passed += segment_head_at(bytes, i).count;
    }
    Ok(segments)
}

/// The destination field, and zeros at levels 0 and 1.
#[tactic(auto, using(crate::proofs::Fields::dest_fields))]
fn dest_field(bytes: &[u8], header: u16) -> [u8; DEST_LEN]
    requires sound { IsSound bytes.now }
    requires header { header ≡ header_len_in bytes.now }
    ensures { result ≡ dest_field_in bytes.now }
{
    if is_tagged(bytes[0]) {
        bytes_at(bytes, header as usize - DEST_LEN)
    } else {
        [0; DEST_LEN]
    }
}

/// The packet of sound bytes, whose shape was checked.
#[tactic(auto, using(crate::proofs::Shapes::sizes), unfolding(crate::specs::Decoding::packet_in))]
fn packet_from(alloc: Global, bytes: &[u8], shape: Shape) -> Result<Packet, AllocError>
    requires sound { IsSound bytes.now }
    requires shape { shape ≡ contents.shape (parse bytes.now) }
    ensures { IfOk result (λ p. p ≡ packet_in bytes.now) }
{
    let segments = segments_from(alloc, bytes)?;
    let payload = Vec::from_slice(alloc, &bytes[shape.header as usize..])?;
    let dest_field = dest_field(bytes, shape.header);
    Ok(Packet {
        version: shape.version,
        level: shape.level,
        current: bytes[CURRENT_AT],
        src: host_at(bytes, SRC_AS_AT, SRC_HOST_AT),
        dst: host_at(bytes, DST_AS_AT, DST_HOST_AT),
        ts: u64_at(bytes, TS_AT),
        segments: Segments::from_vec(segments),
        dest_field,
        payload: Bytes::from_vec(payload),
    })
}

/// The packet of bytes without a fault, or their first fault.
#[tactic(auto, using(crate::proofs::Soundness::checked))]
pub fn decode(alloc: Global, bytes: &[u8]) -> Result<Packet, DecodeError>
    ensures { Decodes result (unless (fault levels.is_first_byte bytes.now) (parse bytes.now)) }
{
    let shape = match check(bytes) {
        Ok(shape) => shape,
        Err(fault) => return Err(DecodeError::Layout(fault)),
    };
    match packet_from(alloc, bytes, shape) {
        Ok(packet) => Ok(packet),
        Err(_) => Err(DecodeError::OutOfMemory),
    }
}
