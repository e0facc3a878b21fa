//! The parts of a packet, spelled at the end of a list of bytes.
ghost use Rattle.std.specs.Prelude.{◌≡◌, ◌<◌, ◌^◌, [], ◌++◌, if◌then◌else◌, IfOk, OnOk, length};
ghost use Rattle.epic_num.specs.BigEndian.{u16_bytes, u32_bytes, u64_bytes};
ghost use Rattle.epic_num.specs.Levels as levels;
ghost use Rattle.epic_num.specs.Messages.{IsHost};
ghost use Rattle.epic_layout.specs.Contents.{IsHop};
ghost use Rattle.epic_layout.specs.Spelling.{segment_bytes, hop_bytes, sizes_bytes, ends_bytes};

use crate::wire::DEST_LEN;
use crate::{HopHead, SegmentHead};
use epic_num::{HostId, OutOfMemory, is_tagged};
use std::alloc::Global;

/// No bytes, with room for some.
pub fn buffer(alloc: Global, room: usize) -> Result<Vec<u8>, OutOfMemory>
    ensures { IfOk result (λ out. out.items ≡ []) }
{
    Vec::with_capacity(alloc, room).map_err(|_| OutOfMemory)
}

/// Appends bytes.
pub fn put(out: &mut Vec<u8>, part: &[u8]) -> Result<(), OutOfMemory>
    ensures { OnOk result (out.new.items ≡ out.old.items ++ part.now) }
{
    out.extend_from_slice(part).map_err(|_| OutOfMemory)
}

#[tactic(auto, unfolding(epic_num::specs::BigEndian::u16_bytes))]
fn put_u16(out: &mut Vec<u8>, n: u16) -> Result<(), OutOfMemory>
    ensures { OnOk result (out.new.items ≡ out.old.items ++ u16_bytes n) }
{
    put(out, &n.to_be_bytes())
}

#[tactic(auto, unfolding(epic_num::specs::BigEndian::u32_bytes))]
fn put_u32(out: &mut Vec<u8>, n: u32) -> Result<(), OutOfMemory>
    ensures { OnOk result (out.new.items ≡ out.old.items ++ u32_bytes n) }
{
    put(out, &n.to_be_bytes())
}

#[tactic(auto, unfolding(epic_num::specs::BigEndian::u64_bytes))]
fn put_u64(out: &mut Vec<u8>, n: u64) -> Result<(), OutOfMemory>
    ensures { OnOk result (out.new.items ≡ out.old.items ++ u64_bytes n) }
{
    put(out, &n.to_be_bytes())
}

/// Version and level, the sizes of header and payload in bytes, the number of segments, the current hop.
pub fn put_sizes(
    out: &mut Vec<u8>,
    first: u8,
    header: u16,
    payload: u16,
    segments: u8,
    current: u8,
) -> Result<(), OutOfMemory>
    ensures { OnOk result (out.new.items ≡ out.old.items ++ sizes_bytes first header payload segments current) }
{
    put(out, &[first, 0])?;
    put_u16(out, header)?;
    put_u16(out, payload)?;
    put(out, &[segments, current])
}

/// Source, destination, timestamp.
pub fn put_ends(out: &mut Vec<u8>, src: HostId, dst: HostId, ts: u64) -> Result<(), OutOfMemory>
    ensures put { OnOk result (out.new.items ≡ out.old.items ++ ends_bytes src dst ts) }
    ensures src { IsHost src }
    ensures dst { IsHost dst }
    ensures ts { ts < 2 ^ 64 }
{
    put_u64(out, src.asn.0)?;
    put_u64(out, dst.asn.0)?;
    put_u32(out, src.host)?;
    put_u32(out, dst.host)?;
    put_u64(out, ts)
}

/// A segment's header.
#[tactic(auto, unfolding(crate::specs::Spelling::segment_bytes))]
pub fn put_segment(out: &mut Vec<u8>, head: SegmentHead) -> Result<(), OutOfMemory>
    ensures put { OnOk result (out.new.items ≡ out.old.items ++ segment_bytes head) }
    ensures fits { head.ts_path < 2 ^ 32 }
{
    let direction = if head.against { 1 } else { 0 };
    put(out, &[direction, head.count, 0, 0])?;
    put_u32(out, head.ts_path)
}

/// A hop with its field.
#[tactic(auto, unfolding(crate::specs::Spelling::hop_bytes))]
pub fn put_hop(out: &mut Vec<u8>, head: &HopHead, field: &[u8]) -> Result<(), OutOfMemory>
    ensures put { OnOk result (out.new.items ≡ out.old.items ++ (hop_bytes head.now ++ field.now)) }
    ensures fits { OnOk result (IsHop head.now) }
{
    put(out, &[head.exp])?;
    put_u16(out, head.inn)?;
    put_u16(out, head.out)?;
    put(out, &head.link)?;
    put(out, field)
}

/// The destination field of levels 2 and 3.
pub fn put_dest(out: &mut Vec<u8>, first: u8, field: &[u8; DEST_LEN]) -> Result<(), OutOfMemory>
    ensures put { OnOk result (out.new.items ≡ out.old.items ++ (if levels.is_tagged first then field.now else [])) }
    ensures size { length field.now ≡ DEST_LEN }
{
    if is_tagged(first) {
        put(out, field)
    } else {
        Ok(())
    }
}
