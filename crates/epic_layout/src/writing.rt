//! Packets as their source writes them first: with room for the fields, which are set where they lie.
ghost use Rattle.std.specs.Prelude.{◌≡◌, ◌<◌, ◌≤◌, ◌^◌, ◌++◌, IsTrue, None, IfOk, OnOk, length, replicate};
ghost use Rattle.std.specs.List.{All, flat_map};
ghost use Rattle.epic_num.specs.Levels.{is_first_byte};
ghost use Rattle.epic_layout.specs.Contents.{IsHop, IsPacket, AreSegments, unfilled};
ghost use Rattle.epic_layout.specs.Route.{hops_of};
ghost use Rattle.epic_layout.specs.Layout.{fault};
ghost use Rattle.epic_layout.specs.Spelling.{segment_bytes, hop_bytes, spelling};

use crate::putting::{buffer, put, put_dest, put_ends, put_hop, put_segment, put_sizes};
use crate::wire::{DEST_LEN, MAX_PAYLOAD, header_len_of};
use crate::{HopHead, SegmentHead};
use epic_num::{HostId, OutOfMemory, width_of};
use std::alloc::Global;

/// The headers of all segments.
fn put_heads(out: &mut Vec<u8>, segments: &[SegmentHead]) -> Result<(), OutOfMemory>
    ensures put { OnOk result (out.new.items ≡ out.old.items ++ flat_map segment_bytes segments.now) }
    ensures fits { OnOk result (All (λ s. s.ts_path < 2 ^ 32) segments.now) }
{
    for head in segments {
        put_segment(out, *head)?;
    }
    Ok(())
}

/// All hops, each with a field of zeros.
fn put_bare_hops(out: &mut Vec<u8>, hops: &[HopHead], zeros: &[u8]) -> Result<(), OutOfMemory>
    ensures put { OnOk result (out.new.items ≡ out.old.items ++ flat_map (λ h. hop_bytes h ++ zeros.now) hops.now) }
    ensures fits { OnOk result (All IsHop hops.now) }
{
    for head in hops {
        put_hop(out, head, zeros)?;
    }
    Ok(())
}

/// The one spelling of a packet at its first hop, from its first byte, source, destination, timestamp in microseconds,
/// segments and hops in travel order, and payload. Each hop's field is zeros, and so is the destination field. The list
/// has its exact length from the start.
#[tactic(auto, using(crate::proofs::Written::widths))]
pub fn unfilled_packet(
    alloc: Global,
    first: u8,
    src: HostId,
    dst: HostId,
    ts: u64,
    segments: &[SegmentHead],
    hops: &[HopHead],
    payload: &[u8],
) -> Result<Vec<u8>, OutOfMemory>
    requires exists { IsTrue (is_first_byte first) }
    requires segments { AreSegments segments.now }
    requires hops { hops_of segments.now ≡ length hops.now }
    requires payload { length payload.now ≤ MAX_PAYLOAD }
    ensures packet { IfOk result (λ _. IsPacket (unfilled first src dst ts (record { segments = segments.now; hops = hops.now }) payload.now)) }
    ensures spelled { IfOk result (λ bytes. bytes.items ≡ spelling (unfilled first src dst ts (record { segments = segments.now; hops = hops.now }) payload.now)) }
    ensures faultless { IfOk result (λ bytes. fault is_first_byte bytes.items ≡ None) }
{
    let header = header_len_of(first, segments.len() as u8, hops.len() as u16);
    let mut out = buffer(alloc, header as usize + payload.len())?;
    put_sizes(
        &mut out,
        first,
        header,
        payload.len() as u16,
        segments.len() as u8,
        0,
    )?;
    put_ends(&mut out, src, dst, ts)?;
    put_heads(&mut out, segments)?;
    let zeros = [0; 6];
    put_bare_hops(&mut out, hops, &zeros[..width_of(first) as usize])?;
    put_dest(&mut out, first, &[0; DEST_LEN])?;
    put(&mut out, payload)?;
    Ok(out)
}
