//! Whether bytes are a packet.
ghost use Rattle.std.specs.Prelude.{◌≡◌, ◌+◌, ◌≤◌, ◌||◌, nat_lt, length, None, Ok};
ghost use Rattle.epic_num.specs.Levels as levels;
ghost use Rattle.epic_layout.specs.Pieces.{byte, number};
ghost use Rattle.epic_layout.specs.Contents.{segment_offset};
ghost use Rattle.epic_layout.specs.Layout.{any_segment, is_reserved, is_miscounted, hops_in, fault, checked};

use crate::Shape;
use crate::read::u16_at;
use crate::wire::{
    CURRENT_AT, FIXED_LEN, FLAGS_AT, HEADER_LEN_AT, MAX_HOPS, MAX_PAYLOAD, MAX_SEGMENT_HOPS,
    MAX_SEGMENTS, MIN_SEGMENT_HOPS, PAYLOAD_LEN_AT, SEGMENT_COUNT_AT, SEGMENT_LEN,
    SEGMENT_ZEROS_AT, SEGMENTS_AT, header_len_of, segment_start,
};
use epic_num::{LayoutError, is_first_byte, level_of, version_of};

/// What the segment headers tell of.
#[derive(Clone, Copy)]
struct Heads {
    is_reserved: bool,
    is_miscounted: bool,
    hops: u16,
}

/// The direction that begins at `at` is neither 0 nor 1, or a reserved byte of its header isn't 0.
fn has_reserved(bytes: &[u8], i: u8) -> bool
    requires { segment_offset i + SEGMENT_LEN ≤ length bytes.now }
    ensures { result ≡ is_reserved bytes.now i }
{
    let at = segment_start(i);
    bytes[at] > 1 || bytes[at + SEGMENT_ZEROS_AT] != 0 || bytes[at + (SEGMENT_ZEROS_AT + 1)] != 0
}

/// A segment has too few or too many hops.
fn has_no_segment_length(hops: u8) -> bool
    ensures { result ≡ (nat_lt hops MIN_SEGMENT_HOPS || nat_lt MAX_SEGMENT_HOPS hops) }
{
    hops < MIN_SEGMENT_HOPS || hops > MAX_SEGMENT_HOPS
}

/// Reads the segment headers, each once.
#[tactic(auto, using(crate::proofs::Ranges::range_steps), unfolding(crate::specs::Layout::any_segment, crate::specs::Layout::segments_in, crate::specs::Layout::segment_at, crate::specs::Route::hops_of))]
fn heads_of(bytes: &[u8], count: u8) -> Heads
    requires told { byte bytes.now SEGMENTS_AT ≡ count }
    requires few { count ≤ MAX_SEGMENTS }
    requires there { segment_offset count ≤ length bytes.now }
    ensures reserved { result.is_reserved ≡ any_segment (is_reserved bytes.now) bytes.now }
    ensures counted { result.is_miscounted ≡ any_segment (is_miscounted bytes.now) bytes.now }
    ensures hops { result.hops ≡ hops_in bytes.now }
{
    let mut is_reserved = false;
    let mut is_miscounted = false;
    let mut hops = 0u16;
    for i in 0..count {
        let here = bytes[segment_start(i) + SEGMENT_COUNT_AT];
        is_reserved |= has_reserved(bytes, i);
        is_miscounted |= has_no_segment_length(here);
        hops += here as u16;
    }
    Heads {
        is_reserved,
        is_miscounted,
        hops,
    }
}

/// The sizes that a packet's header tells of, or the first fault of bytes that are no packet.
#[tactic(auto, using(crate::proofs::Shapes::shape_parse), unfolding(crate::specs::Layout::tests, crate::specs::Layout::header_len_in, crate::specs::Layout::hop_offset))]
pub fn check(bytes: &[u8]) -> Result<Shape, LayoutError>
    ensures { result ≡ checked bytes.now }
{
    if bytes.len() < FIXED_LEN {
        return Err(LayoutError::Short);
    }
    let first = bytes[0];
    if !is_first_byte(first) {
        return Err(LayoutError::Version);
    }
    if bytes[FLAGS_AT] != 0 {
        return Err(LayoutError::Flags);
    }
    let segments = bytes[SEGMENTS_AT];
    if segments < 1 || segments > MAX_SEGMENTS {
        return Err(LayoutError::SegmentCount);
    }
    if bytes.len() < segment_start(segments) {
        return Err(LayoutError::Short);
    }
    let heads = heads_of(bytes, segments);
    if heads.is_reserved {
        return Err(LayoutError::Reserved);
    }
    if heads.is_miscounted || heads.hops > MAX_HOPS as u16 {
        return Err(LayoutError::HopCount);
    }
    let header = header_len_of(first, segments, heads.hops);
    if u16_at(bytes, HEADER_LEN_AT) != header || bytes.len() < header as usize {
        return Err(LayoutError::HeaderLength);
    }
    let payload = u16_at(bytes, PAYLOAD_LEN_AT);
    if payload > MAX_PAYLOAD || header as usize + payload as usize != bytes.len() {
        return Err(LayoutError::PayloadLength);
    }
    let hops = heads.hops as u8;
    if bytes[CURRENT_AT] > hops {
        return Err(LayoutError::CurrentHop);
    }
    Ok(Shape {
        version: version_of(first),
        level: level_of(first),
        segments,
        hops,
        header,
        payload,
    })
}

/// How many hops the segments have whose headers these are.
#[tactic(auto, using(crate::proofs::Ranges::range_steps), unfolding(crate::specs::Layout::segments_in, crate::specs::Layout::segment_at, crate::specs::Route::hops_of))]
fn hops_of(bytes: &[u8], count: u8) -> u16
    requires told { byte bytes.now SEGMENTS_AT ≡ count }
    requires few { count ≤ MAX_SEGMENTS }
    requires there { segment_offset count ≤ length bytes.now }
    ensures { result ≡ hops_in bytes.now }
{
    let mut hops = 0u16;
    for i in 0..count {
        hops += bytes[segment_start(i) + SEGMENT_COUNT_AT] as u16;
    }
    hops
}

/// The sizes of bytes that are known to be a packet, which are not checked again.
#[tactic(auto, using(crate::proofs::Shapes::sizes_known))]
pub fn shape_of(bytes: &[u8]) -> Shape
    requires { fault levels.is_first_byte bytes.now ≡ None }
    ensures { Ok result ≡ checked bytes.now }
{
    let first = bytes[0];
    let segments = bytes[SEGMENTS_AT];
    Shape {
        version: version_of(first),
        level: level_of(first),
        segments,
        hops: hops_of(bytes, segments) as u8,
        header: u16_at(bytes, HEADER_LEN_AT),
        payload: u16_at(bytes, PAYLOAD_LEN_AT),
    }
}
