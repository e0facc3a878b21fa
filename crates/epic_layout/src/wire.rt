//! Where the parts of a packet lie, and how many bytes each takes. Places count bytes from 0, and numbers are big-endian.
ghost use Rattle.std.specs.Prelude.{◌≡◌, ◌≤◌};
ghost use Rattle.epic_layout.specs.Contents as contents;

use epic_num::{is_tagged, width_of};

// The fixed header begins with the byte of version and level.

/// Flags, 1 byte.
pub const FLAGS_AT: usize = 1;
/// The bytes before the payload, 2 bytes.
pub const HEADER_LEN_AT: usize = 2;
/// The bytes of the payload, 2 bytes.
pub const PAYLOAD_LEN_AT: usize = 4;
/// The number of segments, 1 byte.
pub const SEGMENTS_AT: usize = 6;
/// The index of the current hop, 1 byte.
pub const CURRENT_AT: usize = 7;
/// The source's AS, 8 bytes.
pub const SRC_AS_AT: usize = 8;
/// The destination's AS, 8 bytes.
pub const DST_AS_AT: usize = 16;
/// The number of the source in its AS, 4 bytes.
pub const SRC_HOST_AT: usize = 24;
/// The number of the destination in its AS, 4 bytes.
pub const DST_HOST_AT: usize = 28;
/// The timestamp, 8 bytes.
pub const TS_AT: usize = 32;
/// The bytes of the fixed header, which the headers of the segments follow.
pub const FIXED_LEN: usize = 40;

// A segment's header begins with the byte of its direction.

/// The number of its hops, 1 byte.
pub const SEGMENT_COUNT_AT: usize = 1;
/// Two bytes that are 0.
pub const SEGMENT_ZEROS_AT: usize = 2;
/// Its timestamp, 4 bytes.
pub const SEGMENT_TS_AT: usize = 4;
/// The bytes of a segment's header. The hops follow the last of them.
pub const SEGMENT_LEN: usize = 8;

// A hop begins with the byte of its expiry.

/// The interface towards the hop before it in construction order, 2 bytes.
pub const HOP_INN_AT: usize = 1;
/// The interface towards the next hop in construction order, 2 bytes.
pub const HOP_OUT_AT: usize = 3;
/// The link tag, 8 bytes.
pub const HOP_LINK_AT: usize = 5;
/// The bytes of a link tag.
pub const LINK_LEN: usize = 8;
/// The bytes of a hop without its field, which follows them.
pub const HOP_LEN: usize = 13;

/// The bytes of the destination field, which follows the hops at levels 2 and 3.
pub const DEST_LEN: usize = 16;

// The limits of a packet.

/// The most segments of a packet, which has 1 at least.
pub const MAX_SEGMENTS: u8 = 3;
/// The fewest hops of a segment.
pub const MIN_SEGMENT_HOPS: u8 = 2;
/// The most hops of a segment.
pub const MAX_SEGMENT_HOPS: u8 = 16;
/// The most hops of a packet.
pub const MAX_HOPS: u8 = 32;
/// The most bytes of a payload.
pub const MAX_PAYLOAD: u16 = 8192;

/// Where the header of segment `i` begins, from 0, and where the hops begin after `i` segments.
pub fn segment_start(i: u8) -> usize
    ensures { result ≡ contents.segment_offset i }
{
    FIXED_LEN + SEGMENT_LEN * i as usize
}

/// How many bytes a hop takes with its field in a packet with this first byte.
#[tactic(auto, using(crate::proofs::Offsets::width_most))]
pub fn row_len(first: u8) -> usize
    ensures value { result ≡ contents.row_len first }
    ensures narrow { result ≤ 19 }
{
    HOP_LEN + width_of(first) as usize
}

/// How many bytes stand before the payload of a packet with this first byte and these numbers of segments and hops.
#[tactic(auto, using(crate::proofs::Offsets::rows_fit), unfolding(crate::specs::Contents::dest_len))]
pub fn header_len_of(first: u8, segments: u8, hops: u16) -> u16
    requires few_segments { segments ≤ 3 }
    requires few_hops { hops ≤ 48 }
    ensures { result ≡ contents.header_len_of first segments hops }
{
    let dest_len = if is_tagged(first) { DEST_LEN } else { 0 };
    (segment_start(segments) + row_len(first) * hops as usize + dest_len) as u16
}
