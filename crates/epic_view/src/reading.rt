//! The parts of a packet's bytes.
ghost use Rattle.std.specs.Prelude.{◌≡◌, ◌+◌, ◌<◌, ◌≤◌, ◌↔◌, IsTrue, length};
ghost use Rattle.epic_num.specs.Levels.{width_of};
ghost use Rattle.epic_layout.specs.Route as route;
ghost use Rattle.epic_layout.specs.Contents as contents;
ghost use Rattle.epic_layout.specs.Layout as layout;
ghost use Rattle.epic_layout.specs.Layout.{segments_in, segment_at, hops_in, field_at, dest_field_in};
ghost use Rattle.epic_layout.specs.Pieces.{byte, piece};
ghost use Rattle.epic_layout.specs.Spelling.{segment_bytes, hop_bytes, path_bytes};
ghost use Rattle.epic_layout.specs.Sound.{IsSound};
ghost use Rattle.epic_view.specs.View.{IsView};

use crate::frame::{Frame, hop_at};
use crate::places::{place_at, position};
use epic_layout::wire::{
    DEST_LEN, FIXED_LEN, HOP_INN_AT, HOP_LEN, HOP_OUT_AT, SEGMENT_LEN, SEGMENTS_AT, segment_start,
};
use epic_layout::{bytes_at, hop_head_at, u16_at};
use epic_num::{Body, Field, is_tagged};

/// What a slice of bytes holds are bytes.
pub fn are_bytes(_bytes: &[u8])
    ensures { contents.IsBytes _bytes.now }
{}

/// The hop as its AS authenticates it.
pub fn body(bytes: &[u8], frame: Frame, hop: u8) -> Body
    requires view { IsView bytes.now frame }
    requires there { hop < hops_in bytes.now }
    ensures { result ≡ route.body_at (route.place (segments_in bytes.now) hop) (layout.hop_at bytes.now hop) }
{
    let place = place_at(bytes, frame, hop);
    let head = hop_head_at(bytes, hop_at(bytes, frame, hop));
    let link = head.link;
    Body {
        pos: position(place),
        exp: head.exp,
        ts_path: place.head.ts_path,
        inn: head.inn,
        out: head.out,
        link,
    }
}

/// The hop's field.
#[tactic(auto, using(epic_layout::proofs::Fields::fields, epic_layout::proofs::Fields::field_parts))]
pub fn field(bytes: &[u8], frame: Frame, hop: u8) -> Field
    requires view { IsView bytes.now frame }
    requires there { hop < hops_in bytes.now }
    ensures value { result ≡ contents.as_field (field_at bytes.now hop) }
    ensures width { result.width ≡ width_of (byte bytes.now 0) }
    ensures bytes { contents.field_bytes result ≡ field_at bytes.now hop }
{
    let at = hop_at(bytes, frame, hop) + HOP_LEN;
    if frame.hop_len == HOP_LEN + 3 {
        Field {
            bytes: [bytes[at], bytes[at + 1], bytes[at + 2], 0, 0, 0],
            width: 3,
        }
    } else {
        let whole = bytes_at(bytes, at);
        Field {
            bytes: whole,
            width: 6,
        }
    }
}

/// The interface by which a packet comes to the hop.
#[tactic(auto, unfolding(epic_layout::specs::Layout::hop_head_at))]
pub fn ingress(bytes: &[u8], frame: Frame, hop: u8) -> u16
    requires view { IsView bytes.now frame }
    requires there { hop < hops_in bytes.now }
    ensures { result ≡ route.ingress_of (route.place (segments_in bytes.now) hop).head.against (layout.hop_at bytes.now hop) }
{
    let at = hop_at(bytes, frame, hop);
    if place_at(bytes, frame, hop).head.against {
        u16_at(bytes, at + HOP_OUT_AT)
    } else {
        u16_at(bytes, at + HOP_INN_AT)
    }
}

/// The interface by which a packet leaves the hop.
#[tactic(auto, unfolding(epic_layout::specs::Layout::hop_head_at))]
pub fn egress(bytes: &[u8], frame: Frame, hop: u8) -> u16
    requires view { IsView bytes.now frame }
    requires there { hop < hops_in bytes.now }
    ensures { result ≡ route.egress_of (route.place (segments_in bytes.now) hop).head.against (layout.hop_at bytes.now hop) }
{
    let at = hop_at(bytes, frame, hop);
    if place_at(bytes, frame, hop).head.against {
        u16_at(bytes, at + HOP_INN_AT)
    } else {
        u16_at(bytes, at + HOP_OUT_AT)
    }
}

/// The destination field, and zeros at levels 0 and 1.
#[tactic(auto, using(epic_layout::proofs::Fields::dest_fields))]
pub fn dest_field(bytes: &[u8], frame: Frame) -> [u8; DEST_LEN]
    requires { IsView bytes.now frame }
    ensures { result ≡ dest_field_in bytes.now }
{
    if is_tagged(bytes[0]) {
        bytes_at(bytes, frame.shape.header as usize - DEST_LEN)
    } else {
        [0; DEST_LEN]
    }
}

/// The bytes of a segment's header.
pub fn segment_head(bytes: &[u8], frame: Frame, segment: u8) -> [u8; SEGMENT_LEN]
    requires view { IsView bytes.now frame }
    requires there { segment < byte bytes.now SEGMENTS_AT }
    ensures { result ≡ segment_bytes (segment_at bytes.now segment) }
{
    bytes_at(bytes, segment_start(segment))
}

/// The bytes of a hop without its field.
pub fn hop_head(bytes: &[u8], frame: Frame, hop: u8) -> [u8; HOP_LEN]
    requires view { IsView bytes.now frame }
    requires there { hop < hops_in bytes.now }
    ensures { result ≡ hop_bytes (layout.hop_at bytes.now hop) }
{
    bytes_at(bytes, hop_at(bytes, frame, hop))
}

/// The `len` bytes from one place on are those from another place on.
fn same_piece(left: &[u8], at: usize, right: &[u8], other: usize, len: usize) -> bool
    requires left { at + len ≤ length left.now }
    requires right { other + len ≤ length right.now }
    ensures { IsTrue result ↔ (piece left.now at len ≡ piece right.now other len) }
{
    left[at..at + len] == right[other..other + len]
}

/// The path bytes of two packets are the same.
pub fn same_path(left: &[u8], left_frame: Frame, right: &[u8], right_frame: Frame) -> bool
    requires left_view { IsView left.now left_frame }
    requires right_view { IsView right.now right_frame }
    ensures { IsTrue result ↔ (path_bytes (layout.parse left.now).route ≡ path_bytes (layout.parse right.now).route) }
{
    if left_frame.shape.segments != right_frame.shape.segments {
        return false;
    }
    if left_frame.shape.hops != right_frame.shape.hops {
        return false;
    }
    let heads = SEGMENT_LEN * left_frame.shape.segments as usize;
    if !same_piece(left, FIXED_LEN, right, FIXED_LEN, heads) {
        return false;
    }
    for hop in 0..left_frame.shape.hops {
        let at = hop_at(left, left_frame, hop);
        let other = hop_at(right, right_frame, hop);
        if !same_piece(left, at, right, other, HOP_LEN) {
            return false;
        }
    }
    true
}
