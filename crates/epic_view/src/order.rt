//! The order of packets by their path bytes.
ghost use Rattle.std.specs.Prelude.{◌≡◌, ◌+◌, ◌≤◌, length};
ghost use Rattle.std.specs.Cmp.Lexicographic.{slice_cmp};
ghost use Rattle.std.specs.Ordering.{nat_cmp};
ghost use Rattle.epic_layout.specs.Layout as layout;
ghost use Rattle.epic_layout.specs.Layout.{hops_in};
ghost use Rattle.epic_layout.specs.Pieces.{piece};
ghost use Rattle.epic_layout.specs.Spelling.{path_bytes};
ghost use Rattle.epic_view.specs.Pieces.{hop_rows, path_rest};
ghost use Rattle.epic_view.specs.View.{IsView};

use crate::frame::{Frame, hop_at};
use epic_layout::wire::{FIXED_LEN, HOP_LEN, SEGMENT_LEN};
use std::cmp::Ordering;

/// The order of the `len` bytes from one place on and those from another place on.
fn piece_order(left: &[u8], at: usize, right: &[u8], other: usize, len: usize) -> Ordering
    requires left { at + len ≤ length left.now }
    requires right { other + len ≤ length right.now }
    ensures { result ≡ slice_cmp nat_cmp (piece left.now at len) (piece right.now other len) }
{
    left[at..at + len].cmp(&right[other..other + len])
}

/// The order of the hops without their fields.
fn hops_order(left: &[u8], left_frame: Frame, right: &[u8], right_frame: Frame) -> Ordering
    requires left_view { IsView left.now left_frame }
    requires right_view { IsView right.now right_frame }
    ensures { result ≡ slice_cmp nat_cmp (hop_rows left.now 0 (hops_in left.now)) (hop_rows right.now 0 (hops_in right.now)) }
{
    for hop in 0..left_frame.shape.hops.min(right_frame.shape.hops) {
        let at = hop_at(left, left_frame, hop);
        let other = hop_at(right, right_frame, hop);
        match piece_order(left, at, right, other, HOP_LEN) {
            Ordering::Less => return Ordering::Less,
            Ordering::Equal => {}
            Ordering::Greater => return Ordering::Greater,
        }
    }
    left_frame.shape.hops.cmp(&right_frame.shape.hops)
}

/// The order of the path bytes behind the number of segments, of which there are as many.
fn rest_order(left: &[u8], left_frame: Frame, right: &[u8], right_frame: Frame) -> Ordering
    requires left_view { IsView left.now left_frame }
    requires right_view { IsView right.now right_frame }
    requires same { left_frame.shape.segments ≡ right_frame.shape.segments }
    ensures { result ≡ slice_cmp nat_cmp (path_rest left.now) (path_rest right.now) }
{
    let heads = SEGMENT_LEN * left_frame.shape.segments as usize;
    match piece_order(left, FIXED_LEN, right, FIXED_LEN, heads) {
        Ordering::Less => Ordering::Less,
        Ordering::Equal => hops_order(left, left_frame, right, right_frame),
        Ordering::Greater => Ordering::Greater,
    }
}

/// The order of two packets' path bytes, by segments, then hops, then the number of hops.
pub fn path_order(left: &[u8], left_frame: Frame, right: &[u8], right_frame: Frame) -> Ordering
    requires left_view { IsView left.now left_frame }
    requires right_view { IsView right.now right_frame }
    ensures { result ≡ slice_cmp nat_cmp (path_bytes (layout.parse left.now).route) (path_bytes (layout.parse right.now).route) }
{
    match left_frame.shape.segments.cmp(&right_frame.shape.segments) {
        Ordering::Less => Ordering::Less,
        Ordering::Equal => rest_order(left, left_frame, right, right_frame),
        Ordering::Greater => Ordering::Greater,
    }
}
