//! What is asked of segments, as tests.
ghost use Rattle.std.specs.Prelude.{◌≡◌, ◌+◌, ◌==◌, ◌↔◌, All, IsTrue, map, nat_eq};
ghost use Rattle.std.specs.List.{IsDistinct, list_all, list_any};
ghost use Rattle.epic_num.specs.Same.{same_as};
ghost use Rattle.epic_num.specs.Segments.{are_closed, are_different, are_placed_from, have_one_ts_path, is_well_formed};
ghost use Rattle.epic_path.specs.Routes.{last_issue};

use crate::links::last_issue;
use epic_num::{AsId, SegHop, Segment};

fn are_placed(hops: &[SegHop]) -> bool
    ensures { result ≡ are_placed_from 1 hops.now }
{
    for (index, hop) in hops.iter().enumerate() {
        if usize::from(hop.body.pos) != index + 1 {
            return false;
        }
    }
    true
}

fn all_have_ts_path(hops: &[SegHop], ts_path: u32) -> bool
    ensures { result ≡ list_all (λ h. h.body.ts_path == ts_path) hops.now }
{
    hops.iter().all(|hop| hop.body.ts_path == ts_path)
}

#[tactic(auto, unfolding(epic_num::specs::Segments::have_one_ts_path, epic_num::specs::Segments::first_hop))]
fn have_one_ts_path(hops: &[SegHop]) -> bool
    ensures { result ≡ have_one_ts_path hops.now }
{
    match hops.first() {
        Some(first) => all_have_ts_path(hops, first.body.ts_path),
        None => true,
    }
}

#[tactic(auto, unfolding(epic_num::specs::Same::same_as))]
fn has_as(hops: &[SegHop], asn: AsId) -> bool
    ensures { result ≡ list_any (λ h. same_as asn h.asn) hops.now }
{
    hops.iter().any(|hop| asn == hop.asn)
}

fn have_different_ases(hops: &[SegHop]) -> bool
    ensures { result ≡ are_different (map (λ h. h.asn) hops.now) }
{
    for (index, hop) in hops.iter().enumerate() {
        if has_as(&hops[index + 1..], hop.asn) {
            return false;
        }
    }
    true
}

#[tactic(auto, unfolding(epic_num::specs::Segments::are_closed, epic_num::specs::Segments::first_hop, epic_num::specs::Segments::last_hop))]
fn are_closed(hops: &[SegHop]) -> bool
    ensures { result ≡ are_closed hops.now }
{
    match (hops.first(), hops.last()) {
        (Some(first), Some(last)) => first.body.inn == 0 && last.body.out == 0,
        _ => false,
    }
}

/// Whether the hops make a segment: two at least, at positions 1, 2 and so on, of one timestamp and different ASes, with
/// nothing before the first and nothing after the last.
#[tactic(auto, unfolding(epic_num::specs::Segments::is_well_formed))]
pub fn is_well_formed(segment: &Segment) -> bool
    ensures { result ≡ is_well_formed segment.now }
{
    let hops = segment.hops.as_slice();
    hops.len() >= 2
        && are_placed(hops)
        && have_one_ts_path(hops)
        && have_different_ases(hops)
        && are_closed(hops)
}

/// Whether each segment is well formed.
pub fn are_well_formed(segments: &[Segment]) -> bool
    ensures { IsTrue result ↔ All (λ s. IsTrue (is_well_formed s)) segments.now }
{
    segments.iter().all(is_well_formed)
}

fn has_issue(segments: &[Segment], issue: u32) -> bool
    ensures { result ≡ list_any (λ s. issue == last_issue s) segments.now }
{
    segments.iter().any(|segment| issue == last_issue(segment))
}

/// Whether no two segments have one last issue.
pub fn have_different_issues(segments: &[Segment]) -> bool
    ensures { IsTrue result ↔ IsDistinct nat_eq (map last_issue segments.now) }
{
    for (index, segment) in segments.iter().enumerate() {
        if has_issue(&segments[index + 1..], last_issue(segment)) {
            return false;
        }
    }
    true
}
