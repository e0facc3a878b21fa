//! Joining segments in turn to a path.
ghost use Rattle.std.specs.Prelude.{◌≡◌, ◌≤◌, [], ◌∷◌, IsTrue, All, length, map};
ghost use Rattle.std.specs.Bool.{OnTrue};
ghost use Rattle.std.specs.Result.{result_map_both};
ghost use Rattle.epic_num.specs.Segments.{is_well_formed};
ghost use Rattle.epic_num.specs.Paths.{are_lawful_kinds, kind_of, path_end};
ghost use Rattle.epic_path.specs.Joins.{JoinsAreLawful, are_short, hops_of, joined, legs_of, walk};

use crate::ends::{leg_end, leg_from};
use arrayvec::ArrayVec;
use epic_num::{AsId, Leg, Path, PathError, SegKind, Segment};

/// How many segments a path may have.
const MOST_SEGMENTS: usize = 3;

/// How many hops a path may have.
pub const MOST_HOPS: usize = 32;

#[tactic(auto, unfolding(crate::specs::Joins::hops_of))]
fn hops_of(segments: &[Segment]) -> usize
    requires { length segments.now ≤ 3 }
    ensures sum { result ≡ hops_of segments.now }
    ensures each { All (λ s. length s.hops.items ≤ 16) segments.now }
{
    let mut hops = 0;
    for segment in segments {
        hops += segment.hops.as_slice().len();
    }
    hops
}

/// Whether there are few enough segments, with few enough hops, for a path.
#[tactic(auto, unfolding(crate::specs::Joins::are_short))]
fn are_short(segments: &[Segment]) -> bool
    ensures short { result ≡ are_short segments.now }
    ensures each { OnTrue result (All (λ s. length s.hops.items ≤ 16) segments.now) }
{
    segments.len() <= MOST_SEGMENTS && hops_of(segments) <= MOST_HOPS
}

/// The legs over the segments in turn, from `from` on.
fn walk(from: AsId, segments: &[Segment]) -> Result<ArrayVec<Leg, 3>, PathError>
    requires { length segments.now ≤ 3 }
    ensures { result_map_both (λ legs. legs.items) (λ e. e) result ≡ walk from 0 segments.now }
{
    let mut legs = ArrayVec::new();
    let mut at = from;
    for (index, segment) in segments.iter().enumerate() {
        let Some(leg) = leg_from(at, segment) else {
            return Err(PathError::Unjoined { leg: index as u8 });
        };
        at = leg_end(&leg);
        legs.push(leg);
    }
    Ok(legs)
}

/// Whether a path may go on from one leg to the next: up legs come first, and down legs last.
#[tactic(auto, unfolding(epic_num::specs::Paths::are_lawful_kinds, epic_num::specs::Paths::kind_of))]
fn may_follow(leg: &Leg, next: &Leg) -> bool
    ensures { result ≡ are_lawful_kinds (kind_of leg.now.segment.kind leg.now.against
        ∷ kind_of next.now.segment.kind next.now.against ∷ []) }
{
    match (leg.segment.kind, leg.against) {
        (SegKind::Child, true) => next.segment.kind == SegKind::Core || !next.against,
        (SegKind::Core, _) => next.segment.kind == SegKind::Child && !next.against,
        (SegKind::Child, false) => false,
    }
}

fn are_lawful_kinds(legs: &[Leg]) -> bool
    requires { length legs.now ≤ 3 }
    ensures { result ≡ are_lawful_kinds (map (λ l. kind_of l.segment.kind l.against) legs.now) }
{
    match legs {
        [_] => true,
        [first, second] => may_follow(first, second),
        [first, second, third] => may_follow(first, second) && may_follow(second, third),
        _ => false,
    }
}

/// The path from `from` over the segments in turn: each is travelled from the end where the path has come, in construction
/// direction where its first AS is there, else against it. The segments are well formed. It takes no memory.
///
/// # Errors
/// The first that applies: `Empty` for no segments; `TooLong` for more than 3 segments or 32 hops; `Unjoined` for the first
/// segment, by its index from 0, that has the AS reached at neither end; `WrongKind` where the legs' kinds don't go together:
/// at most one up, one core and one down leg, in this order.
pub fn join(from: AsId, segments: &[Segment]) -> Result<Path, PathError>
    requires { All (λ s. IsTrue (is_well_formed s)) segments.now }
    ensures { legs_of result ≡ joined from segments.now }
{
    if segments.is_empty() {
        return Err(PathError::Empty);
    }
    if !are_short(segments) {
        return Err(PathError::TooLong);
    }
    let legs = walk(from, segments)?;
    if !are_lawful_kinds(legs.as_slice()) {
        return Err(PathError::WrongKind);
    }
    Ok(Path { legs })
}

/// A law: well-formed segments of at most 16 hops are joined to a lawful path from that AS over the segments in turn.
pub fn joins_are_lawful()
    ensures { JoinsAreLawful }
{}

/// The AS where a path ends.
#[tactic(auto, unfolding(epic_num::specs::Paths::path_end))]
pub fn end_of(path: &Path) -> AsId
    ensures { result ≡ path_end path.now.legs.items }
{
    path.legs.last().map_or(AsId(0), leg_end)
}
