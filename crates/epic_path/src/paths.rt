//! All lawful paths between two ASes.
ghost use Rattle.std.specs.Prelude.{◌≡◌, ◌<◌, ◌≤◌, All, Err, IfOk, IsTrue, List, OnOk, length, map, nat_eq};
ghost use Rattle.std.specs.List.{IsDistinct};
ghost use Rattle.std.specs.List.Sorted.{IsPermutation, IsSorted};
ghost use Rattle.epic_num.specs.declared.name.AsId.{AsId};
ghost use Rattle.epic_num.specs.declared.path_ref.PathRef.{PathRef};
ghost use Rattle.epic_num.specs.declared.segment.Segment.{Segment};
ghost use Rattle.epic_num.specs.Segments.{is_well_formed};
ghost use Rattle.epic_path.specs.Routes.{IsEveryPath, all_lawful, last_issue, path_cmp};

use crate::paths_error::PathsError;
use crate::search::Search;
use epic_num::{AsId, PathList, PathRef, Segment};
use std::alloc::Global;
use std::cmp::Ordering;

fn compare(path: &PathRef, other: &PathRef) -> Ordering
    ensures { result ≡ path_cmp path.now other.now }
{
    path.hops
        .cmp(&other.hops)
        .then(path.issues.cmp(&other.issues))
}

/// Puts paths in order: fewer hops first, and then the lesser list of issues.
fn sort(paths: &mut Vec<PathRef>)
    ensures permutation { IsPermutation paths.old.items paths.new.items }
    ensures sorted { IsSorted path_cmp paths.new.items }
{
    paths.sort_unstable_by(compare);
}

/// Every path from one AS to another over the segments: each list of at most 3 of them that `join` takes from the one and
/// that ends at the other. A path is named by the last issue of each of its segments. The paths are ordered by their
/// numbers of hops and then by their lists of issues. There is none from an AS to itself. The segments are well formed, and
/// no two have one last issue.
///
/// # Errors
/// `TooMany` where there are more than `most` paths; `OutOfMemory`.
pub fn all_paths(
    alloc: Global,
    segments: &[Segment],
    from: AsId,
    to: AsId,
    most: u32,
) -> Result<PathList, PathsError>
    requires well_formed { All (λ s. IsTrue (is_well_formed s)) segments.now }
    requires distinct { IsDistinct nat_eq (map last_issue segments.now) }
    ensures ok { IfOk result (λ paths. paths ≡ all_lawful segments.now from to) }
    ensures every_path { IfOk result (IsEveryPath segments.now from to) }
    ensures fits { OnOk result (length (all_lawful segments.now from to) ≤ most) }
    ensures too_many { result ≡ Err PathsError.TooMany → most < length (all_lawful segments.now from to) }
{
    let mut found = Vec::new(alloc);
    if from == to {
        return Ok(PathList::from_vec(found));
    }
    let search = Search::new(alloc, segments, to, most)?;
    search.find_from(&mut found, segments, from)?;
    sort(&mut found);
    Ok(PathList::from_vec(found))
}

/// A law: one list of paths alone is every path, each once and in order.
pub fn every_path_is_one_list()
    ensures { (segments : List Segment) (from to : AsId) (paths others : List PathRef)
        → IsEveryPath segments from to paths → IsEveryPath segments from to others → paths ≡ others }
{}
