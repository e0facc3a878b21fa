//! Joins, lists of paths, and a search that has to begin at both ends.
use super::*;
use arrayvec::ArrayVec;
use epic_num::{AsId, Body, Path, PathList, SegHop, SegKind, Segment};
use std::alloc::{AllocError, Global};
use std::process::Abort;
use std::test::Fail;

/// An AS of isolation domain 1, by the end of its number.
fn asn(end: u64) -> AsId {
    AsId(0x0001_ff00_0000_0000 | end)
}

/// A segment over some ASes in construction order, whose hops are the issues after one.
fn segment(kind: SegKind, issue: u32, ends: &[u64]) -> Segment {
    let mut hops = ArrayVec::new();
    for (pos, end) in (1u8..17).zip(ends) {
        let is_last = usize::from(pos) == ends.len();
        let _ = hops.try_push(SegHop {
            issue: issue.saturating_add(u32::from(pos)),
            asn: asn(*end),
            body: Body {
                pos,
                exp: 63,
                ts_path: 1_700_000_000,
                inn: u16::from(pos != 1),
                out: if is_last { 0 } else { 2 },
                link: [0; 8],
            },
            ..SegHop::default()
        });
    }
    Segment { kind, hops }
}

/// Up from 0x112 to 0x110, over to 0x120 and down to 0x122.
fn up() -> Segment {
    segment(SegKind::Child, 0, &[0x110, 0x111, 0x112])
}

fn core() -> Segment {
    segment(SegKind::Core, 3, &[0x110, 0x120])
}

fn down() -> Segment {
    segment(SegKind::Child, 5, &[0x120, 0x121, 0x122])
}

/// From 0x110 over 0x111 to 0x113.
fn aside() -> Segment {
    segment(SegKind::Child, 8, &[0x110, 0x111, 0x113])
}

fn joined(rt: &impl Abort, from: u64, segments: &[Segment]) -> Result<Path, PathError> {
    assert!(rt; are_well_formed(segments));
    join(asn(from), segments)
}

fn listed(
    rt: &impl Abort,
    alloc: Global,
    segments: &[Segment],
    ends: (u64, u64),
    most: u32,
) -> Result<PathList, PathsError> {
    assert!(rt; are_well_formed(segments));
    assert!(rt; have_different_issues(segments));
    all_paths(alloc, segments, asn(ends.0), asn(ends.1), most)
}

fn leads_to(rt: &impl Abort, from: u64, segments: &[Segment], end: u64, against: &[bool]) {
    match joined(rt, from, segments) {
        Ok(path) => {
            assert_eq!(rt; end_of(&path), asn(end));
            assert_eq!(rt; path.legs.len(), against.len());
            for (leg, direction) in path.legs.iter().zip(against) {
                assert_eq!(rt; leg.against, *direction);
            }
        }
        Err(error) => panic!(rt; "{error:?}"),
    }
}

#[test]
fn joins_segments(rt: HostRuntime) {
    leads_to(
        &rt,
        0x112,
        &[up(), core(), down()],
        0x122,
        &[true, false, false],
    );
    leads_to(
        &rt,
        0x122,
        &[down(), core(), up()],
        0x112,
        &[true, true, false],
    );
    leads_to(&rt, 0x112, &[up()], 0x110, &[true]);
    // A path that goes up through 0x111 and comes down through it again.
    leads_to(&rt, 0x112, &[up(), aside()], 0x113, &[true, false]);
}

/// Sixteen ASes down from 0x110, of which the last is given.
fn long(issue: u32, last: u64) -> Segment {
    segment(
        SegKind::Child,
        issue,
        &[0x110, 1, 2, 3, 4, 5, 6, 7, 8, 9, 10, 11, 12, 13, 14, last],
    )
}

#[test]
fn refuses_to_join(rt: HostRuntime) {
    let table = [
        (0x112, joined(&rt, 0x112, &[]), PathError::Empty),
        (
            0x112,
            joined(&rt, 0x112, &[down(), core()]),
            PathError::Unjoined { leg: 0 },
        ),
        (
            0x112,
            joined(&rt, 0x112, &[up(), down()]),
            PathError::Unjoined { leg: 1 },
        ),
        (
            0x110,
            joined(&rt, 0x110, &[up(), up()]),
            PathError::WrongKind,
        ),
        (
            0x112,
            joined(&rt, 0x112, &[up(), core(), core()]),
            PathError::WrongKind,
        ),
        (
            0x112,
            joined(&rt, 0x112, &[up(), core(), down(), down()]),
            PathError::TooLong,
        ),
        (
            0x201,
            joined(&rt, 0x201, &[long(19, 0x201), core(), long(39, 0x202)]),
            PathError::TooLong,
        ),
    ];
    for (from, result, error) in table {
        match result {
            Ok(path) => panic!(rt; "{from:x} {path:?}"),
            Err(refusal) => assert_eq!(rt; refusal, error, "from {from:x}"),
        }
    }
    leads_to(
        &rt,
        0x201,
        &[long(19, 0x201), long(39, 0x202)],
        0x202,
        &[true, false],
    );
}

fn lists(
    rt: &impl Abort,
    alloc: Global,
    segments: &[Segment],
    ends: (u64, u64),
    wanted: &[(&[u32], u8)],
) {
    match listed(rt, alloc, segments, ends, 4_096) {
        Ok(paths) => {
            assert_eq!(rt; paths.as_slice().len(), wanted.len());
            for (path, (issues, hops)) in paths.as_slice().iter().zip(wanted) {
                assert_eq!(rt; path.issues.as_slice(), *issues);
                assert_eq!(rt; path.hops, *hops);
            }
        }
        Err(error) => panic!(rt; "{error:?}"),
    }
}

#[test]
fn lists_paths(rt: HostRuntime) {
    let segments = [up(), core(), down(), aside()];
    lists(
        &rt,
        rt.alloc(),
        &segments,
        (0x112, 0x122),
        &[(&[3, 5, 8], 8)],
    );
    lists(
        &rt,
        rt.alloc(),
        &segments,
        (0x122, 0x112),
        &[(&[8, 5, 3], 8)],
    );
    lists(&rt, rt.alloc(), &segments, (0x112, 0x110), &[(&[3], 3)]);
    lists(&rt, rt.alloc(), &segments, (0x112, 0x113), &[(&[3, 11], 6)]);
    lists(&rt, rt.alloc(), &segments, (0x110, 0x120), &[(&[5], 2)]);
    lists(&rt, rt.alloc(), &segments, (0x112, 0x112), &[]);
    lists(&rt, rt.alloc(), &segments, (0x112, 0x111), &[]);
    // Fewer hops come first, and of as many the lesser issues, as numbers.
    let segments = [
        segment(SegKind::Child, 17, &[0x110, 0x114, 0x112]),
        segment(SegKind::Child, 10, &[0x120, 0x112]),
        core(),
        up(),
    ];
    lists(
        &rt,
        rt.alloc(),
        &segments,
        (0x112, 0x110),
        &[(&[3], 3), (&[20], 3), (&[12, 5], 4)],
    );
    lists(
        &rt,
        rt.alloc(),
        &segments,
        (0x120, 0x112),
        &[(&[12], 2), (&[5, 3], 5), (&[5, 20], 5)],
    );
}

#[test]
fn keeps_to_a_limit(rt: HostRuntime) {
    let segments = [up(), core(), down()];
    for (most, fits) in [(0, false), (1, true)] {
        match listed(&rt, rt.alloc(), &segments, (0x112, 0x122), most) {
            Ok(_) => assert!(rt; fits),
            Err(error) => assert_eq!(rt; (error, fits), (PathsError::TooMany, false)),
        }
    }
}

/// 3,000 segments of two hops: 50 down from each of 30 core ASes to a leaf AS of its own, 1,499 core segments round the ring
/// of core ASes, and one across it from the first to the sixteenth.
fn ring(alloc: Global) -> Result<Vec<Segment>, AllocError> {
    let mut segments = Vec::new(alloc);
    for i in 0..1_500u32 {
        let top = u64::from(i % 30);
        segments.push(segment(SegKind::Child, 2 * i, &[top, top + 100]))?;
    }
    for i in 0..1_500u32 {
        let (start, end) = if i == 1_499 {
            (0, 15)
        } else {
            (i % 30, (i + 1) % 30)
        };
        let ends = [u64::from(start), u64::from(end)];
        segments.push(segment(SegKind::Core, 3_000 + 2 * i, &ends))?;
    }
    Ok(segments)
}

#[test]
fn searches_from_both_ends(rt: HostRuntime) -> Result<(), Fail> {
    let segments = ring(rt.alloc())?;
    assert_eq!(rt; segments.len(), 3_000);
    match listed(&rt, rt.alloc(), segments.as_slice(), (100, 115), 2_500) {
        Ok(paths) => {
            assert_eq!(rt; paths.as_slice().len(), 2_500);
            for (path, issues) in paths
                .as_slice()
                .iter()
                .zip([[2, 6_000, 32], [2, 6_000, 92]])
            {
                assert_eq!(rt; path.issues.as_slice(), issues.as_slice());
            }
        }
        Err(error) => panic!(rt; "{error:?}"),
    }
    assert!(rt;
        matches!(
            listed(&rt, rt.alloc(), segments.as_slice(), (100, 115), 2_499),
            Err(PathsError::TooMany)
        )
    );
    assert!(rt;
        matches!(
            listed(&rt, rt.alloc(), segments.as_slice(), (100, 107), 0),
            Ok(_)
        )
    );
    Ok(())
}
