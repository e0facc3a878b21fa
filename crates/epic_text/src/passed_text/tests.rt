//! The lines of passes.

use super::*;
use crate::samples::{CAME, LEAF, WENT, decoded, reads, topology};
use arrayvec::ArrayVec;
use epic_num::{Check, DestCheck, LayoutError, Place};
use std::test::Fail;

/// A router's refusal at hop 5.
fn turn(check: Check) -> PassResult {
    PassResult::Turned(Turn::Refused { check, hop: 5 })
}

/// A host's refusal.
fn arrival(check: DestCheck) -> PassResult {
    PassResult::Arrived(Arrival::Refused(check))
}

/// The first line of a pass.
fn pass(alloc: Global, outcome: PassResult) -> Result<Vec<u8>, Fail> {
    let mut to = Vec::new(alloc);
    print_pass(&mut to, 12, &outcome, 0, &[])?;
    Ok(to)
}

#[test]
fn lines_of_refused_passes(rt: HostRuntime) -> Result<(), Fail> {
    for (outcome, want) in [
        (
            turn(Check::Layout(LayoutError::SegmentCount)),
            "12 refused layout segment-count\n",
        ),
        (
            turn(Check::Layout(LayoutError::CurrentHop)),
            "12 refused layout current-hop\n",
        ),
        (
            turn(Check::WrongIngress),
            "12 refused wrong-ingress hop 5\n",
        ),
        (turn(Check::PathFuture), "12 refused path-future hop 5\n"),
        (turn(Check::BadField), "12 refused bad-field hop 5\n"),
        (turn(Check::BadLink), "12 refused bad-link hop 5\n"),
        (
            turn(Check::Replay { first: 8 }),
            "12 refused replay 8 hop 5\n",
        ),
        (
            turn(Check::WindowFull { live: 4096 }),
            "12 refused window-full 4096 hop 5\n",
        ),
        (
            arrival(DestCheck::Layout(LayoutError::Short)),
            "12 refused layout short\n",
        ),
        (
            arrival(DestCheck::BadDestinationField),
            "12 refused bad-destination-field\n",
        ),
        (
            arrival(DestCheck::Replay { first: 9 }),
            "12 refused replay 9\n",
        ),
        (
            arrival(DestCheck::WindowFull { live: 2 }),
            "12 refused window-full 2\n",
        ),
        (PassResult::Arrived(Arrival::Accepted), "12 accepted\n"),
        (PassResult::Arrived(Arrival::Unchecked), "12 unchecked\n"),
        (PassResult::Full, "12 refused full\n"),
    ] {
        reads(&rt, pass(rt.alloc(), outcome)?.as_slice(), want);
    }
    Ok(())
}

#[test]
fn lines_of_a_pass(rt: HostRuntime) -> Result<(), Fail> {
    let alloc = rt.alloc();
    let topo = topology(&rt, alloc)?;
    let came = decoded(alloc, CAME)?;
    let went = decoded(alloc, WENT)?;
    let mut verdicts = ArrayVec::new();
    verdicts.push(Verdict::Proved { issue: 3, send: 0 });
    let passed = Passed {
        place: Place::Router {
            asn: LEAF,
            iface: 0,
        },
        result: PassResult::Turned(Turn::Forward {
            out: 1,
            hops: 1,
            generations: [0, 0],
        }),
        emission: 1,
        verdicts,
    };
    let mut to = Vec::new(alloc);
    assert!(rt; PacketRef::look(&came).is_ok());
    let notes = Notes::new(alloc);
    print_passed(&mut to, 5, &topo, &came, &went, &notes, &passed)?;
    let lines =
        "5 forward 1 1 e0000060000001010001ff00000001120001ff000000011000000001000000030000000000\
            000000010300006553f1003f00010000f02fdcef5be861973095d23f000100025fc8567cf27d6859545a3e3f\
            000000020000000000000000c11c94\n5 hop 0 proved 3\n";
    reads(&rt, to.as_slice(), lines);
    Ok(())
}
