//! Refusals in a table.

use super::*;
use crate::print_refusal;
use crate::samples::{LEAF, reads};
use epic_num::NoKey;
use std::test::Fail;

/// The line of a refused step.
fn refusal(alloc: Global, refusal: Refusal) -> Result<Vec<u8>, Fail> {
    let mut to = Vec::new(alloc);
    print_refusal(&mut to, 7, &refusal)?;
    Ok(to)
}

#[test]
fn lines_of_refusals(rt: HostRuntime) -> Result<(), Fail> {
    let key = NoKey {
        owner: LEAF,
        epoch: 19675,
    };
    for (cause, want) in [
        (
            Refusal::UnknownAs(AsId(0x0001_0000_0000_0009)),
            "7 refused unknown-as 1-9\n",
        ),
        (Refusal::TooManyPaths, "7 refused too-many-paths\n"),
        (Refusal::NoSegment(0), "7 refused no-segment 0\n"),
        (Refusal::Full, "7 refused full\n"),
        (
            Refusal::UnknownEmission(3),
            "7 refused unknown-emission 3\n",
        ),
        (
            Refusal::Beacon(BeaconError::NotCore),
            "7 refused not-core\n",
        ),
        (Refusal::Beacon(BeaconError::Unknown), "7 refused unknown\n"),
        (Refusal::Beacon(BeaconError::Ended), "7 refused ended\n"),
        (
            Refusal::Beacon(BeaconError::TooLong),
            "7 refused too-long\n",
        ),
        (
            Refusal::Beacon(BeaconError::Loop(LEAF)),
            "7 refused loop 1-ff00:0:112\n",
        ),
        (
            Refusal::Beacon(BeaconError::UnknownInterface),
            "7 refused unknown-interface\n",
        ),
        (
            Refusal::Beacon(BeaconError::WrongKind),
            "7 refused wrong-kind\n",
        ),
        (Refusal::Beacon(BeaconError::Expired), "7 refused expired\n"),
        (
            Refusal::Beacon(BeaconError::Duplicate(1)),
            "7 refused duplicate 1\n",
        ),
        (Refusal::Beacon(BeaconError::Full), "7 refused full\n"),
        (Refusal::Path(PathError::Empty), "7 refused path-empty\n"),
        (
            Refusal::Path(PathError::TooLong),
            "7 refused path-too-long\n",
        ),
        (
            Refusal::Path(PathError::Unjoined { leg: 1 }),
            "7 refused unjoined 1\n",
        ),
        (Refusal::Path(PathError::WrongKind), "7 refused path-kind\n"),
        (
            Refusal::Send(SendError::WrongEnds),
            "7 refused wrong-ends\n",
        ),
        (
            Refusal::Send(SendError::PayloadTooLong),
            "7 refused payload-too-long\n",
        ),
        (
            Refusal::Send(SendError::Expired { hop: 4 }),
            "7 refused expired 4\n",
        ),
        (
            Refusal::Send(SendError::NoKey(key)),
            "7 refused no-key 1-ff00:0:112 19675\n",
        ),
    ] {
        reads(&rt, refusal(rt.alloc(), cause)?.as_slice(), want);
    }
    Ok(())
}
