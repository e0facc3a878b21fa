//! Chains of a small topology, with tags that another program computed.
use super::*;
use epic_num::{AsId, SegKind};
use epic_topo::{Topology, read_topology};
use std::alloc::Global;
use std::process::Abort;
use std::test::Fail;

// Two core ASes, 110 and 120, with 111 and then 112 below the one and 121 below the other.
const TEXT: &[u8] =
    b"[[as]]\nname='1-ff00:0:110'\ncore=true\nkey='01010101010101010101010101010101'\n[[as]]\nname='1-ff00:0:120'\ncore=true\nkey='02020202020202020202020202020202'\n[[as]]\nname='1-ff00:0:111'\nkey='03030303030303030303030303030303'\n[[as]]\nname='1-ff00:0:112'\nkey='04040404040404040404040404040404'\n[[as]]\nname='1-ff00:0:121'\nkey='05050505050505050505050505050505'\n[[link]]\nkind='core'\na='1-ff00:0:110'\na_if=1\nb='1-ff00:0:120'\nb_if=1\n[[link]]\nkind='child'\na='1-ff00:0:110'\na_if=2\nb='1-ff00:0:111'\nb_if=1\n[[link]]\nkind='child'\na='1-ff00:0:111'\na_if=2\nb='1-ff00:0:112'\nb_if=1\n[[link]]\nkind='child'\na='1-ff00:0:120'\na_if=2\nb='1-ff00:0:121'\nb_if=1\n";

const CORE: AsId = AsId(0x0001_ff00_0000_0110);

const FIRST: AsId = AsId(0x0001_ff00_0000_0111);

const SECOND: AsId = AsId(0x0001_ff00_0000_0112);

const NOW: u64 = 1_700_000_000_000_000;

fn topology(rt: &impl Abort, alloc: Global) -> Result<Topology, Fail> {
    assert!(rt; TEXT.len() <= 1_048_576);
    Ok(read_topology(alloc, TEXT)?)
}

#[test]
fn hops_are_issued_or_refused(rt: HostRuntime) -> Result<(), Fail> {
    let topo = topology(&rt, rt.alloc())?;
    let mut store = Beacons::new(rt.alloc());
    assert!(rt; topo.has(CORE));
    assert!(rt; store.originate(&topo, CORE, 2, 63, NOW)? == 1);
    assert!(rt; store.extend(&topo, 1, 2, 63, NOW)? == 2);
    assert!(rt; store.extend(&topo, 2, 0, 63, NOW)? == 3);
    assert!(rt; store.originate(&topo, CORE, 1, 63, NOW)? == 4);
    assert!(rt; store.originate(&topo, CORE, 9, 63, NOW) == Err(BeaconError::UnknownInterface));
    assert!(rt; store.originate(&topo, CORE, 2, 63, NOW) == Err(BeaconError::Duplicate(1)));
    assert!(rt; store.extend(&topo, 3, 2, 63, NOW) == Err(BeaconError::Ended));
    assert!(rt; store.extend(&topo, 99, 0, 63, NOW) == Err(BeaconError::Unknown));
    assert!(rt; store.extend(&topo, 4, 2, 63, NOW) == Err(BeaconError::WrongKind));
    assert!(rt; store.extend(&topo, 4, 1, 63, NOW)? == 5);
    assert!(rt; store.extend(&topo, 5, 0, 63, NOW) == Err(BeaconError::Loop(CORE)));
    assert_eq!(rt; store.len(), 5);
    // Only a core AS begins a chain.
    assert!(rt; topo.has(FIRST));
    assert!(rt; store.originate(&topo, FIRST, 2, 63, NOW) == Err(BeaconError::NotCore));
    // A hop is issued until it would have expired.
    assert!(rt; store.originate(&topo, CORE, 2, 0, NOW)? == 6);
    assert!(rt; store.extend(&topo, 6, 0, 0, NOW + 337_500_000)? == 7);
    assert!(rt; store.extend(&topo, 6, 2, 0, NOW + 337_500_001) == Err(BeaconError::Expired));
    assert!(rt; store.extend(&topo, 6, 2, 1, NOW + 337_500_001)? == 8);
    assert!(rt; store.issue(9).is_none());
    Ok(())
}

#[test]
fn a_roll_raises_the_generation(rt: HostRuntime) -> Result<(), Fail> {
    let topo = topology(&rt, rt.alloc())?;
    let mut store = Beacons::new(rt.alloc());
    assert!(rt; topo.has(CORE));
    assert!(rt; store.originate(&topo, CORE, 2, 63, NOW)? == 1);
    assert!(rt; store.generation(FIRST) == 0);
    assert!(rt; store.roll(FIRST)? == 1);
    assert!(rt; store.generation(SECOND) == 0);
    // What is issued after the roll has the new generation.
    assert!(rt; store.extend(&topo, 1, 2, 63, NOW)? == 2);
    assert!(rt; store.issue(2).is_some_and(|(name, _)| name.generation == 1));
    Ok(())
}

#[test]
fn an_ended_chain_is_a_segment(rt: HostRuntime) -> Result<(), Fail> {
    let topo = topology(&rt, rt.alloc())?;
    let mut store = Beacons::new(rt.alloc());
    assert!(rt; topo.has(CORE));
    assert!(rt; store.originate(&topo, CORE, 2, 63, NOW)? == 1);
    assert!(rt; store.extend(&topo, 1, 2, 63, NOW)? == 2);
    assert!(rt; store.extend(&topo, 2, 0, 63, NOW)? == 3);
    assert!(rt; store.originate(&topo, CORE, 1, 63, NOW)? == 4);
    assert!(rt; store.extend(&topo, 4, 0, 63, NOW)? == 5);
    assert!(rt; store.segment(2) == Err(SegmentError::NotEnded));
    assert!(rt; store.segment(6) == Err(SegmentError::Unknown));
    let down = store.segment(3)?;
    assert_eq!(rt; down.kind, SegKind::Child);
    // Each hop's link tag and authenticator.
    let rows = [
        (0_u64, 0xc11c_948b_5703_2617_ec82_805c_462e_bb18_u128),
        (
            0x5fc8_567c_f27d_6859,
            0x545a_3ebf_4ce8_9321_245a_9f2e_f90b_a2ac,
        ),
        (
            0xf02f_dcef_5be8_6197,
            0x3095_d2a1_9c79_f025_0e31_f22f_b0d3_b59d,
        ),
    ];
    assert_eq!(rt; down.hops.len(), 3);
    for (hop, (link, sigma)) in down.hops.iter().zip(rows.iter()) {
        assert_eq!(rt; hop.body.link, link.to_be_bytes());
        assert_eq!(rt; hop.sigma, sigma.to_be_bytes());
    }
    assert_eq!(rt; store.segment(5)?.kind, SegKind::Core);
    Ok(())
}
