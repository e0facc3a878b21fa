//! Packets whose tags another program made, at routers and hosts over a ledger in which nothing happened.
ghost use Rattle.std.specs.Prelude.{◌≡◌, ℕ, ◌≤◌, [], IfOk};

use super::*;
use epic_ledger::Ledger;
use epic_num::{
    Arrival, AsId, Check, ForgedKind, Forgery, HostId, KeyName, PassResult, Passed, Place, Turn,
    Verdict,
};
use epic_topo::{Topology, read_topology};
use std::alloc::Global;
use std::process::Abort;
use std::test::Fail;

/// A core AS, a child of it, and a child of that.
const TEXT: &[u8] =
    b"[[as]]\nname='1-ff00:0:110'\ncore=true\nkey='01010101010101010101010101010101'\n[[as]]\nname='1-ff00:0:111'\nkey='03030303030303030303030303030303'\n[[as]]\nname='1-ff00:0:112'\nkey='04040404040404040404040404040404'\n[[link]]\nkind='child'\na='1-ff00:0:110'\na_if=2\nb='1-ff00:0:111'\nb_if=1\n[[link]]\nkind='child'\na='1-ff00:0:111'\na_if=2\nb='1-ff00:0:112'\nb_if=1\n";

const LEAF: AsId = AsId(0x0001_ff00_0000_0112);

const TARGET: HostId = HostId {
    asn: AsId(0x0001_ff00_0000_0110),
    host: 3,
};

const NOW: u64 = 1_700_000_000_000_000;

/// From a host of the leaf AS up to one of the core AS, over three hops, at level 0.
const UPWARDS: [u8; 96] = [
    0xe0, 0x00, 0x00, 0x60, 0x00, 0x00, 0x01, 0x00, 0x00, 0x01, 0xff, 0x00, 0x00, 0x00, 0x01, 0x12,
    0x00, 0x01, 0xff, 0x00, 0x00, 0x00, 0x01, 0x10, 0x00, 0x00, 0x00, 0x01, 0x00, 0x00, 0x00, 0x03,
    0x00, 0x00, 0x00, 0x00, 0x00, 0x00, 0x00, 0x00, 0x01, 0x03, 0x00, 0x00, 0x65, 0x53, 0xf1, 0x00,
    0x3f, 0x00, 0x01, 0x00, 0x00, 0xf0, 0x2f, 0xdc, 0xef, 0x5b, 0xe8, 0x61, 0x97, 0x30, 0x95, 0xd2,
    0x3f, 0x00, 0x01, 0x00, 0x02, 0x5f, 0xc8, 0x56, 0x7c, 0xf2, 0x7d, 0x68, 0x59, 0x54, 0x5a, 0x3e,
    0x3f, 0x00, 0x00, 0x00, 0x02, 0x00, 0x00, 0x00, 0x00, 0x00, 0x00, 0x00, 0x00, 0xc1, 0x1c, 0x94,
];

fn topology(rt: &impl Abort, alloc: Global) -> Result<Topology, Fail> {
    assert!(rt; TEXT.len() <= 1_048_576);
    Ok(read_topology(alloc, TEXT)?)
}

/// A ledger in which nothing happened, with room for a packet.
fn ledger(alloc: Global) -> Result<Ledger, Fail>
    ensures events { IfOk result (λ l. l.history.events ≡ []) }
    ensures emissions { IfOk result (λ l. l.history.emissions ≡ []) }
    ensures event_room { IfOk result (λ l. 2 ≤ l.spare.events) }
    ensures emission_room { IfOk result (λ l. 1 ≤ l.spare.emissions) }
    ensures byte_room { IfOk result (λ l. 96 ≤ l.spare.bytes) }
{
    let mut ledger = Ledger::new(alloc);
    ledger.reserve(2, 1, 96)?;
    Ok(ledger)
}

/// What becomes of a packet with these bytes at the leaf's router.
fn turned(rt: &impl Abort, alloc: Global, bytes: &[u8; 96]) -> Result<Passed, Fail> {
    let topo = topology(rt, alloc)?;
    assert!(rt; topo.has(LEAF));
    let mut ledger = ledger(alloc)?;
    let mut routers = Routers::new(alloc);
    routers.ready(alloc, &topo, LEAF, 1)?;
    let mut outgoing = *bytes;
    let passed = turn_at(
        &topo,
        &mut ledger,
        &mut routers,
        LEAF,
        0,
        bytes,
        &mut outgoing,
        0,
        NOW,
        1,
    );
    Ok(passed)
}

#[test]
fn a_hop_that_was_never_issued_is_forged(rt: HostRuntime) -> Result<(), Fail> {
    let passed = turned(&rt, rt.alloc(), &UPWARDS)?;
    let forgery = Forgery {
        kind: ForgedKind::Issue,
        hop: 0,
        key: KeyName::Fwd { a: LEAF, g: 0 },
        generation: 0,
    };
    assert_eq!(rt;
        passed.result,
        PassResult::Turned(Turn::Forward {
            out: 1,
            hops: 1,
            generations: [0, 0],
        })
    );
    assert_eq!(rt; passed.emission, 1);
    assert!(rt; passed.verdicts.as_slice() == [Verdict::Forged(forgery)].as_slice());
    Ok(())
}

#[test]
fn a_refused_packet_makes_no_emission(rt: HostRuntime) -> Result<(), Fail> {
    let mut bytes = UPWARDS;
    bytes[63] = 0;
    let passed = turned(&rt, rt.alloc(), &bytes)?;
    assert_eq!(rt;
        passed.result,
        PassResult::Turned(Turn::Refused {
            check: Check::BadField,
            hop: 0,
        })
    );
    assert_eq!(rt; passed.emission, 0);
    assert!(rt; passed.verdicts.is_empty());
    Ok(())
}

/// What becomes of a packet with these bytes at the host of the core AS.
fn arrived(rt: &impl Abort, alloc: Global, bytes: &[u8]) -> Result<Passed, Fail> {
    let topo = topology(rt, alloc)?;
    assert!(rt; topo.has(TARGET.asn));
    let mut ledger = ledger(alloc)?;
    let mut hosts = Hosts::new(alloc);
    hosts.ready(alloc, &topo, TARGET, 1)?;
    Ok(arrive_at(&topo, &mut ledger, &mut hosts, TARGET, bytes, NOW, 1))
}

#[test]
fn a_packet_of_level_0_arrives_unchecked(rt: HostRuntime) -> Result<(), Fail> {
    let mut bytes = UPWARDS;
    bytes[7] = 3;
    let passed = arrived(&rt, rt.alloc(), &bytes)?;
    assert_eq!(rt; passed.place, Place::Host(TARGET));
    assert_eq!(rt; passed.result, PassResult::Arrived(Arrival::Unchecked));
    assert_eq!(rt; passed.emission, 0);
    assert!(rt; passed.verdicts.as_slice() == [Verdict::Unclaimed].as_slice());
    Ok(())
}
