//! Turns of packets of every level.
ghost use Rattle.std.specs.Prelude.{◌≡◌, IfOk};

use super::*;
use crate::packets::*;
use epic_num::{AsId, Check, LayoutError, Turn};
use epic_topo::{Topology, read_topology};
use std::alloc::{AllocError, Global};
use std::process::Abort;
use std::test::Fail;

fn topology(rt: &impl Abort, alloc: Global, text: &[u8]) -> Result<Topology, Fail> {
    assert!(rt; text.len() <= 1_048_576);
    Ok(read_topology(alloc, text)?)
}

/// A router with room for some packets.
fn router(alloc: Global, topo: &Topology, a: AsId) -> Result<Router, Fail>
    ensures { IfOk result (λ r. r.window.profile ≡ topo.now.profile) }
{
    let mut router = Router::new(alloc, &topo.profile(), a, &[7; 16]);
    router.reserve(8)?;
    Ok(router)
}

/// A turn, at a router of these settings.
fn turn_at(
    rt: &impl Abort,
    topo: &Topology,
    router: &mut Router,
    bytes: &mut [u8],
    iface: u16,
    generation: u32,
    now: u64,
    turn: u32,
) -> Turn
    requires { router.old.window.profile ≡ topo.now.profile }
    ensures { router.new.window.profile ≡ topo.now.profile }
{
    let a = router.asn();
    assert!(rt; topo.has(a));
    assert!(rt; router.spare() >= 1);
    assert!(rt; router.latest() <= now);
    router.turn(topo, bytes, iface, generation, now, turn)
}

/// A packet with other bytes at some places.
fn changed(alloc: Global, packet: &[u8], changes: &[(usize, u8)]) -> Result<Vec<u8>, AllocError> {
    let mut bytes = packet.to_vec(alloc)?;
    for (at, value) in changes {
        if let Some(byte) = bytes.get_mut(*at) {
            *byte = *value;
        }
    }
    Ok(bytes)
}

/// A packet at this hop, where each hop takes so many bytes: the hops before it are as in the delivered packet.
fn at_hop(
    alloc: Global,
    sent: &[u8],
    delivered: &[u8],
    row: usize,
    hop: u8,
) -> Result<Vec<u8>, AllocError> {
    let mut bytes = changed(alloc, sent, &[(7, hop)])?;
    let end = HOPS_AT.saturating_add(row.saturating_mul(usize::from(hop)));
    for at in HOPS_AT..end {
        if let (Some(byte), Some(new)) = (bytes.get_mut(at), delivered.get(at)) {
            *byte = *new;
        }
    }
    Ok(bytes)
}

fn forward(out: u16, hops: u8, generations: [u32; 2]) -> Turn {
    Turn::Forward {
        out,
        hops,
        generations,
    }
}

fn deliver(host: u32) -> Turn {
    Turn::Deliver {
        host,
        hops: 1,
        generations: [0, 0],
    }
}

#[test]
fn packets_of_every_level_go_their_way(rt: HostRuntime) -> Result<(), Fail> {
    let topo = topology(&rt, rt.alloc(), TEXT)?;
    // Each packet as it is sent and as it is delivered, and how many bytes a hop takes.
    let packets: [(&[u8], &[u8], usize); 5] = [
        (&LEVEL_0, &LEVEL_0, 16),
        (&LEVEL_1, &LEVEL_1, 16),
        (&LEVEL_2, &LEVEL_2, 16),
        (&LEVEL_3, &DELIVERED_3, 16),
        (&WIDE_3, &WIDE_DELIVERED_3, 19),
    ];
    // Each router with the interface, its answer, and the current hop afterwards.
    let way: [(AsId, u16, Turn, u8); 6] = [
        (LEAF, 0, forward(1, 1, [0, 0]), 1),
        (MIDDLE, 2, forward(1, 1, [0, 0]), 2),
        (CORE, 2, forward(1, 2, [0, 0]), 4),
        (OTHER_CORE, 1, forward(2, 2, [0, 0]), 6),
        (OTHER_MIDDLE, 1, forward(2, 1, [0, 0]), 7),
        (OTHER_LEAF, 1, deliver(2), 8),
    ];
    for (sent, delivered, row) in packets {
        let mut bytes = changed(rt.alloc(), sent, &[])?;
        for (a, iface, answer, hop) in way {
            let mut router = router(rt.alloc(), &topo, a)?;
            assert_eq!(rt;
                turn_at(&rt, &topo, &mut router, &mut bytes, iface, 0, ISSUED, 1),
                answer
            );
            let after = at_hop(rt.alloc(), sent, delivered, row, hop)?;
            assert!(rt; bytes.as_slice() == after.as_slice());
        }
    }
    Ok(())
}

#[test]
fn a_turn_of_level_3_changes_the_current_hop_and_the_fields_of_handled_hops(
    rt: HostRuntime,
) -> Result<(), Fail> {
    let topo = topology(&rt, rt.alloc(), TEXT)?;
    // A router with the interface, the current hop, and where the packet of 213 bytes is another afterwards.
    let rows: [(AsId, u16, u8, &[usize]); 2] = [
        (LEAF, 0, 0, &[7, 77, 78, 79]),
        (CORE, 2, 2, &[7, 109, 110, 111, 125, 126, 127]),
    ];
    for (a, iface, hop, places) in rows {
        let mut bytes = at_hop(rt.alloc(), &LEVEL_3, &DELIVERED_3, 16, hop)?;
        let before = changed(rt.alloc(), &bytes, &[])?;
        let mut router = router(rt.alloc(), &topo, a)?;
        turn_at(&rt, &topo, &mut router, &mut bytes, iface, 0, ISSUED, 1);
        let mut changes = Vec::new(rt.alloc());
        for at in 0..213 {
            if bytes.get(at) != before.get(at) {
                changes.push(at)?;
            }
        }
        assert!(rt; changes.as_slice() == places);
    }
    Ok(())
}

#[test]
fn each_check_is_told_at_the_hop_where_it_fails(rt: HostRuntime) -> Result<(), Fail> {
    let topo = topology(&rt, rt.alloc(), TEXT)?;
    // The last moment of the hop at place 3, where that expires first.
    let short = ISSUED + 337_500_000;
    // A router with the interface, the present generation and the moment; a packet and what is changed in it; the check and the
    // hop. The packets' timestamps stand in bytes 32 to 39, hop j begins at 64 + 16 j.
    let rows: [(AsId, u16, u32, u64, &[u8], &[(usize, u8)], Check, u8); 21] = [
        (
            LEAF,
            0,
            0,
            ISSUED,
            &LEVEL_2,
            &[(0, 0xf0)],
            Check::Layout(LayoutError::Version),
            0,
        ),
        (
            OTHER_LEAF,
            1,
            0,
            ISSUED,
            &LEVEL_1,
            &[(7, 8)],
            Check::Ended,
            8,
        ),
        (LEAF, 1, 0, ISSUED, &LEVEL_1, &[], Check::WrongIngress, 0),
        (
            LEAF,
            0,
            0,
            ISSUED,
            &LEVEL_1,
            &[(15, 0x11)],
            Check::WrongSource,
            0,
        ),
        (
            CORE,
            0,
            0,
            ISSUED,
            &LEVEL_1,
            &[(7, 3)],
            Check::WrongSource,
            3,
        ),
        (
            LEAF,
            0,
            0,
            ISSUED - 1_000_001,
            &LEVEL_1,
            &[],
            Check::PathFuture,
            0,
        ),
        (
            LEAF,
            0,
            0,
            ISSUED + 64 * 337_500_000 + 1,
            &LEVEL_1,
            &[],
            Check::Expired,
            0,
        ),
        (
            LEAF,
            0,
            0,
            ISSUED + 2_000_001,
            &LEVEL_1,
            &[(77, 0)],
            Check::Stale,
            0,
        ),
        (
            LEAF,
            0,
            0,
            ISSUED + 2_000_000,
            &LEVEL_1,
            &[(77, 0)],
            Check::BadField,
            0,
        ),
        (
            LEAF,
            0,
            0,
            ISSUED,
            &LEVEL_1,
            &[(37, 0x2d), (38, 0x82), (39, 0x41)],
            Check::Early,
            0,
        ),
        (
            LEAF,
            0,
            0,
            ISSUED,
            &LEVEL_1,
            &[(37, 0x2d), (38, 0x82), (39, 0x40)],
            Check::BadField,
            0,
        ),
        (
            LEAF,
            0,
            0,
            ISSUED,
            &LEVEL_2,
            &[(79, 0xd8)],
            Check::BadField,
            0,
        ),
        (
            LEAF,
            0,
            0,
            ISSUED,
            &WIDE_3,
            &[(82, 0x34)],
            Check::BadField,
            0,
        ),
        (LEAF, 0, 2, ISSUED, &LEVEL_3, &[], Check::BadField, 0),
        (
            MIDDLE,
            2,
            0,
            ISSUED,
            &LEVEL_1,
            &[(7, 1), (76, 0x96)],
            Check::BadLink,
            1,
        ),
        (
            CORE,
            2,
            0,
            short,
            &LEVEL_0,
            &[(7, 2), (112, 0)],
            Check::BadField,
            3,
        ),
        (
            CORE,
            2,
            0,
            short + 1,
            &LEVEL_0,
            &[(7, 2), (112, 0)],
            Check::Expired,
            3,
        ),
        (
            CORE,
            2,
            0,
            ISSUED,
            &LEVEL_3,
            &[(7, 2), (127, 0x6c)],
            Check::BadField,
            3,
        ),
        (
            CORE,
            2,
            0,
            ISSUED,
            &LEVEL_2,
            &[(7, 2), (140, 0x0e)],
            Check::BadLink,
            3,
        ),
        (
            OTHER_LEAF,
            1,
            0,
            ISSUED,
            &LEVEL_3,
            &[(7, 7), (23, 0x21)],
            Check::WrongDestination,
            7,
        ),
        (MIDDLE, 1, 0, ISSUED, &CUT_SHORT, &[], Check::WrongSwitch, 1),
    ];
    for (a, iface, generation, now, packet, changes, check, hop) in rows {
        let mut bytes = changed(rt.alloc(), packet, changes)?;
        let before = changed(rt.alloc(), &bytes, &[])?;
        let mut router = router(rt.alloc(), &topo, a)?;
        assert_eq!(rt;
            turn_at(
                &rt,
                &topo,
                &mut router,
                &mut bytes,
                iface,
                generation,
                now,
                1
            ),
            Turn::Refused { check, hop }
        );
        assert!(rt; bytes.as_slice() == before.as_slice());
    }
    Ok(())
}

#[test]
fn a_packet_leaves_by_no_interface_without_a_link(rt: HostRuntime) -> Result<(), Fail> {
    let topo = topology(&rt, rt.alloc(), ASES)?;
    // A router with the interface, the current hop, and the hop that has no interface.
    for (a, iface, hop, last) in [(LEAF, 0, 0, 0), (CORE, 2, 2, 3)] {
        let mut bytes = at_hop(rt.alloc(), &LEVEL_3, &DELIVERED_3, 16, hop)?;
        let before = changed(rt.alloc(), &bytes, &[])?;
        let mut router = router(rt.alloc(), &topo, a)?;
        assert_eq!(rt;
            turn_at(&rt, &topo, &mut router, &mut bytes, iface, 0, ISSUED, 1),
            Turn::Refused {
                check: Check::NoInterface,
                hop: last
            }
        );
        assert!(rt; bytes.as_slice() == before.as_slice());
    }
    Ok(())
}

/// What the packet of level 0 has otherwise where the AS at its hops 2 and 3 changed its key between them.
const ROLLED: [(usize, u8); 15] = [
    (7, 2),
    (125, 0x20),
    (126, 0x0a),
    (127, 0xb8),
    (133, 0x1d),
    (134, 0xcc),
    (135, 0x4a),
    (136, 0xd9),
    (137, 0x8c),
    (138, 0x94),
    (139, 0xbc),
    (140, 0x05),
    (141, 0xfe),
    (142, 0x6e),
    (143, 0x04),
];

#[test]
fn a_router_takes_the_present_generation_and_the_one_before_it(
    rt: HostRuntime,
) -> Result<(), Fail> {
    let topo = topology(&rt, rt.alloc(), TEXT)?;
    let mut router = router(rt.alloc(), &topo, CORE)?;
    let check = Check::BadField;
    // What is changed in the packet of level 0, which is never remembered, the present generation, and the answer.
    let rows: [(&[(usize, u8)], u32, Turn); 7] = [
        (&[(7, 2)], 0, forward(1, 2, [0, 0])),
        (&[(7, 2)], 1, forward(1, 2, [0, 0])),
        (&ROLLED, 1, forward(1, 2, [0, 1])),
        (&ROLLED, 2, Turn::Refused { check, hop: 2 }),
        (&[(7, 2)], 2, Turn::Refused { check, hop: 2 }),
        (&ROLLED, 0, Turn::Refused { check, hop: 3 }),
        (&[(7, 2)], 1, forward(1, 2, [0, 0])),
    ];
    for (changes, generation, answer) in rows {
        let mut bytes = changed(rt.alloc(), &LEVEL_0, changes)?;
        assert_eq!(rt;
            turn_at(
                &rt,
                &topo,
                &mut router,
                &mut bytes,
                2,
                generation,
                ISSUED,
                1
            ),
            answer
        );
    }
    Ok(())
}

#[test]
fn a_router_remembers_what_it_accepted(rt: HostRuntime) -> Result<(), Fail> {
    let mut text = TEXT.to_vec(rt.alloc())?;
    text.extend_from_slice(b"[profile]\nwindow=2\n")?;
    let topo = topology(&rt, rt.alloc(), &text)?;
    let mut router = router(rt.alloc(), &topo, LEAF)?;
    let full = Turn::Refused {
        check: Check::WindowFull { live: 2 },
        hop: 0,
    };
    // The last three bytes of a timestamp of level 1, the first hop's field, the moment and the turn, and the answer. Entries are
    // over with the bucket of 262,144 microseconds that lies 8 past their own.
    let rows: [([u8; 3], [u8; 3], u64, u32, Turn); 7] = [
        (
            [0x1e, 0x40, 0x00],
            [0x8b, 0xa0, 0x74],
            ISSUED,
            11,
            Turn::Refused {
                check: Check::BadField,
                hop: 0,
            },
        ),
        (
            [0x1e, 0x40, 0x00],
            [0x8b, 0xa0, 0x75],
            ISSUED,
            12,
            forward(1, 1, [0, 0]),
        ),
        (
            [0x1e, 0x40, 0x00],
            [0x8b, 0xa0, 0x75],
            ISSUED,
            13,
            Turn::Refused {
                check: Check::Replay { first: 12 },
                hop: 0,
            },
        ),
        (
            [0x1e, 0x40, 0x01],
            [0x6e, 0xba, 0xca],
            ISSUED,
            14,
            forward(1, 1, [0, 0]),
        ),
        ([0x1e, 0x40, 0x02], [0x2b, 0x52, 0x70], ISSUED, 15, full),
        (
            [0x3f, 0xff, 0xff],
            [0x7d, 0x56, 0xf6],
            ISSUED + 2_211_839,
            16,
            full,
        ),
        (
            [0x40, 0x00, 0x00],
            [0x42, 0xa8, 0xf3],
            ISSUED + 2_211_840,
            17,
            forward(1, 1, [0, 0]),
        ),
    ];
    for (ts, field, now, turn, answer) in rows {
        let changes = [
            (37, ts[0]),
            (38, ts[1]),
            (39, ts[2]),
            (77, field[0]),
            (78, field[1]),
            (79, field[2]),
        ];
        let mut bytes = changed(rt.alloc(), &LEVEL_1, &changes)?;
        assert_eq!(rt;
            turn_at(&rt, &topo, &mut router, &mut bytes, 0, 0, now, turn),
            answer
        );
    }
    Ok(())
}

#[test]
fn a_packet_comes_to_a_router_twice_where_its_way_does(rt: HostRuntime) -> Result<(), Fail> {
    let mut text = TEXT.to_vec(rt.alloc())?;
    text.extend_from_slice(ANOTHER_LEAF)?;
    let topo = topology(&rt, rt.alloc(), &text)?;
    let mut router = router(rt.alloc(), &topo, MIDDLE)?;
    for (hop, iface, out) in [(1, 2, 1), (4, 1, 3)] {
        let mut bytes = changed(rt.alloc(), &BACK_DOWN, &[(7, hop)])?;
        assert_eq!(rt;
            turn_at(&rt, &topo, &mut router, &mut bytes, iface, 0, ISSUED, 1),
            forward(out, 1, [0, 0])
        );
    }
    Ok(())
}
