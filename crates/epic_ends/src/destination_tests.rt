//! Arrivals of packets whose tags another program made.
ghost use Rattle.std.specs.Prelude.{◌≡◌};

use super::*;
use epic_num::{Arrival, AsId, DestCheck, HostId, LayoutError};
use epic_topo::{Topology, read_topology};
use std::alloc::{AllocError, Global};
use std::process::Abort;
use std::test::Fail;

/// The AS of the destination, from whose master key the keys of destination fields are derived.
const TEXT: &[u8] = b"[[as]]\nname='1-ff00:0:122'\nkey='06060606060606060606060606060606'\n";

/// The same, where a window holds one live entry of each source AS.
const NARROW: &[u8] =
    b"[profile]\nwindow=1\n[[as]]\nname='1-ff00:0:122'\nkey='06060606060606060606060606060606'\n";

const SOURCE: HostId = HostId {
    asn: AsId(0x0001_ff00_0000_0112),
    host: 1,
};

const DESTINATION: HostId = HostId {
    asn: AsId(0x0001_ff00_0000_0122),
    host: 2,
};

const NOW: u64 = 1_700_000_000_000_000;

/// The headers of three segments: up, over the core and down.
const SEGMENTS: [u64; 3] = [
    0x0103_0000_6553_f100,
    0x0002_0000_6553_f100,
    0x0003_0000_6553_f100,
];

/// The hops without their fields.
const HOPS: [u128; 8] = [
    0x3f00010000f02fdcef5be86197,
    0x3f000100025fc8567cf27d6859,
    0x3f000000020000000000000000,
    0x3f000000010000000000000000,
    0x3f000100007db507adf12d140f,
    0x3f000000020000000000000000,
    0x3f0001000298e46be4f0e2e0d9,
    0x3f00010000ab5c8a43f69d5d14,
];

/// What differs from packet to packet.
#[derive(Clone, Copy)]
struct Sample {
    first: u8,
    ts: u64,
    /// Their lowest three bytes in version 1, and six in version 2.
    fields: [u64; 8],
    dest_field: u128,
}

const LEVEL_1: Sample = Sample {
    first: 0xe1,
    ts: NOW,
    fields: [
        0x8ba075, 0x343bb7, 0x35601c, 0x538c5a, 0x298f7e, 0xee7de8, 0xeb52a1, 0x49cd8a,
    ],
    dest_field: 0,
};

const LEVEL_2: Sample = Sample {
    first: 0xe2,
    ts: NOW + 1,
    fields: [
        0xf4919f, 0xcdc377, 0x5c99b8, 0x4a5d0d, 0x64b5ef, 0xe0679a, 0x2a7e4e, 0x83c792,
    ],
    dest_field: 0xfda67b162667e7fca5679a6812e1ca8b,
};

const LEVEL_3: Sample = Sample {
    first: 0xe3,
    ts: NOW,
    fields: [
        0xf360dd, 0xa11d1b, 0x2dd965, 0x6a7113, 0x242f79, 0xdecb52, 0xe628ef, 0xc2a8b2,
    ],
    dest_field: 0x94f00d2001552e10e260647c0ecb208d,
};

const WIDE_2: Sample = Sample {
    first: 0xf2,
    ts: NOW,
    fields: [
        0xc9e7fa588a47,
        0xf27e77daf2a2,
        0x9acd57cd1dc1,
        0x4ae75635e2ec,
        0xeab489f503cd,
        0x14c934cb56a9,
        0x0b5def63d47d,
        0xe685d02194e1,
    ],
    dest_field: 0x18964cfbf154121aa8673983e384cb16,
};

const WIDE_3: Sample = Sample {
    first: 0xf3,
    ts: NOW,
    fields: [
        0x9cc1efe53f7c,
        0x0984041beb52,
        0x579a8de7fcb1,
        0x4a01ce3b778b,
        0x3792e69929b6,
        0xbc6d38cf6664,
        0x79470a2a3a46,
        0xa14d401d897b,
    ],
    dest_field: 0xdf958035da5f7612e0b83082f539a77b,
};

/// The packet behind its last hop, with the payload `hello`.
fn packet(alloc: Global, sample: &Sample) -> Result<Vec<u8>, AllocError> {
    let width: u8 = if sample.first < 0xf0 { 3 } else { 6 };
    let dest_len = if sample.first < 0xe2 { 0 } else { 16 };
    let mut bytes = vec![in alloc; sample.first, 0, 0, 64 + 8 * (13 + width) + dest_len]?;
    bytes.extend_from_slice(&[0, 5, 3, 8])?;
    bytes.extend_from_slice(&SOURCE.asn.0.to_be_bytes())?;
    bytes.extend_from_slice(&DESTINATION.asn.0.to_be_bytes())?;
    bytes.extend_from_slice(&SOURCE.host.to_be_bytes())?;
    bytes.extend_from_slice(&DESTINATION.host.to_be_bytes())?;
    bytes.extend_from_slice(&sample.ts.to_be_bytes())?;
    for segment in SEGMENTS {
        bytes.extend_from_slice(&segment.to_be_bytes())?;
    }
    for (hop, field) in HOPS.iter().zip(sample.fields.iter()) {
        bytes.extend_from_slice(&hop.to_be_bytes()[3..])?;
        bytes.extend_from_slice(&field.to_be_bytes()[8 - width as usize..])?;
    }
    bytes.extend_from_slice(&sample.dest_field.to_be_bytes()[16 - dest_len as usize..])?;
    bytes.extend_from_slice(b"hello")?;
    Ok(bytes)
}

fn topology(rt: &impl Abort, alloc: Global, text: &[u8]) -> Result<Topology, Fail> {
    assert!(rt; text.len() <= 1_048_576);
    Ok(read_topology(alloc, text)?)
}

/// Makes room, and hands bytes to the destination.
fn arrive(
    rt: &impl Abort,
    dest: &mut Dest,
    topo: &Topology,
    bytes: &[u8],
    now: u64,
    turn: u32,
) -> Result<Arrival, Fail>
    requires { dest.old.window.profile ≡ topo.now.profile }
    ensures { dest.new.window.profile ≡ topo.now.profile }
{
    dest.reserve(1)?;
    assert!(rt; topo.has(dest.host().asn) && dest.spare() >= 1 && dest.latest() <= now);
    Ok(dest.arrive(topo, bytes, now, turn))
}

/// What a host to which nothing came yet answers.
fn answer(
    rt: &impl Abort,
    alloc: Global,
    topo: &Topology,
    bytes: &[u8],
    now: u64,
) -> Result<Arrival, Fail> {
    let mut dest = Dest::new(alloc, &topo.profile(), DESTINATION, &[0; 16]);
    arrive(rt, &mut dest, topo, bytes, now, 7)
}

#[test]
fn packets_with_a_destination_field_are_accepted_once(rt: HostRuntime) -> Result<(), Fail> {
    let topo = topology(&rt, rt.alloc(), TEXT)?;
    let again = Arrival::Refused(DestCheck::Replay { first: 7 });
    let rows = [
        (LEVEL_1, Arrival::Unchecked, Arrival::Unchecked),
        (LEVEL_2, Arrival::Accepted, again),
        (LEVEL_3, Arrival::Accepted, again),
        (WIDE_2, Arrival::Accepted, again),
        (WIDE_3, Arrival::Accepted, again),
    ];
    for (sample, first, second) in rows {
        let bytes = packet(rt.alloc(), &sample)?;
        let mut dest = Dest::new(rt.alloc(), &topo.profile(), DESTINATION, &[0; 16]);
        let given = arrive(&rt, &mut dest, &topo, &bytes, NOW, 7)?;
        assert_eq!(rt; given, first, "{}", sample.first);
        let given = arrive(&rt, &mut dest, &topo, &bytes, NOW, 8)?;
        assert_eq!(rt; given, second, "{}", sample.first);
    }
    Ok(())
}

#[test]
fn each_check_is_told(rt: HostRuntime) -> Result<(), Fail> {
    let topo = topology(&rt, rt.alloc(), TEXT)?;
    let bad = DestCheck::BadDestinationField;
    // A byte of the level 3 packet with another value, the moment, and the check.
    let rows = [
        (0, 0xe4, NOW, DestCheck::Layout(LayoutError::Version)),
        (31, 1, NOW, DestCheck::WrongHost),
        (7, 7, NOW, DestCheck::NotAtEnd),
        (0, 0xe3, NOW + 2_000_001, DestCheck::Stale),
        (0, 0xe3, NOW - 1_000_001, DestCheck::Early),
        (77, 0xf2, NOW, bad),
        (212, b'n', NOW, bad),
    ];
    for (at, value, now, check) in rows {
        let mut bytes = packet(rt.alloc(), &LEVEL_3)?;
        if let Some(byte) = bytes.get_mut(at) {
            *byte = value;
        }
        let given = answer(&rt, rt.alloc(), &topo, &bytes, now)?;
        assert_eq!(rt; given, Arrival::Refused(check), "{at}");
    }
    Ok(())
}

#[test]
fn a_packet_is_accepted_from_the_first_moment_to_the_last(rt: HostRuntime) -> Result<(), Fail> {
    let topo = topology(&rt, rt.alloc(), TEXT)?;
    let bytes = packet(rt.alloc(), &LEVEL_3)?;
    for now in [NOW - 1_000_000, NOW + 2_000_000] {
        let given = answer(&rt, rt.alloc(), &topo, &bytes, now)?;
        assert_eq!(rt; given, Arrival::Accepted, "{now}");
    }
    Ok(())
}

#[test]
fn a_window_holds_so_many_packets_of_an_as(rt: HostRuntime) -> Result<(), Fail> {
    let topo = topology(&rt, rt.alloc(), NARROW)?;
    let mut dest = Dest::new(rt.alloc(), &topo.profile(), DESTINATION, &[0; 16]);
    let bytes = packet(rt.alloc(), &LEVEL_3)?;
    let given = arrive(&rt, &mut dest, &topo, &bytes, NOW, 1)?;
    assert_eq!(rt; given, Arrival::Accepted);
    let other = packet(rt.alloc(), &LEVEL_2)?;
    let given = arrive(&rt, &mut dest, &topo, &other, NOW, 2)?;
    let full = DestCheck::WindowFull { live: 1 };
    assert_eq!(rt; given, Arrival::Refused(full));
    Ok(())
}
