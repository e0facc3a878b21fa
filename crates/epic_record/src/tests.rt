//! The lines of a run's two files.

use super::*;
use arrayvec::ArrayVec;
use epic_ledger::Event;
use epic_num::{AsId, Body, Holder, HopName, HostId, PassResult, Place, Turn, Verdict};
use epic_topo::{Topology, read_topology};
use epic_view::PacketRef;
use std::alloc::Global;
use std::process::Abort;
use std::test::Fail;

const MIDDLE: AsId = AsId(0x0001_ff00_0000_0111);

const LEAF: AsId = AsId(0x0001_ff00_0000_0112);

const SOURCE: HostId = HostId { asn: LEAF, host: 1 };

const TARGET: HostId = HostId {
    asn: AsId(0x0001_ff00_0000_0122),
    host: 2,
};

/// A hop in the middle of a segment.
const HOP: HopName = HopName {
    asn: MIDDLE,
    generation: 0,
    body: Body {
        pos: 2,
        exp: 63,
        ts_path: 0x6553_f100,
        inn: 1,
        out: 2,
        link: [0x5f, 0xc8, 0x56, 0x7c, 0xf2, 0x7d, 0x68, 0x59],
    },
};

/// A packet of level 0 as it came in.
const CAME: &str =
    "e0000060000001000001ff00000001120001ff00000001100000000100000003000000000000000001030000\
    6553f1003e00010000f02fdcef5be86197f8c9613f000100025fc8567cf27d6859545a3e3f00000002000000\
    0000000000c11c94";

/// The same as it went on.
const WENT: &str =
    "e0000060000001010001ff00000001120001ff00000001100000000100000003000000000000000001030000\
    6553f1003e00010000f02fdcef5be86197f8c9613f000100025fc8567cf27d6859545a3e3f00000002000000\
    0000000000c11c94";

// One AS, with one byte as its master key.
const TOPOLOGY: &[u8] = b"[[as]]\nname='1-ff00:0:112'\nkey='04040404040404040404040404040404'\n";

#[test]
fn lines_of_issues_and_keys(rt: HostRuntime) -> Result<(), Fail> {
    let mut to = Vec::new(rt.alloc());
    print_event(
        &mut to,
        &Event::Issue {
            step: 3,
            no: 2,
            name: HOP,
            parent: 1,
        },
    )?;
    print_event(
        &mut to,
        &Event::Fetch {
            step: 10,
            source: LEAF,
            owner: MIDDLE,
            epoch: 19675,
        },
    )?;
    print_event(
        &mut to,
        &Event::Reveal {
            step: 10,
            holder: Holder::As(LEAF),
        },
    )?;
    print_event(
        &mut to,
        &Event::Roll {
            step: 1,
            a: LEAF,
            generation: u32::MAX,
        },
    )?;
    let lines = "issue 3 2 1-ff00:0:111 0 023f6553f100000100025fc8567cf27d6859 1\n\
        fetch 10 1-ff00:0:112 1-ff00:0:111 19675\n\
        reveal 10 1-ff00:0:112\n\
        roll 1 1-ff00:0:112 4294967295\n";
    assert_eq!(rt; to.as_slice(), lines.as_bytes());
    Ok(())
}

#[test]
fn lines_of_packets_on_their_way(rt: HostRuntime) -> Result<(), Fail> {
    let mut to = Vec::new(rt.alloc());
    let mut segments = ArrayVec::new();
    segments.push(3);
    segments.push(5);
    segments.push(8);
    print_event(
        &mut to,
        &Event::Send {
            step: 15,
            emission: 1,
            segments,
        },
    )?;
    print_event(
        &mut to,
        &Event::Pass {
            step: 16,
            a: LEAF,
            hop: 3,
            generation: 0,
            emission: 4,
        },
    )?;
    print_event(
        &mut to,
        &Event::Arrive {
            step: 16,
            host: TARGET,
            src: SOURCE,
            ts: 1_700_000_000_000_000,
            hops: 8,
            checked: true,
        },
    )?;
    let lines = "send 15 1 3,5,8\npass 16 1-ff00:0:112 3 0 4\n\
        arrive 16 1-ff00:0:122,2 1-ff00:0:112,1 1700000000000000 8 1\n";
    assert_eq!(rt; to.as_slice(), lines.as_bytes());
    Ok(())
}

#[test]
fn line_of_an_accepted_hop(rt: HostRuntime) -> Result<(), Fail> {
    let mut to = Vec::new(rt.alloc());
    print_accept_hop(&mut to, LEAF, 7, 31, &[0xe3, 0])?;
    print_accept_hop(&mut to, LEAF, 0, 0, &[])?;
    let lines = "accept hop 1-ff00:0:112 7 31 e300\naccept hop 1-ff00:0:112 0 0 -\n";
    assert_eq!(rt; to.as_slice(), lines.as_bytes());
    Ok(())
}

#[test]
fn lines_with_packets(rt: HostRuntime) -> Result<(), Fail> {
    let alloc = rt.alloc();
    let came = hex::decode(alloc, CAME)?;
    let went = hex::decode(alloc, WENT)?;
    let mut to = Vec::new(alloc);
    let gate = Place::Router {
        asn: LEAF,
        iface: 0,
    };
    let forward = Turn::Forward {
        out: 1,
        hops: 1,
        generations: [0, 0],
    };
    print_accepted(&mut to, &gate, &came, &PassResult::Turned(forward))?;
    print_emission(
        &mut to,
        1,
        &Place::Router {
            asn: MIDDLE,
            iface: 2,
        },
        &went,
    )?;
    print_emission(&mut to, 7, &Place::Host(TARGET), &went)?;
    print_accept_dest(&mut to, TARGET, &went)?;
    let front = format!(in alloc;
        "accept hop 1-ff00:0:112 0 0 {CAME}\nemit 1 turn 1-ff00:0:111 2 {WENT}\n"
    )?;
    let lines = format!(in alloc;
        "{front}emit 7 arrive 1-ff00:0:122,2 {WENT}\naccept dest 1-ff00:0:122,2 {WENT}\n"
    )?;
    assert_eq!(rt; to.as_slice(), lines.as_bytes());
    Ok(())
}

/// The AS.
fn topology(rt: &impl Abort, alloc: Global) -> Result<Topology, Fail> {
    assert!(rt; TOPOLOGY.len() <= 1_048_576);
    Ok(read_topology(alloc, TOPOLOGY)?)
}

#[test]
fn lines_of_verdicts(rt: HostRuntime) -> Result<(), Fail> {
    let alloc = rt.alloc();
    let topo = topology(&rt, alloc)?;
    let came = hex::decode(alloc, CAME)?;
    let packet = PacketRef::look(&came)?;
    let mut to = Vec::new(alloc);
    print_hop_verdict(
        &mut to,
        &topo,
        &packet,
        7,
        &Verdict::Proved { issue: 8, send: 1 },
    )?;
    print_dest_verdict(
        &mut to,
        &topo,
        &packet,
        &Verdict::Proved { issue: 0, send: 1 },
    )?;
    print_dest_verdict(&mut to, &topo, &packet, &Verdict::Unclaimed)?;
    let lines = "hop 7 proved 8 1\ndest proved 1\ndest unclaimed\n";
    assert_eq!(rt; to.as_slice(), lines.as_bytes());
    Ok(())
}

/// Lines of a ledger file, and the fault of each.
const REFUSED: [(&[u8], FileKind); 9] = [
    (b"roll 1\t1-1 0", FileKind::NotText),
    (b"", FileKind::UnknownVerb),
    (b"roll 1 1-1", FileKind::WordCount),
    (b"roll  1 1-1 0", FileKind::WordCount),
    (b"accept", FileKind::WordCount),
    (b"emit x sent", FileKind::BadWord { word: 3 }),
    (b"roll 01 1-1 x", FileKind::BadWord { word: 2 }),
    (b"roll 1 1-1 4294967296", FileKind::BadWord { word: 4 }),
    (b"arrive 1 1-1,1 0-0,0 0 2 2", FileKind::BadPlace),
];

#[test]
fn lines_that_are_refused(rt: HostRuntime) -> Result<(), Fail> {
    for (line, kind) in REFUSED {
        assert!(rt; line.len() <= 100);
        let told = read_item(rt.alloc(), line).err();
        assert_eq!(rt; told, Some(LineError::Refused(kind)));
    }
    Ok(())
}
