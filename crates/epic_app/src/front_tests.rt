//! A test of the command `run`: each front of a packet comes to a router.

ghost use Rattle.std.specs.Prelude.{◌≤◌};

use crate::run_tests::{NO_FAULTS, TOPOLOGY, run_files};
use std::alloc::AllocError;
use std::test::Fail;

// Beacons, and the packet of 197 bytes that one host may send over them. The expected report was
// computed by another program.
const BEACONS: &[u8] = b"at 1700000000000000\n\
    originate 1-ff00:0:110 2 63\n\
    extend 1 2 63\n\
    extend 2 0 63\n\
    originate 1-ff00:0:110 1 63\n\
    extend 4 0 63\n\
    originate 1-ff00:0:120 2 63\n\
    extend 6 2 63\n\
    extend 7 0 63\n";

const PACKET: &[u8] =
    b"e00000c0000503000001ff00000001120001ff0000000122000000010000000200060a24181e4000010300006553f100000200006553f100000300006553f1003f00010000f02fdcef5be861973095d23f000100025fc8567cf27d6859545a3e3f000000020000000000000000c11c943f000000010000000000000000e7fa823f000100007db507adf12d140f3d5d483f0000000200000000000000008e438e3f0001000298e46be4f0e2e0d96fe6b03f00010000ab5c8a43f69d5d14b76d9568656c6c6f";

const ISSUED: &[u8] =
    b"2 issue 1 1-ff00:0:110 013f6553f100000000020000000000000000 c11c948b57032617ec82805c462ebb18\n\
    3 issue 2 1-ff00:0:111 023f6553f100000100025fc8567cf27d6859 545a3ebf4ce89321245a9f2ef90ba2ac\n\
    4 issue 3 1-ff00:0:112 033f6553f10000010000f02fdcef5be86197 3095d2a19c79f0250e31f22fb0d3b59d\n\
    5 issue 4 1-ff00:0:110 013f6553f100000000010000000000000000 e7fa82e4dfb83057fa0f188e614da1bc\n\
    6 issue 5 1-ff00:0:120 023f6553f100000100007db507adf12d140f 3d5d486891031f740b32f5585d538b2c\n\
    7 issue 6 1-ff00:0:120 013f6553f100000000020000000000000000 8e438e7cc300e646f7aab4101d0fde56\n\
    8 issue 7 1-ff00:0:121 023f6553f1000001000298e46be4f0e2e0d9 6fe6b0a51fba4c7d6ea9770cc0f8a8a9\n\
    9 issue 8 1-ff00:0:122 033f6553f10000010000ab5c8a43f69d5d14 b76d951ff13c0459b4d1dae7c6004cd1\n";

const FORWARDED: &[u8] =
    b"207 forward 1 1 e00000c0000503010001ff00000001120001ff0000000122000000010000000200060a24181e4000010300006553f100000200006553f100000300006553f1003f00010000f02fdcef5be861973095d23f000100025fc8567cf27d6859545a3e3f000000020000000000000000c11c943f000000010000000000000000e7fa823f000100007db507adf12d140f3d5d483f0000000200000000000000008e438e3f0001000298e46be4f0e2e0d96fe6b03f00010000ab5c8a43f69d5d14b76d9568656c6c6f\n\
    207 hop 0 proved 3\n\
    end 207 accepted 1 proved 1 opened 0 forged 0 collided 0 unclaimed 0\n";

/// How many bytes the packet has.
const LENGTH: usize = 197;

/// What is wrong with the first so many bytes of the packet.
fn fault(length: usize) -> &'static str {
    match length {
        0..=63 => "short",
        64..=191 => "header-length",
        _ => "payload-length",
    }
}

/// Appends the command by which the first bytes of the packet come to its source's router.
fn push_turn(script: &mut Vec<u8>, length: usize) -> Result<(), AllocError>
    requires { length ≤ 197 }
{
    script.extend_from_slice(b"turn 1-ff00:0:112 0 ")?;
    if length == 0 {
        script.push(b'-')?;
    } else {
        script.extend_from_slice(&PACKET[..2 * length])?;
    }
    script.push(b'\n')?;
    Ok(())
}

#[test]
fn fronts_of_a_packet(rt: HostRuntime) -> Result<(), Fail> {
    let mut script = Vec::from_slice(rt.alloc(), BEACONS)?;
    let mut report = Vec::from_slice(rt.alloc(), ISSUED)?;
    for length in 0..LENGTH {
        push_turn(&mut script, length)?;
        let line = format!(in rt.alloc(); "{} refused layout {}\n", 10 + length, fault(length))?;
        report.extend_from_slice(line.as_bytes())?;
    }
    push_turn(&mut script, LENGTH)?;
    report.extend_from_slice(FORWARDED)?;
    let run = run_files(
        &rt,
        rt.alloc(),
        &[],
        TOPOLOGY.as_bytes(),
        &script,
        &NO_FAULTS,
    )?;
    assert_eq!(rt; run.err.written(), b"".as_slice());
    assert_eq!(rt; run.out.written(), report.as_slice());
    assert_eq!(rt; run.status, 0);
    Ok(())
}
