//! Packets beside those of another program, and the refusals of a source.

ghost use Rattle.std.specs.Prelude.{◌<◌, ◌^◌, ◌↔◌, IfSome, IsTrue};

use super::*;
use epic_beacon::Beacons;
use epic_keys::KeyStore;
use epic_num::{AsId, HostId, Level, NoKey, Path, first_byte, is_first_byte};
use epic_path::{are_well_formed, join};
use epic_topo::{Topology, read_topology};
use std::alloc::Global;
use std::process::Abort;
use std::test::Fail;

// Two core ASes, 110 and 120, with 111 and then 112 below the one, and 121 and then 122 below the other.
const TEXT: &[u8] = b"as = [\n\
      { name = '1-ff00:0:110', core = true, key = '01010101010101010101010101010101' },\n\
      { name = '1-ff00:0:120', core = true, key = '02020202020202020202020202020202' },\n\
      { name = '1-ff00:0:111', core = false, key = '03030303030303030303030303030303' },\n\
      { name = '1-ff00:0:112', core = false, key = '04040404040404040404040404040404' },\n\
      { name = '1-ff00:0:121', core = false, key = '05050505050505050505050505050505' },\n\
      { name = '1-ff00:0:122', core = false, key = '06060606060606060606060606060606' },\n\
    ]\n\
    link = [\n\
      { kind = 'core', a = '1-ff00:0:110', a_if = 1, b = '1-ff00:0:120', b_if = 1 },\n\
      { kind = 'child', a = '1-ff00:0:110', a_if = 2, b = '1-ff00:0:111', b_if = 1 },\n\
      { kind = 'child', a = '1-ff00:0:111', a_if = 2, b = '1-ff00:0:112', b_if = 1 },\n\
      { kind = 'child', a = '1-ff00:0:120', a_if = 2, b = '1-ff00:0:121', b_if = 1 },\n\
      { kind = 'child', a = '1-ff00:0:121', a_if = 2, b = '1-ff00:0:122', b_if = 1 },\n\
    ]\n";

const UPPER: AsId = AsId(0x0001_ff00_0000_0110);

const OTHER: AsId = AsId(0x0001_ff00_0000_0120);

const MIDDLE: AsId = AsId(0x0001_ff00_0000_0111);

const BELOW: AsId = AsId(0x0001_ff00_0000_0121);

const FROM: HostId = HostId {
    asn: AsId(0x0001_ff00_0000_0112),
    host: 1,
};

const TO: HostId = HostId {
    asn: AsId(0x0001_ff00_0000_0122),
    host: 2,
};

const NOW: u64 = 1_700_000_000_000_000;

/// The epoch of that moment, and its last microsecond.
const EPOCH: u64 = 19675;

const LAST: u64 = 1_700_006_399_999_999;

/// What a source stands on: a path of eight hops from 112 to 122, and the keys that 112 has fetched.
#[derive(Drop)]
struct Net {
    topo: Topology,
    keys: KeyStore,
    path: Path,
}

/// The path up to 110, over to 120 and down to 122.
fn path(rt: &impl Abort, alloc: Global, topo: &Topology) -> Result<Path, Fail> {
    let mut beacons = Beacons::new(alloc);
    assert!(rt; topo.has(UPPER));
    assert!(rt; beacons.originate(topo, UPPER, 2, 63, NOW)? == 1);
    assert!(rt; beacons.extend(topo, 1, 2, 63, NOW)? == 2);
    assert!(rt; beacons.extend(topo, 2, 0, 63, NOW)? == 3);
    assert!(rt; beacons.originate(topo, UPPER, 1, 63, NOW)? == 4);
    assert!(rt; beacons.extend(topo, 4, 0, 63, NOW)? == 5);
    assert!(rt; topo.has(OTHER));
    assert!(rt; beacons.originate(topo, OTHER, 2, 63, NOW)? == 6);
    assert!(rt; beacons.extend(topo, 6, 2, 63, NOW)? == 7);
    assert!(rt; beacons.extend(topo, 7, 0, 63, NOW)? == 8);
    let segments = [
        beacons.segment(3)?,
        beacons.segment(5)?,
        beacons.segment(8)?,
    ];
    assert!(rt; are_well_formed(&segments));
    Ok(join(FROM.asn, &segments)?)
}

/// The topology and the path, with the keys of these ASes.
fn with_keys_of(rt: &impl Abort, alloc: Global, owners: &[AsId]) -> Result<Net, Fail> {
    assert!(rt; TEXT.len() <= 1_048_576);
    let topo = read_topology(alloc, TEXT)?;
    let path = path(rt, alloc, &topo)?;
    let mut net = Net {
        topo,
        keys: KeyStore::new(alloc),
        path,
    };
    for owner in owners {
        fetch(rt, &mut net, *owner)?;
    }
    Ok(net)
}

fn fetch(rt: &impl Abort, net: &mut Net, owner: AsId) -> Result<(), Fail> {
    assert!(rt; net.topo.has(FROM.asn));
    assert!(rt; net.topo.has(owner));
    net.keys.fetch(&net.topo, FROM.asn, owner, EPOCH)?;
    Ok(())
}

/// Whether the source can send more.
fn is_open(source: &Source) -> bool
    ensures { IsTrue result ↔ IfSome source.now.last (λ last. last < 2 ^ 63) }
{
    match source.last() {
        Some(last) => last < 1 << 63,
        None => true,
    }
}

/// A send of a version and level.
fn send(
    rt: &impl Abort,
    alloc: Global,
    net: &Net,
    source: &mut Source,
    kind: (u8, Level),
    now: u64,
) -> Result<Sent, SendError> {
    assert!(rt; is_first_byte(first_byte(kind.0, kind.1)));
    assert!(rt; net.topo.has(TO.asn));
    assert!(rt; has_path(&net.topo, &net.path));
    assert!(rt; is_open(source));
    source.send(
        alloc, &net.topo, &net.keys, &net.path, kind.0, kind.1, TO, b"hello", now,
    )
}

/// What a send of level 2 would answer.
fn admit(
    rt: &impl Abort,
    net: &Net,
    source: &Source,
    dst: HostId,
    payload: &[u8],
    now: u64,
) -> Result<u64, SendError> {
    assert!(rt; is_open(source));
    source.admit(
        &net.topo,
        &net.keys,
        &net.path,
        1,
        Level::L2,
        dst,
        payload,
        now,
    )
}

#[test]
fn packets_are_those_of_another_program(rt: HostRuntime) -> Result<(), Fail> {
    let net = with_keys_of(&rt, rt.alloc(), &[MIDDLE, UPPER, OTHER, BELOW, TO.asn])?;
    let mut source = Source::new(rt.alloc(), FROM);
    // Six packets of one moment, each with the timestamp after the last one's.
    let rows: [((u8, Level), &str); 6] = [
        (
            (1, Level::L0),
            "e00000c0000503000001ff00000001120001ff0000000122000000010000000200060a24181e4000010300006553f100000200006553f100000300006553f1003f00010000f02fdcef5be861973095d23f000100025fc8567cf27d6859545a3e3f000000020000000000000000c11c943f000000010000000000000000e7fa823f000100007db507adf12d140f3d5d483f0000000200000000000000008e438e3f0001000298e46be4f0e2e0d96fe6b03f00010000ab5c8a43f69d5d14b76d9568656c6c6f",
        ),
        (
            (1, Level::L1),
            "e10000c0000503000001ff00000001120001ff0000000122000000010000000200060a24181e4001010300006553f100000200006553f100000300006553f1003f00010000f02fdcef5be861976ebaca3f000100025fc8567cf27d6859ffc8003f000000020000000000000000d305ad3f0000000100000000000000007106c93f000100007db507adf12d140fca927f3f000000020000000000000000ee2c0c3f0001000298e46be4f0e2e0d93b32b73f00010000ab5c8a43f69d5d140ea89468656c6c6f",
        ),
        (
            (1, Level::L2),
            "e20000d0000503000001ff00000001120001ff0000000122000000010000000200060a24181e4002010300006553f100000200006553f100000300006553f1003f00010000f02fdcef5be861972815173f000100025fc8567cf27d6859c8e56a3f000000020000000000000000d481f53f000000010000000000000000205f2c3f000100007db507adf12d140f4f56643f000000020000000000000000cef34f3f0001000298e46be4f0e2e0d9633b4f3f00010000ab5c8a43f69d5d144c2c35efc1a125fe6ab74373a0d49e0e48dfc468656c6c6f",
        ),
        (
            (1, Level::L3),
            "e30000d0000503000001ff00000001120001ff0000000122000000010000000200060a24181e4003010300006553f100000200006553f100000300006553f1003f00010000f02fdcef5be86197f1cb5b3f000100025fc8567cf27d68599c12eb3f000000020000000000000000da61213f000000010000000000000000de06353f000100007db507adf12d140fed9a493f0000000200000000000000002c9f163f0001000298e46be4f0e2e0d93cc30b3f00010000ab5c8a43f69d5d14216be58cd96e8d78cf1f2cece9e0d3ceafc1c568656c6c6f",
        ),
        (
            (2, Level::L2),
            "f20000e8000503000001ff00000001120001ff0000000122000000010000000200060a24181e4004010300006553f100000200006553f100000300006553f1003f00010000f02fdcef5be8619735571b8fcceb3f000100025fc8567cf27d685926dcc64cb61f3f0000000200000000000000002d04669506ac3f00000001000000000000000002f1590a2b603f000100007db507adf12d140fc9e1588da9553f000000020000000000000000af8fa65b4f433f0001000298e46be4f0e2e0d9a9f584120ecd3f00010000ab5c8a43f69d5d1432b7559416b31b8d38232f942f30ba956a8b0695a09968656c6c6f",
        ),
        (
            (2, Level::L3),
            "f30000e8000503000001ff00000001120001ff0000000122000000010000000200060a24181e4005010300006553f100000200006553f100000300006553f1003f00010000f02fdcef5be86197df39aea4d5a03f000100025fc8567cf27d685913853f7738bc3f0000000200000000000000008587638628a63f000000010000000000000000dffd5bdd8a703f000100007db507adf12d140fda6161c7b5883f000000020000000000000000cf8b0a3114763f0001000298e46be4f0e2e0d951ac513544c93f00010000ab5c8a43f69d5d148aa48b180c3d682fe8a520656f66c60ac97aee65cbfd68656c6c6f",
        ),
    ];
    for (kind, digits) in rows {
        let sent = send(&rt, rt.alloc(), &net, &mut source, kind, NOW)?;
        let bytes = hex::decode(rt.alloc(), digits.as_bytes())?;
        assert!(rt; sent.bytes.as_slice() == bytes.as_slice(), "{kind:?}");
    }
    assert_eq!(rt; source.last(), Some(NOW + 5));
    Ok(())
}

#[test]
fn a_refusal_leaves_the_source(rt: HostRuntime) -> Result<(), Fail> {
    let mut net = with_keys_of(&rt, rt.alloc(), &[MIDDLE, UPPER, BELOW, TO.asn])?;
    let mut source = Source::new(rt.alloc(), FROM);
    let kind = (1, Level::L2);
    // A key that wasn't fetched.
    let missing = SendError::NoKey(NoKey {
        owner: OTHER,
        epoch: EPOCH,
    });
    assert!(rt; send(&rt, rt.alloc(), &net, &mut source, kind, LAST) == Err(missing));
    assert_eq!(rt; source.last(), None);
    fetch(&rt, &mut net, OTHER)?;
    assert!(rt; send(&rt, rt.alloc(), &net, &mut source, kind, LAST)?.ts == LAST);
    // The next timestamp lies in the next epoch.
    let later = SendError::NoKey(NoKey {
        owner: MIDDLE,
        epoch: EPOCH + 1,
    });
    assert!(rt; send(&rt, rt.alloc(), &net, &mut source, kind, LAST) == Err(later));
    assert_eq!(rt; source.last(), Some(LAST));
    Ok(())
}

#[test]
fn refusals_come_in_their_order(rt: HostRuntime) -> Result<(), Fail> {
    let net = with_keys_of(&rt, rt.alloc(), &[])?;
    let source = Source::new(rt.alloc(), FROM);
    let elsewhere = HostId {
        asn: BELOW,
        host: 2,
    };
    let long = vec![in rt.alloc(); 0; 8193]?;
    let end = 1_700_021_600_000_000;
    let unfetched = SendError::NoKey(NoKey {
        owner: MIDDLE,
        epoch: EPOCH,
    });
    let rows: [(HostId, &[u8], u64, SendError); 4] = [
        (elsewhere, &long, end + 1, SendError::WrongEnds),
        (TO, &long, end + 1, SendError::PayloadTooLong),
        (TO, &long[1..], end + 1, SendError::Expired { hop: 0 }),
        (TO, &long[1..], NOW, unfetched),
    ];
    for (dst, payload, now, refusal) in rows {
        assert!(rt; admit(&rt, &net, &source, dst, payload, now) == Err(refusal));
    }
    Ok(())
}
