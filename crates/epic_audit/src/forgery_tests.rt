//! Words of forgeries, in tables.

ghost use Rattle.std.specs.Prelude.{◌≡◌};
ghost use Rattle.epic_audit.specs.ForgedText.{fits_level, has_form};

use super::*;
use epic_num::{AsId, ForgedKind, Forgery, HostId, KeyName, is_tagged, is_updated};
use epic_topo::{Topology, read_topology};
use epic_view::PacketRef;
use std::alloc::Global;
use std::process::Abort;
use std::test::Fail;

// Two ASes, each with one byte as its master key.
const TEXT: &[u8] =
    b"[[as]]\nname='1-ff00:0:112'\nkey='04040404040404040404040404040404'\n[[as]]\nname='1-ff00:0:122'\nkey='06060606060606060606060606060606'\n";

const SOURCE_AS: AsId = AsId(0x0001_ff00_0000_0112);

const SOURCE: HostId = HostId {
    asn: SOURCE_AS,
    host: 1,
};

const DESTINATION: HostId = HostId {
    asn: AsId(0x0001_ff00_0000_0122),
    host: 2,
};

const EPOCH: u64 = 19675;

// A packet of level 0 whose first hop has another expiry than the one that was issued.
const LEVEL_0: &str =
    "e0000060000001000001ff00000001120001ff0000000110000000010000000300000000000000000103000065\
    53f1003e00010000f02fdcef5be86197f8c9613f000100025fc8567cf27d6859545a3e3f000000020000000000\
    000000c11c94";

// Packets of levels 1 to 3 whose fields are right, and one of version 2.
const LEVEL_1: &str =
    "e10000c0000503000001ff00000001120001ff0000000122000000010000000200060a24181e40000103000065\
    53f100000200006553f100000300006553f1003f00010000f02fdcef5be861978ba0753f000100025fc8567cf2\
    7d6859343bb73f00000002000000000000000035601c3f000000010000000000000000538c5a3f000100007db5\
    07adf12d140f298f7e3f000000020000000000000000ee7de83f0001000298e46be4f0e2e0d9eb52a13f000100\
    00ab5c8a43f69d5d1449cd8a68656c6c6f";

const LEVEL_2: &str =
    "e20000d0000503000001ff00000001120001ff0000000122000000010000000200060a24181e40000103000065\
    53f100000200006553f100000300006553f1003f00010000f02fdcef5be86197d469d93f000100025fc8567cf2\
    7d68599cbd7c3f000000020000000000000000b397cb3f000000010000000000000000bb56053f000100007db5\
    07adf12d140f49b1f93f0000000200000000000000008352653f0001000298e46be4f0e2e0d9e0e5da3f000100\
    00ab5c8a43f69d5d14806e2207fc873959a965dc70373ad4a0ca189a68656c6c6f";

const LEVEL_3: &str =
    "e30000d0000503000001ff00000001120001ff0000000122000000010000000200060a24181e40000103000065\
    53f100000200006553f100000300006553f1003f00010000f02fdcef5be86197dfc9313f000100025fc8567cf2\
    7d6859f8adfe3f0000000200000000000000009e73103f000000010000000000000000bae06d3f000100007db5\
    07adf12d140f4569883f000000020000000000000000ab57623f0001000298e46be4f0e2e0d9306e7b3f000100\
    00ab5c8a43f69d5d14683d3f94f00d2001552e10e260647c0ecb208d68656c6c6f";

const VERSION_2: &str =
    "f30000e8000503000001ff00000001120001ff0000000122000000010000000200060a24181e40000103000065\
    53f100000200006553f100000300006553f1003f00010000f02fdcef5be861979a7c7ef1ea353f000100025fc8\
    567cf27d6859e2877c1321963f0000000200000000000000000ff80fca4dd03f0000000100000000000000000a\
    0ff9de6f2e3f000100007db507adf12d140f5f2ec72a42613f00000002000000000000000070adb71d94c33f00\
    01000298e46be4f0e2e0d9bc90b6856f583f00010000ab5c8a43f69d5d1495ebbbc6fd9bdf958035da5f7612e0\
    b83082f539a77b68656c6c6f";

const ISSUE: Forgery = Forgery {
    kind: ForgedKind::Issue,
    hop: 0,
    key: KeyName::Fwd { a: SOURCE_AS, g: 0 },
    generation: 0,
};

const FIELD: Forgery = Forgery {
    kind: ForgedKind::Field,
    hop: 0,
    key: KeyName::Field {
        a: SOURCE_AS,
        src: SOURCE,
        epoch: EPOCH,
    },
    generation: 0,
};

const UPDATE: Forgery = Forgery {
    kind: ForgedKind::Update,
    hop: 0,
    key: KeyName::Field {
        a: SOURCE_AS,
        src: SOURCE,
        epoch: EPOCH,
    },
    generation: 0,
};

const DEST: Forgery = Forgery {
    kind: ForgedKind::Dest,
    hop: 0,
    key: KeyName::Dest {
        dst: DESTINATION,
        src: SOURCE,
        epoch: EPOCH,
    },
    generation: 0,
};

/// Whether the key has the form of its kind.
#[tactic(auto, unfolding(crate::specs::ForgedText::has_form))]
fn has_form(forgery: &Forgery) -> bool
    ensures { result ≡ has_form forgery.now.kind forgery.now.key }
{
    match (forgery.kind, forgery.key) {
        (ForgedKind::Issue, KeyName::Fwd { .. }) => true,
        (ForgedKind::Field, KeyName::Field { .. }) => true,
        (ForgedKind::Update, KeyName::Field { .. }) => true,
        (ForgedKind::Dest, KeyName::Dest { .. }) => true,
        _ => false,
    }
}

/// Whether packets that begin so can have such a forgery.
#[tactic(auto, unfolding(crate::specs::ForgedText::fits_level))]
fn fits_level(kind: ForgedKind, first: u8) -> bool
    ensures { result ≡ fits_level kind first }
{
    match kind {
        ForgedKind::Issue => true,
        ForgedKind::Field => is_tagged(first),
        ForgedKind::Dest => is_tagged(first),
        ForgedKind::Update => is_tagged(first) && is_updated(first),
    }
}

/// The words of a forgery in the packet of these digits.
fn words(
    rt: &impl Abort,
    alloc: Global,
    topo: &Topology,
    digits: &str,
    forgery: &Forgery,
) -> Result<Vec<u8>, Fail> {
    let bytes = hex::decode(alloc, digits)?;
    let packet = PacketRef::look(&bytes)?;
    let mut to = Vec::from_slice(alloc, b"> ")?;
    assert!(rt; forgery.hop < packet.shape().hops);
    assert!(rt; has_form(forgery));
    assert!(rt; topo.has(epic_keys::owner(&forgery.key)));
    assert!(rt; fits_level(forgery.kind, packet.first_byte()));
    forged_text(&mut to, topo, &packet, forgery)?;
    Ok(to)
}

#[test]
fn words_of_forgeries(rt: HostRuntime) -> Result<(), Fail> {
    assert!(rt; TEXT.len() <= 1_048_576);
    let topo = read_topology(rt.alloc(), TEXT)?;
    for (digits, forgery, want) in [
        (
            LEVEL_0,
            ISSUE,
            "> forged issue fwd,1-ff00:0:112,0 01033e6553f10000010000f02fdcef5be86197 f8c961",
        ),
        (
            LEVEL_1,
            ISSUE,
            "> forged issue-over fwd,1-ff00:0:112,0 01033f6553f10000010000f02fdcef5be86197 sigma 110006\
                0a24181e40000001ff00000001120000000100 8ba075",
        ),
        (
            LEVEL_2,
            ISSUE,
            "> forged issue-over fwd,1-ff00:0:112,0 01033f6553f10000010000f02fdcef5be86197 field,1-ff00\
                :0:112,1-ff00:0:112,1,19675 1200060a24181e40000001ff000000011200000001003095d2a19c79f0250e\
                31f22fb0d3b59d d469d9",
        ),
        (
            LEVEL_2,
            FIELD,
            "> forged field field,1-ff00:0:112,1-ff00:0:112,1,19675 1200060a24181e40000001ff00000001120\
                0000001003095d2a19c79f0250e31f22fb0d3b59d d469d9",
        ),
        (
            LEVEL_3,
            UPDATE,
            "> forged update 0 field,1-ff00:0:112,1-ff00:0:112,1,19675 1300060a24181e40000001ff00000001\
                1200000001003095d2a19c79f0250e31f22fb0d3b59d dfc931",
        ),
        (
            VERSION_2,
            UPDATE,
            "> forged update 0 field,1-ff00:0:112,1-ff00:0:112,1,19675 3300060a24181e40000001ff00000001\
                1200000001003095d2a19c79f0250e31f22fb0d3b59d 9a7c7ef1ea35",
        ),
        (
            LEVEL_2,
            DEST,
            "> forged dest dest,1-ff00:0:122,2,1-ff00:0:112,1,19675 2200060a24181e40000001ff00000001120\
                00000010001ff00000001220000000203010300006553f100000200006553f100000300006553f1003f0001000\
                0f02fdcef5be861973f000100025fc8567cf27d68593f0000000200000000000000003f0000000100000000000\
                000003f000100007db507adf12d140f3f0000000200000000000000003f0001000298e46be4f0e2e0d93f00010\
                000ab5c8a43f69d5d14000568656c6c6f 07fc873959a965dc70373ad4a0ca189a",
        ),
        (
            VERSION_2,
            DEST,
            "> forged dest dest,1-ff00:0:122,2,1-ff00:0:112,1,19675 4300060a24181e40000001ff00000001120\
                00000010001ff00000001220000000203010300006553f100000200006553f100000300006553f1003f0001000\
                0f02fdcef5be861973f000100025fc8567cf27d68593f0000000200000000000000003f0000000100000000000\
                000003f000100007db507adf12d140f3f0000000200000000000000003f0001000298e46be4f0e2e0d93f00010\
                000ab5c8a43f69d5d149a7c7ef1ea35e2877c1321960ff80fca4dd00a0ff9de6f2e5f2ec72a426170adb71d94c\
                3bc90b6856f5895ebbbc6fd9b000568656c6c6f df958035da5f7612e0b83082f539a77b",
        ),
    ] {
        let words = words(&rt, rt.alloc(), &topo, digits, &forgery)?;
        assert_eq!(rt; words.as_slice(), want.as_bytes());
    }
    Ok(())
}
