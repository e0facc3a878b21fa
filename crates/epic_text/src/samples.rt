//! A topology, hops and packets for tests.

use crate::{ScriptError, ScriptKind, read_script};
use epic_num::{AsId, Body, Bytes, Command, HopName};
use epic_topo::{Topology, read_topology};
use std::alloc::Global;
use std::fmt::Debug;
use std::process::Abort;
use std::test::Fail;

// Two ASes, each with one byte as its master key.
const TEXT: &[u8] =
    b"[[as]]\nname='1-ff00:0:111'\nkey='03030303030303030303030303030303'\n[[as]]\nname='1-ff00:0:112'\nkey='04040404040404040404040404040404'\n";

/// An AS at the end of a segment.
pub const LEAF: AsId = AsId(0x0001_ff00_0000_0112);

/// The AS before it.
pub const MIDDLE: AsId = AsId(0x0001_ff00_0000_0111);

/// The last hop of a segment.
pub const LAST: HopName = HopName {
    asn: LEAF,
    generation: 0,
    body: Body {
        pos: 3,
        exp: 63,
        ts_path: 0x6553_f100,
        inn: 1,
        out: 0,
        link: [0xf0, 0x2f, 0xdc, 0xef, 0x5b, 0xe8, 0x61, 0x97],
    },
};

/// The hop before it.
pub const BEFORE: HopName = HopName {
    asn: MIDDLE,
    generation: 0,
    body: Body {
        pos: 2,
        exp: 63,
        ts_path: 0x6553_f100,
        inn: 1,
        out: 2,
        link: [0x5f, 0xc8, 0x56, 0x7c, 0xf2, 0x7d, 0x68, 0x59],
    },
};

/// A packet of level 0 as it came in.
pub const CAME: &str =
    "e0000060000001000001ff00000001120001ff00000001100000000100000003000000000000000001030000\
    6553f1003f00010000f02fdcef5be861973095d23f000100025fc8567cf27d6859545a3e3f00000002000000\
    0000000000c11c94";

/// The same as it went on.
pub const WENT: &str =
    "e0000060000001010001ff00000001120001ff00000001100000000100000003000000000000000001030000\
    6553f1003f00010000f02fdcef5be861973095d23f000100025fc8567cf27d6859545a3e3f00000002000000\
    0000000000c11c94";

/// One whose first hop was never issued.
pub const NEVER_ISSUED: &str =
    "e0000060000001000001ff00000001120001ff00000001100000000100000003000000000000000001030000\
    6553f1003e00010000f02fdcef5be86197f8c9613f000100025fc8567cf27d6859545a3e3f00000002000000\
    0000000000c11c94";

/// The two ASes.
pub fn topology(rt: &impl Abort, alloc: Global) -> Result<Topology, Fail> {
    assert!(rt; TEXT.len() <= 1_048_576);
    Ok(read_topology(alloc, TEXT)?)
}

/// Stops the test where a value isn't the one that is wanted.
pub fn same<T: PartialEq + Debug>(rt: &impl Abort, case: &str, value: &T, wanted: &T) {
    assert_eq!(rt; *value, *wanted, "{case}");
}

/// Stops the test where a text isn't the one that is wanted.
pub fn reads(rt: &impl Abort, text: &[u8], wanted: &str) {
    same(rt, wanted, &text, &wanted.as_bytes());
}

/// The bytes of digits.
pub fn decoded(alloc: Global, digits: &str) -> Result<Vec<u8>, Fail> {
    Ok(hex::decode(alloc, digits)?)
}

/// These bytes, owned.
pub fn bytes(alloc: Global, bytes: &[u8]) -> Result<Bytes, Fail> {
    Ok(Bytes::from_vec(Vec::from_slice(alloc, bytes)?))
}

/// Stops the test where a short text is no script with this fault at this line.
pub fn refuses(rt: &impl Abort, alloc: Global, text: &[u8], line: u32, kind: ScriptKind) {
    assert!(rt; text.len() <= 300);
    let refused = read_script::<Command>(alloc, text).err();
    same(
        rt,
        "refused",
        &refused,
        &Some(ScriptError::Bad { line, kind }),
    );
}

/// Stops the test where a short text has other commands than these.
pub fn commands_are(
    rt: &impl Abort,
    alloc: Global,
    text: &[u8],
    wanted: &[Command],
) -> Result<(), Fail> {
    assert!(rt; text.len() <= 300);
    let commands = read_script::<Command>(alloc, text)?;
    same(rt, "commands", &commands.as_slice(), &wanted);
    Ok(())
}
