//! Scripts and their faults in tables.

use super::*;
use crate::samples::{bytes, commands_are, refuses};
use epic_num::{AsId, Bytes, Command};
use std::test::Fail;

const LEAF: AsId = AsId(0x0001_ff00_0000_0112);

/// The fault of a word.
fn bad(word: u32) -> ScriptKind {
    ScriptKind::BadWord { word }
}

#[test]
fn scripts_that_are_refused(rt: HostRuntime) {
    let cases: [(&[u8], u32, ScriptKind); 26] = [
        (b"at 05", 1, bad(2)),
        (b"at +5", 1, bad(2)),
        (b"at 4294967296000000", 1, bad(2)),
        (b"at 5\r\r\n", 1, ScriptKind::NotText),
        (b"at\r5", 1, ScriptKind::NotText),
        (b"at", 1, ScriptKind::WordCount),
        (b"at 5 # x", 1, ScriptKind::WordCount),
        (b"extend 4294967296 0 0", 1, bad(2)),
        (b"fetch 1-1 1-2 18446744073709551616", 1, bad(4)),
        (b"\n#x\nfly\n", 3, ScriptKind::UnknownVerb),
        (b"# \xc3\xa9", 1, ScriptKind::NotText),
        (b"\x00", 1, ScriptKind::NotText),
        (b"AT 5", 1, ScriptKind::UnknownVerb),
        (b"turn 1-ff00:0:112 0 e", 1, bad(4)),
        (b"originate x y z", 1, bad(2)),
        (b"originate 1-1 65536 0", 1, bad(3)),
        (b"originate 1-1 0 256", 1, bad(4)),
        (b"paths 1-1", 1, ScriptKind::WordCount),
        (b"at 1700000000000000\nextend x 0 63\n", 2, bad(2)),
        (b"turn 1-1 65536 -", 1, bad(3)),
        (b"turn 1-1 1 --", 1, bad(4)),
        (b"jump\n", 1, ScriptKind::UnknownVerb),
        (b"orig", 1, ScriptKind::UnknownVerb),
        (b"send9 1", 1, ScriptKind::UnknownVerb),
        (b"originate 0-1 0 0 0", 1, ScriptKind::WordCount),
        (b"turn 1-1 1 zz\nfly", 1, bad(4)),
    ];
    for (text, line, kind) in cases {
        refuses(&rt, rt.alloc(), text, line, kind);
    }
}

#[test]
fn commands_of_a_script(rt: HostRuntime) -> Result<(), Fail> {
    let text =
        b"#\t ok\r\n\r\n \t \n\tat\t 4294967295999999 \noriginate 1-1 65535 255\nextend 4294967295 0 0\n\
        fetch 1-1 1-ff00:0:112 18446744073709551615\npaths 1-1 1-2\nturn 1-1 1 AbCd\nturn 1-1 0 -\r";
    let a = AsId(0x0001_0000_0000_0001);
    let two = bytes(rt.alloc(), &[0xab, 0xcd])?;
    let wanted = [
        Command::At {
            moment: 4_294_967_295_999_999,
        },
        Command::Originate {
            a,
            out: 65_535,
            exp: 255,
        },
        Command::Extend {
            parent: 4_294_967_295,
            out: 0,
            exp: 0,
        },
        Command::Fetch {
            source: a,
            owner: LEAF,
            epoch: u64::MAX,
        },
        Command::Paths {
            from: a,
            to: AsId(0x0001_0000_0000_0002),
        },
        Command::Turn {
            a,
            iface: 1,
            bytes: two,
        },
        Command::Turn {
            a,
            iface: 0,
            bytes: Bytes::from_vec(Vec::new(rt.alloc())),
        },
    ];
    commands_are(&rt, rt.alloc(), text, &wanted)
}
