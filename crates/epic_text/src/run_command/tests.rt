//! The words after `send`, `arrive`, `pass`, `carry`, `reveal` and `roll`, in tables.

use super::*;
use crate::samples::{bytes, commands_are, refuses};
use arrayvec::ArrayVec;
use epic_num::{AsId, Bytes, Holder, HostId, Level};
use std::test::Fail;

const FIRST: AsId = AsId(0x0001_0000_0000_0001);

const LEAF: AsId = AsId(0x0001_ff00_0000_0112);

/// The fault of a word.
fn bad(word: u32) -> ScriptKind {
    ScriptKind::BadWord { word }
}

#[test]
fn words_that_are_refused(rt: HostRuntime) {
    let cases: [(&[u8], ScriptKind); 29] = [
        (b"send 4 1-1,1 1-1,2 1 -", bad(2)),
        (b"send 1w 1-1,1 1-1,2 1 -", bad(2)),
        (b"send 00 1-1 x 0, z", bad(2)),
        (b"send 0 1-1 1-1,2 1 -", bad(3)),
        (b"send 0 1-1,1 1-1,4294967296 1 -", bad(4)),
        (b"send 0 1-1,1 1-1,2 1,2,3,4 -", bad(5)),
        (b"send 0 1-1,1 1-1,2 1,,2 -", bad(5)),
        (b"send 0 1-1,1 1-1,2 1, -", bad(5)),
        (b"send 0 1-1,1 1-1,2 ,1 -", bad(5)),
        (b"send 0 1-1,1 1-1,2 1,4294967296 -", bad(5)),
        (b"send 0 1-1,1 1-1,2 1 0", bad(6)),
        (b"send 4 1-1,1 1-1,2 1", ScriptKind::WordCount),
        (b"send 0 1-1,1 1-1,2 1 - -", ScriptKind::WordCount),
        (b"arrive 1-1 -", bad(2)),
        (b"arrive 1-1,1 0", bad(3)),
        (b"arrive 1-1,1", ScriptKind::WordCount),
        (b"pass +1", bad(2)),
        (b"pass 4294967296", bad(2)),
        (b"pass", ScriptKind::WordCount),
        (b"carry 01", bad(2)),
        (b"carry 1 2", ScriptKind::WordCount),
        (b"reveal 1", bad(2)),
        (b"reveal 1-1,", bad(2)),
        (b"reveal 1-1,4294967296", bad(2)),
        (b"reveal 1-0", bad(2)),
        (b"reveal 1-1 1", ScriptKind::WordCount),
        (b"roll 1-1,1", bad(2)),
        (b"roll", ScriptKind::WordCount),
        (b"Roll 1-1", ScriptKind::UnknownVerb),
    ];
    for (text, kind) in cases {
        refuses(&rt, rt.alloc(), text, 1, kind);
    }
}

/// The send of no bytes over the issue 0, of this version and level.
fn send(alloc: Global, version: u8, level: Level) -> Result<Command, Fail> {
    Ok(Command::Send {
        version,
        level,
        src: HostId {
            asn: FIRST,
            host: 1,
        },
        dst: HostId {
            asn: FIRST,
            host: 2,
        },
        segments: ArrayVec::try_from([0].as_slice())?,
        payload: Bytes::from_vec(Vec::new(alloc)),
    })
}

#[test]
fn levels_of_sends(rt: HostRuntime) -> Result<(), Fail> {
    let cases: [(&[u8], u8, Level); 6] = [
        (b"send 0 1-1,1 1-1,2 0 -", 1, Level::L0),
        (b"send 1 1-1,1 1-1,2 0 -", 1, Level::L1),
        (b"send 2 1-1,1 1-1,2 0 -", 1, Level::L2),
        (b"send 3 1-1,1 1-1,2 0 -", 1, Level::L3),
        (b"send 2w 1-1,1 1-1,2 0 -", 2, Level::L2),
        (b"send 3w 1-1,1 1-1,2 0 -", 2, Level::L3),
    ];
    for (text, version, level) in cases {
        let wanted = [send(rt.alloc(), version, level)?];
        commands_are(&rt, rt.alloc(), text, &wanted)?;
    }
    Ok(())
}

#[test]
fn commands_of_a_script(rt: HostRuntime) -> Result<(), Fail> {
    let alloc = rt.alloc();
    let text = b"send 0 1-ff00:0:112,1 1-1,4294967295 3,5,4294967295 68656C6c6f\narrive 1-1,7 Ab\n\
        pass 0\ncarry 4294967295\nreveal 1-ff00:0:112\nreveal 1-1,7\nroll 1-1";
    let host = HostId {
        asn: FIRST,
        host: 7,
    };
    let segments = ArrayVec::try_from([3, 5, 4_294_967_295].as_slice())?;
    let hello = bytes(alloc, b"hello")?;
    let one = bytes(alloc, &[0xab])?;
    let wanted = [
        Command::Send {
            version: 1,
            level: Level::L0,
            src: HostId { asn: LEAF, host: 1 },
            dst: HostId {
                asn: FIRST,
                host: 4_294_967_295,
            },
            segments,
            payload: hello,
        },
        Command::Arrive { host, bytes: one },
        Command::Pass { emission: 0 },
        Command::Carry {
            emission: 4_294_967_295,
        },
        Command::Reveal {
            holder: Holder::As(LEAF),
        },
        Command::Reveal {
            holder: Holder::Host(host),
        },
        Command::Roll { a: FIRST },
    ];
    commands_are(&rt, alloc, text, &wanted)
}
