//! Captures in both byte orders, with each damage, cut in pieces.
ghost use Rattle.std.specs.Prelude.{◌<◌};

use super::*;
use crate::NgKind::{
    Bad, BlockLength, BlockTooLong, ByteOrder, Interface, LinkType, Moment, PseudoHeader,
    RecordTooLong, Resolution, TooLong, TooMany, Truncated, VersionNumber,
};
use std::alloc::Global;
use std::test::Fail;

/// A section, an interface in nanoseconds (at 28), a skipped block (at 60), a packet at
/// 1,700,000,000.999999999 seconds (at 76) and a simple one (at 128), each of the bytes 7 and 8.
const LITTLE: [u8; 164] = [
    10, 13, 13, 10, 28, 0, 0, 0, 77, 60, 43, 26, 1, 0, 0, 0, 0xff, 0xff, 0xff, 0xff, 0xff, 0xff,
    0xff, 0xff, 28, 0, 0, 0, 1, 0, 0, 0, 32, 0, 0, 0, 0x93, 0, 0, 0, 0, 0, 0, 0, 9, 0, 1, 0, 9, 0,
    0, 0, 0, 0, 0, 0, 32, 0, 0, 0, 5, 0, 0, 0, 16, 0, 0, 0, 0, 0, 0, 0, 16, 0, 0, 0, 6, 0, 0, 0,
    52, 0, 0, 0, 0, 0, 0, 0, 0xfe, 0x9c, 0x97, 23, 0xff, 0xc9, 0xc4, 0x71, 18, 0, 0, 0, 18, 0, 0,
    0, 0, 1, 0xff, 0, 0, 0, 1, 18, 1, 0, 0, 0, 0, 0, 0, 5, 7, 8, 0, 0, 52, 0, 0, 0, 3, 0, 0, 0, 36,
    0, 0, 0, 18, 0, 0, 0, 0, 1, 0xff, 0, 0, 0, 1, 18, 1, 0, 0, 0, 0, 0, 0, 5, 7, 8, 0, 0, 36, 0, 0,
    0,
];

/// The same in big-endian.
const BIG: [u8; 164] = [
    10, 13, 13, 10, 0, 0, 0, 28, 26, 43, 60, 77, 0, 1, 0, 0, 0xff, 0xff, 0xff, 0xff, 0xff, 0xff,
    0xff, 0xff, 0, 0, 0, 28, 0, 0, 0, 1, 0, 0, 0, 32, 0, 0x93, 0, 0, 0, 0, 0, 0, 0, 9, 0, 1, 9, 0,
    0, 0, 0, 0, 0, 0, 0, 0, 0, 32, 0, 0, 0, 5, 0, 0, 0, 16, 0, 0, 0, 0, 0, 0, 0, 16, 0, 0, 0, 6, 0,
    0, 0, 52, 0, 0, 0, 0, 23, 0x97, 0x9c, 0xfe, 0x71, 0xc4, 0xc9, 0xff, 0, 0, 0, 18, 0, 0, 0, 18,
    0, 1, 0xff, 0, 0, 0, 1, 18, 1, 0, 0, 0, 0, 0, 0, 5, 7, 8, 0, 0, 0, 0, 0, 52, 0, 0, 0, 3, 0, 0,
    0, 36, 0, 0, 0, 18, 0, 1, 0xff, 0, 0, 0, 1, 18, 1, 0, 0, 0, 0, 0, 0, 5, 7, 8, 0, 0, 0, 0, 0,
    36,
];

/// What was read of a capture: how many records, the latest moment, the last one's length, and how it ended.
#[derive(Clone, Copy, Debug, PartialEq, Eq)]
struct Seen {
    records: u32,
    moment: u64,
    len: usize,
    end: Result<(), NgError>,
}

/// Nothing was read.
const NONE: Seen = Seen {
    records: 0,
    moment: 0,
    len: 0,
    end: Ok(()),
};

/// Takes each record that is there.
fn drain(reader: &mut NgReader, seen: &mut Seen) -> Result<(), NgError> {
    for _ in 0..u64::MAX {
        match reader.next_record()? {
            Some(record) => {
                seen.records = seen.records.wrapping_add(1);
                seen.moment = record.moment.max(seen.moment);
                seen.len = record.bytes.len();
            }
            None => break,
        }
    }
    Ok(())
}

/// Reads a capture in pieces of `size` bytes.
fn read(alloc: Global, bytes: &[u8], size: usize) -> Result<Seen, Fail>
    requires { 0 < size }
{
    let mut reader = NgReader::new(alloc)?;
    let mut seen = NONE;
    for piece in bytes.chunks(size) {
        reader.feed(piece);
        if let Err(error) = drain(&mut reader, &mut seen) {
            seen.end = Err(error);
            return Ok(seen);
        }
    }
    seen.end = match reader.next_record() {
        Ok(Some(_)) => Ok(()),
        Ok(None) => reader.end(),
        Err(error) => Err(error),
    };
    Ok(seen)
}

#[test]
fn reads_each_order(rt: HostRuntime) -> Result<(), Fail> {
    let whole = Seen {
        records: 2,
        moment: 1_700_000_000_999_999,
        len: 2,
        end: Ok(()),
    };
    for size in [1, 7, 4096] {
        assert_eq!(rt; read(rt.alloc(), &LITTLE, size)?, whole);
        assert_eq!(rt; read(rt.alloc(), &BIG, size)?, whole);
    }
    Ok(())
}

#[test]
fn tells_each_damage(rt: HostRuntime) -> Result<(), Fail> {
    let table = [
        (8, 0, ByteOrder, 8),
        (4, 30, BlockLength, 4),
        (4, 24, BlockLength, 4),
        (24, 29, BlockLength, 24),
        (12, 2, VersionNumber, 12),
        (32, 16, BlockLength, 32),
        (34, 2, BlockTooLong, 32),
        (36, 1, LinkType, 36),
        (46, 2, Bad, 44),
        (46, 9, Bad, 44),
        (48, 13, Resolution, 48),
        (48, 192, Resolution, 48),
        (56, 33, BlockLength, 56),
        (72, 17, BlockLength, 72),
        (84, 1, Interface, 84),
        (91, 0xff, Moment, 88),
        (97, 0x41, RecordTooLong, 96),
        (96, 21, BlockLength, 80),
        (96, 15, PseudoHeader, 96),
        (112, 2, PseudoHeader, 104),
        (138, 1, RecordTooLong, 136),
        (136, 15, PseudoHeader, 136),
        (148, 2, PseudoHeader, 140),
    ];
    for (at, value, kind, offset) in table {
        let mut bytes = LITTLE;
        assert!(rt; at < 164);
        bytes[at] = value;
        for size in [1, 7, 4096] {
            let seen = read(rt.alloc(), &bytes, size)?;
            assert_eq!(rt; seen.end, Err(NgError { kind, offset }));
        }
    }
    Ok(())
}

#[test]
fn ends_where_a_block_ends(rt: HostRuntime) -> Result<(), Fail> {
    let table = [(11, 0), (27, 0), (35, 28), (61, 60), (75, 60), (163, 128)];
    for (len, offset) in table {
        assert!(rt; len <= 164);
        let seen = read(rt.alloc(), &LITTLE[..len], 1)?;
        assert_eq!(rt;
            seen.end,
            Err(NgError {
                kind: Truncated,
                offset
            })
        );
    }
    for len in [0, 28, 60, 76, 128] {
        assert!(rt; len <= 164);
        assert_eq!(rt; read(rt.alloc(), &LITTLE[..len], 164)?.end, Ok(()));
    }
    Ok(())
}

#[test]
fn tells_the_limits(rt: HostRuntime) -> Result<(), Fail> {
    let mut reader = NgReader::new(rt.alloc())?;
    let mut seen = NONE;
    reader.feed(&LITTLE[..28]);
    for _ in 0..1024 {
        reader.feed(&LITTLE[28..60]);
        assert_eq!(rt; drain(&mut reader, &mut seen), Ok(()));
    }
    reader.feed(&LITTLE[28..60]);
    assert_eq!(rt;
        drain(&mut reader, &mut seen),
        Err(NgError {
            kind: TooMany,
            offset: 32796
        })
    );
    let mut long = NgReader::new(rt.alloc())?;
    long.feed(&[5, 0, 0, 0, 0xfc, 0xff, 0xff, 0xff]);
    for _ in 0..16_383 {
        long.feed(&[0; 4096]);
        assert_eq!(rt; drain(&mut long, &mut seen), Ok(()));
    }
    long.feed(&[0; 4096]);
    assert_eq!(rt;
        drain(&mut long, &mut seen),
        Err(NgError {
            kind: TooLong,
            offset: 67_108_864
        })
    );
    Ok(())
}
