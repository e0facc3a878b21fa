//! Captures with each damage, in each byte form, cut in pieces.
ghost use Rattle.std.specs.Prelude.{◌<◌};

use super::*;
use crate::CaptureKind::{
    Fraction, LinkType, Magic, PseudoHeader, RecordTooLong, Truncated, VersionNumber,
};
use epic_num::{AsId, HostId, Place};
use std::alloc::Global;
use std::test::Fail;

/// A packet of the bytes 7 and 8 at 1,700,000,000.999999 seconds, due at host 5 of 1-ff00:0:112.
const LITTLE: [u8; 58] = [
    0xd4, 0xc3, 0xb2, 0xa1, 2, 0, 4, 0, 0, 0, 0, 0, 0, 0, 0, 0, 0xff, 0xff, 0, 0, 147, 0, 0, 0,
    0x00, 0xf1, 0x53, 0x65, 0x3f, 0x42, 0x0f, 0x00, 18, 0, 0, 0, 18, 0, 0, 0, 0, 1, 0xff, 0, 0, 0,
    1, 0x12, 1, 0, 0, 0, 0, 0, 0, 5, 7, 8,
];

/// The same in big-endian and nanoseconds, of which 999 are over.
const BIG: [u8; 58] = [
    0xa1, 0xb2, 0x3c, 0x4d, 0, 2, 0, 4, 0, 0, 0, 0, 0, 0, 0, 0, 0, 0, 0xff, 0xff, 0, 0, 0, 147,
    0x65, 0x53, 0xf1, 0x00, 0x3b, 0x9a, 0xc9, 0xff, 0, 0, 0, 18, 0, 0, 0, 18, 0, 1, 0xff, 0, 0, 0,
    1, 0x12, 1, 0, 0, 0, 0, 0, 0, 5, 7, 8,
];

/// What was read of a capture: how many records, the last one's moment and length, and how it ended.
#[derive(Clone, Copy, Debug, PartialEq, Eq)]
struct Seen {
    records: u32,
    moment: u64,
    len: usize,
    end: Result<(), CaptureError>,
}

/// Takes each record that is there.
fn drain(reader: &mut Reader, seen: &mut Seen) -> Result<(), CaptureError> {
    for _ in 0..u64::MAX {
        match reader.next_record()? {
            Some(record) => {
                seen.records = seen.records.wrapping_add(1);
                seen.moment = record.moment;
                seen.len = record.bytes.len();
            }
            None => break,
        }
    }
    Ok(())
}

/// Reads a capture in pieces of `size` bytes.
fn read(alloc: Global, bytes: &[u8], size: usize) -> Result<Seen, Fail>
    requires { 0 < size }
{
    let mut reader = Reader::new(alloc)?;
    let mut seen = Seen {
        records: 0,
        moment: 0,
        len: 0,
        end: Ok(()),
    };
    for piece in bytes.chunks(size) {
        reader.feed(piece);
        if let Err(error) = drain(&mut reader, &mut seen) {
            seen.end = Err(error);
            return Ok(seen);
        }
    }
    seen.end = match reader.next_record() {
        Ok(Some(_)) => Ok(()),
        Ok(None) => reader.end(),
        Err(error) => Err(error),
    };
    Ok(seen)
}

#[test]
fn writes_the_form(rt: HostRuntime) {
    assert_eq!(rt; file_head().as_slice(), &LITTLE[..24]);
    let place = Place::Host(HostId {
        asn: AsId(0x0001_ff00_0000_0112),
        host: 5,
    });
    assert_eq!(rt;
        record_head(1_700_000_000_999_999, &place, 2).as_slice(),
        &LITTLE[24..56]
    );
}

#[test]
fn reads_each_form(rt: HostRuntime) -> Result<(), Fail> {
    let whole = Seen {
        records: 1,
        moment: 1_700_000_000_999_999,
        len: 2,
        end: Ok(()),
    };
    for size in [1, 7, 4096] {
        assert_eq!(rt; read(rt.alloc(), &LITTLE, size)?, whole);
        assert_eq!(rt; read(rt.alloc(), &BIG, size)?, whole);
    }
    Ok(())
}

#[test]
fn tells_each_damage(rt: HostRuntime) -> Result<(), Fail> {
    let table = [
        (0, 0, Magic, 0),
        (4, 3, VersionNumber, 4),
        (21, 1, LinkType, 20),
        (28, 0x40, Fraction, 28),
        (33, 0x41, RecordTooLong, 32),
        (32, 15, PseudoHeader, 32),
        (48, 2, PseudoHeader, 40),
        (51, 1, PseudoHeader, 40),
    ];
    for (at, value, kind, offset) in table {
        let mut bytes = LITTLE;
        assert!(rt; at < 58);
        bytes[at] = value;
        let seen = read(rt.alloc(), &bytes, 7)?;
        assert_eq!(rt; seen.end, Err(CaptureError { kind, offset }));
    }
    for (len, offset) in [(0, 0), (23, 0), (25, 24), (57, 24)] {
        assert!(rt; len <= 58);
        let seen = read(rt.alloc(), &LITTLE[..len], 1)?;
        assert_eq!(rt;
            seen.end,
            Err(CaptureError {
                kind: Truncated,
                offset
            })
        );
    }
    assert_eq!(rt; read(rt.alloc(), &LITTLE[..24], 24)?.end, Ok(()));
    Ok(())
}
