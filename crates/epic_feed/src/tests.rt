//! Captures in both forms, whole, damaged, cut, and of a store that fails.

use crate::{Damage, FeedError, Taker, feed};
use epic_capture::{CaptureError, CaptureKind, Record, file_head, record_head};
use epic_num::{AsId, Place};
use epic_pcapng::{NgError, NgKind};
use epic_ports::{MemStore, PortError, Store};
use std::alloc::{AllocError, Global};
use std::process::Abort;
use std::test::Fail;

/// A section, an interface in nanoseconds and a packet of the bytes 7 and 8 at 1,700,000,000.999999999 seconds.
const NG: [u8; 112] = [
    10, 13, 13, 10, 28, 0, 0, 0, 77, 60, 43, 26, 1, 0, 0, 0, 0xff, 0xff, 0xff, 0xff, 0xff, 0xff,
    0xff, 0xff, 28, 0, 0, 0, 1, 0, 0, 0, 32, 0, 0, 0, 0x93, 0, 0, 0, 0, 0, 0, 0, 9, 0, 1, 0, 9, 0,
    0, 0, 0, 0, 0, 0, 32, 0, 0, 0, 6, 0, 0, 0, 52, 0, 0, 0, 0, 0, 0, 0, 0xfe, 0x9c, 0x97, 23, 0xff,
    0xc9, 0xc4, 0x71, 18, 0, 0, 0, 18, 0, 0, 0, 0, 1, 0xff, 0, 0, 0, 1, 18, 1, 0, 0, 0, 0, 0, 0, 5,
    7, 8, 0, 0, 52, 0, 0, 0,
];

/// What was taken: how many records, and the last one's moment and length.
#[derive(Clone, Copy, Debug, Default, PartialEq, Eq)]
struct Seen {
    records: u32,
    moment: u64,
    len: usize,
}

impl<S: Store> Taker<S, ()> for Seen {
    ghost use Rattle.std.specs.Prelude.{⊤};

    ghost took = { λ x s o xs y t p. ⊤ };

    ghost stopped = { λ x s o xs c e y t p. ⊤ };

    ghost spares = { λ x name. ⊤ };

    ghost room = { λ x. 262144 };

    fn take(&mut self, _store: &mut S, _out: &mut (), found: &Record<'_>) -> Result<(), PortError> {
        self.records = self.records.wrapping_add(1);
        self.moment = found.moment;
        self.len = found.bytes.len();
        Ok(())
    }
}

/// A capture of so many records of 100 bytes.
fn classic(alloc: Global, records: u16) -> Result<Vec<u8>, AllocError> {
    let mut bytes = Vec::from_slice(alloc, &file_head())?;
    let place = Place::Router {
        asn: AsId(0x0001_ff00_0000_0112),
        iface: 0,
    };
    for moment in 0..records {
        bytes.extend_from_slice(&record_head(u64::from(moment), &place, 100))?;
        bytes.extend_from_slice(&[7; 100])?;
    }
    Ok(bytes)
}

/// What is taken of a file of these bytes, where the store's call `fail` fails.
fn fed(
    rt: &impl Abort,
    alloc: Global,
    bytes: &[u8],
    fail: u64,
) -> Result<(Seen, Result<(), FeedError>), AllocError> {
    let mut files = Vec::new(alloc);
    files.push((
        String::from_str(alloc, "c")?,
        Vec::from_slice(alloc, bytes)?,
    ))?;
    assert!(rt; MemStore::names_differ(files.as_slice()));
    let mut store = MemStore::new(files, Vec::from_slice(alloc, &[fail])?);
    let mut seen = Seen::default();
    let end = feed(alloc, "c", &mut seen, &mut store, &mut ());
    Ok((seen, end))
}

/// The first damage in the classic form.
fn cut(offset: u64) -> Result<(), FeedError> {
    Err(FeedError::Damaged(Damage::Classic(CaptureError {
        kind: CaptureKind::Truncated,
        offset,
    })))
}

#[test]
fn feeds_the_classic_form_in_pieces(rt: HostRuntime) -> Result<(), Fail> {
    let alloc = rt.alloc();
    // Of 132 bytes a record 100 are 13,224 bytes: four pieces, the last read finds the end.
    let bytes = classic(alloc, 100)?;
    for (len, fail, records, end) in [
        (13_224, 0, 100, Ok(())),
        (13_223, 0, 99, cut(13_092)),
        (24, 0, 0, Ok(())),
        (3, 0, 0, cut(0)),
        (0, 0, 0, cut(0)),
        (13_224, 1, 0, Err(FeedError::Failed)),
        (13_224, 3, 61, Err(FeedError::Failed)),
        (13_224, 5, 100, Err(FeedError::Failed)),
    ] {
        assert!(rt; len <= bytes.len());
        let (seen, told) = fed(&rt, alloc, &bytes[..len], fail)?;
        assert_eq!(rt; seen.records, records, "{len} {fail}");
        assert_eq!(rt; told, end, "{len} {fail}");
    }
    Ok(())
}

#[test]
fn feeds_pcapng(rt: HostRuntime) -> Result<(), Fail> {
    let alloc = rt.alloc();
    let one = Seen {
        records: 1,
        moment: 1_700_000_000_999_999,
        len: 2,
    };
    assert_eq!(rt; fed(&rt, alloc, &NG, 0)?, (one, Ok(())));
    let damage = Damage::Ng(NgError {
        kind: NgKind::Truncated,
        offset: 60,
    });
    let cut = fed(&rt, alloc, &NG[..111], 0)?;
    assert_eq!(rt; cut, (Seen::default(), Err(FeedError::Damaged(damage))));
    assert_eq!(rt; damage.word(), "truncated");
    Ok(())
}
