//! The record at the front of some bytes, or the first damage there.
ghost use Rattle.std.specs.Prelude.{◌≡◌, ◌≤◌, ◌<◌, ◌+◌, length, drop, IfOk};
ghost use Rattle.epic_num.specs.declared.moment.TheConstants.{MAX_MOMENT};
ghost use Rattle.epic_capture.specs.Capture.{passes, found_at, of_place, record_of};
ghost use Rattle.epic_capture.specs.Moments.{most_fraction};
ghost use Rattle.epic_capture.specs.Numbers.{number};

use crate::CaptureError;
use crate::CaptureKind::{Fraction, PseudoHeader, RecordTooLong, TooLong, TooMany, Truncated};
use crate::damage::damage;
use crate::numbers::u32_of;
use crate::progress::Progress;
use crate::pseudo_header::place_of;
use epic_num::Place;

/// How many bytes a capture has at most.
pub const MOST_BYTES: u64 = 67_108_864;

/// How many captured bytes a record has at most.
pub const MOST_CAPTURED: u32 = 16_384;

/// A record at the front of some bytes.
#[derive(Clone, Copy, Debug, PartialEq, Eq)]
pub struct Found {
    /// Microseconds.
    pub moment: u64,
    pub place: Place,
    /// The bytes of its header and its captured bytes.
    pub len: usize,
}

/// Whether what ends at `end` makes a file that has bytes up to `file` too long.
pub fn passes(end: u64, file: u64) -> bool
    ensures { result ≡ passes end file }
{
    MOST_BYTES < end && MOST_BYTES < file
}

/// The record of `len` bytes at `offset`, whose pseudo-header names this place.
fn of_place(
    offset: u64,
    moment: u64,
    len: usize,
    place: Option<Place>,
) -> Result<Found, CaptureError>
    requires { offset ≤ 67108864 }
    ensures value { result ≡ of_place offset moment len place }
    ensures moment { IfOk result (λ found. found.moment ≡ moment) }
{
    match place {
        Some(place) => Ok(Found { moment, place, len }),
        None => Err(damage(PseudoHeader, offset + 16)),
    }
}

/// The record whose header and captured bytes stand at the front, at `offset` in the file.
#[tactic(auto, unfolding(crate::specs::Capture::record_of))]
fn record_of(progress: &Progress, bytes: &[u8]) -> Result<Found, CaptureError>
    requires header { 32 ≤ length bytes.now }
    requires few { progress.now.offset ≤ 67108864 }
    requires fraction { number progress.now.format.order 4 (drop 4 bytes.now) ≤ most_fraction progress.now.format.unit }
    ensures value { result ≡ record_of progress.now.format progress.now.offset bytes.now }
    ensures moment { IfOk result (λ found. found.moment ≤ MAX_MOMENT) }
{
    let order = progress.format.order;
    let seconds = u32_of(order, bytes);
    let fraction = u32_of(order, &bytes[4..]);
    let captured = u32_of(order, &bytes[8..]);
    let fraction = u64::from(progress.format.unit.microseconds(fraction));
    let moment = u64::from(seconds) * 1_000_000 + fraction;
    of_place(
        progress.offset,
        moment,
        16 + captured as usize,
        place_of(&bytes[16..]),
    )
}

/// The record at the front of the bytes behind `progress`, which reach to the file's end, or its first damage.
#[tactic(auto, unfolding(crate::specs::Capture::found_at, crate::specs::Capture::judged))]
pub(crate) fn found_at(progress: &Progress, bytes: &[u8]) -> Result<Found, CaptureError>
    requires { progress.now.offset ≤ 67108864 }
    ensures value { result ≡ found_at progress.now.format progress.now.left progress.now.offset bytes.now }
    ensures moment { IfOk result (λ found. found.moment ≤ MAX_MOMENT) }
{
    let begin = progress.offset;
    let file = begin + bytes.len() as u64;
    if bytes.is_empty() {
        return Err(damage(Truncated, begin));
    }
    if progress.left == 0 {
        return Err(damage(TooMany, begin));
    }
    if passes(begin + 16, file) {
        return Err(damage(TooLong, MOST_BYTES));
    }
    if bytes.len() < 16 {
        return Err(damage(Truncated, begin));
    }
    let captured = u32_of(progress.format.order, &bytes[8..]);
    if u32_of(progress.format.order, &bytes[4..]) > progress.format.unit.most_fraction() {
        return Err(damage(Fraction, begin + 4));
    }
    if captured > MOST_CAPTURED {
        return Err(damage(RecordTooLong, begin + 8));
    }
    if captured < 16 {
        return Err(damage(PseudoHeader, begin + 8));
    }
    if passes(begin + 16 + u64::from(captured), file) {
        return Err(damage(TooLong, MOST_BYTES));
    }
    if bytes.len() < 16 + captured as usize {
        return Err(damage(Truncated, begin));
    }
    record_of(progress, bytes)
}
