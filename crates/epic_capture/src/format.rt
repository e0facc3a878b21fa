//! The header of a capture's file, which says how its numbers are read.
ghost use Rattle.std.specs.Prelude.{◌≡◌, ◌≤◌, ◌<◌, ◌^◌, length};
ghost use Rattle.epic_capture.specs.Capture.{format_of, head, checked};
ghost use Rattle.epic_capture.specs.Moments.{microseconds, most_fraction};

use crate::CaptureError;
use crate::CaptureKind::{LinkType, Magic, Truncated, VersionNumber};
use crate::damage::damage;
use crate::numbers::{Order, u16_of, u32_of};

/// In which parts of a second a capture counts time.
#[derive(Clone, Copy, Debug, PartialEq, Eq)]
pub enum TimeUnit {
    Microseconds,
    Nanoseconds,
}

/// How the numbers of a capture are read.
#[derive(Clone, Copy, Debug, PartialEq, Eq)]
pub struct Format {
    pub order: Order,
    pub unit: TimeUnit,
}

/// The length of a file's header, in bytes.
pub(crate) const HEAD: usize = 24;

const MAGIC_MICROSECONDS: u32 = 0xa1b2_c3d4;

const MAGIC_NANOSECONDS: u32 = 0xa1b2_3c4d;

/// Packets begin with a pseudo-header: DLT_USER0.
const LINK_TYPE: u32 = 147;

impl TimeUnit {
    /// A fraction of a second in whole microseconds.
    pub(crate) fn microseconds(self, fraction: u32) -> u32
        ensures value { result ≡ microseconds self fraction }
        ensures most { result ≤ fraction }
        ensures below { fraction ≤ most_fraction self → result ≤ 999999 }
    {
        match self {
            TimeUnit::Microseconds => fraction,
            TimeUnit::Nanoseconds => fraction / 1000,
        }
    }

    /// The greatest fraction that is less than a second.
    pub(crate) fn most_fraction(self) -> u32
        ensures { result ≡ most_fraction self }
    {
        match self {
            TimeUnit::Microseconds => 999_999,
            TimeUnit::Nanoseconds => 999_999_999,
        }
    }
}

/// The format that a file's first four bytes tell.
#[tactic(auto, unfolding(crate::specs::Capture::format_of))]
fn format_of(bytes: &[u8]) -> Option<Format>
    requires { 4 ≤ length bytes.now }
    ensures { result ≡ format_of bytes.now }
{
    let little = u32_of(Order::Little, bytes);
    let big = u32_of(Order::Big, bytes);
    if little == MAGIC_MICROSECONDS {
        return Some(Format {
            order: Order::Little,
            unit: TimeUnit::Microseconds,
        });
    }
    if little == MAGIC_NANOSECONDS {
        return Some(Format {
            order: Order::Little,
            unit: TimeUnit::Nanoseconds,
        });
    }
    if big == MAGIC_MICROSECONDS {
        return Some(Format {
            order: Order::Big,
            unit: TimeUnit::Microseconds,
        });
    }
    if big == MAGIC_NANOSECONDS {
        return Some(Format {
            order: Order::Big,
            unit: TimeUnit::Nanoseconds,
        });
    }
    None
}

/// The format of a file with this header, whose version and link type have to be the known ones.
#[tactic(auto, unfolding(crate::specs::Capture::checked))]
fn checked(format: Format, bytes: &[u8]) -> Result<Format, CaptureError>
    requires { 24 ≤ length bytes.now }
    ensures { result ≡ checked format bytes.now }
{
    if u16_of(format.order, &bytes[4..]) != 2 || u16_of(format.order, &bytes[6..]) != 4 {
        return Err(damage(VersionNumber, 4));
    }
    if u32_of(format.order, &bytes[20..]) != LINK_TYPE {
        return Err(damage(LinkType, 20));
    }
    Ok(format)
}

/// What the header of a file says, or its first damage.
#[tactic(auto, unfolding(crate::specs::Capture::head))]
pub(crate) fn head(bytes: &[u8]) -> Result<Format, CaptureError>
    ensures { result ≡ head bytes.now }
{
    if bytes.len() < HEAD {
        return Err(damage(Truncated, 0));
    }
    match format_of(bytes) {
        Some(format) => checked(format, bytes),
        None => Err(damage(Magic, 0)),
    }
}
