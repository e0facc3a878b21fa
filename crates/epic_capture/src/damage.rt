//! What can be wrong with a capture, and where.
ghost use Rattle.std.specs.Prelude.{◌≡◌};
ghost use Rattle.epic_capture.specs.Capture.{damage};

/// What is wrong with a capture.
#[derive(Clone, Copy, Debug, PartialEq, Eq)]
pub enum CaptureKind {
    /// The file ends inside its header, or inside a record.
    Truncated,
    /// The file doesn't begin with one of the four magic numbers.
    Magic,
    /// The version isn't 2.4.
    VersionNumber,
    /// The link type isn't 147.
    LinkType,
    /// A record's fraction is a second or more.
    Fraction,
    /// A record has more than 16,384 captured bytes.
    RecordTooLong,
    /// A record's captured bytes don't begin with a pseudo-header.
    PseudoHeader,
    /// There are more than 262,144 records.
    TooMany,
    /// The file has more than 67,108,864 bytes.
    TooLong,
}

/// The first damage of a capture.
#[derive(Clone, Copy, Debug, PartialEq, Eq)]
pub struct CaptureError {
    pub kind: CaptureKind,
    /// The place of the damage, in bytes from the file's beginning.
    pub offset: u64,
}

/// Damage of a kind at a place.
pub(crate) fn damage(kind: CaptureKind, offset: u64) -> CaptureError
    ensures { result ≡ damage kind offset }
{
    CaptureError { kind, offset }
}
