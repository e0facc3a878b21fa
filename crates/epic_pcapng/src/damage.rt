//! What can be wrong with a capture in the form of pcapng, and where.
ghost use Rattle.std.specs.Prelude.{◌≡◌};
ghost use Rattle.epic_pcapng.specs.Damage.{damage, is_truncated};

/// What is wrong with a capture.
#[derive(Clone, Copy, Debug, PartialEq, Eq)]
pub enum NgKind {
    /// The file ends inside a block.
    Truncated,
    /// A section header's magic number stands in neither byte order.
    ByteOrder,
    /// A block's length is no multiple of 4, too small for its type or for its captured bytes, or differs at its end.
    BlockLength,
    /// A section header, an interface or a packet has more than 65,536 bytes.
    BlockTooLong,
    /// A section's first version number isn't 1.
    VersionNumber,
    /// An interface's link type isn't 147.
    LinkType,
    /// An interface's option runs past the options, or is a resolution of another length than 1.
    Bad,
    /// An interface's resolution is above 12 decimal digits or 63 binary ones.
    Resolution,
    /// A packet's interface isn't there.
    Interface,
    /// A packet's time is past the greatest moment.
    Moment,
    /// A packet has more than 16,384 captured bytes.
    RecordTooLong,
    /// A packet's captured bytes don't begin with a pseudo-header.
    PseudoHeader,
    /// There are more than 1,024 interfaces in a section, or more than 262,144 packets.
    TooMany,
    /// The file has more than 67,108,864 bytes.
    TooLong,
}

/// The first damage of a capture.
#[derive(Clone, Copy, Debug, PartialEq, Eq)]
pub struct NgError {
    pub kind: NgKind,
    /// The place of the damage, in bytes from the file's beginning.
    pub offset: u64,
}

impl NgError {
    /// The file ends too early, so that further bytes may mend it.
    pub(crate) fn is_early(&self) -> bool
        ensures { result ≡ is_truncated self.now.kind }
    {
        matches!(self.kind, NgKind::Truncated)
    }
}

/// Damage of a kind at a place.
pub(crate) fn damage(kind: NgKind, offset: u64) -> NgError
    ensures { result ≡ damage kind offset }
{
    NgError { kind, offset }
}
