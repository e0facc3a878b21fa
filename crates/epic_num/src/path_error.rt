//! Why segments make no path.

/// Why segments make no path.
#[derive(Clone, Copy, Debug, PartialEq, Eq)]
pub enum PathError {
    /// There are no segments.
    Empty,
    /// There are more than 3 segments, or more than 32 hops.
    TooLong,
    /// The segment with this index, from 0, has the present AS at neither end.
    Unjoined { leg: u8 },
    /// The kinds and directions of the legs make no lawful path.
    WrongKind,
}
