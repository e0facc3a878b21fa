//! The header of a segment, a hop without its field, and the place of a hop.

/// The header of a segment.
#[derive(Clone, Copy, Debug, PartialEq, Eq)]
pub struct SegmentHead {
    /// The segment is travelled against construction order.
    pub against: bool,
    /// The number of its hops.
    pub count: u8,
    /// Its timestamp, in seconds.
    pub ts_path: u32,
}

/// A hop without its field.
#[derive(Clone, Copy, Debug, PartialEq, Eq)]
pub struct HopHead {
    pub exp: u8,
    pub inn: u16,
    pub out: u16,
    pub link: [u8; 8],
}

/// Where a hop of the packet stands.
#[derive(Clone, Copy, Debug, PartialEq, Eq)]
pub struct HopPlace {
    /// The number of its segment, from 0 in travel order.
    pub segment: u8,
    /// The header of its segment.
    pub head: SegmentHead,
    /// Its index in the segment, from 0 in travel order.
    pub index: u8,
}
