//! Segments of hops, and their use in a direction.

ghost use Rattle.std.specs.Prelude.{◌≡◌};

use crate::{AsId, Body};
use arrayvec::ArrayVec;

/// What links a segment is made of.
#[derive(Clone, Copy, Debug, Default, PartialEq, Eq)]
pub enum SegKind {
    /// Core links, between core ASes.
    #[default]
    Core,
    /// Child links, from a core AS down.
    Child,
}

/// A hop of a segment, as a source gets it.
#[derive(Clone, Copy, Debug, Default, PartialEq, Eq)]
pub struct SegHop {
    /// The number of the issue that made the hop, from 1.
    pub issue: u32,
    pub asn: AsId,
    pub body: Body,
    /// The hop's authenticator.
    pub sigma: [u8; 16],
    /// The generation of the AS's forwarding key that made the authenticator.
    pub generation: u32,
}

/// A row of hops, each linked to the next, in construction order.
#[derive(Debug, Default, Drop, PartialEq, Eq)]
pub struct Segment {
    pub kind: SegKind,
    pub hops: ArrayVec<SegHop, 16>,
}

impl Segment {
    /// The same segment once more. It takes no memory.
    pub fn copied(&self) -> Segment
        ensures { result ≡ self.now }
    {
        let Ok(hops) = ArrayVec::try_from(self.hops.as_slice()) else {
            unreachable!()
        };
        Segment {
            kind: self.kind,
            hops,
        }
    }
}

/// A segment of a path, with the direction in which it is travelled.
#[derive(Debug, Default, Drop, PartialEq, Eq)]
pub struct Leg {
    pub segment: Segment,
    /// It is travelled against construction order.
    pub against: bool,
}
