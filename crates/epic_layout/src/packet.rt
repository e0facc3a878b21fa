//! Packets as values.
use arrayvec::ArrayVec;
use epic_num::{Bytes, Field, HostId, Level};
use std::marker::Model;

/// A hop of a packet.
#[derive(Clone, Copy, Debug, Default, PartialEq, Eq)]
pub struct PacketHop {
    /// The hop is valid until its segment's timestamp plus `(exp + 1) * 337.5` seconds.
    pub exp: u8,
    /// The interface towards the hop before it in construction order.
    pub inn: u16,
    /// The interface towards the next hop in construction order.
    pub out: u16,
    /// The link tag of the hop before it in construction order.
    pub link: [u8; 8],
    pub field: Field,
}

/// A segment of a packet's path.
#[derive(Debug, Drop)]
pub struct PacketSegment {
    /// It is travelled against construction order.
    pub against: bool,
    /// Its timestamp, in seconds.
    pub ts_path: u32,
    /// Its hops in travel order.
    pub hops: ArrayVec<PacketHop, 16>,
}

/// The segments of a packet, in travel order.
#[derive(Debug, Drop)]
pub struct Segments {
    items: Vec<PacketSegment>,
}

impl Model for Segments {
    ghost use Rattle.std.specs.Prelude.{List};
    ghost use Rattle.epic_layout.specs.declared.packet.PacketSegment.{PacketSegment};

    ghost Value = { List PacketSegment };

    ghost view = { λ s. s.items.items };
}

impl Segments {
    ghost use Rattle.std.specs.Prelude.{◌≡◌};

    /// The segments of `items`. It takes no memory.
    pub fn from_vec(items: Vec<PacketSegment>) -> Segments
        ensures { result ≡ items.items }
    {
        Segments { items }
    }

    pub fn as_slice(&self) -> &[PacketSegment]
        ensures { result.now ≡ self.now }
    {
        self.items.as_slice()
    }
}

/// A packet, apart from its bytes.
#[derive(Debug, Drop)]
pub struct Packet {
    /// 1, or 2 at levels 2 and 3.
    pub version: u8,
    pub level: Level,
    /// The index of the current hop, and the number of hops at the end of the path.
    pub current: u8,
    pub src: HostId,
    pub dst: HostId,
    /// In microseconds.
    pub ts: u64,
    pub segments: Segments,
    /// Zeros at levels 0 and 1.
    pub dest_field: [u8; 16],
    pub payload: Bytes,
}
