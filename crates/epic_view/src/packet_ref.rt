//! A packet that is read where its bytes lie.
ghost use Rattle.std.specs.Prelude.{◌≡◌, ◌<◌, ◌↔◌, Ok, IsTrue, length, slice_index_or, bytes_eq};
ghost use Rattle.std.specs.Cmp.Lexicographic.{slice_cmp};
ghost use Rattle.std.specs.Ordering.{is_eq, nat_cmp};
ghost use Rattle.epic_num.specs.Levels.{width_of, is_first_byte};
ghost use Rattle.epic_num.specs.Tables.{unless};
ghost use Rattle.epic_layout.specs.Contents as contents;
ghost use Rattle.epic_layout.specs.Contents.{IsPacket, hop_count, as_field, field_bytes};
ghost use Rattle.epic_layout.specs.Route.{place, no_segment};
ghost use Rattle.epic_layout.specs.Spelling.{segment_bytes, hop_bytes, path_bytes};
ghost use Rattle.epic_layout.specs.Route as route;
ghost use Rattle.epic_layout.specs.Layout.{parse, fault, checked};
ghost use Rattle.epic_view.specs.View.{IsView};

use crate::frame::{Frame, frame_of};
use crate::{order, places, reading};
use epic_layout::wire::{
    CURRENT_AT, DEST_LEN, DST_AS_AT, DST_HOST_AT, HOP_LEN, SEGMENT_LEN, SRC_AS_AT, SRC_HOST_AT,
    TS_AT,
};
use epic_layout::{Shape, check, host_at, u64_at};
use epic_num::{Body, Field, HostId, LayoutError};
use std::cmp::Ordering;
use std::marker::Model;

/// A packet that is read where its bytes lie. Contracts see it as what the bytes say.
#[derive(Drop)]
pub struct PacketRef<'a> {
    bytes: &'a [u8],
    frame: Frame,
}

impl<'a> Model for PacketRef<'a> {
    ghost use Rattle.epic_layout.specs.Contents.{Contents};
    ghost use Rattle.epic_layout.specs.Layout.{parse};
    ghost use Rattle.epic_view.specs.View.{IsView};

    ghost Value = { Contents };

    ghost view = { λ p. parse p.bytes.now };

    ghost invariant = { λ p. IsView p.bytes.now p.frame };
}

#[tactic(auto, using(epic_layout::proofs::Parsed::parsed), unfolding(epic_layout::specs::Layout::parse))]
impl<'a> PacketRef<'a> {
    /// The packet of bytes without a fault, or their first fault.
    #[tactic(auto, using(epic_layout::proofs::Soundness::checked))]
    pub fn look(bytes: &'a [u8]) -> Result<PacketRef<'a>, LayoutError>
        ensures { result ≡ unless (fault is_first_byte bytes.now) (parse bytes.now) }
    {
        let shape = check(bytes)?;
        Ok(PacketRef::of(bytes, shape))
    }

    /// The packet of bytes that `check` found to have this shape, or that are known to have it, as `shape_of` tells. They
    /// are not checked again.
    #[tactic(auto, using(epic_layout::proofs::Soundness::checked))]
    pub fn of(bytes: &'a [u8], shape: Shape) -> PacketRef<'a>
        requires { Ok shape ≡ checked bytes.now }
        ensures { result ≡ parse bytes.now }
    {
        PacketRef {
            bytes,
            frame: frame_of(bytes, shape),
        }
    }

    /// The view of bytes whose frame is known.
    pub(crate) fn framed(bytes: &'a [u8], frame: Frame) -> PacketRef<'a>
        requires { IsView bytes.now frame }
        ensures { result ≡ parse bytes.now }
    {
        PacketRef { bytes, frame }
    }

    /// Version and level: 0xE0 to 0xE3, 0xF2 or 0xF3.
    pub fn first_byte(&self) -> u8
        ensures { result ≡ self.now.first }
    {
        self.bytes[0]
    }

    /// The packet's version, level and sizes. Every view is of a packet within the limits of the layout.
    pub fn shape(&self) -> Shape
        ensures packet { IsPacket self.now }
        ensures shape { result ≡ contents.shape self.now }
        ensures segments { result.segments ≡ length self.now.route.segments }
        ensures hops { result.hops ≡ hop_count self.now }
    {
        reading::are_bytes(self.bytes);
        self.frame.shape
    }

    /// The index of the current hop, from 0, and the number of hops at the end of the path.
    pub fn current(&self) -> u8
        ensures { result ≡ self.now.current }
    {
        self.bytes[CURRENT_AT]
    }

    pub fn src(&self) -> HostId
        ensures { result ≡ self.now.src }
    {
        host_at(self.bytes, SRC_AS_AT, SRC_HOST_AT)
    }

    pub fn dst(&self) -> HostId
        ensures { result ≡ self.now.dst }
    {
        host_at(self.bytes, DST_AS_AT, DST_HOST_AT)
    }

    /// The timestamp, in microseconds.
    pub fn ts(&self) -> u64
        ensures { result ≡ self.now.ts }
    {
        u64_at(self.bytes, TS_AT)
    }

    /// The hop as its AS authenticates it.
    pub fn body(&self, hop: u8) -> Body
        requires { hop < hop_count self.now }
        ensures { result ≡ route.body self.now.route hop }
    {
        reading::body(self.bytes, self.frame, hop)
    }

    /// The hop's field: 3 bytes in version 1, 6 in version 2.
    pub fn field(&self, hop: u8) -> Field
        requires { hop < hop_count self.now }
        ensures value { result ≡ as_field (contents.field self.now hop) }
        ensures width { result.width ≡ width_of self.now.first }
        ensures bytes { field_bytes result ≡ contents.field self.now hop }
    {
        reading::field(self.bytes, self.frame, hop)
    }

    /// The number of the hop's segment, from 0.
    pub fn segment_of(&self, hop: u8) -> u8
        requires { hop < hop_count self.now }
        ensures { result ≡ (place self.now.route.segments hop).segment }
    {
        places::place_at(self.bytes, self.frame, hop).segment
    }

    /// The hop is the first of its segment in travel order.
    pub fn is_first(&self, hop: u8) -> bool
        requires { hop < hop_count self.now }
        ensures { result ≡ route.is_first (place self.now.route.segments hop) }
    {
        places::is_first(places::place_at(self.bytes, self.frame, hop))
    }

    /// The hop is the last of its segment in travel order.
    pub fn is_last(&self, hop: u8) -> bool
        requires { hop < hop_count self.now }
        ensures { result ≡ route.is_last (place self.now.route.segments hop) }
    {
        places::is_last(places::place_at(self.bytes, self.frame, hop))
    }

    /// The interface by which the packet comes to the hop.
    pub fn ingress(&self, hop: u8) -> u16
        requires { hop < hop_count self.now }
        ensures { result ≡ route.ingress self.now.route hop }
    {
        reading::ingress(self.bytes, self.frame, hop)
    }

    /// The interface by which the packet leaves the hop.
    pub fn egress(&self, hop: u8) -> u16
        requires { hop < hop_count self.now }
        ensures { result ≡ route.egress self.now.route hop }
    {
        reading::egress(self.bytes, self.frame, hop)
    }

    /// The hop of the same segment that comes next in construction order.
    pub fn successor(&self, hop: u8) -> Option<u8>
        requires { hop < hop_count self.now }
        ensures { result ≡ route.successor (place self.now.route.segments hop) hop }
    {
        places::successor(places::place_at(self.bytes, self.frame, hop), hop)
    }

    /// The path bytes of the two packets are the same: segment headers, and hops without their fields.
    pub fn same_path(&self, other: &PacketRef<'_>) -> bool
        ensures { IsTrue result ↔ (path_bytes self.now.route ≡ path_bytes other.now.route) }
    {
        reading::same_path(self.bytes, self.frame, other.bytes, other.frame)
    }

    /// The order of the two packets' path bytes. It tells apart exactly those that `same_path` tells apart.
    pub fn path_order(&self, other: &PacketRef<'_>) -> Ordering
        ensures value { result ≡ slice_cmp nat_cmp (path_bytes self.now.route) (path_bytes other.now.route) }
        ensures ties { is_eq result ≡ bytes_eq (path_bytes self.now.route) (path_bytes other.now.route) }
    {
        order::path_order(self.bytes, self.frame, other.bytes, other.frame)
    }

    /// The bytes of a segment's header, from 0, which stand in the path bytes.
    pub fn segment_head(&self, segment: u8) -> [u8; SEGMENT_LEN]
        requires { segment < length self.now.route.segments }
        ensures { result ≡ segment_bytes (slice_index_or self.now.route.segments segment no_segment) }
    {
        reading::segment_head(self.bytes, self.frame, segment)
    }

    /// The bytes of a hop without its field, which stand in the path bytes.
    pub fn hop_head(&self, hop: u8) -> [u8; HOP_LEN]
        requires { hop < hop_count self.now }
        ensures { result ≡ hop_bytes (route.hop self.now.route hop) }
    {
        reading::hop_head(self.bytes, self.frame, hop)
    }

    /// The destination field, and zeros at levels 0 and 1.
    pub fn dest_field(&self) -> [u8; DEST_LEN]
        ensures { result ≡ self.now.dest_field }
    {
        reading::dest_field(self.bytes, self.frame)
    }

    pub fn payload(&self) -> &'a [u8]
        ensures { result.now ≡ self.now.payload }
    {
        &self.bytes[self.frame.shape.header as usize..]
    }
}
