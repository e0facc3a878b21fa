//! Hops as their ASes authenticate them, their names and their fields.

use crate::AsId;

/// What a packet's fields say of who made it, and to whom.
#[derive(Clone, Copy, Debug, PartialEq, Eq)]
pub enum Level {
    /// Each hop carries the first bytes of its static authenticator.
    L0,
    /// Each hop's field is made for the packet, by whoever holds the hop's authenticator.
    L1,
    /// Each hop's field is made under a key that its router shares with the source.
    L2,
    /// As level 2, and each router puts its update in the place of its field.
    L3,
}

/// A hop as its AS authenticates it.
#[derive(Clone, Copy, Debug, Default, PartialEq, Eq)]
pub struct Body {
    /// The hop's place in its segment in construction order, from 1.
    pub pos: u8,
    /// The hop is valid until the segment's timestamp plus `(exp + 1) * 337.5` seconds.
    pub exp: u8,
    /// The segment's timestamp, in seconds.
    pub ts_path: u32,
    /// The interface towards the hop before it in construction order; 0 at the first.
    pub inn: u16,
    /// The interface towards the next hop in construction order; 0 at the last.
    pub out: u16,
    /// The link tag of the hop before it in construction order; zero at the first.
    pub link: [u8; 8],
}

/// A hop with the AS that authenticates it and the generation of that AS's forwarding key.
#[derive(Clone, Copy, Debug, Default, PartialEq, Eq)]
pub struct HopName {
    pub asn: AsId,
    pub generation: u32,
    pub body: Body,
}

/// A hop's field in a packet: its first `width` bytes count, and the others are 0.
#[derive(Clone, Copy, Debug, Default, PartialEq, Eq)]
pub struct Field {
    pub bytes: [u8; 6],
    /// 3 bytes in packet version 1, 6 bytes in version 2.
    pub width: u8,
}
