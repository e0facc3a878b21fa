//! Hops that a router accepts.

use epic_num::Field;

/// A hop whose tags are right.
#[derive(Clone, Copy, Drop)]
pub struct Accepted {
    /// The generation of the forwarding key under which they are.
    pub generation: u32,
    /// At level 3 the update that takes the place of the hop's field; its width is the field's.
    pub update: Field,
}

/// The hops that a router handles in one turn, from the current one on.
#[derive(Clone, Copy, Drop)]
pub struct Handled {
    pub first: Accepted,
    /// The first hop of the next segment, where the current one is the last of its segment and not of the packet.
    pub second: Option<Accepted>,
}
