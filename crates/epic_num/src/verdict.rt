//! What the ledger tells of an acceptance.

use crate::{HopName, KeyName};

/// Which tag two hops have in common.
#[derive(Clone, Copy, Debug, PartialEq, Eq)]
pub enum Part {
    /// The 8 bytes of the link tag.
    Link,
    /// The 16 bytes of the authenticator.
    Sigma,
}

/// What a forged tag stands for.
#[derive(Clone, Copy, Debug, PartialEq, Eq)]
pub enum ForgedKind {
    /// A hop that its AS never issued.
    Issue,
    /// A hop's field that the source never made.
    Field,
    /// A hop's update that its router never gave out.
    Update,
    /// A destination field that the source never made.
    Dest,
}

/// A valid tag that no holder of its key made.
#[derive(Clone, Copy, Debug, PartialEq, Eq)]
pub struct Forgery {
    pub kind: ForgedKind,
    /// The hop's index in travel order, from 0; 0 for the kind `Dest`.
    pub hop: u8,
    /// The name of the tag's key.
    pub key: KeyName,
    /// The generation of the hop's forwarding key; 0 for the kind `Dest`.
    pub generation: u32,
}

/// Two hops with one tag.
#[derive(Clone, Copy, Debug, PartialEq, Eq)]
pub struct Collision {
    pub part: Part,
    /// The packet's hop, or a hop that was passed.
    pub left: HopName,
    /// The hop that was issued or sent.
    pub right: HopName,
}

/// What the ledger says of an acceptance.
#[derive(Clone, Copy, Debug, Default, PartialEq, Eq)]
pub enum Verdict {
    /// Its provenance stands in the ledger.
    Proved {
        /// The number of the hop's issue, from 1; 0 for a destination.
        issue: u32,
        /// The emission of the send, from 1; 0 for a hop of level 0 or 1.
        send: u32,
    },
    /// A destination at level 0 or 1, where nothing is claimed.
    #[default]
    Unclaimed,
    /// A holder of its key was revealed.
    Opened {
        /// The reveal's step.
        step: u32,
    },
    Forged(Forgery),
    Collided(Collision),
}
