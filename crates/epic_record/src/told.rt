//! What a line of a verdict file tells.

use epic_num::{Bytes, HopName, KeyName, Part};

/// What a forged tag is told to stand for.
#[derive(Debug, Drop)]
pub enum ToldForgery {
    /// `issue KEY MESSAGE TAG`: a hop at level 0 that its AS never issued.
    Issue,
    /// `issue-over KEY MESSAGE KEY MESSAGE TAG`: the same at the other levels, where the field is made over the
    /// authenticator.
    Over {
        /// The field's key; none where the word is `sigma`, as the authenticator itself is the key.
        key: Option<KeyName>,
        /// What the field is made over.
        message: Bytes,
    },
    /// `field KEY MESSAGE TAG`: a hop's field that the source never made.
    Field,
    /// `update HOP KEY MESSAGE TAG`: a hop's update that its router never gave out.
    Update {
        /// The hop's index, from 0 in travel order.
        hop: u8,
    },
    /// `dest KEY MESSAGE TAG`: a destination field that the source never made.
    Dest,
}

/// What a line of a verdict file tells of an acceptance.
#[derive(Debug, Drop)]
pub enum Told {
    /// `proved FIRST` or `proved FIRST SECOND`.
    Proved {
        first: u32,
        second: Option<u32>,
    },
    /// `unclaimed`.
    Unclaimed,
    /// `opened STEP`.
    Opened {
        step: u32,
    },
    /// `forged ..`.
    Forged {
        what: ToldForgery,
        /// The name of the tag's key, and of the authenticator's where the tag is made over one.
        key: KeyName,
        /// What the tag is made over, or the authenticator.
        message: Bytes,
        /// The tag, as it stands in the packet.
        tag: Bytes,
    },
    /// `collided link AS GENERATION BODY AS GENERATION BODY TAG`, or `collided sigma` and the same.
    Collided {
        part: Part,
        left: HopName,
        right: HopName,
        /// The tag that both hops have.
        tag: Bytes,
    },
}
