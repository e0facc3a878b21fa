//! What a policer answers.

/// The answer to an offer. The source's bytes are those of its packets that passed and whose span isn't over.
#[derive(Clone, Copy, Debug, PartialEq, Eq)]
pub enum Policed {
    /// The packet is within the budget, and counts from now on.
    Pass {
        /// How many bytes the source has used, with this packet.
        used: u64,
    },
    /// With this packet the source would be above the budget.
    Over {
        /// How many bytes the source has used, without this packet.
        used: u64,
    },
    /// The policer has no such source.
    Unknown,
}
