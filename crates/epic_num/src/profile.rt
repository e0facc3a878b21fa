//! The settings of a topology.

/// The settings that all routers and hosts of a topology share.
#[derive(Clone, Copy, Debug, PartialEq, Eq)]
pub struct Profile {
    /// How long a packet stays fresh after its timestamp, in microseconds.
    pub lifetime_us: u64,
    /// How far a timestamp may lie ahead of the present moment, in microseconds.
    pub skew_us: u64,
    /// The length of a key epoch, in microseconds.
    pub epoch_us: u64,
    /// How many live entries of one source AS a replay window holds.
    pub window: u32,
}
