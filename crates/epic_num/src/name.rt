//! ASes and hosts by their numbers.

/// An autonomous system: its isolation domain in the upper 16 bits, its number in the lower 48.
#[derive(Clone, Copy, Debug, Default, PartialEq, Eq, PartialOrd, Ord, Hash)]
pub struct AsId(pub u64);

/// A host: its AS, and its number there.
#[derive(Clone, Copy, Debug, Default, PartialEq, Eq, PartialOrd, Ord, Hash)]
pub struct HostId {
    pub asn: AsId,
    pub host: u32,
}
