//! How much a ledger holds.
/// How many events a ledger holds at most.
pub const MAX_EVENTS: usize = 0x7fff_ffff;

/// How many emissions it holds at most.
pub const MAX_EMISSIONS: usize = 0x7fff_ffff;

/// How many bytes its emissions have at most.
pub const MAX_BYTES: usize = 0x3fff_ffff;
