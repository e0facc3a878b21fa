//! The names of keys, and who may hold them.

use crate::{AsId, HostId};

/// The name of a key that is derived from an AS's master key.
#[derive(Clone, Copy, Debug, PartialEq, Eq)]
pub enum KeyName {
    /// The forwarding key of AS `a` of generation `g`.
    Fwd {
        a: AsId,
        g: u32,
    },
    /// The key that the routers of AS `a` share with the host `src` in an epoch.
    Field {
        a: AsId,
        src: HostId,
        epoch: u64,
    },
    /// The key that the host `dst` shares with the host `src` in an epoch.
    Dest {
        dst: HostId,
        src: HostId,
        epoch: u64,
    },
}

/// Who may hold a key.
#[derive(Clone, Copy, Debug, PartialEq, Eq)]
pub enum Holder {
    As(AsId),
    Host(HostId),
}
