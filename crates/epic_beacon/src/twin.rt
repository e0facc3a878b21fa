//! What twins share, and which beacon a hop would be a twin of.
ghost use Rattle.std.specs.Prelude.{◌≡◌};
ghost use Rattle.epic_beacon.specs.Issuing.{twin};
ghost use Rattle.epic_beacon.specs.Twins.{likeness};

use crate::Beacons;
use epic_num::HopName;

/// What twins share: the AS's number, the parent, egress, expiry, timestamp and generation.
pub(crate) type Likeness = (u64, u32, u16, u8, u32, u32);

/// What a hop with a parent shares with its twins.
pub(crate) fn likeness(x: &HopName, parent: u32) -> Likeness
    ensures { result ≡ likeness x.now parent }
{
    (
        x.asn.0,
        parent,
        x.body.out,
        x.body.exp,
        x.body.ts_path,
        x.generation,
    )
}

impl Beacons {
    /// The number of the first beacon that is a twin of the hop, with this parent.
    pub(crate) fn twin(&self, x: &HopName, parent: u32) -> Option<u32>
        ensures { result ≡ twin self.now.beacons x.now parent }
    {
        self.twins.get(&likeness(x, parent)).copied()
    }
}
