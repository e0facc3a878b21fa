//! Why a hop is not issued, row by row.
ghost use Rattle.std.specs.Prelude.{◌≡◌, ◌<◌, None, length, IfNone};
ghost use Rattle.epic_beacon.specs.Chained.{AreChained};
ghost use Rattle.epic_num.specs.Tables.{first_row};
ghost use Rattle.epic_beacon.specs.Issuing.{goes_on, onward_rows, place_rows, twin};

use crate::hop::link_at;
use crate::{BeaconError, Beacons};
use epic_num::{HopName, SegKind, is_expired};
use epic_topo::{LinkKind, Topology};

/// Whether a chain of this kind goes on over the link.
#[tactic(auto, unfolding(crate::specs::Issuing::goes_on))]
fn goes_on(kind: SegKind, link: Option<LinkKind>) -> bool
    ensures { result ≡ goes_on kind link }
{
    match (kind, link) {
        (SegKind::Core, Some(LinkKind::Core)) => true,
        (SegKind::Child, Some(LinkKind::Parent)) => true,
        _ => false,
    }
}

impl Beacons {
    /// Why a hop has no place among the beacons, if it has none: it was issued before, or there are 65,536.
    #[tactic(auto, unfolding(crate::specs::Issuing::place_rows))]
    pub(crate) fn place_refusal(&self, x: &HopName, parent: u32) -> Option<BeaconError>
        ensures value { result ≡ first_row (place_rows self.now.beacons x.now parent) }
        ensures new { IfNone result (twin self.now.beacons x.now parent ≡ None) }
        ensures chains { IfNone result (AreChained self.now.beacons) }
        ensures room { IfNone result (length self.now.beacons < 65536) }
    {
        if let Some(no) = self.twin(x, parent) {
            return Some(BeaconError::Duplicate(no));
        }
        if self.len() == 65_536 {
            return Some(BeaconError::Full);
        }
        None
    }

    /// Why a hop doesn't go on from the issue `parent`, in a chain of this kind, if it doesn't.
    #[tactic(auto, unfolding(crate::specs::Issuing::onward_rows))]
    pub(crate) fn onward_refusal(
        &self,
        topo: &Topology,
        parent: u32,
        kind: SegKind,
        x: &HopName,
        now: u64,
    ) -> Option<BeaconError>
        ensures value { result ≡ first_row (onward_rows topo.now self.now.beacons parent kind x.now now) }
        ensures new { IfNone result (twin self.now.beacons x.now parent ≡ None) }
        ensures room { IfNone result (length self.now.beacons < 65536) }
    {
        let link = link_at(topo, x.asn, x.body.out);
        if x.body.out != 0 && link.is_none() {
            return Some(BeaconError::UnknownInterface);
        }
        if x.body.out != 0 && !goes_on(kind, link) {
            return Some(BeaconError::WrongKind);
        }
        if is_expired(x.body.ts_path, x.body.exp, now) {
            return Some(BeaconError::Expired);
        }
        self.place_refusal(x, parent)
    }
}
