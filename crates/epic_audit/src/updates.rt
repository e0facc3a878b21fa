//! The updates that a packet has.
ghost use Rattle.std.specs.Prelude.{◌≡◌, ◌<◌, IsTrue};
ghost use Rattle.epic_num.specs.Levels.{is_tagged};
ghost use Rattle.epic_layout.specs.Contents.{hop_count};
ghost use Rattle.epic_topo.specs.Network.{has};
ghost use Rattle.epic_audit.specs.Verdicts as verdicts;

use crate::uncovered::Uncovered;
use epic_fields::{carries_field, update_of};
use epic_topo::Topology;
use epic_view::PacketRef;

/// Whether the packet has the update of the hop.
pub fn has_update(topo: &Topology, packet: &PacketRef<'_>, hop: &Uncovered) -> bool
    requires known { IsTrue (has topo.now hop.now.name.asn) }
    requires tagged { IsTrue (is_tagged packet.now.first) }
    requires within { hop.now.hop < hop_count packet.now }
    ensures { result ≡ verdicts.has_update topo.now packet.now hop.now }
{
    let update = update_of(topo, &hop.name, packet, hop.hop);
    carries_field(&update, packet, hop.hop)
}
