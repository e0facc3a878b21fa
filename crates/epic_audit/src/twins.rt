//! Hops of one AS with one authenticator.
ghost use Rattle.std.specs.Prelude.{◌≡◌, IsTrue};
ghost use Rattle.epic_topo.specs.Network.{has};
ghost use Rattle.epic_fields.specs.Tags as tags;
ghost use Rattle.epic_audit.specs.Verdicts as verdicts;

use epic_fields::sigma;
use epic_num::{HopName, same_as};
use epic_topo::Topology;

/// Whether the hop `y` is of the AS of `x` and has its authenticator.
#[tactic(auto, unfolding(crate::specs::Verdicts::is_twin, epic_num::specs::Same::same_as))]
pub fn is_twin(topo: &Topology, x: &HopName, own: &[u8; 16], y: &HopName) -> bool
    requires known { IsTrue (has topo.now x.now.asn) }
    requires own { own.now ≡ tags.sigma topo.now x.now }
    ensures { result ≡ verdicts.is_twin topo.now x.now y.now }
{
    same_as(y.asn, x.asn) && sigma(topo, y) == *own
}
