//! Tags of hops, compared.
ghost use Rattle.std.specs.Prelude.{◌≡◌, IsTrue};
ghost use Rattle.epic_topo.specs.Network.{has};
ghost use Rattle.epic_audit.specs.Verdicts as verdicts;
ghost use Rattle.epic_judging.specs.Given as given;

use epic_fields::{link, sigma};
use epic_num::{HopName, same_as, same_name};
use epic_topo::Topology;

/// Whether the hop `y` is of the AS of `x` and has its authenticator.
#[tactic(auto, unfolding(epic_audit::specs::Verdicts::is_twin, epic_num::specs::Same::same_as))]
pub fn is_twin(topo: &Topology, x: &HopName, y: &HopName) -> bool
    requires { IsTrue (has topo.now x.now.asn) }
    ensures { result ≡ verdicts.is_twin topo.now x.now y.now }
{
    same_as(y.asn, x.asn) && sigma(topo, y) == sigma(topo, x)
}

/// Whether two hops have one link tag.
#[tactic(auto, unfolding(epic_judging::specs::Given::one_link))]
pub fn one_link(topo: &Topology, x: &HopName, y: &HopName) -> bool
    requires left { IsTrue (has topo.now x.now.asn) }
    requires right { IsTrue (has topo.now y.now.asn) }
    ensures { result ≡ given.one_link topo.now x.now y.now }
{
    !same_name(x, y) && link(topo, x) == link(topo, y)
}

/// Whether two hops of one AS have one authenticator.
#[tactic(auto, unfolding(epic_judging::specs::Given::one_sigma, epic_num::specs::Same::same_as))]
pub fn one_sigma(topo: &Topology, x: &HopName, y: &HopName) -> bool
    requires { IsTrue (has topo.now x.now.asn) }
    ensures { result ≡ given.one_sigma topo.now x.now y.now }
{
    !same_name(x, y) && same_as(x.asn, y.asn) && sigma(topo, x) == sigma(topo, y)
}
