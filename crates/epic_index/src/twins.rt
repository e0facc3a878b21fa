//! Issues by AS and authenticator.
ghost use Rattle.std.specs.Prelude.{◌≡◌, ◌+◌, ◌≤◌, ◌%◌, ◌^◌, [], ◌∷◌, ◌++◌, map, IsTrue};
ghost use Rattle.epic_topo.specs.Network.{has};
ghost use Rattle.epic_ledger.specs.Facts.{issues_in};
ghost use Rattle.epic_index.specs.Tags.{first_alike};
ghost use Rattle.epic_index.specs.Twins.{twin_key, twin_keys, HasKnownAs};

use crate::key::Key;
use crate::table::Table;
use epic_fields::sigma;
use epic_ledger::Event;
use epic_num::HopName;
use epic_topo::Topology;

/// What an issue is sought by: its AS, and the authenticator of its hop.
#[derive(Clone, Copy, PartialEq, Eq, PartialOrd, Ord)]
pub struct TwinKey {
    pub asn: u64,
    pub sigma: [u8; 16],
}

impl Key for TwinKey {
    ghost tag = { λ k. k.asn % 2 ^ 32 };

    ghost tagged = { λ y z e. first_alike y.asn z.asn _ e };

    fn tag(&self) -> u32 {
        (self.asn % 0x1_0000_0000) as u32
    }
}

/// What an issue of a name is sought by.
#[tactic(auto, unfolding(crate::specs::Twins::twin_key))]
pub fn key_of(topo: &Topology, x: &HopName) -> TwinKey
    requires { IsTrue (has topo.now x.now.asn) }
    ensures { result ≡ twin_key topo.now x.now }
{
    TwinKey {
        asn: x.asn.0,
        sigma: sigma(topo, x),
    }
}

/// Adds the issue that the event is, if it is one.
#[tactic(auto, unfolding(epic_ledger::specs::Facts::as_issue))]
pub fn add_issue(twins: &mut Table<TwinKey>, topo: &Topology, event: &Event)
    requires room { 1 ≤ twins.old.spare }
    requires known { HasKnownAs topo.now event.now }
    ensures { twins.new.keys ≡ twins.old.keys ++ twin_keys topo.now (issues_in (event.now ∷ [])) }
{
    if let Event::Issue { name, .. } = event {
        twins.push(key_of(topo, name));
    }
}
