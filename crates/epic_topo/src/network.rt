//! ASes and links as a topology has them.

use crate::LinkKind;
use epic_num::AsId;

/// An AS of a topology.
#[derive(Clone, Copy, Debug, PartialEq, Eq)]
pub struct System {
    pub asn: AsId,
    pub is_core: bool,
    /// The AS's master key.
    pub master: [u8; 16],
}

/// One end of a link.
#[derive(Clone, Copy, Debug, PartialEq, Eq)]
pub struct End {
    pub asn: AsId,
    /// The interface of the AS at which the link ends.
    pub iface: u16,
}

/// A link between two ASes.
#[derive(Clone, Copy, Debug, PartialEq, Eq)]
pub struct Link {
    /// What the link is for the AS at `a`: that AS is the parent of a child link.
    pub kind: LinkKind,
    pub a: End,
    pub b: End,
}

impl Link {
    ghost use Rattle.std.specs.Prelude.{◌≡◌};
    ghost use Rattle.epic_topo.specs.Network.{other_end};

    // The other end of a link that ends at this interface of the AS, and what it is for this AS.
    #[tactic(auto, unfolding(epic_num::specs::Same::same_as))]
    pub(crate) fn other_end(&self, asn: AsId, iface: u16) -> (AsId, u16, LinkKind)
        ensures { result ≡ other_end asn iface self.now }
    {
        if self.a.asn.0 == asn.0 && self.a.iface == iface {
            (self.b.asn, self.b.iface, self.kind)
        } else {
            (self.a.asn, self.a.iface, self.kind.turned())
        }
    }
}
